//! A frame, as text.

ghost use Rattle.std.specs.Prelude.{◌≡◌, ◌++◌, OnOk};
ghost use Rattle.std.specs.List.{flat_map};
ghost use Rattle.witness_report.specs.frame_report.Text.{step_text, path_text, spot_line, frame_text};

use crate::frame_report::frame::{Frame, Spot};
use sec_base::{NoMemory, digit_of, put, put_number};
use std::alloc::Global;

/// Puts the path of an event node: `/` for the root.
fn put_path(alloc: Global, text: &mut Vec<u8>, path: &[u32]) -> Result<(), NoMemory>
    ensures { OnOk result (text.new.items ≡ text.old.items ++ path_text path.now) }
{
    if path.is_empty() {
        return put(text, b"/");
    }
    for class in path {
        put(text, b"/")?;
        put_number(alloc, text, u64::from(*class))?;
    }
    Ok(())
}

fn put_spot(alloc: Global, text: &mut Vec<u8>, spot: &Spot) -> Result<(), NoMemory>
    ensures { OnOk result (text.new.items ≡ text.old.items ++ spot_line spot.now) }
{
    put(text, b"at ")?;
    put_path(alloc, text, spot.path.as_slice())?;
    put(text, b" ")?;
    put(text, spot.input.as_slice())?;
    put(text, &[b' ', digit_of(spot.bit), b'\n'])
}

/// Puts a line for each spot of the frame behind the text: its path, its input and its bit. After `NoMemory` a front of this may stand
/// there.
#[tactic(auto, unfolding(crate::specs::frame_report::Text::frame_text))]
pub fn put_frame(alloc: Global, text: &mut Vec<u8>, frame: &Frame) -> Result<(), NoMemory>
    ensures { OnOk result (text.new.items ≡ text.old.items ++ frame_text frame.now) }
{
    for spot in frame.spots.as_slice() {
        put_spot(alloc, text, spot)?;
    }
    Ok(())
}
