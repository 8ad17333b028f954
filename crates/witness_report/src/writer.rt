//! Stimuli as texts.

ghost use Rattle.std.specs.Prelude.{◌≡◌, ◌++◌, OnOk, IfOk};
ghost use Rattle.std.specs.List.{flat_map};
ghost use Rattle.witness_report.specs.Text.{row_line, stimulus_text};

use crate::stimulus::Stimulus;
use sec_base::{Bits, NoMemory, Seq, Text, put, put_digits, put_names};
use std::alloc::Global;

fn put_row(text: &mut Vec<u8>, row: &[bool]) -> Result<(), NoMemory>
    ensures { OnOk result (text.new.items ≡ text.old.items ++ row_line row.now) }
{
    if row.is_empty() {
        return put(text, b"-\n");
    }
    put_digits(text, row)?;
    put(text, b"\n")
}

fn put_rows(text: &mut Vec<u8>, rows: &[Bits]) -> Result<(), NoMemory>
    ensures { OnOk result (text.new.items ≡ text.old.items ++ flat_map row_line rows.now) }
{
    for row in rows {
        put_row(text, row.as_slice())?;
    }
    Ok(())
}

/// The text of a stimulus: a line `inputs` with its names, and a line for each row. Each line ends with a line feed.
#[tactic(auto, unfolding(crate::specs::Text::stimulus_text))]
pub fn write_stimulus(alloc: Global, s: &Stimulus) -> Result<Text, NoMemory>
    ensures { IfOk result (λ text. text ≡ stimulus_text s.now.names s.now.rows) }
{
    let mut text = b"inputs".as_slice().to_vec(alloc)?;
    put_names(&mut text, &s.names)?;
    put(&mut text, b"\n")?;
    put_rows(&mut text, s.rows.as_slice())?;
    Ok(Seq::from_vec(text))
}
