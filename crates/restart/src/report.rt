//! What is told of a net behind the rows of a stimulus.

ghost use Rattle.std.specs.Prelude.{◌≡◌, ◌++◌, length, OnOk};
ghost use Rattle.restart.specs.Report.{after_line, unknown_line, unknown_count, first_unknown, first_name};

use flat_net::{Net, latch_of};
use sec_base::{NoMemory, put, put_number};
use std::alloc::Global;

/// Puts how many rows the stimulus has.
pub fn put_after(alloc: Global, text: &mut Vec<u8>, rows: u64) -> Result<(), NoMemory>
    ensures { OnOk result (text.new.items ≡ text.old.items ++ after_line rows) }
{
    put(text, b"after ")?;
    put_number(alloc, text, rows)?;
    put(text, b"\n")
}

/// Puts how many latches of the net aren't known, behind what stands before that, and the first one's name.
pub fn put_unknown(
    alloc: Global,
    text: &mut Vec<u8>,
    front: &[u8],
    net: &Net,
    known: &[Option<bool>],
) -> Result<(), NoMemory>
    requires { length known.now ≡ length net.now.latches }
    ensures { OnOk result (text.new.items ≡ text.old.items ++ unknown_line front.now net.now known.now) }
{
    put(text, front)?;
    put_number(alloc, text, unknown_count(known) as u64)?;
    put_first(text, net, known)?;
    put(text, b"\n")
}

/// Puts the name of the first latch that isn't known behind a space, if there is one.
fn put_first(text: &mut Vec<u8>, net: &Net, known: &[Option<bool>]) -> Result<(), NoMemory>
    requires { length known.now ≡ length net.now.latches }
    ensures { OnOk result (text.new.items ≡ text.old.items ++ first_name net.now (first_unknown known.now)) }
{
    net.keeps();
    let Some(j) = first_unknown(known) else {
        return Ok(());
    };
    put(text, b" ")?;
    put(text, latch_of(net, j as u32).name.as_slice())
}

/// How many latches aren't known.
fn unknown_count(known: &[Option<bool>]) -> usize
    ensures { result ≡ unknown_count known.now }
{
    known.iter().filter(|value| value.is_none()).count()
}

/// The first latch that isn't known.
fn first_unknown(known: &[Option<bool>]) -> Option<usize>
    ensures { result ≡ first_unknown known.now }
{
    known.iter().position(|value| value.is_none())
}
