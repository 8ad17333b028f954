//! The covers of each net of a file: the constants, not, and.

ghost use Rattle.std.specs.Prelude.{◌≡◌, true, [], ◌∷◌, length, IfOk, OnOk};
ghost use Rattle.std.specs.List.{All};
ghost use Rattle.sec_base.specs.Cover.{IsPlace};
ghost use Rattle.aiger_read.specs.Signals.{all_covers, cover_number};

use flat_net::NetMaker;
use sec_base::{Cover, NoMemory, Seq};
use std::alloc::Global;

/// The cover of one row.
fn one_row(alloc: Global, width: u32, row: &[u8]) -> Result<Cover, NoMemory>
    requires width { length row.now ≡ width }
    requires places { All IsPlace row.now }
    ensures { IfOk result (λ cover. cover ≡ record { width = width; rows = row.now ∷ []; on = true }) }
{
    let mut rows = Seq::new(alloc);
    rows.push(Seq::from_vec(row.to_vec(alloc)?))?;
    Ok(Cover::from_rows(width, rows, true))
}

/// Gives a net under construction its covers.
pub(crate) fn add_covers(alloc: Global, maker: &mut NetMaker) -> Result<(), NoMemory>
    requires { maker.old.net.covers ≡ [] }
    ensures { OnOk result (maker.new ≡ record maker.old { net = record maker.old.net { covers = all_covers } }) }
{
    maker.cover(Cover::new(alloc, 0))?;
    maker.cover(one_row(alloc, 0, b"")?)?;
    maker.cover(one_row(alloc, 1, b"0")?)?;
    maker.cover(one_row(alloc, 2, b"11")?)?;
    Ok(())
}

/// The number of the cover of a literal that reads these literals.
pub(crate) fn cover_number(literal: u32, reads: &[u32]) -> u32
    ensures { result ≡ cover_number literal reads.now }
{
    match reads {
        [] => { if literal == 0 { 0 } else { 1 } }
        [_] => 2,
        _ => 3,
    }
}
