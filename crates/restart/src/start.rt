//! The net that begins behind the rows.

ghost use Rattle.std.specs.Prelude.{◌≡◌, length, IfOk};
ghost use Rattle.restart.specs.Behind.{init_of, begun, IsBegun};

use crate::three_run::known_behind;
use base_tables::NameTable;
use flat_net::Net;
use sec_base::{BitRows, Init, NoMemory};
use std::alloc::Global;

/// What is known of the net's latches behind the rows, which the net has now as its initial values.
pub fn begin(
    alloc: Global,
    net: &mut Net,
    names: &NameTable,
    rows: &BitRows,
) -> Result<Vec<Option<bool>>, NoMemory>
    ensures { IfOk result (λ known. IsBegun net.old names.now rows.now known.items net.new) }
{
    let known = known_behind(alloc, net, names, rows.as_slice())?;
    restart(net, &known);
    Ok(known)
}

/// Gives each latch that is known its value as its initial value, and each other one none. All else stays.
pub fn restart(net: &mut Net, known: &[Option<bool>])
    requires { length known.now ≡ length net.old.latches }
    ensures { net.new ≡ begun net.old known.now }
{
    net.keeps();
    for (j, value) in known.iter().enumerate() {
        net.set_init(j as u32, init_of(*value));
    }
}

/// The initial value of a latch of which this is known.
fn init_of(value: Option<bool>) -> Init
    ensures { result ≡ init_of value }
{
    match value {
        Some(true) => Init::One,
        Some(false) => Init::Zero,
        None => Init::Unknown,
    }
}
