//! What is known of a circuit in the course of its run over rows.

ghost use Rattle.std.specs.Prelude.{◌≡◌, map, IfOk};
ghost use Rattle.job_known.specs.Course.{IsFirst, IsSized, Steps};
ghost use Rattle.job_known.specs.Known.{known_init, known_at_first};

use base_tables::NameTable;
use flat_net::{LatchAt, Net};
use restart::{columns_of, compute, take_over};
use sec_base::{Init, NoMemory};
use std::alloc::Global;

/// For each input of a net the column of its name in the rows; what is known of each latch at the beginning of the next cycle, and of each
/// signal in the latest one.
pub(crate) struct Course {
    columns: Vec<u32>,
    latches: Vec<Option<bool>>,
    pub(crate) values: Vec<Option<bool>>,
}

/// It is let go by one call: an owner isn't taken apart field by field at each way out.
impl Drop for Course {
    fn drop(self) {
        let Course {
            columns: _,
            latches: _,
            values: _,
        } = self;
    }
}

impl Course {
    /// The net before its first cycle, with its initial values.
    pub(crate) fn new(alloc: Global, net: &Net, names: &NameTable) -> Result<Course, NoMemory>
        ensures { IfOk result (IsFirst net.now names.now) }
    {
        let columns = columns_of(alloc, net, names)?;
        let latches = known_at_first(alloc, net.latches())?;
        let values = vec![in alloc; None; net.size() as usize]?;
        Ok(Course {
            columns,
            latches,
            values,
        })
    }

    /// Computes the next cycle from a row. It takes no memory.
    pub(crate) fn step(&mut self, net: &Net, row: &[bool])
        requires { IsSized net.now self.old }
        ensures { Steps net.now row.now self.old self.new }
    {
        compute(net, &self.columns, row, &self.latches, &mut self.values);
        take_over(net, &self.values, &mut self.latches);
    }
}

/// What is known of the latches by their initial values.
fn known_at_first(alloc: Global, latches: &[LatchAt]) -> Result<Vec<Option<bool>>, NoMemory>
    ensures { IfOk result (λ known. known.items ≡ map known_at_first latches.now) }
{
    let mut known = Vec::new(alloc);
    for latch in latches {
        known.push(known_init(latch.init))?;
    }
    Ok(known)
}

/// What an initial value tells of its latch.
fn known_init(init: Init) -> Option<bool>
    ensures { result ≡ known_init init }
{
    match init {
        Init::Zero => Some(false),
        Init::One => Some(true),
        Init::DontCare => None,
        Init::Unknown => None,
    }
}
