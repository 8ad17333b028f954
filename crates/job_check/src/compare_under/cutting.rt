//! Both nets without the exposed latches.

ghost use Rattle.std.specs.Prelude.{IfOk};
ghost use Rattle.flat_net.specs.Comparable.{IsComparable};
ghost use Rattle.sec_setup.specs.Cuts.{AreCutBy, AreCutOpen};

use flat_net::Net;
use sec_base::NoMemory;
use sec_setup::cut_points::Exposure;
use std::alloc::Global;

/// Both nets with the exposed latches cut out.
pub(crate) struct CutNets {
    pub left: Net,
    pub right: Net,
}

/// It is let go by one call: an owner isn't taken apart field by field at each way out.
impl Drop for CutNets {
    fn drop(self) {
        let CutNets { left: _, right: _ } = self;
    }
}

/// Cuts the exposed latches out of both nets.
pub(crate) fn cut_nets(
    alloc: Global,
    a: &Net,
    b: &Net,
    exposure: &Exposure,
) -> Result<CutNets, NoMemory>
    requires left { IsComparable a.now }
    requires right { IsComparable b.now }
    requires exposed { AreCutOpen a.now b.now exposure.now }
    ensures { IfOk result (λ c. AreCutBy a.now b.now exposure.now c.left c.right) }
{
    let left = a.cut(alloc, &exposure.left)?;
    let right = b.cut(alloc, &exposure.right)?;
    Ok(CutNets { left, right })
}
