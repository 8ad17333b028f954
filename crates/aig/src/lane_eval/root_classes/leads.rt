//! For each root of a graph one that agrees with it.

ghost use Rattle.std.specs.Prelude.{◌*◌, ◌<◌, length, All, IfOk};
ghost use Rattle.aig.specs.lane_eval.root_classes.Leads.{AreLeads};

use crate::lane_eval::root_classes::inputs::variables;
use crate::lane_eval::root_classes::narrow::narrow_leads;
use crate::{Aig, Lit, MAX_TABLE_VARIABLES, NoMemory};
use std::alloc::Global;

/// For each root a literal that agrees with it: the root itself, or where the graph has inputs for at most 16 variables the first root
/// that agrees.
pub fn leads_of(alloc: Global, aig: &Aig, roots: &[Lit]) -> Result<Vec<Lit>, NoMemory>
    requires roots { All (λ l. l.0 < 2 * length aig.now) roots.now }
    ensures { IfOk result (λ leads. AreLeads aig.now roots.now leads.items) }
{
    let vars = variables(alloc, aig)?;
    if vars.len() <= MAX_TABLE_VARIABLES {
        return narrow_leads(alloc, aig, vars.as_slice(), roots);
    }
    let leads = Vec::from_slice(alloc, roots)?;
    Ok(leads)
}
