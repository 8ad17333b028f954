//! Covers that were made, with their fan-ins and literals.

ghost use Rattle.std.specs.Prelude.{◌≡◌, ℕ, true, Contains, IfOk, IfSome};
ghost use Rattle.event_nodes.specs.declared.cover_graph.made.MadeCover.{MadeCover};

use aig::Lit;
use flat_net::{Cover, NoMemory, Word};
use std::alloc::Global;

/// A cover that was made.
pub(crate) struct MadeCover {
    cover: Cover,
    fanins: Vec<Lit>,
    lit: Lit,
}

/// It is let go by one call: an owner isn't taken apart field by field at each way out.
impl Drop for MadeCover {
    fn drop(self) {
        let MadeCover {
            cover: _,
            fanins: _,
            lit: _,
        } = self;
    }
}

impl MadeCover {
    /// An equal cover of these fan-ins, with its literal.
    pub(crate) fn new(
        alloc: Global,
        cover: &Cover,
        fanins: &[Lit],
        lit: Lit,
    ) -> Result<MadeCover, NoMemory>
        ensures cover { IfOk result (λ m. m.cover ≡ cover.now) }
        ensures fanins { IfOk result (λ m. m.fanins.items ≡ fanins.now) }
        ensures lit { IfOk result (λ m. m.lit ≡ lit) }
    {
        let cover = cover.copy()?;
        let mut copied = Vec::new(alloc);
        copied.extend_from_slice(fanins)?;
        Ok(MadeCover {
            cover,
            fanins: copied,
            lit,
        })
    }

    /// Whether it is this cover of these fan-ins.
    fn is_of(&self, cover: &Cover, fanins: &[Lit]) -> bool
        ensures { result ≡ true → (self.now.cover ≡ cover.now) × (self.now.fanins.items ≡ fanins.now) }
    {
        are_same(self.fanins.as_slice(), fanins) && is_same(&self.cover, cover)
    }
}

/// The literal of this cover of these fan-ins, if it is among those that were made.
pub(crate) fn lit_before(made: &[MadeCover], cover: &Cover, fanins: &[Lit]) -> Option<Lit>
    ensures { IfSome result (λ x. (m : MadeCover) × Contains made.now m × (m.cover ≡ cover.now) × (m.fanins.items ≡ fanins.now) × (m.lit ≡ x)) }
{
    for one in made {
        if one.is_of(cover, fanins) {
            return Some(one.lit);
        }
    }
    None
}

/// Whether both lists are one.
fn are_same(left: &[Lit], right: &[Lit]) -> bool
    ensures { result ≡ true → left.now ≡ right.now }
{
    if left.len() != right.len() {
        return false;
    }
    for i in 0..left.len() {
        if left[i].0 != right[i].0 {
            return false;
        }
    }
    true
}

/// Whether both covers have the same rows.
fn is_same(left: &Cover, right: &Cover) -> bool
    ensures { result ≡ true → left.now ≡ right.now }
{
    if left.width() != right.width() || left.on() != right.on() {
        return false;
    }
    have_same_rows(left.rows(), right.rows())
}

/// Whether both lists of rows are one.
fn have_same_rows(left: &[Word], right: &[Word]) -> bool
    ensures { result ≡ true → left.now ≡ right.now }
{
    if left.len() != right.len() {
        return false;
    }
    for i in 0..left.len() {
        let same = left[i].as_slice() == right[i].as_slice();
        if !same {
            return false;
        }
    }
    true
}
