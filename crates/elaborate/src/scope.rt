//! Where the walk stands in the hierarchy.

ghost use Rattle.std.specs.Prelude.{◌≡◌, ◌==◌, ◌||◌, ◌++◌, [], ◌∷◌, IfOk, OnOk};
ghost use Rattle.std.specs.List.{list_any};
ghost use Rattle.std.specs.Fmt.{decimal};

use blif_read::{NoMemory, Seq, Word, put, put_number};
use std::alloc::Global;

/// A step into an instance: the number of its model, and its number among the instances of the model around it.
#[derive(Clone, Copy)]
pub(crate) struct Step {
    pub(crate) model: u32,
    pub(crate) instance: usize,
}

/// A scope of the hierarchy: the steps that lead to it from the main model, the number of the model there, and what
/// stands before the names of its signals.
pub(crate) struct Scope {
    pub(crate) steps: Vec<Step>,
    pub(crate) model: u32,
    pub(crate) prefix: Word,
}

/// It is let go by one call: an owner isn't taken apart field by field at each way out.
impl Drop for Scope {
    fn drop(self) {
        let Scope {
            steps: _,
            model: _,
            prefix: _,
        } = self;
    }
}

impl Scope {
    /// The scope of the main model. It takes no memory.
    pub(crate) fn main(alloc: Global) -> Scope
        ensures steps { result.steps.items ≡ [] }
        ensures model { result.model ≡ 0 }
        ensures prefix { result.prefix ≡ [] }
    {
        Scope {
            steps: Vec::new(alloc),
            model: 0,
            prefix: Seq::new(alloc),
        }
    }

    /// Whether the model is the main one, or that of a step.
    pub(crate) fn is_on_path(&self, model: u32) -> bool
        ensures { result ≡ ((model == 0) || list_any (λ s. s.model == model) self.now.steps.items) }
    {
        model == 0 || has_step(self.steps.as_slice(), model)
    }

    /// The scope of an instance here.
    pub(crate) fn inside(
        &self,
        alloc: Global,
        model: u32,
        name: &[u8],
        instance: usize,
    ) -> Result<Scope, NoMemory>
        ensures steps { IfOk result (λ inner. inner.steps.items ≡ self.now.steps.items ++ record { model = model; instance = instance } ∷ []) }
        ensures model { IfOk result (λ inner. inner.model ≡ model) }
        ensures prefix { IfOk result (λ inner. inner.prefix ≡ self.now.prefix ++ (name.now ++ 35 ∷ (decimal instance ++ 35 ∷ []))) }
    {
        let mut prefix = self.prefix.as_slice().to_vec(alloc)?;
        put_step(alloc, &mut prefix, name, instance)?;
        let mut steps = self.steps.to_vec(alloc)?;
        steps.push(Step { model, instance })?;
        Ok(Scope {
            steps,
            model,
            prefix: Seq::from_vec(prefix),
        })
    }
}

fn has_step(steps: &[Step], model: u32) -> bool
    ensures { result ≡ list_any (λ s. s.model == model) steps.now }
{
    for step in steps {
        if step.model == model {
            return true;
        }
    }
    false
}

/// Puts what an instance adds to what stands before the names of its signals.
fn put_step(
    alloc: Global,
    prefix: &mut Vec<u8>,
    model: &[u8],
    instance: usize,
) -> Result<(), NoMemory>
    ensures { OnOk result (prefix.new.items ≡ prefix.old.items ++ (model.now ++ 35 ∷ (decimal instance ++ 35 ∷ []))) }
{
    put(prefix, model)?;
    put(prefix, b"#")?;
    put_number(alloc, prefix, instance as u64)?;
    put(prefix, b"#")
}
