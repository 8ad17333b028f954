//! Variables in their order.

ghost use Rattle.std.specs.Prelude.{◌≡◌, ◌-◌, ◌<◌, length, All, map, IfOk};
ghost use Rattle.event_nodes.specs.event_variables.Order.{IsKeyOf, AreKeysOf, IsOrderOf};

use crate::event_variables::paths::node_path;
use crate::{EventGraph, Ids, NoMemory, Seq};
use std::alloc::Global;

/// A variable with what it goes by.
#[derive(PartialEq, Eq, PartialOrd, Ord, Drop)]
struct Key {
    /// The lower, the longer the path.
    shortness: usize,
    /// The steps from the root.
    path: Vec<u32>,
    input: u32,
    variable: u32,
}

/// These variables, each once, in their order.
pub fn in_order(alloc: Global, events: &EventGraph, variables: Vec<u32>) -> Result<Ids, NoMemory>
    requires { All (λ v. v < length events.now.places) variables.items }
    ensures { IfOk result (IsOrderOf events.now variables.items) }
{
    events.keeps();
    let mut distinct = variables;
    distinct.sort()?;
    distinct.dedup();
    let mut keys = keys_of(alloc, events, distinct.as_slice())?;
    keys.sort()?;
    let ordered = numbers_of(alloc, keys.as_slice())?;
    Ok(Seq::from_vec(ordered))
}

/// The key of each variable.
fn keys_of(alloc: Global, events: &EventGraph, variables: &[u32]) -> Result<Vec<Key>, NoMemory>
    requires { All (λ v. v < length events.now.places) variables.now }
    ensures { IfOk result (λ keys. AreKeysOf events.now variables.now keys.items) }
{
    let mut keys = Vec::with_capacity(alloc, variables.len())?;
    for variable in variables {
        keys.push(key_of(alloc, events, *variable)?)?;
    }
    Ok(keys)
}

/// The key of a variable.
fn key_of(alloc: Global, events: &EventGraph, variable: u32) -> Result<Key, NoMemory>
    requires { variable < length events.now.places }
    ensures { IfOk result (λ key. IsKeyOf events.now variable key) }
{
    events.keeps();
    let (input, node) = events.place(variable);
    let path = node_path(alloc, events, node)?;
    Ok(Key {
        shortness: usize::MAX - path.len(),
        path,
        input,
        variable,
    })
}

/// The variables of keys.
fn numbers_of(alloc: Global, keys: &[Key]) -> Result<Vec<u32>, NoMemory>
    ensures { IfOk result (λ numbers. numbers.items ≡ map (λ key. key.variable) keys.now) }
{
    let mut numbers = Vec::with_capacity(alloc, keys.len())?;
    for key in keys {
        numbers.push(key.variable)?;
    }
    Ok(numbers)
}
