//! Which inputs a circuit has beside another, the first name that is missing, and the numbers of the inputs.

ghost use Rattle.std.specs.Prelude.{◌≡◌, ◌+◌, ◌^◌, ◌<◌, ◌≤◌, length, map, IfOk, IfSome, slice_get, option_map};
ghost use Rattle.circuit_theory.specs.Interface.{first_missing, inputs_beside, is_clock, ◌or_else◌};
ghost use Rattle.flat_net.specs.View.{ports_of};
ghost use Rattle.sec_setup.specs.ports.Numbered.{AreNumbered, AreNumbers, stays};

use crate::ports::name_tables::first_missing;
use flat_net::{Ids, NameTable, Net, NoMemory, Orders};
use std::alloc::Global;

/// Whether the name is that of the net's clock.
fn is_clock(net: &Net, name: &[u8]) -> bool
    ensures { result ≡ is_clock (ports_of net.now) name.now }
{
    match net.clock() {
        Some(clock) => clock == name,
        None => false,
    }
}

/// Whether the input stays: it is read, or its name isn't the other's clock.
fn stays(own: &Net, other: &Net, i: u32) -> bool
    requires { i < length own.now.inputs }
    ensures { IfSome (slice_get own.now.inputs i) (λ p. result ≡ stays (ports_of own.now) (ports_of other.now) p.name) }
{
    own.keeps();
    let port = &own.inputs()[i as usize];
    if is_clock(other, port.name.as_slice()) {
        return own.input_read(i);
    }
    true
}

/// The names of a circuit's inputs, without the other's clock where nothing reads it.
pub fn inputs_beside(alloc: Global, own: &Net, other: &Net) -> Result<NameTable, NoMemory>
    ensures { IfOk result (λ names. names ≡ inputs_beside (ports_of own.now) (ports_of other.now)) }
{
    own.keeps();
    let mut names = NameTable::new(alloc);
    for (i, port) in own.inputs().iter().enumerate() {
        if !stays(own, other, i as u32) {
            continue;
        }
        names.intern(alloc, port.name.as_slice())?;
    }
    Ok(names)
}

/// The numbers of a circuit's inputs: a shared name's place, or for the others, in their order, numbers from `from` on; and
/// the first number that isn't given.
fn numbers_of(
    alloc: Global,
    own: &Net,
    shared: &NameTable,
    from: u32,
) -> Result<(Ids, u32), NoMemory>
    requires few { from + length own.now.inputs < 2 ^ 32 }
    ensures numbers { IfOk result (λ r. AreNumbers (map (λ p. p.name) own.now.inputs) shared.now from r.1 r.0) }
    ensures few { IfOk result (λ r. r.1 ≤ from + length own.now.inputs) }
{
    let mut numbers = Ids::new(alloc);
    let mut next = from;
    for port in own.inputs() {
        let Some(id) = shared.find(port.name.as_slice()) else {
            numbers.push(next)?;
            next += 1;
            continue;
        };
        numbers.push(id)?;
    }
    Ok((numbers, next))
}

/// The first of A's inputs missing in B, B's in A, A's outputs in B, B's in A.
pub fn first_mismatch<'a>(
    left: &'a NameTable,
    right: &'a NameTable,
    left_outputs: &'a NameTable,
    right_outputs: &'a NameTable,
) -> Option<&'a [u8]>
    ensures { option_map (λ name. name.now) result ≡ (first_missing left.now right.now or_else first_missing right.now left.now or_else first_missing left_outputs.now right_outputs.now or_else first_missing right_outputs.now left_outputs.now) }
{
    if let Some(name) = first_missing(left, right) {
        return Some(name);
    }
    if let Some(name) = first_missing(right, left) {
        return Some(name);
    }
    if let Some(name) = first_missing(left_outputs, right_outputs) {
        return Some(name);
    }
    first_missing(right_outputs, left_outputs)
}

/// The numbers of the inputs of both nets: a column has its place among the columns, and any other input a number of its own
/// above these.
pub fn orders_of(alloc: Global, a: &Net, b: &Net, columns: &NameTable) -> Result<Orders, NoMemory>
    requires { length columns.now + length a.now.inputs + length b.now.inputs < 2 ^ 32 }
    ensures { IfOk result (AreNumbered a.now b.now columns.now) }
{
    a.keeps();
    b.keeps();
    columns.keeps();
    let (left, middle) = numbers_of(alloc, a, columns, columns.len())?;
    let (right, _) = numbers_of(alloc, b, columns, middle)?;
    Ok(Orders { left, right })
}
