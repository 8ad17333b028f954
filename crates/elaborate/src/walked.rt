//! What the walk has found.

ghost use Rattle.std.specs.Prelude.{◌≡◌, ◌≢◌, ◌+◌, ◌++◌, [], ◌∷◌, false, true, length, map, option_map, Some, None, IfErr, OnOk};
ghost use Rattle.std.specs.List.{list_any};
ghost use Rattle.blif_read.specs.Kept.{names_in_option};
ghost use Rattle.elaborate.specs.declared.error.FlatError.TheVariants as flat_error;
ghost use Rattle.elaborate.specs.Flat.{gate, latch, cover_at};
ghost use Rattle.elaborate.specs.Walking.{is_too_many};
ghost use Rattle.elaborate.specs.Scopes.{is_long_behind};
ghost use Rattle.elaborate.specs.State.{IsKept, Adds, plain_fault, pair_between};

use crate::checks::{are_long, is_long};
use crate::error::FlatError;
use crate::flat::{FlatKind, FlatStatement, FlatStatements};
use crate::numbers::{number, number_of_option, numbers};
use blif_read::{Edge, Init, MAX_PLACES, MAX_STATEMENTS, NameTable, NoMemory, Pair, Seq, Word};
use std::alloc::Global;

/// The flat statements so far with the names of their signals, and how many statements and places were counted.
pub(crate) struct Walked {
    pub(crate) names: NameTable,
    pub(crate) statements: FlatStatements,
    pub(crate) count: usize,
    pub(crate) places: usize,
}

/// It is let go by one call: an owner isn't taken apart field by field at each way out.
impl Drop for Walked {
    fn drop(self) {
        let Walked {
            names: _,
            statements: _,
            count: _,
            places: _,
        } = self;
    }
}

impl Walked {
    /// Nothing yet. It takes no memory.
    pub(crate) fn new(alloc: Global) -> Walked
        ensures { result ≡ record { names = []; statements = []; count = 0; places = 0 } }
    {
        Walked {
            names: NameTable::new(alloc),
            statements: Seq::new(alloc),
            count: 0,
            places: 0,
        }
    }

    /// Counts statements and places.
    pub(crate) fn count(&mut self, statements: usize, places: usize) -> Result<(), FlatError>
        requires { IsKept self.old }
        ensures ok { OnOk result ((is_too_many (self.old.count + statements) (self.old.places + places) ≡ false) × IsKept self.new × (self.new ≡ record self.old { count = self.old.count + statements; places = self.old.places + places })) }
        ensures err { IfErr result (λ e. (is_too_many (self.old.count + statements) (self.old.places + places) ≡ true) × (e ≡ flat_error.TooMany)) }
    {
        if statements > MAX_STATEMENTS - self.count || places > MAX_PLACES - self.places {
            return Err(FlatError::TooMany);
        }
        self.count += statements;
        self.places += places;
        Ok(())
    }

    /// Counts a gate or a latch, and refuses one with a long name.
    pub(crate) fn admit(&mut self, places: usize, is_long: bool) -> Result<(), FlatError>
        requires { IsKept self.old }
        ensures ok { OnOk result ((plain_fault self.old.count self.old.places places is_long ≡ None) × IsKept self.new × (self.new ≡ record self.old { count = self.old.count + 1; places = self.old.places + places })) }
        ensures err { IfErr result (λ e. plain_fault self.old.count self.old.places places is_long ≡ Some e) }
    {
        self.count(1, places)?;
        if is_long {
            return Err(FlatError::LongName);
        }
        Ok(())
    }

    /// Adds a gate, whose cover is that of a statement of a model.
    pub(crate) fn add_gate(
        &mut self,
        alloc: Global,
        prefix: &[u8],
        fanins: &[Word],
        out: &[u8],
        model: u32,
        statement: u32,
    ) -> Result<(), NoMemory>
        requires { IsKept self.old }
        ensures { OnOk result (Adds (λ models. record { out = prefix.now ++ out.now; reads = map (λ name. prefix.now ++ name) fanins.now; kind = gate (cover_at models model statement) } ∷ []) self.old self.new) }
    {
        let reads = numbers(alloc, &mut self.names, prefix, fanins)?;
        let out = number(alloc, &mut self.names, prefix, out)?;
        let kind = FlatKind::Gate { model, statement };
        self.statements.push(FlatStatement { out, reads, kind })
    }

    /// Adds a latch.
    pub(crate) fn add_latch(
        &mut self,
        alloc: Global,
        prefix: &[u8],
        input: &[u8],
        output: &[u8],
        edge: Option<Edge>,
        control: &Option<Word>,
        init: Init,
    ) -> Result<(), NoMemory>
        requires { IsKept self.old }
        ensures { OnOk result (Adds (λ models. record { out = prefix.now ++ output.now; reads = (prefix.now ++ input.now) ∷ []; kind = latch edge (option_map (λ word. prefix.now ++ word) control.now) init } ∷ []) self.old self.new) }
    {
        let data = number(alloc, &mut self.names, prefix, input)?;
        let out = number(alloc, &mut self.names, prefix, output)?;
        let control = number_of_option(alloc, &mut self.names, prefix, control)?;
        let kind = FlatKind::Latch {
            edge,
            control,
            init,
        };
        self.add_statement(alloc, out, data, kind)
    }

    /// Counts and adds a gate, or refuses it: for its count, or for a long name.
    pub(crate) fn take_gate(
        &mut self,
        alloc: Global,
        prefix: &[u8],
        fanins: &[Word],
        out: &[u8],
        model: u32,
        statement: u32,
    ) -> Result<(), FlatError>
        requires { IsKept self.old }
        ensures kept { OnOk result (IsKept self.new) }
        ensures ok { OnOk result (plain_fault self.old.count self.old.places (length fanins.now + 1) (list_any (is_long_behind (length prefix.now)) (fanins.now ++ out.now ∷ [])) ≡ None) }
        ensures adds { OnOk result (Adds (λ models. record { out = prefix.now ++ out.now; reads = map (λ name. prefix.now ++ name) fanins.now; kind = gate (cover_at models model statement) } ∷ [])
            (record self.old { count = self.old.count + 1; places = self.old.places + (length fanins.now + 1) }) self.new) }
        ensures err { IfErr result (λ e. e ≢ flat_error.NoMemory → plain_fault self.old.count self.old.places (length fanins.now + 1) (list_any (is_long_behind (length prefix.now)) (fanins.now ++ out.now ∷ [])) ≡ Some e) }
    {
        self.admit(fanins.len() + 1, gate_is_long(prefix.len(), fanins, out))?;
        self.add_gate(alloc, prefix, fanins, out, model, statement)?;
        Ok(())
    }

    /// Counts and adds a latch, or refuses it: for its count, or for a long name.
    pub(crate) fn take_latch(
        &mut self,
        alloc: Global,
        prefix: &[u8],
        input: &[u8],
        output: &[u8],
        edge: Option<Edge>,
        control: &Option<Word>,
        init: Init,
    ) -> Result<(), FlatError>
        requires { IsKept self.old }
        ensures kept { OnOk result (IsKept self.new) }
        ensures ok { OnOk result (plain_fault self.old.count self.old.places (2 + length (names_in_option control.now)) (list_any (is_long_behind (length prefix.now)) (input.now ∷ output.now ∷ names_in_option control.now)) ≡ None) }
        ensures adds { OnOk result (Adds (λ models. record { out = prefix.now ++ output.now; reads = (prefix.now ++ input.now) ∷ []; kind = latch edge (option_map (λ word. prefix.now ++ word) control.now) init } ∷ [])
            (record self.old { count = self.old.count + 1; places = self.old.places + (2 + length (names_in_option control.now)) }) self.new) }
        ensures err { IfErr result (λ e. e ≢ flat_error.NoMemory → plain_fault self.old.count self.old.places (2 + length (names_in_option control.now)) (list_any (is_long_behind (length prefix.now)) (input.now ∷ output.now ∷ names_in_option control.now)) ≡ Some e) }
    {
        let long = latch_is_long(prefix.len(), input, output, control);
        self.admit(latch_places(control), long)?;
        self.add_latch(alloc, prefix, input, output, edge, control, init)?;
        Ok(())
    }

    /// Adds a latch or a port that drives the first signal and reads the other.
    fn add_statement(
        &mut self,
        alloc: Global,
        out: u32,
        from: u32,
        kind: FlatKind,
    ) -> Result<(), NoMemory>
        ensures { OnOk result (self.new ≡ record self.old { statements = self.old.statements ++ record { out = out; reads = from ∷ []; kind = kind } ∷ [] }) }
    {
        let mut reads = Seq::new(alloc);
        reads.push(from)?;
        self.statements.push(FlatStatement { out, reads, kind })
    }

    /// Adds a pair of an instance whose model has these input formals.
    fn add_pair(
        &mut self,
        alloc: Global,
        outer: &[u8],
        inner: &[u8],
        inputs: &NameTable,
        pair: &Pair,
    ) -> Result<(), NoMemory>
        requires { IsKept self.old }
        ensures { OnOk result (Adds (λ models. pair_between inputs.now outer.now inner.now pair.now ∷ []) self.old self.new) }
    {
        let actual = number(alloc, &mut self.names, outer, pair.actual.as_slice())?;
        let formal = number(alloc, &mut self.names, inner, pair.formal.as_slice())?;
        if inputs.has(pair.formal.as_slice()) {
            self.add_statement(alloc, formal, actual, FlatKind::Port)
        } else {
            self.add_statement(alloc, actual, formal, FlatKind::Port)
        }
    }

    /// Adds the pairs of an instance whose model has these input formals.
    pub(crate) fn add_pairs(
        &mut self,
        alloc: Global,
        outer: &[u8],
        inner: &[u8],
        inputs: &NameTable,
        pairs: &[Pair],
    ) -> Result<(), NoMemory>
        requires { IsKept self.old }
        ensures { OnOk result (Adds (λ models. map (pair_between inputs.now outer.now inner.now) pairs.now) self.old self.new) }
    {
        for pair in pairs {
            self.add_pair(alloc, outer, inner, inputs, pair)?;
        }
        Ok(())
    }
}

/// Whether a name of the gate behind so many bytes has more than 4,096 bytes.
fn gate_is_long(prefix: usize, fanins: &[Word], out: &[u8]) -> bool
    ensures { result ≡ list_any (is_long_behind prefix) (fanins.now ++ out.now ∷ []) }
{
    are_long(prefix, fanins) || is_long(prefix, out)
}

/// Whether a name of the latch behind so many bytes has more than 4,096 bytes.
fn latch_is_long(prefix: usize, input: &[u8], output: &[u8], control: &Option<Word>) -> bool
    ensures { result ≡ list_any (is_long_behind prefix) (input.now ∷ output.now ∷ names_in_option control.now) }
{
    let control_is_long = match control {
        Some(control) => is_long(prefix, control.as_slice()),
        None => false,
    };
    is_long(prefix, input) || is_long(prefix, output) || control_is_long
}

/// At how many places a latch with this clock writes a signal's name.
fn latch_places(control: &Option<Word>) -> usize
    ensures { result ≡ 2 + length (names_in_option control.now) }
{
    match control {
        Some(_) => 3,
        None => 2,
    }
}
