//! Symbols: the names of inputs, latches and outputs.

ghost use Rattle.std.specs.Prelude.{◌≡◌, ◌∷◌, ◌++◌, [], if◌then◌else◌, false, MatchOption, Some, None, IfOk, OnOk};
ghost use Rattle.std.specs.List.{list_any};
ghost use Rattle.aiger_read.specs.aiger_file.Symbols.{the_symbol, section_named, symbol_of, is_end, count_of, is_bad_byte, is_bad_name, symbol_fault};
ghost use Rattle.aiger_read.specs.aiger_records.Took.{Took};
ghost use Rattle.base_tables.specs.Table.{is_among};

use crate::aiger_records::{AigerKind, Cut, Header, Section, Stop, cut_at, number_of};
use base_tables::NameTable;
use sec_base::{MAX_NAME_BYTES, NoMemory, Seq, Words};
use std::alloc::Global;

/// The name of an input, a latch or an output, counted from 0.
#[derive(Clone, Copy)]
pub struct Symbol<'a> {
    pub section: Section,
    pub number: u64,
    /// The word before the name, which tells what it names.
    pub key: &'a [u8],
    pub name: &'a [u8],
}

fn section_named(letter: u8) -> Option<Section>
    ensures { result ≡ section_named letter }
{
    match letter {
        b'i' => Some(Section::Input),
        b'l' => Some(Section::Latch),
        b'o' => Some(Section::Output),
        _ => None,
    }
}

/// The symbol of a line; None where the line isn't of the form.
#[tactic(auto, unfolding(crate::specs::aiger_file::Symbols::symbol_of))]
pub fn symbol_of(line: &[u8]) -> Option<Symbol<'_>>
    ensures { MatchOption result (symbol_of line.now ≡ None) (λ s. symbol_of line.now ≡ Some (the_symbol s.section s.number s.key.now s.name.now)) }
{
    let Cut {
        before: key,
        after: name,
    } = cut_at(b' ', line)?;
    let [letter, digits @ ..] = key else {
        return None;
    };
    let section = section_named(*letter)?;
    let number = number_of(digits)?;
    Some(Symbol {
        section,
        number,
        key,
        name,
    })
}

/// Whether the text ends, or begins with a comment.
pub fn is_end(text: &[u8]) -> bool
    ensures { result ≡ is_end text.now }
{
    match text {
        [] => true,
        [byte, ..] => *byte == b'c',
    }
}

fn is_bad_byte(byte: u8) -> bool
    ensures { result ≡ is_bad_byte byte }
{
    byte <= 32 || byte == 127 || byte == b'#'
}

fn has_bad_byte(name: &[u8]) -> bool
    ensures { result ≡ list_any is_bad_byte name.now }
{
    for byte in name {
        if is_bad_byte(*byte) {
            return true;
        }
    }
    false
}

fn is_bad_name(name: &[u8]) -> bool
    ensures { result ≡ is_bad_name name.now }
{
    name.is_empty() || name.len() > MAX_NAME_BYTES || has_bad_byte(name)
}

/// How many of its kind the header tells.
fn count_of(header: &Header, section: Section) -> u64
    ensures { result ≡ count_of header.now section }
{
    match section {
        Section::Input => header.inputs,
        Section::Latch => header.latches,
        Section::Output => header.outputs,
        Section::Gate => 0,
    }
}

/// The symbols so far, none of them faulty: the key of each, and its name.
pub struct Named {
    pub keys: NameTable,
    pub names: Words,
}

/// It is let go by one call: an owner isn't taken apart field by field at each way out.
impl Drop for Named {
    fn drop(self) {
        let Named { keys: _, names: _ } = self;
    }
}

impl Named {
    /// No symbols yet.
    pub fn new(alloc: Global) -> Named
        ensures { result ≡ record { keys = []; names = [] } }
    {
        Named {
            keys: NameTable::new(alloc),
            names: Seq::new(alloc),
        }
    }

    fn is_faulty(&self, header: &Header, symbol: Symbol<'_>) -> bool
        ensures keys { result ≡ false → is_among self.now.keys symbol.entry.key.now ≡ false }
        ensures fault { symbol_fault header.now self.now.keys (the_symbol symbol.entry.section symbol.entry.number symbol.entry.key.now symbol.entry.name.now) ≡ (if result then Some AigerKind.BadSymbol else None) }
    {
        symbol.number >= count_of(header, symbol.section)
            || self.keys.has(symbol.key)
            || is_bad_name(symbol.name)
    }

    /// Puts a symbol behind the others.
    fn put(&mut self, alloc: Global, symbol: Symbol<'_>) -> Result<(), NoMemory>
        requires { is_among self.old.keys symbol.key.now ≡ false }
        ensures { OnOk result ((self.new.keys ≡ self.old.keys ++ symbol.entry.key.now ∷ []) × (self.new.names ≡ self.old.names ++ symbol.entry.name.now ∷ [])) }
    {
        self.keys.add(alloc, symbol.key)?;
        self.names.push(Seq::from_vec(symbol.name.to_vec(alloc)?))
    }

    /// Takes the next symbol, or says what is wrong with it.
    pub fn take(&mut self, alloc: Global, header: &Header, symbol: Symbol<'_>) -> Result<(), Stop>
        ensures { Took (symbol_fault header.now self.old.keys (the_symbol symbol.entry.section symbol.entry.number symbol.entry.key.now symbol.entry.name.now))
            ((self.new.keys ≡ self.old.keys ++ symbol.entry.key.now ∷ []) × (self.new.names ≡ self.old.names ++ symbol.entry.name.now ∷ [])) result }
    {
        if self.is_faulty(header, symbol) {
            return Err(Stop::Fault(AigerKind::BadSymbol));
        }
        self.put(alloc, symbol)?;
        Ok(())
    }
}
