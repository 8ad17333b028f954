//! What stands behind the header of a DIMACS text.

ghost use Rattle.std.specs.Prelude.{◌≡◌, ◌≤◌, ◌^◌, [], ◌∷◌, ◌++◌, Some, false, IfOk, IfErr, OnOk};
ghost use Rattle.text_numbers.specs.declared.kinds.TextError.TheVariants.{At};
ghost use Rattle.text_numbers.specs.declared.kinds.TextKind.TheVariants.{BadCount};
ghost use Rattle.text_numbers.specs.Answers.{IsGiven};
ghost use Rattle.text_numbers.specs.Numbers.{IsRead};
ghost use Rattle.lrat_core.specs.dimacs_text.Entries.{entries_of, ends, is_open, clauses_from};
ghost use Rattle.lrat_core.specs.dimacs_text.Dimacs.{begun, is_past, line_entries, end_of};
ghost use Rattle.lrat_core.specs.dimacs_text.Parts.{IsLineFault};

use crate::dimacs_text::counts::Header;
use crate::dimacs_text::entries::{Entry, ends_in, entry_of, is_end};
use crate::dimacs_text::formula::{Formula, LiteralLists};
use proof_check::Literals;
use sec_base::NoMemory;
use std::alloc::Global;
use text_numbers::{TextError, TextKind, Tokens, is_passed_over};

/// The entries behind the header, as far as they were read.
#[derive(Drop)]
pub(crate) struct Body {
    pub(crate) header: Header,
    pub(crate) entries: Vec<Entry>,
    /// How many clauses have ended.
    pub(crate) ended: usize,
    /// Whether a literal stands last.
    pub(crate) has_open: bool,
    pub(crate) ghost bounded: { header.variables ≤ 2 ^ 30 },
    pub(crate) ghost counted: { ended ≡ ends entries.items },
    pub(crate) ghost last: { has_open ≡ is_open entries.items },
}

impl Body {
    /// Before the first line.
    pub(crate) fn new(alloc: Global, header: Header) -> Body
        requires { header.variables ≤ 2 ^ 30 }
        ensures header { result.header ≡ header }
        ensures entries { result.entries.items ≡ [] }
    {
        Body {
            header,
            entries: Vec::new(alloc),
            ended: 0,
            has_open: false,
        }
    }

    /// Puts an entry last.
    #[tactic(auto, using(crate::proofs::dimacs_text::Putting::open_put, crate::proofs::dimacs_text::Putting::count_put, crate::proofs::dimacs_text::Putting::few_ends))]
    fn put(&mut self, entry: Entry) -> Result<(), NoMemory>
        ensures header { self.new.header ≡ self.old.header }
        ensures entries { OnOk result (self.new.entries.items ≡ self.old.entries.items ++ entry ∷ []) }
    {
        let ends = is_end(&entry);
        let more = ends_in(&entry);
        self.entries.push(entry)?;
        self.has_open = !ends;
        self.ended += more;
        Ok(())
    }

    /// How many clauses begin in the entries.
    #[tactic(auto, using(crate::proofs::dimacs_text::Putting::few_ends))]
    fn begun(&self) -> usize
        ensures { result ≡ begun self.now.entries.items }
    {
        if self.has_open {
            return self.ended + 1;
        }
        self.ended
    }

    /// Whether more clauses begin than the header tells.
    fn is_past(&self) -> bool
        ensures { result ≡ is_past self.now.header.clauses self.now.entries.items }
    {
        (self.header.clauses as usize) < self.begun()
    }

    /// Takes the line of this number.
    pub(crate) fn take_line(&mut self, line: &[u8], number: u32) -> Result<(), TextError>
        requires { is_past self.old.header.clauses self.old.entries.items ≡ false }
        ensures header { self.new.header ≡ self.old.header }
        ensures entries { OnOk result (line_entries self.old.header.variables self.old.entries.items line.now ≡ Some self.new.entries.items) }
        ensures few { OnOk result (is_past self.new.header.clauses self.new.entries.items ≡ false) }
        ensures err { IfErr result (IsLineFault self.old.header self.old.entries.items line.now number) }
    {
        if is_passed_over(line) {
            return Ok(());
        }
        if !self.put_all(Tokens::new(line))? {
            return Err(TextError::At {
                line: number,
                kind: TextKind::BadNumber,
            });
        }
        if self.is_past() {
            return Err(TextError::At {
                line: number,
                kind: TextKind::BadCount,
            });
        }
        Ok(())
    }

    /// Puts the entries of all tokens last; false where a token spells none.
    fn put_all(&mut self, tokens: Tokens<'_>) -> Result<bool, NoMemory>
        ensures header { self.new.header ≡ self.old.header }
        ensures entries { IfOk result (λ all. IsRead (entries_of self.old.header.variables tokens.entry) all self.old.entries.items self.new.entries.items) }
    {
        let limit = self.header.variables;
        let mut left = tokens;
        while let Some(token) = left.next_token() {
            match entry_of(limit, token) {
                Some(entry) => self.put(entry)?,
                None => return Ok(false),
            }
        }
        Ok(true)
    }

    /// The clauses, after the last line.
    pub(crate) fn finish(self, alloc: Global) -> Result<Formula, TextError>
        ensures formula { IsGiven (end_of self.header self.entries.items) result }
        ensures small { IfOk result (λ formula. formula.variables ≤ 2 ^ 30) }
    {
        if self.ended != self.header.clauses as usize {
            return Err(without_clauses());
        }
        if self.has_open {
            return Err(without_clauses());
        }
        let variables = self.header.variables;
        let clauses = clauses_of(alloc, self.entries.as_slice())?;
        Ok(Formula::new(variables, clauses))
    }
}

/// The text as a whole has too few clauses, or one without its end.
fn without_clauses() -> TextError
    ensures { result ≡ At 0 BadCount }
{
    TextError::At {
        line: 0,
        kind: TextKind::BadCount,
    }
}

/// The clauses that end in these entries.
fn clauses_of(alloc: Global, entries: &[Entry]) -> Result<LiteralLists, NoMemory>
    ensures { IfOk result (λ clauses. clauses ≡ clauses_from [] entries.now) }
{
    let mut clauses = LiteralLists::new(alloc);
    let mut literals = Literals::new(alloc);
    for entry in entries {
        match *entry {
            Entry::Literal(literal) => literals.push(literal)?,
            Entry::End => {
                clauses.push(literals)?;
                literals = Literals::new(alloc);
            }
        }
    }
    Ok(clauses)
}
