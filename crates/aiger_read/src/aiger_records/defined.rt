//! What is wrong with a record, by the records before it.

ghost use Rattle.std.specs.Prelude.{◌≡◌, ◌++◌, ◌∷◌, [], ◌≤◌, false, length, All, IfNone, IfOk, OnOk};
ghost use Rattle.std.specs.List.{list_all};
ghost use Rattle.aiger_read.specs.aiger_records.Driven.{is_driven, all_driven, used_by};
ghost use Rattle.aiger_read.specs.aiger_records.Faults.{IsSmall, is_above, is_undefinable, has_bad_literal, defined_by, is_defined, is_defined_again, has_bad_reset, has_bad_delta, fault_of, AreMarks, DefinesOnce};
ghost use Rattle.aiger_read.specs.aiger_records.Records.{implied, inputs_to};
ghost use Rattle.aiger_read.specs.aiger_records.Took.{Took};

use crate::aiger_records::error::{AigerKind, Stop};
use crate::aiger_records::header::{Form, Header};
use crate::aiger_records::record::{Record, Records};
use sec_base::{NoMemory, Seq};
use std::alloc::Global;

/// The records of a body so far, none of them faulty, and the variables that they define.
#[derive(Drop)]
pub struct Defined {
    pub header: Header,
    pub records: Records,
    marks: Vec<bool>,
    ghost small: { IsSmall header },
    ghost marked: { AreMarks header records marks.items },
    ghost good: { All (λ r. has_bad_literal header r ≡ false) records },
    ghost once: { DefinesOnce records },
}

impl Header {
    fn is_above(&self, literal: u64) -> bool
        requires { IsSmall self.now }
        ensures { result ≡ is_above self.now literal }
    {
        literal > 2 * self.greatest + 1
    }

    fn is_undefinable(&self, literal: u64) -> bool
        requires { IsSmall self.now }
        ensures { result ≡ is_undefinable self.now literal }
    {
        self.is_above(literal) || literal % 2 == 1 || literal == 0
    }

    fn has_bad_literal(&self, found: Record) -> bool
        requires { IsSmall self.now }
        ensures { result ≡ has_bad_literal self.now found }
    {
        match found {
            Record::Input { literal } => self.is_undefinable(literal),
            Record::Latch {
                literal,
                next,
                reset,
            } => self.is_undefinable(literal) || self.is_above(next) || self.is_above(reset),
            Record::Output { literal } => self.is_above(literal),
            Record::Gate {
                literal,
                left,
                right,
            } => self.is_undefinable(literal) || self.is_above(left) || self.is_above(right),
            Record::Packed {
                literal,
                first: _,
                second: _,
            } => self.is_undefinable(literal),
        }
    }
}

/// The literal that the record defines, if it defines one.
pub fn defined_by(found: Record) -> Option<u64>
    ensures { result ≡ defined_by found }
{
    match found {
        Record::Input { literal } => Some(literal),
        Record::Latch {
            literal,
            next: _,
            reset: _,
        } => Some(literal),
        Record::Output { literal: _ } => None,
        Record::Gate {
            literal,
            left: _,
            right: _,
        } => Some(literal),
        Record::Packed {
            literal,
            first: _,
            second: _,
        } => Some(literal),
    }
}

fn has_bad_reset(found: Record) -> bool
    ensures { result ≡ has_bad_reset found }
{
    match found {
        Record::Latch {
            literal,
            next: _,
            reset,
        } => !(reset == 0 || reset == 1 || reset == literal),
        _ => false,
    }
}

fn has_bad_delta(found: Record) -> bool
    ensures { result ≡ has_bad_delta found }
{
    match found {
        Record::Packed {
            literal,
            first,
            second,
        } => first == 0 || literal < first || literal - first < second,
        _ => false,
    }
}

impl Defined {
    fn new(alloc: Global, header: Header) -> Result<Defined, NoMemory>
        requires { IsSmall header }
        ensures { IfOk result (λ made. (made.header ≡ header) × (made.records ≡ [])) }
    {
        Ok(Defined {
            header,
            records: Seq::new(alloc),
            marks: vec![in alloc; false; header.greatest as usize + 1]?,
        })
    }

    /// Puts so many inputs, which are the first variables.
    fn put_inputs(&mut self, inputs: u64) -> Result<(), NoMemory>
        requires none { self.old.records ≡ [] }
        requires within { inputs ≤ self.old.header.greatest }
        ensures { OnOk result ((self.new.header ≡ self.old.header) × (self.new.records ≡ inputs_to inputs)) }
    {
        for before in 0..inputs {
            self.put(Record::Input {
                literal: 2 * (before + 1),
            })?;
        }
        Ok(())
    }

    /// The inputs that have no record of their own.
    pub fn begin(alloc: Global, header: Header) -> Result<Defined, NoMemory>
        requires { IsSmall header }
        ensures { IfOk result (λ made. (made.header ≡ header) × (made.records ≡ implied header.form header.inputs)) }
    {
        let mut made = Defined::new(alloc, header)?;
        match header.form {
            Form::Ascii => {}
            Form::Binary => made.put_inputs(header.inputs)?,
        }
        Ok(made)
    }

    fn is_defined_again(&self, found: Record) -> bool
        requires { has_bad_literal self.now.header found ≡ false }
        ensures { result ≡ is_defined_again self.now.records (defined_by found) }
    {
        match defined_by(found) {
            Some(literal) => self.marks[(literal / 2) as usize],
            None => false,
        }
    }

    /// The first kind that holds of the record, after those so far.
    #[tactic(auto, unfolding(crate::specs::aiger_records::Faults::fault_of))]
    fn fault_of(&self, found: Record) -> Option<AigerKind>
        ensures fault { result ≡ fault_of self.now.header self.now.records found }
        ensures literals { IfNone result (has_bad_literal self.now.header found ≡ false) }
        ensures new { IfNone result (is_defined_again self.now.records (defined_by found) ≡ false) }
    {
        if self.header.has_bad_literal(found) {
            return Some(AigerKind::BadLiteral);
        }
        if self.is_defined_again(found) {
            return Some(AigerKind::TwoDrivers);
        }
        if has_bad_reset(found) {
            return Some(AigerKind::BadReset);
        }
        if has_bad_delta(found) {
            return Some(AigerKind::BadDelta);
        }
        None
    }

    /// Puts a record without a fault behind the others.
    fn put(&mut self, found: Record) -> Result<(), NoMemory>
        requires literals { has_bad_literal self.old.header found ≡ false }
        requires new { is_defined_again self.old.records (defined_by found) ≡ false }
        ensures { OnOk result ((self.new.header ≡ self.old.header) × (self.new.records ≡ self.old.records ++ found ∷ [])) }
    {
        self.records.push(found)?;
        if let Some(literal) = defined_by(found) {
            self.marks[(literal / 2) as usize] = true;
        }
        Ok(())
    }

    /// Takes the next record, or says what is wrong with it.
    pub fn take(&mut self, found: Record) -> Result<(), Stop>
        ensures { Took (fault_of self.old.header self.old.records found) ((self.new.header ≡ self.old.header) × (self.new.records ≡ self.old.records ++ found ∷ [])) result }
    {
        if let Some(kind) = self.fault_of(found) {
            return Err(Stop::Fault(kind));
        }
        self.put(found)?;
        Ok(())
    }

    /// The records. It takes no memory.
    pub fn into_records(self) -> Records
        ensures { result ≡ self.records }
    {
        self.records
    }

    fn is_driven(&self, literal: u64) -> bool
        requires { is_above self.now.header literal ≡ false }
        ensures { result ≡ is_driven self.now.records literal }
    {
        literal < 2 || self.marks[(literal / 2) as usize]
    }

    /// Whether what the record reads is driven.
    fn reads_driven(&self, found: Record) -> bool
        requires { has_bad_literal self.now.header found ≡ false }
        ensures { result ≡ list_all (is_driven self.now.records) (used_by found) }
    {
        match found {
            Record::Input { literal: _ } => true,
            Record::Latch {
                literal: _,
                next,
                reset: _,
            } => self.is_driven(next),
            Record::Output { literal } => self.is_driven(literal),
            Record::Gate {
                literal: _,
                left,
                right,
            } => self.is_driven(left) && self.is_driven(right),
            Record::Packed {
                literal,
                first,
                second,
            } => {
                let left = literal.saturating_sub(first);
                self.is_driven(left) && self.is_driven(left.saturating_sub(second))
            }
        }
    }

    /// Whether all that the records read is driven.
    pub fn all_driven(&self) -> bool
        ensures { result ≡ all_driven self.now.records }
    {
        for found in self.records.as_slice() {
            if !self.reads_driven(*found) {
                return false;
            }
        }
        true
    }
}
