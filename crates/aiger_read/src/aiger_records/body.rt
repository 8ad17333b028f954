//! The records of a body, one after the other.

ghost use Rattle.std.specs.Prelude.{◌≡◌, ◌+◌, ◌<◌, ◌≤◌, ◌^◌, length, option_map, IfOk, IfSome, MatchOption, None, Some};
ghost use Rattle.aiger_read.specs.aiger_records.Records.{section_of, input_lines, left_out, line_record, is_packed, packed_record, record_at, body_length};
ghost use Rattle.aiger_read.specs.aiger_records.Faults.{IsSmall};

use crate::aiger_records::cuts::{Cut, cut_at};
use crate::aiger_records::decimals::numbers_behind;
use crate::aiger_records::groups::packed;
use crate::aiger_records::header::{Form, Header};
use crate::aiger_records::record::{Record, Section, listed};
use sec_base::NoMemory;
use std::alloc::Global;

/// The most bytes of a difference.
const GROUPS: u32 = 5;

/// A record, and what stands after it.
#[derive(Clone, Copy)]
pub struct Taken<'a> {
    pub found: Record,
    pub after: &'a [u8],
}

impl Header {
    /// How many lines inputs have.
    pub fn input_lines(&self) -> u64
        ensures { result ≡ input_lines self.now.form self.now.inputs }
    {
        match self.form {
            Form::Ascii => self.inputs,
            Form::Binary => 0,
        }
    }

    /// How many records a body has.
    pub fn body_length(&self) -> u32
        requires { IsSmall self.now }
        ensures length { result ≡ body_length self.now }
        ensures few { result ≤ 800000 }
    {
        (self.input_lines() + self.latches + self.outputs + self.gates) as u32
    }

    /// What record k of the body is to be.
    fn section_of(&self, k: u64) -> Section
        requires { IsSmall self.now }
        ensures { result ≡ section_of self.now k }
    {
        let latches = self.input_lines();
        let outputs = latches + self.latches;
        if k < latches {
            Section::Input
        } else if k < outputs {
            Section::Latch
        } else if k < outputs + self.outputs {
            Section::Output
        } else {
            Section::Gate
        }
    }

    /// The numbers that the line of record k leaves out at its front.
    fn left_out(&self, alloc: Global, k: u64, section: Section) -> Result<Vec<u64>, NoMemory>
        requires small { IsSmall self.now }
        requires within { k < 2 ^ 32 }
        ensures { IfOk result (λ numbers. numbers.items ≡ left_out self.now k self.now.form section) }
    {
        let mut numbers = Vec::new(alloc);
        match self.form {
            Form::Binary => match section {
                Section::Latch => numbers.push(2 * (self.inputs + k + 1))?,
                _ => {}
            },
            Form::Ascii => {}
        }
        Ok(numbers)
    }

    /// Record k as a line.
    fn line_record(
        &self,
        alloc: Global,
        k: u64,
        section: Section,
        line: &[u8],
    ) -> Result<Option<Record>, NoMemory>
        requires small { IsSmall self.now }
        requires within { k < 2 ^ 32 }
        ensures { IfOk result (λ found. found ≡ line_record self.now k section line.now) }
    {
        let begun = self.left_out(alloc, k, section)?;
        let Some(numbers) = numbers_behind(begun, Some(line))? else {
            return Ok(None);
        };
        Ok(listed(section, numbers.as_slice()))
    }

    /// Record k of the body, where this text is left; None where it is cut off or not of its form.
    #[tactic(auto, unfolding(crate::specs::aiger_records::Records::record_at))]
    pub fn record_at<'a>(
        &self,
        alloc: Global,
        k: u64,
        text: &'a [u8],
    ) -> Result<Option<Taken<'a>>, NoMemory>
        requires small { IsSmall self.now }
        requires within { k < 2 ^ 32 }
        ensures record { IfOk result
            (λ taken. MatchOption taken (record_at self.now k text.now ≡ None) (λ t. record_at self.now k text.now ≡ Some (record { found = t.found; after = t.after.now }))) }
        ensures shorter { IfOk result (λ taken. IfSome taken (λ t. length t.after.now < length text.now)) }
    {
        let section = self.section_of(k);
        if is_packed(self.form, section) {
            let literal = 2 * (self.inputs + k.saturating_sub(self.outputs) + 1);
            return Ok(packed_record(literal, text));
        }
        let Some(Cut { before, after }) = cut_at(b'\n', text) else {
            return Ok(None);
        };
        let Some(found) = self.line_record(alloc, k, section, before)? else {
            return Ok(None);
        };
        Ok(Some(Taken { found, after }))
    }
}

/// Whether such a record is no line, but two differences.
fn is_packed(form: Form, section: Section) -> bool
    ensures { result ≡ is_packed form section }
{
    matches!((form, section), (Form::Binary, Section::Gate))
}

/// A gate by its differences.
fn packed_record(literal: u64, text: &[u8]) -> Option<Taken<'_>>
    ensures record { MatchOption result (packed_record literal text.now ≡ None) (λ t. packed_record literal text.now ≡ Some (record { found = t.found; after = t.after.now })) }
    ensures shorter { IfSome result (λ t. length t.after.now < length text.now) }
{
    let first = packed(GROUPS, text)?;
    let second = packed(GROUPS, first.after)?;
    Some(Taken {
        found: Record::Packed {
            literal,
            first: u64::from(first.value),
            second: u64::from(second.value),
        },
        after: second.after,
    })
}
