//! The header: the first line of a file.

ghost use Rattle.std.specs.Prelude.{◌≡◌, ◌+◌, ◌==◌, ◌≤◌, true, IfNone, IfSome, IfOk};
ghost use Rattle.std.specs.List.{list_all};
ghost use Rattle.aiger_read.specs.aiger_records.Headers.{form_of, counts_fit, header_of, numbered_header, header_fault, most};

use crate::aiger_records::cuts::{FirstWord, first_word};
use crate::aiger_records::decimals::numbers_behind;
use crate::aiger_records::error::AigerKind;
use sec_base::NoMemory;
use std::alloc::Global;

/// The greatest variable, and the most outputs.
const MOST: u64 = 400_000;

/// The form of a file.
#[derive(Clone, Copy)]
pub enum Form {
    /// `aag`: each record is a line.
    Ascii,
    /// `aig`: variables are numbered in the order inputs, latches, gates, and gates are bytes.
    Binary,
}

/// What the header says.
#[derive(Clone, Copy)]
pub struct Header {
    pub form: Form,
    /// The greatest variable.
    pub greatest: u64,
    /// The numbers of inputs, latches, outputs and and-gates.
    pub inputs: u64,
    pub latches: u64,
    pub outputs: u64,
    pub gates: u64,
    /// Whether each further number is 0, so that the file has no properties.
    pub plain: bool,
}

fn form_of(word: &[u8]) -> Option<Form>
    ensures { result ≡ form_of word.now }
{
    if word == b"aag".as_slice() {
        return Some(Form::Ascii);
    }
    if word == b"aig".as_slice() {
        return Some(Form::Binary);
    }
    None
}

/// Whether the greatest variable fits so many inputs, latches and gates.
fn counts_fit(form: Form, greatest: u64, inputs: u64, latches: u64, gates: u64) -> bool
    ensures fits { result ≡ counts_fit form greatest (inputs + latches + gates) }
    ensures within { result ≡ true → inputs + latches + gates ≤ greatest }
{
    if greatest < inputs || greatest - inputs < latches {
        return false;
    }
    let left = greatest - inputs - latches;
    match form {
        Form::Ascii => gates <= left,
        Form::Binary => gates == left,
    }
}

fn are_zeros(numbers: &[u64]) -> bool
    ensures { result ≡ list_all (λ n. n == 0) numbers.now }
{
    for n in numbers {
        if *n != 0 {
            return false;
        }
    }
    true
}

/// The header of these numbers.
fn numbered_header(form: Form, numbers: &[u64]) -> Option<Header>
    ensures header { result ≡ numbered_header form numbers.now }
    ensures within { IfSome result (λ h. h.inputs + h.latches + h.gates ≤ h.greatest) }
{
    match numbers {
        [greatest, inputs, latches, outputs, gates, further @ ..] => {
            if further.len() > 4 || !counts_fit(form, *greatest, *inputs, *latches, *gates) {
                return None;
            }
            Some(Header {
                form,
                greatest: *greatest,
                inputs: *inputs,
                latches: *latches,
                outputs: *outputs,
                gates: *gates,
                plain: are_zeros(further),
            })
        }
        _ => None,
    }
}

/// The header that the line writes, if it is one.
#[tactic(auto, unfolding(crate::specs::aiger_records::Headers::header_of))]
pub fn header_of(alloc: Global, line: &[u8]) -> Result<Option<Header>, NoMemory>
    ensures header { IfOk result (λ header. header ≡ header_of line.now) }
    ensures within { IfOk result (λ header. IfSome header (λ h. h.inputs + h.latches + h.gates ≤ h.greatest)) }
{
    let FirstWord { word, after } = first_word(line);
    let Some(form) = form_of(word) else {
        return Ok(None);
    };
    let Some(numbers) = numbers_behind(Vec::new(alloc), after)? else {
        return Ok(None);
    };
    Ok(numbered_header(form, numbers.as_slice()))
}

/// What is wrong with a header.
pub fn header_fault(header: Header) -> Option<AigerKind>
    ensures fault { result ≡ header_fault header }
    ensures greatest { IfNone result (header.greatest ≤ most) }
    ensures outputs { IfNone result (header.outputs ≤ most) }
{
    if !header.plain {
        return Some(AigerKind::Properties);
    }
    if header.greatest > MOST || header.outputs > MOST {
        return Some(AigerKind::TooMany);
    }
    None
}
