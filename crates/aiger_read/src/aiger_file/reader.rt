//! Reads a text record by record.

ghost use Rattle.std.specs.Prelude.{◌≡◌, ◌+◌, ◌-◌, ◌<◌, ◌≤◌, ◌^◌, length, None, IfOk, IfSome};
ghost use Rattle.aiger_read.specs.aiger_records.Faults.{IsSmall};
ghost use Rattle.aiger_read.specs.aiger_file.Reading.{body_of};
ghost use Rattle.aiger_read.specs.aiger_file.State.{ReadBody, ReadSymbols, ReadHeader, refusal_at};
ghost use Rattle.aiger_read.specs.aiger_file.Whole.{file_fault};
ghost use Rattle.aiger_read.specs.aiger_file.Files.{ReadsFile, IsKept};

use crate::aiger_file::file::AigerFile;
use crate::aiger_file::symbol::{Named, is_end, symbol_of};
use crate::aiger_records::{
    AigerError, AigerKind, Cut, Defined, Header, Stop, Taken, cut_at, header_fault, header_of,
};
use sec_base::NoMemory;
use std::alloc::Global;

/// The refusal of the record at this place.
fn at_place(place: u32, stop: Stop) -> AigerError
    ensures { result ≡ refusal_at place stop }
{
    match stop {
        Stop::NoMemory => AigerError::NoMemory,
        Stop::Fault(kind) => AigerError::At { place, kind },
    }
}

/// The records of a body, and what stands behind it.
struct ReadSoFar<'a> {
    defined: Defined,
    after: &'a [u8],
}

fn read_body(alloc: Global, header: Header, text: &[u8]) -> Result<ReadSoFar<'_>, AigerError>
    requires { IsSmall header }
    ensures body { ReadBody header (body_of header text.now) result }
    ensures shorter { IfOk result (λ body. length body.after.now ≤ length text.now) }
{
    let mut defined = Defined::begin(alloc, header)?;
    let mut left = text;
    for k in 0..header.body_length() {
        let Some(Taken { found, after }) = header.record_at(alloc, u64::from(k), left)? else {
            return Err(AigerError::At {
                place: k + 1,
                kind: AigerKind::BadLine,
            });
        };
        if let Err(stop) = defined.take(found) {
            return Err(at_place(k + 1, stop));
        }
        left = after;
    }
    Ok(ReadSoFar {
        defined,
        after: left,
    })
}

/// The symbols of the text that is left, of which the first is the record at this place.
fn read_symbols(
    alloc: Global,
    header: &Header,
    place: u32,
    text: &[u8],
) -> Result<Named, AigerError>
    requires { place + length text.now < 2 ^ 32 }
    ensures { ReadSymbols header.now place text.now result }
{
    let mut symbols = Named::new(alloc);
    let mut left = text;
    let mut at = place;
    while !is_end(left) {
        let Some(Cut { before, after }) = cut_at(b'\n', left) else {
            return Err(AigerError::At {
                place: at,
                kind: AigerKind::BadLine,
            });
        };
        let Some(symbol) = symbol_of(before) else {
            return Err(AigerError::At {
                place: at,
                kind: AigerKind::BadLine,
            });
        };
        if let Err(stop) = symbols.take(alloc, header, symbol) {
            return Err(at_place(at, stop));
        }
        left = after;
        at += 1;
    }
    Ok(symbols)
}

/// A header without a fault, and what stands after its line.
struct Headed<'a> {
    header: Header,
    after: &'a [u8],
}

fn read_header(alloc: Global, text: &[u8]) -> Result<Headed<'_>, AigerError>
    ensures header { ReadHeader text.now result }
    ensures shorter { IfOk result (λ file. length file.after.now ≤ length text.now) }
{
    let Some(Cut { before, after }) = cut_at(b'\n', text) else {
        return Err(AigerError::At {
            place: 0,
            kind: AigerKind::BadHeader,
        });
    };
    let Some(header) = header_of(alloc, before)? else {
        return Err(AigerError::At {
            place: 0,
            kind: AigerKind::BadHeader,
        });
    };
    if let Some(kind) = header_fault(header) {
        return Err(AigerError::At { place: 0, kind });
    }
    Ok(Headed { header, after })
}

/// What is wrong with a whole file, but for loops.
fn file_fault(
    alloc: Global,
    defined: &Defined,
    symbols: &Named,
) -> Result<Option<AigerKind>, NoMemory>
    requires { length symbols.now.keys ≡ length symbols.now.names }
    ensures { IfOk result (λ fault. fault ≡ file_fault (record { header = defined.now.header; records = defined.now.records; symbols = symbols.now })) }
{
    if !defined.all_driven() {
        return Ok(Some(AigerKind::Undriven));
    }
    let Header {
        inputs,
        latches,
        outputs,
        ..
    } = defined.header;
    if !symbols.are_distinct(alloc, inputs, latches, outputs)? {
        return Ok(Some(AigerKind::DuplicateName));
    }
    Ok(None)
}

/// Reads the records of a text, or says which is the first with a fault, and what is wrong with it; or what is wrong with
/// the whole file, with record 0, but for loops. A text has at most 16,777,216 bytes. Where memory was wanted and could not
/// be had, the answer is `NoMemory`.
pub fn read_file(alloc: Global, text: &[u8]) -> Result<AigerFile, AigerError>
    requires { length text.now ≤ 16777216 }
    ensures file { ReadsFile text.now result }
    ensures kept { IfOk result IsKept }
{
    let Headed { header, after } = read_header(alloc, text)?;
    let ReadSoFar { defined, after } = read_body(alloc, header, after)?;
    let symbols = read_symbols(alloc, &header, header.body_length() + 1, after)?;
    if let Some(kind) = file_fault(alloc, &defined, &symbols)? {
        return Err(AigerError::At { place: 0, kind });
    }
    Ok(AigerFile {
        header,
        records: defined.into_records(),
        symbols,
    })
}
