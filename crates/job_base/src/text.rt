//! The text that a run writes.

ghost use Rattle.std.specs.Prelude.{◌≡◌, [], ◌∷◌, ◌++◌, Some, None, MatchOption, codes, OnOk, IfOk};
ghost use Rattle.std.specs.Fmt.{decimal};
ghost use Rattle.sec_base.specs.Texts.{names_text};
ghost use Rattle.job_base.specs.Lines.{side_word, file_word, kind_text, text_kind_word, line_fault_text, named_of, design_fault_text, record_fault_text, misfit_text, pair_kind_text, pairs_fault_text, shape_text, refusal_text, words_text, cycle_text, undecided_text, unpaired_text, satisfiable_text, unsettled_text};

use crate::finding::{File, LineFault, PairKind, PairsFault, Refusal};
use aiger_read::aiger_records::AigerKind;
use assume_laws::assume_shape::ShapeFault;
use blif_read::ReadKind;
use circuit_report::sim_report::Misfit;
use elaborate::FlatError;
use sec_base::{NoMemory, Seq, Side, Text, Word, Words, put, put_names, put_number};
use std::alloc::Global;
use text_numbers::TextKind;

/// Puts the word behind what stands before it in the line.
fn put_behind(text: &mut Vec<u8>, front: &[u8], word: &[u8]) -> Result<(), NoMemory>
    ensures { OnOk result (text.new.items ≡ text.old.items ++ (front.now ++ word.now)) }
{
    put(text, front)?;
    put(text, word)
}

/// Puts the line of the word behind what stands before it.
fn put_line(text: &mut Vec<u8>, front: &[u8], word: &[u8]) -> Result<(), NoMemory>
    ensures { OnOk result (text.new.items ≡ text.old.items ++ (front.now ++ word.now ++ 10 ∷ [])) }
{
    put_behind(text, front, word)?;
    put(text, b"\n")
}

fn side_word(side: Side) -> &'static str
    ensures { result.now ≡ side_word side }
{
    match side {
        Side::A => "A",
        Side::B => "B",
    }
}

fn put_kind(text: &mut Vec<u8>, kind: &ReadKind) -> Result<(), NoMemory>
    ensures { OnOk result (text.new.items ≡ text.old.items ++ kind_text kind.now) }
{
    match kind {
        ReadKind::Unsupported(word) => put_behind(text, b"Unsupported ", word.as_slice()),
        ReadKind::UnknownWord => put(text, b"UnknownWord"),
        ReadKind::NoModel => put(text, b"NoModel"),
        ReadKind::BadCount => put(text, b"BadCount"),
        ReadKind::BadRow => put(text, b"BadRow"),
        ReadKind::MixedCover => put(text, b"MixedCover"),
        ReadKind::BadLatchType => put(text, b"BadLatchType"),
        ReadKind::BadInit => put(text, b"BadInit"),
        ReadKind::BadPair => put(text, b"BadPair"),
        ReadKind::DuplicateModel => put(text, b"DuplicateModel"),
        ReadKind::DuplicatePort => put(text, b"DuplicatePort"),
        ReadKind::NameTooLong => put(text, b"NameTooLong"),
        ReadKind::StrayRow => put(text, b"StrayRow"),
        ReadKind::ControlByte => put(text, b"ControlByte"),
    }
}

fn put_side(text: &mut Vec<u8>, side: Side) -> Result<(), NoMemory>
    ensures { OnOk result (text.new.items ≡ text.old.items ++ codes "refused " ++ side_word side) }
{
    put(text, b"refused ")?;
    put(text, side_word(side).as_bytes())
}

fn file_word(file: File) -> &'static str
    ensures { result.now ≡ file_word file }
{
    match file {
        File::A => "A",
        File::B => "B",
        File::C => "C",
        File::S => "S",
    }
}

fn put_file(text: &mut Vec<u8>, file: File) -> Result<(), NoMemory>
    ensures { OnOk result (text.new.items ≡ text.old.items ++ codes "refused " ++ file_word file) }
{
    put(text, b"refused ")?;
    put(text, file_word(file).as_bytes())
}

fn text_kind_word(kind: TextKind) -> &'static str
    ensures { result.now ≡ text_kind_word kind }
{
    match kind {
        TextKind::BadHeader => "BadHeader",
        TextKind::BadNumber => "BadNumber",
        TextKind::BadCount => "BadCount",
        TextKind::BadLine => "BadLine",
        TextKind::BadId => "BadId",
        TextKind::NegativeHint => "NegativeHint",
        TextKind::BadHint => "BadHint",
        TextKind::NotUnit => "NotUnit",
        TextKind::NoConflict => "NoConflict",
        TextKind::NoEmpty => "NoEmpty",
    }
}

fn put_line_fault(text: &mut Vec<u8>, fault: &LineFault) -> Result<(), NoMemory>
    ensures { OnOk result (text.new.items ≡ text.old.items ++ line_fault_text fault.now) }
{
    match fault {
        LineFault::Circuit(kind) => put_kind(text, kind),
        LineFault::BadHeader => put(text, b"BadHeader"),
        LineFault::BadRow => put(text, b"BadRow"),
        LineFault::Clauses(kind) => put(text, text_kind_word(*kind).as_bytes()),
    }
}

fn put_fault(
    alloc: Global,
    text: &mut Vec<u8>,
    file: File,
    line: u32,
    fault: &LineFault,
) -> Result<(), NoMemory>
    ensures { OnOk result (text.new.items ≡ text.old.items ++ (codes "refused " ++ file_word file ++ codes " line " ++ decimal line ++ 32 ∷ [] ++ line_fault_text fault.now ++ 10 ∷ [])) }
{
    put_file(text, file)?;
    put(text, b" line ")?;
    put_number(alloc, text, u64::from(line))?;
    put(text, b" ")?;
    put_line_fault(text, fault)?;
    put(text, b"\n")
}

/// The word of a fault that has one name, and the name.
fn named_fault(fault: &FlatError) -> Option<(&'static str, &Word)>
    ensures { MatchOption result (named_of fault.now ≡ None) (λ p. named_of fault.now ≡ Some (p.0.now, p.1.now)) }
{
    match fault {
        FlatError::UnknownModel(name) => Some(("UnknownModel ", name)),
        FlatError::Recursive(name) => Some(("Recursive ", name)),
        FlatError::UnknownFormal(name) => Some(("UnknownFormal ", name)),
        FlatError::FormalTwice(name) => Some(("FormalTwice ", name)),
        FlatError::OpenInput(name) => Some(("OpenInput ", name)),
        FlatError::TwoDrivers(name) => Some(("TwoDrivers ", name)),
        FlatError::Undriven(name) => Some(("Undriven ", name)),
        FlatError::TwoClocks(name) => Some(("TwoClocks ", name)),
        FlatError::TwoEdges(name) => Some(("TwoEdges ", name)),
        FlatError::GatedClock(name) => Some(("GatedClock ", name)),
        FlatError::ClockRead(name) => Some(("ClockRead ", name)),
        FlatError::TooDeep(name) => Some(("TooDeep ", name)),
        _ => None,
    }
}

fn put_design_fault(text: &mut Vec<u8>, fault: &FlatError) -> Result<(), NoMemory>
    ensures { OnOk result (text.new.items ≡ text.old.items ++ design_fault_text fault.now) }
{
    if let Some((word, name)) = named_fault(fault) {
        return put_behind(text, word.as_bytes(), name.as_slice());
    }
    match fault {
        FlatError::Loop(names) => {
            put(text, b"Loop")?;
            put_names(text, names)
        }
        FlatError::TooMany => put(text, b"TooMany"),
        FlatError::LongName => put(text, b"LongName"),
        _ => put(text, b"NoMemory"),
    }
}

fn record_fault_text(kind: AigerKind) -> &'static str
    ensures { result.now ≡ record_fault_text kind }
{
    match kind {
        AigerKind::BadHeader => "BadHeader",
        AigerKind::Properties => "Properties",
        AigerKind::TooMany => "TooMany",
        AigerKind::BadLine => "BadLine",
        AigerKind::BadLiteral => "BadLiteral",
        AigerKind::TwoDrivers => "TwoDrivers",
        AigerKind::BadReset => "BadReset",
        AigerKind::BadDelta => "BadDelta",
        AigerKind::BadSymbol => "BadSymbol",
        AigerKind::Undriven => "Undriven",
        AigerKind::DuplicateName => "DuplicateName",
        AigerKind::Loop => "Loop",
    }
}

fn put_record_fault(
    alloc: Global,
    text: &mut Vec<u8>,
    file: File,
    place: u32,
    kind: AigerKind,
) -> Result<(), NoMemory>
    ensures { OnOk result (text.new.items ≡ text.old.items ++ (codes "refused " ++ file_word file ++ codes " record " ++ decimal place ++ 32 ∷ [] ++ record_fault_text kind ++ 10 ∷ [])) }
{
    put_file(text, file)?;
    put(text, b" record ")?;
    put_number(alloc, text, u64::from(place))?;
    put_line(text, b" ", record_fault_text(kind).as_bytes())
}

fn put_misfit(text: &mut Vec<u8>, misfit: &Misfit) -> Result<(), NoMemory>
    ensures { OnOk result (text.new.items ≡ text.old.items ++ misfit_text misfit.now) }
{
    match misfit {
        Misfit::Unknown(name) => put_line(text, b"refused S Unknown ", name.as_slice()),
        Misfit::Missing(name) => put_line(text, b"refused S Missing ", name.as_slice()),
        Misfit::Power => put(text, b"refused Power\n"),
    }
}

/// Puts the line of the number behind what stands before it.
fn put_number_line(
    alloc: Global,
    text: &mut Vec<u8>,
    front: &[u8],
    number: u32,
) -> Result<(), NoMemory>
    ensures { OnOk result (text.new.items ≡ text.old.items ++ (front.now ++ decimal number ++ 10 ∷ [])) }
{
    put(text, front)?;
    put_number(alloc, text, u64::from(number))?;
    put(text, b"\n")
}

fn put_shape_fault(alloc: Global, text: &mut Vec<u8>, fault: &ShapeFault) -> Result<(), NoMemory>
    ensures { OnOk result (text.new.items ≡ text.old.items ++ shape_text fault.now) }
{
    match fault {
        ShapeFault::Latch(name) => put_line(text, b"refused C Latch ", name.as_slice()),
        ShapeFault::Outputs(number) => {
            put_number_line(alloc, text, b"refused C Outputs ", *number)
        }
        ShapeFault::Input(name) => put_line(text, b"refused C Input ", name.as_slice()),
        ShapeFault::TooLarge => put(text, b"refused C TooLarge\n"),
    }
}

fn put_too_long(text: &mut Vec<u8>, file: File) -> Result<(), NoMemory>
    ensures { OnOk result (text.new.items ≡ text.old.items ++ (codes "refused " ++ file_word file ++ codes " TooLong" ++ 10 ∷ [])) }
{
    put_file(text, file)?;
    put(text, b" TooLong\n")
}

fn put_faulty_design(text: &mut Vec<u8>, file: File, fault: &FlatError) -> Result<(), NoMemory>
    ensures { OnOk result (text.new.items ≡ text.old.items ++ (codes "refused " ++ file_word file ++ 32 ∷ [] ++ design_fault_text fault.now ++ 10 ∷ [])) }
{
    put_file(text, file)?;
    put(text, b" ")?;
    put_design_fault(text, fault)?;
    put(text, b"\n")
}

fn put_too_large(text: &mut Vec<u8>, side: Side) -> Result<(), NoMemory>
    ensures { OnOk result (text.new.items ≡ text.old.items ++ (codes "refused " ++ side_word side ++ codes " TooLarge" ++ 10 ∷ [])) }
{
    put_side(text, side)?;
    put(text, b" TooLarge\n")
}

fn pair_kind_text(kind: PairKind) -> &'static str
    ensures { result.now ≡ pair_kind_text kind }
{
    match kind {
        PairKind::BadPair => "BadPair",
        PairKind::Unknown(Side::A) => "Unknown A",
        PairKind::Unknown(Side::B) => "Unknown B",
        PairKind::Twice => "Twice",
        PairKind::Taken => "Taken",
    }
}

fn put_numbered(
    alloc: Global,
    text: &mut Vec<u8>,
    front: &[u8],
    number: u32,
    word: &[u8],
) -> Result<(), NoMemory>
    ensures { OnOk result (text.new.items ≡ text.old.items ++ (front.now ++ decimal number ++ 32 ∷ [] ++ word.now ++ 10 ∷ [])) }
{
    put(text, front)?;
    put_number(alloc, text, u64::from(number))?;
    put_line(text, b" ", word)
}

fn put_pairs_line(
    alloc: Global,
    text: &mut Vec<u8>,
    line: u32,
    kind: PairKind,
) -> Result<(), NoMemory>
    ensures { OnOk result (text.new.items ≡ text.old.items ++ (codes "refused P line " ++ decimal line ++ 32 ∷ [] ++ pair_kind_text kind ++ 10 ∷ [])) }
{
    let word = pair_kind_text(kind);
    put_numbered(alloc, text, b"refused P line ", line, word.as_bytes())
}

fn put_pairs_fault(alloc: Global, text: &mut Vec<u8>, fault: PairsFault) -> Result<(), NoMemory>
    ensures { OnOk result (text.new.items ≡ text.old.items ++ pairs_fault_text fault) }
{
    match fault {
        PairsFault::TooLong => put(text, b"refused P TooLong\n"),
        PairsFault::Line(line, kind) => put_pairs_line(alloc, text, line, kind),
    }
}

fn put_refusal(alloc: Global, text: &mut Vec<u8>, refusal: &Refusal) -> Result<(), NoMemory>
    ensures { OnOk result (text.new.items ≡ text.old.items ++ refusal_text refusal.now) }
{
    match refusal {
        Refusal::TooLong(file) => put_too_long(text, *file),
        Refusal::Text(file, line, fault) => put_fault(alloc, text, *file, *line, fault),
        Refusal::Design(file, fault) => put_faulty_design(text, *file, fault),
        Refusal::Record(file, place, kind) => put_record_fault(alloc, text, *file, *place, *kind),
        Refusal::Interface(name) => put_line(text, b"refused Interface ", name.as_slice()),
        Refusal::TooLarge(side) => put_too_large(text, *side),
        Refusal::TooManyEvents => put(text, b"refused TooManyEvents\n"),
        Refusal::Assume(fault) => put_shape_fault(alloc, text, fault),
        Refusal::Vacuous => put(text, b"refused C Vacuous\n"),
        Refusal::Misfit(misfit) => put_misfit(text, misfit),
        Refusal::Pair(name) => put_line(text, b"refused Pair ", name.as_slice()),
        Refusal::Pairs(fault) => put_pairs_fault(alloc, text, *fault),
    }
}

/// The report that the words are no job.
pub fn words_report(alloc: Global) -> Result<Text, NoMemory>
    ensures { IfOk result (λ text. text ≡ words_text) }
{
    let mut text = Vec::new(alloc);
    put(&mut text, b"words refused\n")?;
    Ok(Seq::from_vec(text))
}

/// The report of a refusal.
pub fn refusal_report(alloc: Global, refusal: &Refusal) -> Result<Text, NoMemory>
    ensures { IfOk result (λ text. text ≡ refusal_text refusal.now) }
{
    let mut text = Vec::new(alloc);
    put_refusal(alloc, &mut text, refusal)?;
    Ok(Seq::from_vec(text))
}

/// Puts the line of the latches of a cycle of a side's latch graph behind what stands before the side.
fn put_cycle(text: &mut Vec<u8>, front: &[u8], side: Side, names: &Words) -> Result<(), NoMemory>
    ensures { OnOk result (text.new.items ≡ text.old.items ++ (front.now ++ side_word side ++ names_text names.now ++ 10 ∷ [])) }
{
    put_behind(text, front, side_word(side).as_bytes())?;
    put_names(text, names)?;
    put(text, b"\n")
}

/// The report of a cycle of a side's latch graph.
pub fn cycle_report(alloc: Global, side: Side, names: &Words) -> Result<Text, NoMemory>
    ensures { IfOk result (λ text. text ≡ cycle_text side names.now) }
{
    let mut text = Vec::new(alloc);
    put_cycle(&mut text, b"cyclic ", side, names)?;
    Ok(Seq::from_vec(text))
}

/// The report of a cycle of a side's latch graph that no latch breaks that both circuits name.
pub fn unpaired_report(alloc: Global, side: Side, names: &Words) -> Result<Text, NoMemory>
    ensures { IfOk result (λ text. text ≡ unpaired_text side names.now) }
{
    let mut text = Vec::new(alloc);
    put_cycle(&mut text, b"unpaired ", side, names)?;
    Ok(Seq::from_vec(text))
}

/// The report that it isn't found out whether the circuit's latch of this name has a load enable.
pub fn undecided_text(alloc: Global, side: Side, name: &Word) -> Result<Text, NoMemory>
    ensures { IfOk result (λ text. text ≡ undecided_text side name.now) }
{
    let mut text = Vec::new(alloc);
    put_behind(&mut text, b"limit recover ", side_word(side).as_bytes())?;
    put_behind(&mut text, b":", name.as_slice())?;
    put(&mut text, b" conflicts 20000\n")?;
    Ok(Seq::from_vec(text))
}

/// The report that some values meet all clauses of a pair.
pub fn satisfiable_report(alloc: Global) -> Result<Text, NoMemory>
    ensures { IfOk result (λ text. text ≡ satisfiable_text) }
{
    let mut text = Vec::new(alloc);
    put(&mut text, b"cert satisfiable\n")?;
    Ok(Seq::from_vec(text))
}

/// The report that the search of a pair's clauses met this limit of conflicts.
pub fn unsettled_text(alloc: Global, conflicts: u32) -> Result<Text, NoMemory>
    ensures { IfOk result (λ text. text ≡ unsettled_text conflicts) }
{
    let mut text = Vec::new(alloc);
    put(&mut text, b"cert limit conflicts ")?;
    put_number(alloc, &mut text, u64::from(conflicts))?;
    put(&mut text, b"\n")?;
    Ok(Seq::from_vec(text))
}
