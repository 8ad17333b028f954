//! Reads a text line by line into a design.

ghost use Rattle.std.specs.Prelude.{◌≡◌, ◌<◌, ◌≤◌, ◌^◌, ◌∷◌, [], ◌&&◌, not, ℕ, List, true, false, is_none, length, map, IfOk, OnOk};
ghost use Rattle.blif_read.specs.blif_lines.Lines.{tokens_of};
ghost use Rattle.blif_read.specs.Heads.{Line, line_of, count_fits};
ghost use Rattle.blif_read.specs.Spelled.{models_of};
ghost use Rattle.blif_read.specs.Fault.{fault_of, word_fault, row_line_fault, open_model, is_model_head};
ghost use Rattle.blif_read.specs.Reading.{Reads};
ghost use Rattle.blif_read.specs.State.{Means, TookAnd, TookWord, TookLine, TookLines, ReadModels, line_with, is_word, stays, refusal_at};
ghost use Rattle.blif_read.specs.declared.head.Head.TheVariants as head;

use crate::blif_lines::{
    Lines, MAX_FILE_BYTES, NameTable, NoMemory, RawLine, Seq, Word, tokens_of,
};
use crate::design::{BlifModels, Design};
use crate::error::{ReadError, ReadKind};
use crate::head::{Head, any_control, gate, head_of};
use crate::names::word_of;
use crate::open_model::OpenModel;
use crate::stop::{Stop, fault};
use std::alloc::Global;
use std::mem;

/// What was read so far.
#[derive(Drop)]
pub(crate) struct Reader {
    /// The names of all models, the open one's among them.
    pub(crate) names: NameTable,
    /// The closed models.
    pub(crate) models: BlifModels,
    pub(crate) current: Option<OpenModel>,
}

impl Reader {
    fn new(alloc: Global) -> Reader
        ensures { Means result [] }
    {
        Reader {
            names: NameTable::new(alloc),
            models: Seq::new(alloc),
            current: None,
        }
    }

    /// Puts the open model to the others.
    fn close(&mut self, alloc: Global) -> Result<(), NoMemory>
        ensures { (before : List Line) → Means self.old before → OnOk result ((self.new.names ≡ self.old.names) × (self.new.current ≡ None) × (self.new.models ≡ models_of before)) }
    {
        if let Some(current) = &mut self.current {
            self.models.push(current.close(alloc)?)?;
        }
        self.open(None);
        Ok(())
    }

    /// Has this model open, or none, in place of the one that is closed.
    fn open(&mut self, model: Option<OpenModel>)
        ensures { self.new ≡ record self.old { current = model } }
    {
        self.current = model;
    }

    /// Opens the model of this name.
    fn begin(&mut self, alloc: Global, name: &[u8]) -> Result<(), Stop>
        ensures { (number : ℕ) → TookWord head.Model number (name.now ∷ []) self.old self.new result }
    {
        self.close(alloc)?;
        if !self.names.add(alloc, name)? {
            return fault(ReadKind::DuplicateModel);
        }
        let model = OpenModel::new(alloc, word_of(alloc, name)?);
        self.open(Some(model));
        Ok(())
    }

    /// Closes the model that is open.
    fn end(&mut self, alloc: Global) -> Result<(), Stop>
        ensures { (number : ℕ) → TookWord head.End number [] self.old self.new result }
    {
        self.close(alloc)?;
        Ok(())
    }

    fn take_statement(
        &mut self,
        alloc: Global,
        number: u32,
        head: Head,
        args: &[&[u8]],
    ) -> Result<(), Stop>
        requires within { stays head ≡ true }
        requires opened { is_none self.old.current ≡ false }
        requires fit { count_fits head (length args.now) ≡ true }
        requires few { length args.now < 2 ^ 32 }
        ensures { TookWord head number (map (λ a. a.now) args.now) self.old self.new result }
    {
        match &mut self.current {
            Some(current) => current.take_in(alloc, number, head, args),
            None => fault(ReadKind::NoModel),
        }
    }

    /// Takes a word line whose names fit.
    fn take_known(
        &mut self,
        alloc: Global,
        number: u32,
        head: Head,
        args: &[&[u8]],
    ) -> Result<(), Stop>
        requires known { is_word head ≡ true }
        requires opened { is_none self.old.current && not (is_model_head head) ≡ false }
        requires fit { count_fits head (length args.now) ≡ true }
        requires few { length args.now < 2 ^ 32 }
        ensures { TookWord head number (map (λ a. a.now) args.now) self.old self.new result }
    {
        match head {
            Head::Model => self.begin(alloc, args[0]),
            Head::End => self.end(alloc),
            _ => self.take_statement(alloc, number, head, args),
        }
    }

    fn take_word(
        &mut self,
        alloc: Global,
        number: u32,
        head: Head,
        args: &[&[u8]],
    ) -> Result<(), Stop>
        requires known { is_word head ≡ true }
        requires few { length args.now < 2 ^ 32 }
        ensures { (before : List Line) (word : List ℕ) → Means self.old before →
            TookAnd (word_fault before (open_model before) head (map (λ a. a.now) args.now)) (Means self.new (line_with number head word (map (λ a. a.now) args.now) ∷ before)) result }
    {
        if let Some(kind) = gate(self.current.is_none(), head, args) {
            return fault(kind);
        }
        self.take_known(alloc, number, head, args)
    }

    fn take_row(&mut self, alloc: Global, tokens: &[&[u8]]) -> Result<(), Stop>
        ensures { let args = map (λ t. t.now) tokens.now in (before : List Line) (number : ℕ) (word : List ℕ) → Means self.old before →
            TookAnd (row_line_fault (open_model before) args) (Means self.new (line_with number head.Row word args ∷ before)) result }
    {
        match &mut self.current {
            Some(current) => current.add_row(alloc, tokens),
            None => fault(ReadKind::NoModel),
        }
    }

    /// Takes the line of these tokens, or says what is wrong with it.
    fn take(&mut self, alloc: Global, number: u32, tokens: &[&[u8]]) -> Result<(), Stop>
        requires some { 0 < length tokens.now }
        requires few { length tokens.now < 2 ^ 32 }
        ensures { let line = line_of number (map (λ t. t.now) tokens.now) in (before : List Line) → Means self.old before →
            TookAnd (fault_of before line) (Means self.new (line ∷ before)) result }
    {
        if any_control(tokens) {
            return fault(ReadKind::ControlByte);
        }
        let head = head_of(tokens[0]);
        match head {
            Head::Row => self.take_row(alloc, tokens),
            Head::Unsupported => fault(ReadKind::Unsupported(word_of(alloc, tokens[0])?)),
            Head::Unknown => fault(ReadKind::UnknownWord),
            _ => self.take_word(alloc, number, head, &tokens[1..]),
        }
    }

    /// Takes a line, which may have no tokens.
    fn take_line(&mut self, alloc: Global, line: &RawLine) -> Result<(), ReadError>
        requires { length line.now.bytes ≤ MAX_FILE_BYTES }
        ensures { (before : List Line) → Means self.old before → TookLine line.now.number (tokens_of line.now.bytes) before self.new result }
    {
        let Ok(tokens) = tokens_of(alloc, line.bytes.as_slice()) else {
            return Err(ReadError::NoMemory);
        };
        if tokens.is_empty() {
            return Ok(());
        }
        if let Err(stop) = self.take(alloc, line.number, &tokens) {
            return Err(at_line(line.number, stop));
        }
        Ok(())
    }

    /// Takes the lines of a text.
    fn take_lines(&mut self, alloc: Global, text: &[u8]) -> Result<(), ReadError>
        requires begun { Means self.old [] }
        requires short { length text.now ≤ MAX_FILE_BYTES }
        ensures { TookLines text.now self.new result }
    {
        let mut lines = Lines::new(text);
        while let Some(line) = lines.next_line(alloc)? {
            self.take_line(alloc, &line)?;
        }
        Ok(())
    }

    /// The models of a text, or its first faulty line.
    fn read(&mut self, alloc: Global, text: &[u8]) -> Result<BlifModels, ReadError>
        requires begun { Means self.old [] }
        requires short { length text.now ≤ MAX_FILE_BYTES }
        ensures { ReadModels text.now result }
    {
        self.take_lines(alloc, text)?;
        Ok(self.finish(alloc)?)
    }

    /// The models, where no line comes any more. They are moved out.
    fn finish(&mut self, alloc: Global) -> Result<BlifModels, NoMemory>
        ensures { (before : List Line) → Means self.old before → IfOk result (λ models. models ≡ models_of before) }
    {
        self.close(alloc)?;
        Ok(mem::replace(&mut self.models, Seq::new(alloc)))
    }
}

/// The refusal of a line with this number.
fn at_line(line: u32, stop: Stop) -> ReadError
    ensures { result ≡ refusal_at line stop }
{
    match stop {
        Stop::NoMemory => ReadError::NoMemory,
        Stop::Fault(kind) => ReadError::At { line, kind },
    }
}

/// The models of a text, or its first faulty line.
fn read_models(alloc: Global, text: &[u8]) -> Result<BlifModels, ReadError>
    requires { length text.now ≤ MAX_FILE_BYTES }
    ensures { ReadModels text.now result }
{
    let mut reader = Reader::new(alloc);
    reader.read(alloc, text)
}

/// Reads a BLIF text as a design, or says which line is the first faulty one and what is wrong with
/// it. A text has at most 16,777,216 bytes. Where memory was wanted and could not be had, the answer
/// is `NoMemory`.
pub fn read_design(alloc: Global, text: &[u8]) -> Result<Design, ReadError>
    requires { length text.now ≤ MAX_FILE_BYTES }
    ensures { Reads text.now result }
{
    let models = read_models(alloc, text)?;
    if models.len() == 0 {
        return Err(ReadError::At {
            line: 0,
            kind: ReadKind::NoModel,
        });
    }
    Ok(Design { models })
}
