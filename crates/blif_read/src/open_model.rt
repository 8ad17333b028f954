//! The model that is open: from its `.model` to its `.end`, to the next `.model`, or to the end.

ghost use Rattle.std.specs.Prelude.{◌≡◌, ◌<◌, ◌^◌, ◌∷◌, [], ℕ, List, true, length, map, IfOk, OnOk};
ghost use Rattle.blif_read.specs.Heads.{Line, count_fits};
ghost use Rattle.blif_read.specs.Spelled.{model_of};
ghost use Rattle.blif_read.specs.Fault.{own_fault, row_fault, last_names};
ghost use Rattle.blif_read.specs.State.{TookAnd, TookIn, MeansOpen, MeansEnded, line_with, stays};
ghost use Rattle.blif_read.specs.declared.head.Head.TheVariants as head;

use crate::blif_lines::{NameTable, NoMemory, Seq, Word, Words};
use crate::block::Block;
use crate::design::{BlifModel, Statement, Statements};
use crate::error::ReadKind;
use crate::head::Head;
use crate::names::{add_names, add_new};
use crate::statements::{latch_of, subckt_of};
use crate::stop::{Stop, fault};
use std::alloc::Global;
use std::mem;

/// A model whose lines are being read.
pub(crate) struct OpenModel {
    pub(crate) name: Word,
    pub(crate) inputs: NameTable,
    pub(crate) outputs: NameTable,
    pub(crate) clocks: NameTable,
    /// The statements before the `.names` whose rows are read.
    pub(crate) statements: Statements,
    pub(crate) block: Option<Block>,
}

/// It is let go by one call: an owner isn't taken apart field by field at each way out.
impl Drop for OpenModel {
    fn drop(self) {
        let OpenModel {
            name: _,
            inputs: _,
            outputs: _,
            clocks: _,
            statements: _,
            block: _,
        } = self;
    }
}

impl OpenModel {
    /// The model of this name, without ports and statements.
    pub(crate) fn new(alloc: Global, name: Word) -> OpenModel
        ensures { result ≡ record { name = name; inputs = []; outputs = []; clocks = []; statements = []; block = None } }
    {
        OpenModel {
            name,
            inputs: NameTable::new(alloc),
            outputs: NameTable::new(alloc),
            clocks: NameTable::new(alloc),
            statements: Seq::new(alloc),
            block: None,
        }
    }

    /// Adds a row to the `.names` whose rows are read, or says what is wrong with it.
    pub(crate) fn add_row(&mut self, alloc: Global, tokens: &[&[u8]]) -> Result<(), Stop>
        ensures { let args = map (λ t. t.now) tokens.now in (block : List Line) (number : ℕ) (word : List ℕ) → MeansOpen self.old block →
            TookAnd (row_fault (last_names [] block) args) (MeansOpen self.new (record { number = number; head = head.Row; word = word; args = args } ∷ block)) result }
    {
        match &mut self.block {
            Some(block) => block.add_row(alloc, tokens),
            None => fault(ReadKind::StrayRow),
        }
    }

    /// Puts the `.names` whose rows are read to the statements: no row comes any more.
    fn end_rows(&mut self) -> Result<(), NoMemory>
        ensures { (block : List Line) → MeansOpen self.old block → OnOk result (MeansEnded self.new block) }
    {
        if let Some(block) = self.block.take() {
            self.statements.push(block.into_statement())?;
        }
        Ok(())
    }

    fn add_inputs(&mut self, alloc: Global, args: &[&[u8]]) -> Result<(), Stop>
        ensures { (number : ℕ) → TookIn head.Inputs number (map (λ a. a.now) args.now) self.old self.new result }
    {
        if !add_names(alloc, &mut self.inputs, args)? {
            return fault(ReadKind::DuplicatePort);
        }
        Ok(())
    }

    fn add_outputs(&mut self, alloc: Global, args: &[&[u8]]) -> Result<(), Stop>
        ensures { (number : ℕ) → TookIn head.Outputs number (map (λ a. a.now) args.now) self.old self.new result }
    {
        if !add_names(alloc, &mut self.outputs, args)? {
            return fault(ReadKind::DuplicatePort);
        }
        Ok(())
    }

    fn add_clocks(&mut self, alloc: Global, args: &[&[u8]]) -> Result<(), Stop>
        ensures { (number : ℕ) → TookIn head.Clock number (map (λ a. a.now) args.now) self.old self.new result }
    {
        add_new(alloc, &mut self.clocks, args)?;
        Ok(())
    }

    fn begin_rows(&mut self, alloc: Global, number: u32, args: &[&[u8]]) -> Result<(), Stop>
        requires some { 0 < length args.now }
        requires few { length args.now < 2 ^ 32 }
        ensures { TookIn head.Names number (map (λ a. a.now) args.now) self.old self.new result }
    {
        self.block = Some(Block::new(alloc, number, args)?);
        Ok(())
    }

    fn add_latch(&mut self, alloc: Global, number: u32, args: &[&[u8]]) -> Result<(), Stop>
        requires { count_fits head.Latch (length args.now) ≡ true }
        ensures { TookIn head.Latch number (map (λ a. a.now) args.now) self.old self.new result }
    {
        self.statements.push(latch_of(alloc, number, args)?)?;
        Ok(())
    }

    fn add_subckt(&mut self, alloc: Global, number: u32, args: &[&[u8]]) -> Result<(), Stop>
        requires { 0 < length args.now }
        ensures { TookIn head.Subckt number (map (λ a. a.now) args.now) self.old self.new result }
    {
        self.statements.push(subckt_of(alloc, number, args)?)?;
        Ok(())
    }

    /// Takes a line that stays in the model and is no row.
    pub(crate) fn take_in(
        &mut self,
        alloc: Global,
        number: u32,
        head: Head,
        args: &[&[u8]],
    ) -> Result<(), Stop>
        requires within { stays head ≡ true }
        requires fit { count_fits head (length args.now) ≡ true }
        requires few { length args.now < 2 ^ 32 }
        ensures { (before block : List Line) (word : List ℕ) → MeansOpen self.old block →
            TookAnd (own_fault before block head (map (λ a. a.now) args.now)) (MeansOpen self.new (line_with number head word (map (λ a. a.now) args.now) ∷ block)) result }
    {
        self.end_rows()?;
        match head {
            Head::Inputs => self.add_inputs(alloc, args),
            Head::Outputs => self.add_outputs(alloc, args),
            Head::Clock => self.add_clocks(alloc, args),
            Head::Names => self.begin_rows(alloc, number, args),
            Head::Latch => self.add_latch(alloc, number, args),
            Head::Subckt => self.add_subckt(alloc, number, args),
            _ => Ok(()),
        }
    }

    /// The names of its ports, which are left empty.
    fn take_ports(&mut self, alloc: Global) -> Result<(Words, Words, Words), NoMemory>
        ensures names { IfOk result (λ w. (w.0 ≡ self.old.inputs) × ((w.1 ≡ self.old.outputs) × (w.2 ≡ self.old.clocks))) }
        ensures same { OnOk result ((self.new.name ≡ self.old.name) × (self.new.statements ≡ self.old.statements)) }
    {
        let inputs = mem::replace(&mut self.inputs, NameTable::new(alloc)).into_words(alloc)?;
        let outputs = mem::replace(&mut self.outputs, NameTable::new(alloc)).into_words(alloc)?;
        let clocks = mem::replace(&mut self.clocks, NameTable::new(alloc)).into_words(alloc)?;
        Ok((inputs, outputs, clocks))
    }

    /// The model, where no line of it comes any more. What was read is moved out.
    pub(crate) fn close(&mut self, alloc: Global) -> Result<BlifModel, NoMemory>
        ensures { (block : List Line) → MeansOpen self.old block → IfOk result (λ model. model ≡ model_of block) }
    {
        self.end_rows()?;
        let (inputs, outputs, clocks) = self.take_ports(alloc)?;
        Ok(BlifModel {
            name: mem::replace(&mut self.name, Seq::new(alloc)),
            inputs,
            outputs,
            clocks,
            statements: mem::replace(&mut self.statements, Seq::new(alloc)),
        })
    }
}
