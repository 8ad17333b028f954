//! Designs: models with their ports and statements, as a BLIF text gives them.

ghost use Rattle.std.specs.Prelude.{◌≡◌, ◌<◌, ◌≤◌, [], true, false, not, length};
ghost use Rattle.std.specs.List.{list_all};
ghost use Rattle.blif_read.specs.blif_lines.sec_base.TheConstants.{MAX_FILE_BYTES};
ghost use Rattle.blif_read.specs.Kept.{is_plain, covers_fit, written_names, model_names, ports_distinct};
ghost use Rattle.blif_read.specs.Fault.{repeats};
ghost use Rattle.blif_read.specs.blif_lines.Lines.{is_empty};

use crate::blif_lines::{Cover, Edge, Init, Seq, Word, Words};

/// A pair of a `.subckt` statement: a signal name of the model that is used, and the signal of the model around it.
#[derive(Drop)]
pub struct Pair {
    pub formal: Word,
    pub actual: Word,
}

/// Pairs of one `.subckt`, in their order.
pub type Pairs = Seq<Pair>;

/// A statement of a model, with the number of the line on which it begins, from 1.
#[derive(Drop)]
pub enum Statement {
    /// `.names`: the output has the cover's value of the fan-ins.
    Names {
        line: u32,
        fanins: Words,
        out: Word,
        cover: Cover,
    },
    /// `.latch`: the output has in the next clock cycle what the input has now.
    Latch {
        line: u32,
        input: Word,
        output: Word,
        edge: Option<Edge>,
        /// The clock; `None` where the statement has none or has `NIL`.
        control: Option<Word>,
        init: Init,
    },
    /// `.subckt`: an instance of a model.
    Subckt {
        line: u32,
        model: Word,
        pairs: Pairs,
    },
}

/// Statements of one model, in their order.
pub type Statements = Seq<Statement>;

/// A model: its ports and its statements, in the order of the text.
#[derive(Drop)]
pub struct BlifModel {
    pub name: Word,
    pub inputs: Words,
    pub outputs: Words,
    pub clocks: Words,
    pub statements: Statements,
}

/// Models, in their order.
pub type BlifModels = Seq<BlifModel>;

/// A design: the models of a text. The first is the main one.
#[derive(Drop)]
pub struct Design {
    pub models: BlifModels,
    /// There is a main model.
    ghost some: { 0 < length models },
    /// No name holds `#`, so that names with it can be made.
    ghost plain: { list_all is_plain (written_names models) ≡ true },
    /// Each cover has a column for each fan-in.
    ghost fit: { list_all covers_fit models ≡ true },
    /// Model names are distinct.
    ghost distinct: { repeats [] (model_names models) ≡ false },
    /// A model's inputs are distinct, and so are its outputs.
    ghost ports: { list_all ports_distinct models ≡ true },
    /// No name is empty.
    ghost named: { list_all (λ n. not (is_empty n)) (written_names models) ≡ true },
    /// No more names are written than a text has bytes at most.
    ghost few: { length (written_names models) ≤ MAX_FILE_BYTES },
}
