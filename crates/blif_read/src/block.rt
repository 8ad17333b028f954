//! The `.names` whose rows are being read.

ghost use Rattle.std.specs.Prelude.{◌≡◌, ◌<◌, ◌^◌, ◌∷◌, ◌++◌, [], ℕ, List, length, map, IfOk};
ghost use Rattle.blif_read.specs.Heads.{but_last, last_or_empty};
ghost use Rattle.blif_read.specs.Rows.{cover_of};
ghost use Rattle.blif_read.specs.blif_lines.sec_base.Cover.{IsCube};
ghost use Rattle.blif_read.specs.Fault.{row_fault_after};
ghost use Rattle.blif_read.specs.State.{TookAnd};
ghost use Rattle.blif_read.specs.declared.design.Statement.TheVariants as statement;

use crate::blif_lines::{Cover, NoMemory, Seq, Word, Words};
use crate::design::Statement;
use crate::error::ReadKind;
use crate::names::{word_of, words_of};
use crate::rows::{is_on, is_row, places_of};
use crate::stop::{Stop, fault};
use std::alloc::Global;

/// A `.names` line, and the cover of the rows that were read so far.
#[derive(Drop)]
pub(crate) struct Block {
    pub(crate) line: u32,
    pub(crate) fanins: Words,
    pub(crate) out: Word,
    pub(crate) cover: Cover,
}

/// The cover of one row.
fn one_row(alloc: Global, width: u32, row: Word, on: bool) -> Result<Cover, NoMemory>
    requires { IsCube width row }
    ensures { IfOk result (λ cover. cover ≡ record { width = width; rows = row ∷ []; on = on }) }
{
    let mut rows = Seq::new(alloc);
    rows.push(row)?;
    Ok(Cover::from_rows(width, rows, on))
}

impl Block {
    /// The `.names` of these tokens, the last of which is the output.
    pub(crate) fn new(alloc: Global, line: u32, args: &[&[u8]]) -> Result<Block, NoMemory>
        requires some { 0 < length args.now }
        requires few { length args.now < 2 ^ 32 }
        ensures { let names = map (λ a. a.now) args.now in IfOk result (λ b. b ≡ record { line = line; fanins = but_last names; out = last_or_empty names; cover = cover_of (length (but_last names)) [] }) }
    {
        let count = args.len() - 1;
        Ok(Block {
            line,
            fanins: words_of(alloc, &args[..count])?,
            out: word_of(alloc, args[count])?,
            cover: Cover::new(alloc, count as u32),
        })
    }

    /// Adds a row, or says what is wrong with it.
    pub(crate) fn add_row(&mut self, alloc: Global, tokens: &[&[u8]]) -> Result<(), Stop>
        ensures { (width : ℕ) (rows : List (List (List ℕ))) → self.old.cover ≡ cover_of width rows →
            TookAnd (row_fault_after width rows (map (λ t. t.now) tokens.now)) (self.new ≡ record self.old { cover = cover_of width (rows ++ map (λ t. t.now) tokens.now ∷ []) }) result }
    {
        let width = self.cover.width();
        if !is_row(width, tokens) {
            return fault(ReadKind::BadRow);
        }
        let on = is_on(tokens);
        let row = word_of(alloc, places_of(tokens))?;
        if self.cover.rows().is_empty() {
            self.cover = one_row(alloc, width, row, on)?;
            return Ok(());
        }
        if on != self.cover.on() {
            return fault(ReadKind::MixedCover);
        }
        self.cover.push_row(row)?;
        Ok(())
    }

    /// The statement, where no row comes any more.
    pub(crate) fn into_statement(self) -> Statement
        ensures { result ≡ statement.Names self.line self.fanins self.out self.cover }
    {
        let Block {
            line,
            fanins,
            out,
            cover,
        } = self;
        Statement::Names {
            line,
            fanins,
            out,
            cover,
        }
    }
}
