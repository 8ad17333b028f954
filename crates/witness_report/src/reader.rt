//! Stimuli out of texts.

ghost use Rattle.std.specs.Prelude.{◌≡◌, ◌+◌, ◌==◌, ◌^◌, ◌<◌, ℕ, Bool, List, ◌∷◌, length, codes, bytes_eq, IfOk, IfSome, IfNone, MatchResult, IsErrOf, MatchOption, Contains, false};
ghost use Rattle.std.specs.List.{slice_split};
ghost use Rattle.std.specs.Io.BufRead.{strip_last, ends_with_byte};
ghost use Rattle.witness_report.specs.Text.{header_line};
ghost use Rattle.witness_report.specs.Form.{AreNames, IsForm, HasNoHeader, IsBadRow};
ghost use Rattle.witness_report.specs.declared.error.StimError.TheVariants as stim_error;

use crate::error::StimError;
use crate::pieces::Pieces;
use crate::rows::read_rows;
use crate::stimulus::Stimulus;
use base_tables::NameTable;
use sec_base::{NoMemory, Words};
use std::alloc::Global;

/// The text without one line feed at its end.
fn without_last_feed(text: &[u8]) -> &[u8]
    ensures { result.now ≡ strip_last 10 text.now }
{
    if text.len() > 0 && text[text.len() - 1] == b'\n' {
        return &text[..text.len() - 1];
    }
    text
}

/// The names of a header, or none where the line is no header.
fn read_header(alloc: Global, line: &[u8]) -> Result<Option<Words>, NoMemory>
    requires { Contains line.now 10 → ⊥ }
    ensures some { IfOk result (λ found. IfSome found (λ names. (line.now ≡ header_line names) × AreNames names)) }
    ensures none { IfOk result (λ found. IfNone found ((names : List (List ℕ)) → AreNames names → line.now ≡ header_line names → ⊥)) }
{
    let mut pieces = Pieces::new(line, b' ');
    if !begins(pieces.next_piece()) {
        return Ok(None);
    }
    let mut names = NameTable::new(alloc);
    while let Some(name) = pieces.next_piece() {
        if name.is_empty() {
            return Ok(None);
        }
        if !names.add(alloc, name)? {
            return Ok(None);
        }
    }
    names.keeps();
    Ok(Some(names.into_words(alloc)?))
}

/// Whether there is a piece, and it is the header's first word.
fn begins(piece: Option<&[u8]>) -> bool
    ensures { MatchOption piece.entry (result ≡ false) (λ word. result ≡ bytes_eq word.now (codes "inputs")) }
{
    match piece {
        Some(word) => word == b"inputs".as_slice(),
        None => false,
    }
}

/// Reads a stimulus: a line `inputs` with the names, each nonempty, after one blank and once, and then for each cycle
/// a line with one digit for each name, or `-` where there are no names. A line feed at the end may be left out.
/// `BadHeader` and `BadRow` name the first faulty line. A text has fewer than 2^32 - 2 bytes.
pub fn read_stimulus(alloc: Global, text: &[u8]) -> Result<Stimulus, StimError>
    requires { length text.now + 2 < 2 ^ 32 }
    ensures ok { IfOk result (λ s. IsForm text.now s.names s.rows) }
    ensures header { (n : ℕ) → IsErrOf result (stim_error.BadHeader n) → (n ≡ 1) × HasNoHeader text.now }
    ensures row { (n : ℕ) → IsErrOf result (stim_error.BadRow n) → IsBadRow text.now n }
    ensures all { (names : List (List ℕ)) (rows : List (List Bool)) → IsForm text.now names rows →
        MatchResult result (λ s. (s.names ≡ names) × (s.rows ≡ rows)) (λ e. e ≡ stim_error.NoMemory) }
{
    let mut lines = Pieces::new(without_last_feed(text), b'\n');
    let Some(header) = lines.next_piece() else {
        return Err(StimError::BadHeader { line: 1 });
    };
    let Some(names) = read_header(alloc, header)? else {
        return Err(StimError::BadHeader { line: 1 });
    };
    match read_rows(alloc, names.len(), lines) {
        Ok(rows) => Ok(Stimulus { names, rows }),
        Err(error) => Err(error),
    }
}
