//! From a text to pairs of latches.

ghost use Rattle.std.specs.Prelude.{◌≡◌, ◌≤◌, ◌++◌, ◌∷◌, [], map, length, IfOk, IfErr, OnOk};
ghost use Rattle.job_pair.specs.job_renamed.Texts.{line_of, lines_with_words, SaysPairs, IsOddLine, ReadFails};

use crate::job_renamed::renamed_net::PairsStop;
use blif_read::blif_lines::{Lines, RawLine};
use job_base::PairKind;
use net_names::LatchPair;
use sec_base::{MAX_FILE_BYTES, NoMemory, Seq, Word};
use std::alloc::Global;
use text_numbers::Tokens;

/// The bytes as a name.
fn word_of(alloc: Global, bytes: &[u8]) -> Result<Word, NoMemory>
    ensures { IfOk result (λ word. word ≡ bytes.now) }
{
    Ok(Seq::from_vec(bytes.to_vec(alloc)?))
}

/// Puts the pair of a line with these two names behind the others.
fn put_pair(
    alloc: Global,
    pairs: &mut Vec<LatchPair>,
    line: u32,
    left: &[u8],
    right: &[u8],
) -> Result<(), NoMemory>
    ensures { OnOk result (pairs.new.items ≡ pairs.old.items ++ (record { line = line; left = left.now; right = right.now }) ∷ []) }
{
    let pair = LatchPair {
        line,
        left: word_of(alloc, left)?,
        right: word_of(alloc, right)?,
    };
    pairs.push(pair)?;
    Ok(())
}

/// Puts the pair of the line behind the others; a line without words says nothing.
fn take_line(alloc: Global, pairs: &mut Vec<LatchPair>, line: &RawLine) -> Result<(), PairsStop>
    ensures ok { OnOk result (map line_of pairs.new.items ≡ map line_of pairs.old.items ++ lines_with_words (line.now ∷ [])) }
    ensures err { IfErr result (IsOddLine line.now) }
{
    let mut words = Tokens::new(line.bytes.as_slice());
    let Some(left) = words.next_token() else {
        return Ok(());
    };
    let Some(right) = words.next_token() else {
        return Err(PairsStop::Line(line.number, PairKind::BadPair));
    };
    if words.next_token().is_some() {
        return Err(PairsStop::Line(line.number, PairKind::BadPair));
    }
    put_pair(alloc, pairs, line.number, left, right)?;
    Ok(())
}

/// The pairs of a text's lines, or its first line that has other than two words.
pub(crate) fn read_pairs(alloc: Global, text: &[u8]) -> Result<Vec<LatchPair>, PairsStop>
    requires { length text.now ≤ MAX_FILE_BYTES }
    ensures ok { IfOk result (λ pairs. SaysPairs text.now pairs.items) }
    ensures err { IfErr result (ReadFails text.now) }
{
    let mut pairs = Vec::new(alloc);
    let mut lines = Lines::new(text);
    while let Some(line) = lines.next_line(alloc)? {
        take_line(alloc, &mut pairs, &line)?;
    }
    Ok(pairs)
}
