//! The numbers of a line.

ghost use Rattle.std.specs.Prelude.{IfOk};
ghost use Rattle.text_numbers.specs.Lines.{tokens_of};
ghost use Rattle.lrat_core.specs.lrat_text.Parts.{AreWords};

use sec_base::NoMemory;
use text_numbers::{Number, Tokens, number_of, read_numbers};

/// What a line is by its tokens.
#[derive(Clone, Copy)]
pub(crate) enum Words {
    /// Numbers alone.
    Addition,
    /// A number, `d`, and numbers.
    Deletion,
    /// Something else.
    Malformed,
}

/// Puts the numbers of a line into the buffer, in place of those that were there.
pub(crate) fn read_words(line: &[u8], numbers: &mut Vec<Number>) -> Result<Words, NoMemory>
    ensures { IfOk result (λ words. AreWords (tokens_of line.now) words numbers.new.items) }
{
    numbers.clear();
    let mut tokens = Tokens::new(line);
    let Some(first) = tokens.next_token() else {
        return Ok(Words::Malformed);
    };
    let Some(second) = tokens.next_token() else {
        return Ok(Words::Malformed);
    };
    let Some(id) = number_of(first) else {
        return Ok(Words::Malformed);
    };
    numbers.push(id)?;
    if second == b"d".as_slice() {
        if read_numbers(tokens, numbers)? {
            return Ok(Words::Deletion);
        }
        return Ok(Words::Malformed);
    }
    let Some(next) = number_of(second) else {
        return Ok(Words::Malformed);
    };
    numbers.push(next)?;
    if read_numbers(tokens, numbers)? {
        return Ok(Words::Addition);
    }
    Ok(Words::Malformed)
}
