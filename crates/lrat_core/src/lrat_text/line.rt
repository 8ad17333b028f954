//! A line of an LRAT text.

ghost use Rattle.std.specs.Prelude.{◌≡◌, ◌≤◌, ◌^◌, IfOk};
ghost use Rattle.lrat_core.specs.lrat_text.Spellings.{is_comment, spelling_of};
ghost use Rattle.lrat_core.specs.lrat_text.Parts.{IsForm};

use crate::Hint;
use crate::lrat_text::addition::{read_addition, read_deletion};
use crate::lrat_text::words::{Words, read_words};
use proof_check::Literal;
use sec_base::NoMemory;
use std::alloc::Global;
use text_numbers::Number;

/// Whether a line is passed over: it is empty, or begins with `c`.
fn is_comment(line: &[u8]) -> bool
    ensures { result ≡ is_comment line.now }
{
    match line {
        [] => true,
        [first, ..] => *first == b'c',
    }
}

/// What a line is.
#[derive(Clone, Copy)]
pub(crate) enum Form {
    /// It is passed over.
    Nothing,
    /// It is neither an addition nor a deletion.
    Malformed,
    /// An addition of this number, whose literals and hints stand in the buffers.
    Addition(u64),
    /// A deletion, whose numbers stand in the buffers.
    Deletion,
}

/// The parts of the line that was read last. The memory serves all lines.
pub(crate) struct Buffers {
    pub(crate) numbers: Vec<Number>,
    pub(crate) literals: Vec<Literal>,
    pub(crate) hints: Vec<Hint>,
    pub(crate) ids: Vec<u64>,
}

/// It is let go by one call: an owner isn't taken apart field by field at each way out.
impl Drop for Buffers {
    fn drop(self) {
        let Buffers {
            numbers: _,
            literals: _,
            hints: _,
            ids: _,
        } = self;
    }
}

impl Buffers {
    /// Before the first line. It takes no memory.
    pub(crate) fn new(alloc: Global) -> Buffers {
        Buffers {
            numbers: Vec::new(alloc),
            literals: Vec::new(alloc),
            hints: Vec::new(alloc),
            ids: Vec::new(alloc),
        }
    }

    /// Reads a line, in which literals have variables up to the limit.
    pub(crate) fn read_line(&mut self, limit: u32, line: &[u8]) -> Result<Form, NoMemory>
        requires { limit ≤ 2 ^ 30 }
        ensures { IfOk result (λ form. IsForm (spelling_of limit line.now) form self.new) }
    {
        if is_comment(line) {
            return Ok(Form::Nothing);
        }
        match read_words(line, &mut self.numbers)? {
            Words::Addition => {
                let numbers = self.numbers.as_slice();
                match read_addition(limit, numbers, &mut self.literals, &mut self.hints)? {
                    Some(id) => Ok(Form::Addition(id)),
                    None => Ok(Form::Malformed),
                }
            }
            Words::Deletion => {
                if read_deletion(self.numbers.as_slice(), &mut self.ids)? {
                    return Ok(Form::Deletion);
                }
                Ok(Form::Malformed)
            }
            Words::Malformed => Ok(Form::Malformed),
        }
    }
}
