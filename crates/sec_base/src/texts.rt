//! Pieces of a text that the program writes.

ghost use Rattle.std.specs.Prelude.{◌≡◌, ◌++◌, map, OnOk, OnErr};
ghost use Rattle.std.specs.Fmt.{decimal};
ghost use Rattle.sec_base.specs.Texts.{digit_of, names_text};

use base_lists::{NoMemory, Words};
use std::alloc::Global;

/// Puts the bytes behind the text. After `NoMemory` nothing has changed.
pub fn put(text: &mut Vec<u8>, bytes: &[u8]) -> Result<(), NoMemory>
    ensures ok { OnOk result (text.new.items ≡ text.old.items ++ bytes.now) }
    ensures err { OnErr result (text.new.items ≡ text.old.items) }
{
    text.extend_from_slice(bytes)?;
    Ok(())
}

/// Puts the number behind the text, in decimal digits. After `NoMemory` nothing has changed.
pub fn put_number(alloc: Global, text: &mut Vec<u8>, number: u64) -> Result<(), NoMemory>
    ensures ok { OnOk result (text.new.items ≡ text.old.items ++ decimal number) }
    ensures err { OnErr result (text.new.items ≡ text.old.items) }
{
    let digits = number.to_string(alloc)?;
    put(text, digits.as_bytes())
}

/// The digit of a bit, `1` or `0`.
pub fn digit_of(bit: bool) -> u8
    ensures { result ≡ digit_of bit }
{
    if bit { b'1' } else { b'0' }
}

/// Puts one digit for each bit behind the text. After `NoMemory` some of them stand there.
pub fn put_digits(text: &mut Vec<u8>, bits: &[bool]) -> Result<(), NoMemory>
    ensures { OnOk result (text.new.items ≡ text.old.items ++ map digit_of bits.now) }
{
    for bit in bits {
        text.push(digit_of(*bit))?;
    }
    Ok(())
}

/// Puts each name behind the text, after a blank. After `NoMemory` some of them stand there.
pub fn put_names(text: &mut Vec<u8>, names: &Words) -> Result<(), NoMemory>
    ensures { OnOk result (text.new.items ≡ text.old.items ++ names_text names.now) }
{
    for name in names.as_slice() {
        put(text, b" ")?;
        put(text, name.as_slice())?;
    }
    Ok(())
}
