//! Whether a stimulus and a power word fit a circuit.

ghost use Rattle.std.specs.Prelude.{◌≡◌, ◌==◌, ◌||◌, length, map, option_map, IfOk};
ghost use Rattle.std.specs.List.{list_all};
ghost use Rattle.circuit_report.specs.sim_report.Checks.{is_power_word, is_power, word_bits, first_misfit};

use crate::sim_report::refusal::Misfit;
use base_tables::NameTable;
use flat_net::Net;
use sec_base::{Bits, NoMemory, Seq};
use sec_setup::ports::name_tables::{first_missing, table_of_inputs, word_of};
use std::alloc::Global;

fn is_digit(digit: u8) -> bool
    ensures { result ≡ ((digit == 48) || (digit == 49)) }
{
    digit == b'0' || digit == b'1'
}

fn are_digits(word: &[u8]) -> bool
    ensures { result ≡ list_all (λ digit. (digit == 48) || (digit == 49)) word.now }
{
    for digit in word {
        if !is_digit(*digit) {
            return false;
        }
    }
    true
}

/// Whether the word has one digit `0` or `1` for each latch.
fn is_power_word(net: &Net, word: &[u8]) -> bool
    ensures { result ≡ is_power_word net.now word.now }
{
    if word.len() != net.latches().len() {
        return false;
    }
    are_digits(word)
}

/// Whether there is no power word, or it has one digit `0` or `1` for each latch.
fn is_power(net: &Net, power: Option<&[u8]>) -> bool
    ensures { result ≡ is_power net.now (option_map (λ word. word.now) power.entry) }
{
    match power {
        Some(word) => is_power_word(net, word),
        None => true,
    }
}

/// One bit for each latch: those of the power word, or 0.
pub(crate) fn word_bits(alloc: Global, net: &Net, power: Option<&[u8]>) -> Result<Bits, NoMemory>
    ensures { IfOk result (λ bits. bits ≡ word_bits net.now (option_map (λ word. word.now) power.entry)) }
{
    match power {
        Some(word) => bits_of(alloc, word),
        None => Ok(Seq::from_vec(vec![in alloc; false; net.latches().len()]?)),
    }
}

/// The bits of the digits.
fn bits_of(alloc: Global, digits: &[u8]) -> Result<Bits, NoMemory>
    ensures { IfOk result (λ bits. bits ≡ map (λ digit. digit == 49) digits.now) }
{
    let mut bits = Bits::new(alloc);
    for digit in digits {
        bits.push(*digit == b'1')?;
    }
    Ok(bits)
}

/// The first that doesn't fit: a name of the header that is no input, an input that the header lacks, the power word.
pub(crate) fn first_misfit(
    alloc: Global,
    net: &Net,
    names: &NameTable,
    power: Option<&[u8]>,
) -> Result<Option<Misfit>, NoMemory>
    ensures { IfOk result (λ misfit. misfit ≡ first_misfit net.now names.now (option_map (λ word. word.now) power.entry)) }
{
    let inputs = table_of_inputs(alloc, net)?;
    if let Some(name) = first_missing(names, &inputs) {
        return Ok(Some(Misfit::Unknown(word_of(alloc, name)?)));
    }
    if let Some(name) = first_missing(&inputs, names) {
        return Ok(Some(Misfit::Missing(word_of(alloc, name)?)));
    }
    if !is_power(net, power) {
        return Ok(Some(Misfit::Power));
    }
    Ok(None)
}
