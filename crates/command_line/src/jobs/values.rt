//! What the words give: paths, numbers and the mode.

ghost use Rattle.std.specs.Prelude.{◌≡◌, option_map, IfOk, IfSome, IfNone};
ghost use Rattle.std.specs.Str.Parse.{digits_value, without_leading_plus};
ghost use Rattle.clap.specs.Words.{first_of, found_of, rows_of, IsUnsignedIn};
ghost use Rattle.clap.specs.declared.builder.value_parser.ValueParser.TheVariants as parser;
ghost use Rattle.command_line.specs.Jobs.{mode_of, named_mode, mode_in, refuses_reset, is_set, number_of, conflicts_in};

use circuit_theory::Mode;
use clap::ArgMatches;
use sec_base::{FilePath, NoMemory, Seq, Word};
use std::alloc::Global;

/// The value under the id, the first where there are more.
pub(crate) fn word<'a>(matches: &ArgMatches<'a>, id: &str) -> Option<&'a str>
    ensures { option_map (λ t. t.now) result ≡ first_of id.now (rows_of (found_of matches.now)) }
{
    matches.get_str(id)
}

/// The mode of the word.
fn mode_of(word: &str) -> Option<Mode>
    ensures { result ≡ mode_of word.now }
{
    match word {
        "plain" => Some(Mode::Plain),
        "event" => Some(Mode::Event),
        _ => None,
    }
}

/// The number that the word spells, where it lies in the bounds.
fn number_between(low: u64, high: u64, word: &str) -> Option<u64>
    ensures some { IfSome result (λ n. (IsUnsignedIn low high word.now) × (digits_value 10 (without_leading_plus word.now) ≡ n)) }
    ensures none { IfNone result (IsUnsignedIn low high word.now → ⊥) }
{
    match word.parse::<u64>() {
        Ok(number) => {
            if low <= number && number <= high {
                Some(number)
            } else {
                None
            }
        }
        Err(_) => None,
    }
}

/// The same, as the parser of an option takes it.
pub(crate) fn number_of(low: u64, high: u64, word: &str) -> Option<u64>
    ensures { result ≡ number_of (parser.Unsigned low high) word.now }
{
    number_between(low, high, word)
}

pub(crate) fn is_set(matches: &ArgMatches<'_>, id: &str) -> bool
    ensures { result ≡ is_set id.now (rows_of (found_of matches.now)) }
{
    match word(matches, id) {
        Some(value) => value == "true",
        None => false,
    }
}

pub(crate) fn conflicts_in(matches: &ArgMatches<'_>) -> Option<u32>
    ensures { result ≡ conflicts_in (rows_of (found_of matches.now)) }
{
    let number = number_of(0, 200_000, word(matches, "conflicts")?)?;
    Some(number as u32)
}

/// Both words as paths of files.
pub(crate) fn paths_of(
    alloc: Global,
    first: &str,
    second: &str,
) -> Result<(FilePath, FilePath), NoMemory>
    ensures { IfOk result (λ paths. (paths.0 ≡ first.now) × (paths.1 ≡ second.now)) }
{
    Ok((
        FilePath::from_str(alloc, first)?,
        FilePath::from_str(alloc, second)?,
    ))
}

/// The word, where there is one, as the path of a file.
pub(crate) fn path_of(alloc: Global, word: Option<&str>) -> Result<Option<FilePath>, NoMemory>
    ensures { IfOk result (λ path. path ≡ option_map (λ w. w.now) word.entry) }
{
    match word {
        Some(word) => Ok(Some(FilePath::from_str(alloc, word)?)),
        None => Ok(None),
    }
}

/// The word, where there is one, as a list of bytes.
pub(crate) fn copied(alloc: Global, word: Option<&str>) -> Result<Option<Word>, NoMemory>
    ensures { IfOk result (λ copy. copy ≡ option_map (λ w. w.now) word.entry) }
{
    match word {
        Some(word) => Ok(Some(Seq::from_vec(word.as_bytes().to_vec(alloc)?))),
        None => Ok(None),
    }
}

/// Whether `--reset` can't stand beside the mode and the other words.
fn refuses_reset(matches: &ArgMatches<'_>, mode: Mode) -> bool
    ensures { result ≡ refuses_reset (rows_of (found_of matches.now)) mode }
{
    match mode {
        Mode::Plain => is_set(matches, "expose") || is_set(matches, "settles"),
        Mode::Event => true,
    }
}

/// The mode that the words name.
pub(crate) fn named_mode(matches: &ArgMatches<'_>) -> Option<Mode>
    ensures { result ≡ named_mode (rows_of (found_of matches.now)) }
{
    mode_of(word(matches, "mode")?)
}

/// The same, unless `--reset` stands beside what refuses it.
pub(crate) fn mode_in(matches: &ArgMatches<'_>) -> Option<Mode>
    ensures { result ≡ mode_in (rows_of (found_of matches.now)) }
{
    let mode = named_mode(matches)?;
    if is_set(matches, "reset") && refuses_reset(matches, mode) {
        return None;
    }
    Some(mode)
}
