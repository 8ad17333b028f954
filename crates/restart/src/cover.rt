//! Covers of bits of which some aren't known.

ghost use Rattle.std.specs.Prelude.{◌≡◌, ◌<◌, None, length, map, slice_index_or, All};
ghost use Rattle.sec_base.specs.Cover.{IsCoverSound};
ghost use Rattle.circuit_laws.specs.start_laws.Known.{three_not, three_and, three_or, place_three, row_three, rows_three, cover_three};

use flat_net::{Cover, Signal, Word};

fn three_not(bit: Option<bool>) -> Option<bool>
    ensures { result ≡ three_not bit }
{
    match bit {
        Some(known) => Some(!known),
        None => None,
    }
}

fn three_and(left: Option<bool>, right: Option<bool>) -> Option<bool>
    ensures { result ≡ three_and left right }
{
    match left {
        Some(true) => right,
        Some(false) => Some(false),
        None => match right {
            Some(false) => Some(false),
            _ => None,
        },
    }
}

fn three_or(left: Option<bool>, right: Option<bool>) -> Option<bool>
    ensures { result ≡ three_or left right }
{
    match left {
        Some(true) => Some(true),
        Some(false) => right,
        None => match right {
            Some(true) => Some(true),
            _ => None,
        },
    }
}

/// Whether a place of a row matches the bit.
fn place_three(place: u8, bit: Option<bool>) -> Option<bool>
    ensures { result ≡ place_three place bit }
{
    if place == b'-' {
        return Some(true);
    }
    match bit {
        Some(known) => Some(place == if known { b'1' } else { b'0' }),
        None => None,
    }
}

/// Whether a row matches the fan-ins' values.
fn row_three(row: &[u8], fanins: &[Signal], values: &[Option<bool>]) -> Option<bool>
    requires width { length row.now ≡ length fanins.now }
    requires within { All (λ f. f.0 < length values.now) fanins.now }
    ensures { result ≡ row_three row.now (map (λ f. slice_index_or values.now f.0 None) fanins.now) }
{
    let mut matches = Some(true);
    for (i, place) in row.iter().enumerate() {
        let bit = values[fanins[i].0 as usize];
        matches = three_and(matches, place_three(*place, bit));
    }
    matches
}

/// Whether some row does.
fn rows_three(rows: &[Word], fanins: &[Signal], values: &[Option<bool>]) -> Option<bool>
    requires width { All (λ row. length row ≡ length fanins.now) rows.now }
    requires within { All (λ f. f.0 < length values.now) fanins.now }
    ensures { result ≡ rows_three rows.now (map (λ f. slice_index_or values.now f.0 None) fanins.now) }
{
    let mut found = Some(false);
    for row in rows {
        found = three_or(found, row_three(row.as_slice(), fanins, values));
    }
    found
}

/// The cover's value of the fan-ins' values, where that is known row by row.
pub(crate) fn cover_three(cover: &Cover, fanins: &[Signal], values: &[Option<bool>]) -> Option<bool>
    requires width { cover.now.width ≡ length fanins.now }
    requires sound { IsCoverSound cover.now }
    requires within { All (λ f. f.0 < length values.now) fanins.now }
    ensures { result ≡ cover_three cover.now (map (λ f. slice_index_or values.now f.0 None) fanins.now) }
{
    let found = rows_three(cover.rows(), fanins, values);
    if cover.on() { found } else { three_not(found) }
}
