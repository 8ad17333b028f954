//! Rows of a `.names`.

ghost use Rattle.std.specs.Prelude.{◌≡◌, ◌∷◌, [], ◌<◌, length, map};
ghost use Rattle.std.specs.List.{list_all};
ghost use Rattle.blif_read.specs.Rows.{is_row, is_on, is_output, is_place, places_of};

fn is_output(token: &[u8]) -> bool
    ensures { result ≡ is_output token.now }
{
    token == b"0".as_slice() || token == b"1".as_slice()
}

fn is_place(byte: u8) -> bool
    ensures { result ≡ is_place byte }
{
    byte == b'0' || byte == b'1' || byte == b'-'
}

fn are_places(token: &[u8]) -> bool
    ensures { result ≡ list_all is_place token.now }
{
    for byte in token {
        if !is_place(*byte) {
            return false;
        }
    }
    true
}

fn is_placed_row(width: u32, places: &[u8], out: &[u8]) -> bool
    ensures { result ≡ is_row width (places.now ∷ out.now ∷ []) }
{
    0 < width && places.len() == width as usize && are_places(places) && is_output(out)
}

/// Whether the tokens are a row under so many fan-ins.
pub(crate) fn is_row(width: u32, tokens: &[&[u8]]) -> bool
    ensures { result ≡ is_row width (map (λ t. t.now) tokens.now) }
{
    match tokens.len() {
        1 => width == 0 && is_output(tokens[0]),
        2 => is_placed_row(width, tokens[0], tokens[1]),
        _ => false,
    }
}

/// The places of a row, one for each fan-in.
pub(crate) fn places_of<'a>(tokens: &[&'a [u8]]) -> &'a [u8]
    ensures { result.now ≡ places_of (map (λ t. t.now) tokens.now) }
{
    if tokens.len() == 2 { tokens[0] } else { &[] }
}

/// Whether the output of a row is 1.
#[tactic(auto, using(crate::proofs::Tokens::last_behind))]
pub(crate) fn is_on(tokens: &[&[u8]]) -> bool
    requires { 0 < length tokens.now }
    ensures { result ≡ is_on (map (λ t. t.now) tokens.now) }
{
    tokens[tokens.len() - 1] == b"1".as_slice()
}
