//! Bytes of a line: where one stands first, and what is cut at a line's ends.

ghost use Rattle.std.specs.Prelude.{◌≡◌, ◌-◌, ◌==◌, ◌<◌, ◌≤◌, length, take};
ghost use Rattle.std.specs.List.{before_first, position_or_len};
ghost use Rattle.std.specs.Io.BufRead.{ends_with_byte, strip_last};
ghost use Rattle.blif_read.specs.blif_lines.Lines.{is_blank, is_hash, without_blanks, cut_line};

/// Whether the byte is a blank or a tab.
pub(crate) fn is_blank(byte: u8) -> bool
    ensures { result ≡ is_blank byte }
{
    byte == b' ' || byte == b'\t'
}

/// The place at which the byte stands first, or the length where it doesn't stand.
pub(crate) fn place_of(byte: u8, bytes: &[u8]) -> usize
    ensures place { result ≡ position_or_len (λ b. b == byte) bytes.now }
    ensures within { result ≤ length bytes.now }
{
    for (place, b) in bytes.iter().enumerate() {
        if *b == byte {
            return place;
        }
    }
    bytes.len()
}

/// The place of the first blank, or the length where there is none.
pub(crate) fn blank_place(bytes: &[u8]) -> usize
    ensures place { result ≡ position_or_len is_blank bytes.now }
    ensures within { result ≤ length bytes.now }
{
    for (place, b) in bytes.iter().enumerate() {
        if is_blank(*b) {
            return place;
        }
    }
    bytes.len()
}

/// Whether the bytes end with this one.
pub(crate) fn ends_with(byte: u8, bytes: &[u8]) -> bool
    ensures { result ≡ ends_with_byte byte bytes.now }
{
    bytes.len() > 0 && bytes[bytes.len() - 1] == byte
}

/// The bytes before the last one.
pub(crate) fn without_last(bytes: &[u8]) -> &[u8]
    requires { 0 < length bytes.now }
    ensures { result.now ≡ take (length bytes.now - 1) bytes.now }
{
    &bytes[..bytes.len() - 1]
}

/// A line without the carriage return at its end.
fn without_return(piece: &[u8]) -> &[u8]
    ensures { result.now ≡ strip_last 13 piece.now }
{
    if ends_with(b'\r', piece) {
        return without_last(piece);
    }
    piece
}

/// What stands before the first `#`.
fn before_comment(bytes: &[u8]) -> &[u8]
    ensures { result.now ≡ before_first is_hash bytes.now }
{
    &bytes[..place_of(b'#', bytes)]
}

/// The bytes without the blanks at their end.
fn without_blanks(bytes: &[u8]) -> &[u8]
    ensures { result.now ≡ without_blanks bytes.now }
{
    let mut end = bytes.len();
    while end > 0 && is_blank(bytes[end - 1]) {
        end -= 1;
    }
    &bytes[..end]
}

/// A physical line without its carriage return, its comment, and the blanks at its end.
pub(crate) fn cut_line(piece: &[u8]) -> &[u8]
    ensures { result.now ≡ cut_line piece.now }
{
    without_blanks(before_comment(without_return(piece)))
}
