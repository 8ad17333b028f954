//! Numbers in groups of seven bits.

ghost use Rattle.std.specs.Prelude.{◌≡◌, ◌<◌, ◌≤◌, length, MatchOption, IfSome, None, Some};
ghost use Rattle.aiger_read.specs.aiger_records.Packed.{packed};

/// A number, and what stands after it.
#[derive(Clone, Copy)]
pub struct PackedNumber<'a> {
    pub value: u32,
    pub after: &'a [u8],
}

/// The number that the text begins with, in at most so many groups of seven bits, the low group first. A byte from 128 up
/// is continued by the next byte. None where the number is cut off, has more groups, or is above 2^32 - 1.
pub fn packed(groups: u32, text: &[u8]) -> Option<PackedNumber<'_>>
    ensures number { MatchOption result (packed groups text.now ≡ None) (λ p. packed groups text.now ≡ Some (record { value = p.value; after = p.after.now })) }
    ensures shorter { IfSome result (λ p. length p.after.now < length text.now) }
{
    let [byte, after @ ..] = text else {
        return None;
    };
    if groups == 0 {
        return None;
    }
    if *byte < 128 {
        return Some(PackedNumber {
            value: u32::from(*byte),
            after,
        });
    }
    let PackedNumber { value, after } = packed(groups - 1, after)?;
    let value = u64::from(value) * 128 + u64::from(*byte - 128);
    if value > u64::from(u32::MAX) {
        return None;
    }
    Some(PackedNumber {
        value: value as u32,
        after,
    })
}
