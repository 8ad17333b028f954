//! What a table numbers, and where it is looked for.

ghost use Rattle.std.specs.Prelude.{◌≡◌, ℕ, ◌+◌, ◌%◌, ◌^◌, IsTrue, ◌↔◌};
ghost use Rattle.base_tables.specs.unique_table.Places.{mixed};

/// A key is looked for at one place after the other, up to the first that is free.
pub trait Key: Copy {
    ghost place_at: { Self → ℕ → ℕ };

    /// The place of this step of the search, in a table of 2^32 places. A smaller table has it at what is left behind its last.
    fn place(self, step: u32) -> u32
        ensures { result ≡ place_at self step };

    /// Whether the keys are one.
    fn is(self, other: Self) -> bool
        ensures { IsTrue result ↔ self ≡ other };
}

/// Two numbers mixed to one that depends on each of their bits.
#[tactic(auto, unfolding(crate::specs::unique_table::Places::mixed))]
pub fn mixed(a: u32, b: u32) -> u32
    ensures { result ≡ mixed a b }
{
    let word = (a as u64 * 0x1_0000_0000 + b as u64).wrapping_mul(0x9E37_79B9_7F4A_7C15);
    let folded = (word ^ (word >> 32)).wrapping_mul(0xD6E8_FEB8_6659_FD93);
    (folded >> 32) as u32
}

impl Key for u32 {
    ghost use Rattle.std.specs.Prelude.{◌+◌, ◌%◌, ◌^◌};
    ghost use Rattle.base_tables.specs.unique_table.Places.{mixed};

    ghost place_at = { λ key step. (mixed 0 key + step) % 2 ^ 32 };

    fn place(self, step: u32) -> u32 {
        mixed(0, self).wrapping_add(step)
    }

    fn is(self, other: u32) -> bool {
        self == other
    }
}

impl Key for (u32, u32) {
    ghost use Rattle.std.specs.Prelude.{◌+◌, ◌%◌, ◌^◌};
    ghost use Rattle.base_tables.specs.unique_table.Places.{mixed};

    ghost place_at = { λ key step. (mixed key.0 key.1 + step) % 2 ^ 32 };

    fn place(self, step: u32) -> u32 {
        mixed(self.0, self.1).wrapping_add(step)
    }

    fn is(self, other: (u32, u32)) -> bool {
        self.0 == other.0 && self.1 == other.1
    }
}
