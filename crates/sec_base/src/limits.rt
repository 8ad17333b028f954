//! The limits of the program, each named once.

ghost use Rattle.std.specs.Prelude.{◌≡◌};

/// The most bytes of a file that is read.
pub const MAX_FILE_BYTES: u32 = 16_777_216;

/// The most bytes of a name, also of one that the flattening makes.
pub const MAX_NAME_BYTES: usize = 4_096;

/// The most levels of the hierarchy; the main model stands on the first.
pub const MAX_LEVELS: usize = 64;

/// The most statements of the flat design.
pub const MAX_STATEMENTS: usize = 400_000;

/// The most places in which the statements of the flat design write names.
pub const MAX_PLACES: usize = 4_000_000;

/// The most places that an unfolding visits, counted with their fan-ins: its weight.
pub const MAX_WEIGHT: u32 = 2_000_000;

/// The most conflicts that a query of a pair can be allowed.
pub const MAX_CONFLICTS: u32 = 200_000;

/// The conflicts that a query of a pair is allowed where no number is given.
pub const DEFAULT_CONFLICTS: u32 = 20_000;

/// The most variables of a query that is decided by trying all assignments.
pub const MAX_TABLE_VARIABLES: usize = 16;

/// The most event nodes that one comparison reaches, the root among them.
pub const MAX_EVENT_NODES: u32 = 10_000;

/// The most event classes that one comparison founds, besides the class `always`.
pub const MAX_EVENT_CLASSES: usize = 500;

/// The most enabled latches that both cut circuits have together where they are compared in event form.
pub const MAX_ENABLED_LATCHES: usize = 30_000;

/// The law that each limit is its number: what a contract says by a limit's name, it says of this number. It does nothing.
pub fn limits_are()
    ensures texts { (MAX_FILE_BYTES ≡ 16_777_216) × (MAX_NAME_BYTES ≡ 4_096) }
    ensures designs { (MAX_LEVELS ≡ 64) × (MAX_STATEMENTS ≡ 400_000) × (MAX_PLACES ≡ 4_000_000) }
    ensures unfoldings { MAX_WEIGHT ≡ 2_000_000 }
    ensures queries { (MAX_CONFLICTS ≡ 200_000) × (DEFAULT_CONFLICTS ≡ 20_000) × (MAX_TABLE_VARIABLES ≡ 16) }
    ensures events { (MAX_EVENT_NODES ≡ 10_000) × (MAX_EVENT_CLASSES ≡ 500) × (MAX_ENABLED_LATCHES ≡ 30_000) }
{}
