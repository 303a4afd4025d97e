//! What is said of a function beside its values: whether it goes row by row, and flags.
ghost use Rattle.std.specs.Prelude.{◌≡◌};
ghost use Rattle.plan_dsl.specs.Functions.{is_by_row};

use bitflags::{Flag, Flags, bitflag_items};

/// Whether a function gives a value for each row, of that row's values alone, or goes by whole columns.
#[derive(Clone, Copy, PartialEq, Eq, Hash)]
pub enum ApplyOptions {
    ElementWise,
    GroupWise,
}

/// A set of flags of functions.
#[derive(Clone, Copy, PartialEq, Eq, Hash)]
pub struct FunctionFlags(u8);

bitflag_items! {
    impl FunctionFlags: u8 {
        const RETURNS_SCALAR = 1;
        const CHANGES_LENGTH = 2;
        const INPUT_WILDCARD_EXPANSION = 4;
        const NEVER_FAULTS = 8;
    }
}

impl Flags for FunctionFlags {
    ghost use Rattle.std.specs.Prelude.{⊤, [], ◌∷◌, codes};

    type Bits = u8;

    ghost exact = { ⊤ };

    ghost table = { (codes "RETURNS_SCALAR", 1) ∷ (codes "CHANGES_LENGTH", 2) ∷ (codes "INPUT_WILDCARD_EXPANSION", 4) ∷ (codes "NEVER_FAULTS", 8) ∷ [] };

    ghost set_of = { λ flags. flags.0 };

    fn flags<'a>() -> &'a [Flag<FunctionFlags>] {
        FunctionFlags::FLAGS
    }

    fn bits(&self) -> u8 {
        self.0
    }

    fn from_bits_retain(bits: u8) -> FunctionFlags {
        FunctionFlags(bits)
    }
}

/// What is said of a function beside its values.
#[derive(Clone, Copy, PartialEq, Eq, Hash)]
pub struct FunctionOptions {
    pub collect_groups: ApplyOptions,
    pub flags: FunctionFlags,
}

impl FunctionOptions {
    /// Whether the function goes row by row.
    pub fn is_elementwise(&self) -> bool
        ensures { result ≡ is_by_row self.now.collect_groups }
    {
        matches!(self.collect_groups, ApplyOptions::ElementWise)
    }
}
