//! The limit of instants.
ghost use Rattle.std.specs.Prelude.{◌≡◌, ◌^◌, ◌-◌};

/// The greatest share of a skewed function, of which 256 are the whole.
pub const SKEW_MAX: u16 = 256;

/// The last instant.
pub const TIME_MAX: u64 = 9_223_372_036_854_775_807;

/// The limit as a number. Does nothing.
pub fn graph_limits()
    ensures time { TIME_MAX ≡ 2 ^ 63 - 1 }
    ensures skew { SKEW_MAX ≡ 256 }
{}
