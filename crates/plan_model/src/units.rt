//! Units of time, and the weight of a whole.
ghost use Rattle.std.specs.Prelude.{◌≡◌};
ghost use Rattle.plan_model.specs.declared.units.TheConstants.{SECONDS_PER_HOUR, HOURS_PER_DAY, SECONDS_PER_DAY, NANOS_PER_SECOND, WHOLE_WEIGHT};

/// The seconds of an hour.
pub const SECONDS_PER_HOUR: u64 = 3_600;

/// The hours of a day.
pub const HOURS_PER_DAY: u64 = 24;

/// The seconds of a day.
pub const SECONDS_PER_DAY: u32 = 86_400;

/// The nanoseconds of a second.
pub const NANOS_PER_SECOND: u64 = 1_000_000_000;

/// The sum of the weights of a class of delays.
pub const WHOLE_WEIGHT: u32 = 10_000;

/// A law, with no code: the units are these numbers. Definitions take them from the constants.
pub fn numbers_of_units()
    ensures hour { SECONDS_PER_HOUR ≡ 3600 }
    ensures hours { HOURS_PER_DAY ≡ 24 }
    ensures day { SECONDS_PER_DAY ≡ 86400 }
    ensures second { NANOS_PER_SECOND ≡ 1000000000 }
    ensures weight { WHOLE_WEIGHT ≡ 10000 }
{}
