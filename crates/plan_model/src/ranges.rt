//! What a question says in numbers, each within its range.
ghost use Rattle.std.specs.Prelude.{◌≤◌};
ghost use Rattle.plan_model.specs.Bounds.{first_start, last_start, least_alpha, most_alpha, least_horizon, most_horizon, least_size, most_size};

use crate::model::Moment;

/// When a journey starts: from 1970-01-08T00:00:00 to 2399-12-31T23:59:59.
#[derive(Clone, Copy)]
pub struct Start {
    /// The moment at which it starts.
    pub moment: Moment,
    /// That it is not before the first start.
    pub ghost first: { first_start ≤ moment.0 },
    /// That it is not after the last one.
    pub ghost last: { moment.0 ≤ last_start },
}

/// A percentage of the least time that a plan needs at worst, for its deadline: from 100 to 1,000.
#[derive(Clone, Copy)]
pub struct Percent {
    /// The percentage.
    pub value: u32,
    /// That it is not below 100.
    pub ghost low: { least_alpha ≤ value },
    /// That it is not above 1,000.
    pub ghost high: { value ≤ most_alpha },
}

/// The hours of a window: from 1 to 72.
#[derive(Clone, Copy)]
pub struct Hours {
    /// How many they are.
    pub value: u32,
    /// That there is one.
    pub ghost low: { least_horizon ≤ value },
    /// That there are no more than 72.
    pub ghost high: { value ≤ most_horizon },
}

/// The size of a feed that is made: from 10 to 400.
#[derive(Clone, Copy)]
pub struct FeedSize {
    /// The size.
    pub value: u32,
    /// That it is not below 10.
    pub ghost low: { least_size ≤ value },
    /// That it is not above 400.
    pub ghost high: { value ≤ most_size },
}
