//! The chance of an arrival after a promised moment, as a score.
ghost use Rattle.std.specs.Prelude.{◌≡◌, ◌≤◌};
ghost use Rattle.plan_model.specs.Bounds.{certainty};

use crate::shift::SECONDS_PER_WEEK;
use arrayvec::ArrayVec;
use interval_fixed::Span;
use plan_model::{Moment, Outcome};
use std::marker::Model;
use value_laws::Score;

/// The moment that represents the promised one: a week after the first of all time.
const PROMISED: u64 = SECONDS_PER_WEEK;

/// Certainty, in units of 10 to the -18.
const CERTAINTY: u64 = 1_000_000_000_000_000_000;

/// Bounds on the chance of an arrival after the promised moment, in units of 10 to the -18: a lower
/// and an upper one, at most 10 to the 18. The rank is the upper one. As a score it takes
/// 1970-01-08T00:00:00 for the promised moment, so a network is shifted for it.
#[derive(Clone, Copy)]
pub struct LateChance {
    bounds: Span,
}

impl Model for LateChance {
    ghost use Rattle.std.specs.Prelude.{◌≤◌};
    ghost use Rattle.plan_model.specs.Bounds.{certainty};
    ghost use Rattle.interval_fixed.specs.Interval.{Interval};

    ghost Value = { Interval };

    ghost view = { λ c. c.bounds };

    ghost invariant = { λ c. c.bounds.hi ≤ certainty };

    ghost inverse = { λ v. record { bounds = v } };
}

impl LateChance {
    /// The lower bound, in units of 10 to the -18.
    pub fn lo(self) -> u64
        ensures lo { result ≡ self.lo }
        ensures ordered { self.lo ≤ self.hi }
    {
        self.bounds.lo()
    }

    /// The upper bound, in units of 10 to the -18.
    pub fn hi(self) -> u64
        ensures hi { result ≡ self.hi }
        ensures within { self.hi ≤ certainty }
    {
        self.bounds.hi()
    }

    /// Both bounds.
    fn bounds(self) -> Span
        ensures bounds { result ≡ self }
        ensures within { result.hi ≤ certainty }
    {
        self.bounds
    }
}

impl Score for LateChance {
    ghost use Rattle.late_chance.specs.Chances.{chance_scoring, chance_laws};

    ghost scoring = { chance_scoring };

    ghost laws = { chance_laws };

    fn arrive(moment: Moment) -> LateChance {
        let chance = if moment.0 <= PROMISED { 0 } else { CERTAINTY };
        LateChance {
            bounds: Span::from_parts(chance, chance),
        }
    }

    fn blend(row: &[Outcome], kids: &[LateChance]) -> LateChance {
        let mut spans: ArrayVec<Span, 64> = ArrayVec::new();
        for child in kids {
            spans.push(child.bounds());
        }
        LateChance {
            bounds: Span::mean(row, &spans),
        }
    }

    fn better(&self, other: &LateChance) -> bool {
        self.bounds.hi() < other.bounds.hi()
    }

    fn lower_to(&self, other: &LateChance) -> LateChance {
        LateChance {
            bounds: self.bounds.lower_to(other.bounds),
        }
    }
}
