//! The numbers of a delay file.
ghost use Rattle.std.specs.Prelude.{◌≡◌, ℕ, ◌/◌, ◌%◌};
ghost use Rattle.delay_table.specs.declared.reading.TheConstants.{MOST_ROWS};
ghost use Rattle.delay_table.specs.declared.sums.TheConstants.{MOST_GROUPS};
ghost use Rattle.delay_table.specs.declared.lines.TheConstants.{LAST_TYPE, LAST_HOUR};
ghost use Rattle.plan_model.specs.declared.units.TheConstants.{WHOLE_WEIGHT};
ghost use Rattle.delay_table.specs.DelayLists.{hour_of};

/// A law, with no code: the bounds of a delay file's numbers, and the hour of the day of a moment.
pub fn delay_numbers()
    ensures rows { MOST_ROWS ≡ 64 }
    ensures groups { MOST_GROUPS ≡ 65536 }
    ensures types { LAST_TYPE ≡ 65534 }
    ensures weight { WHOLE_WEIGHT ≡ 10000 }
    ensures last_hour { LAST_HOUR ≡ 23 }
    ensures hour { (moment : ℕ) → hour_of moment ≡ (moment / 3600) % 24 }
{}
