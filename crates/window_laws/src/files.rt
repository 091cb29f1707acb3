//! What folders with more trips give.
ghost use Rattle.std.specs.Prelude.{◌≡◌, ◌+◌, ◌++◌, ◌<◌, ℕ, Contains, List, Option, length};
ghost use Rattle.command_line.specs.Jobs.{JourneyModel};
ghost use Rattle.csv_rows.specs.Tables.{field, row_count};
ghost use Rattle.csv_rows.specs.declared.columns.Column.TheVariants.{TripId as TripIds};
ghost use Rattle.csv_rows.specs.declared.limits.Limits.{Limits};
ghost use Rattle.file_ports.specs.Ports.{FileMap};
ghost use Rattle.journey_model.specs.declared.problem.Problem.{Problem};
ghost use Rattle.journey_problem.specs.FeedProblems.{GtfsFolder, IsFolder};
ghost use Rattle.plan_model.specs.Strategy.{IsLeastWorst};
ghost use Rattle.plan_model.specs.declared.model.Moment.{Moment as At};
ghost use Rattle.service_laws.specs.Changed.{own};
ghost use Rattle.service_laws.specs.Embeds.{EmbedsAlike, IsNoLaterThan, IsSafeToo, IsAsGood};
ghost use Rattle.table_files.specs.Loading.{Records};
ghost use Rattle.window_laws.specs.MoreFiles.{HasMoreRows, AreMoreAndLess, HasRows, AddsRows};
ghost use Rattle.window_laws.specs.MoreTrips.{HasAllOf};

/// A law, with no code: a folder that has the rows of another and more trips has all that is in it.
pub fn more_rows_have_more()
    ensures { (limits : Limits) (files others : FileMap) (folder other : List ℕ) (h k : GtfsFolder) → HasMoreRows limits files folder others other
        → IsFolder limits files folder h → IsFolder limits others other k → HasAllOf h k }
{}

/// A law, with no code: a table has the rows that it had before others were appended.
pub fn appended_rows_are_more()
    ensures rows { (t rows : Records) → 0 < length t → HasRows t (t ++ rows) }
    ensures of_trips { (trips : List (List ℕ)) (t rows : Records) → 0 < length t
        → ((k : ℕ) → k < length rows → ¬ Contains trips (field (t ++ rows) TripIds (row_count t + k))) → AddsRows trips t (t ++ rows) }
{}

/// A law, with no code: a journey over such a folder, with the same delays and as many hours or more, goes from the same place to
/// the same place, and its network offers no less.
pub fn more_rows_embed()
    ensures source { (limits : Limits) (j i : JourneyModel) (p q : Problem) → AreMoreAndLess limits j i p q → q.source.0 ≡ p.source.0 }
    ensures target { (limits : Limits) (j i : JourneyModel) (p q : Problem) → AreMoreAndLess limits j i p q → q.target.0 ≡ p.target.0 }
    ensures network { (limits : Limits) (j i : JourneyModel) (p q : Problem) → AreMoreAndLess limits j i p q
        → (image : ℕ → ℕ) × EmbedsAlike p.timetable.network q.timetable.network image own }
{}

/// A law, with no code: so its least worst arrival is no later, and each safe strategy has one that is safe by the same deadline,
/// with the same latest arrival and the same means over the arrivals.
pub fn more_rows_are_no_later()
    ensures least { (limits : Limits) (j i : JourneyModel) (p q : Problem) → AreMoreAndLess limits j i p q → (least other : Option At)
        → IsLeastWorst p.timetable.network p.source.0 p.target.0 j.start least
        → IsLeastWorst q.timetable.network q.source.0 q.target.0 i.start other → IsNoLaterThan other least }
    ensures as_good { (limits : Limits) (j i : JourneyModel) (p q : Problem) → AreMoreAndLess limits j i p q
        → IsSafeToo IsAsGood (λ own at. own ≡ at) p.timetable.network q.timetable.network own }
{}
