//! The greatest moment, the table and the least worst arrival say one thing.
ghost use Rattle.std.specs.Prelude.{◌≡◌, ℕ, ◌<◌, ◌≤◌, List as Rows, [], ◌∷◌, Some, length};
ghost use Rattle.plan_model.specs.Network.{IsValid, NetworkModel};
ghost use Rattle.plan_model.specs.declared.model.Query.{Query as Asked};
ghost use Rattle.plan_model.specs.declared.model.PlaceId.{PlaceId as Place};
ghost use Rattle.plan_model.specs.declared.model.Moment.{Moment as When};
ghost use Rattle.departure_table.specs.declared.DepartureRow.{DepartureRow as Row};
ghost use Rattle.departure_table.specs.Departures.{SafeFrom, IsTable, IsGreatestMoment, IsOfLastRow, AgreesWithLeastWorst};
ghost use Rattle.plan_model.specs.Gates.{FitGates, source_at};
ghost use Rattle.departure_table.specs.Looked.{FindAlike};
ghost use Rattle.departure_table.specs.Reach.{FirstAlike, places_of};

/// A law, with no code: no row is by a later moment than the greatest, and if the table goes on so far, one
/// row is by it.
pub fn greatest_moment_is_of_the_last_row()
    ensures { (m : NetworkModel) (source : ℕ) (q : Asked) (first last : ℕ) (rows : Rows Row) (greatest : When) → IsTable m (SafeFrom m source q) first last rows
        → IsGreatestMoment (SafeFrom m source q) first (Some greatest) → first ≤ last → IsOfLastRow last rows greatest }
{}

/// A law, with no code: there is a greatest moment if the least worst arrival is by the deadline, and only
/// then, and it is the last from which that is so.
pub fn greatest_moment_agrees_with_the_least_worst()
    ensures { (m : NetworkModel) (source : ℕ) (q : Asked) (first : ℕ) → AgreesWithLeastWorst m source q first }
{}

/// A law, with no code: a scan finds the same at the gates of one source, whatever other gates there are.
pub fn finds_the_same_at_gates()
    ensures { (m : NetworkModel) (xs ys : Rows Place) (q : Asked) (x y k j : ℕ) → IsValid m → FitGates m xs → FitGates m ys → q.target.0 < length m.change
        → k < length xs → j < length ys → source_at xs k ≡ source_at ys j → FindAlike m xs ys q x y k j }
{}

/// A law, with no code: the row of a place in a reach has the bounds of the first of the departures from there.
pub fn row_begins_the_departures()
    ensures { (m : NetworkModel) (q : Asked) (place : Place) (x y last : ℕ) → IsValid m → FitGates m (places_of m) → FitGates m (place ∷ [])
        → q.target.0 < length m.change → q.start.0 ≤ last → FirstAlike m q place x y last }
{}
