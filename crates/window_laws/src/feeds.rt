//! What a feed with more trips gives.
ghost use Rattle.std.specs.Prelude.{◌≡◌, ◌≤◌, ℕ, Option, length};
ghost use Rattle.delay_table.specs.DelayLists.{DelayLists};
ghost use Rattle.gtfs_tables.specs.Feeds.{IsSoundFeed};
ghost use Rattle.journey_problem.specs.FeedProblems.{GtfsFolder};
ghost use Rattle.plan_model.specs.Network.{NetworkModel};
ghost use Rattle.plan_model.specs.Strategy.{IsLeastWorst};
ghost use Rattle.plan_model.specs.declared.model.Moment.{Moment as At};
ghost use Rattle.service_laws.specs.Changed.{own};
ghost use Rattle.service_laws.specs.Embeds.{EmbedsAlike, IsNoLaterThan, IsSafeToo, IsAsGood, IsNoWorse};
ghost use Rattle.window_laws.specs.MoreTrips.{HasAllOf, Timetable, IsPartOf, IsNetworkOf};
ghost use Rattle.window_laws.specs.NewTrip.{NewTrip, with_trip};

/// A law, with no code: the network of a timetable with more trips, or with a longer window, offers no less.
pub fn more_trips_embed()
    ensures { (less more : Timetable) (d : DelayLists) (small large : NetworkModel) → IsPartOf less more
        → IsNetworkOf less d small → IsNetworkOf more d large → (image : ℕ → ℕ) × EmbedsAlike small large image own }
{}

/// A law, with no code: so the least worst arrival is no later, also from an earlier moment.
pub fn more_trips_are_no_later()
    ensures { (less more : Timetable) (d : DelayLists) (small large : NetworkModel) → IsPartOf less more
        → IsNetworkOf less d small → IsNetworkOf more d large
        → (source target start own : ℕ) (least other : Option At) → own ≤ start → IsLeastWorst small source target start least
        → IsLeastWorst large source target own other → IsNoLaterThan other least }
{}

/// A law, with no code: and each strategy that is safe by a deadline has one that is safe by it, with the same latest arrival
/// and the same means over the arrivals; from an earlier moment there is one of which no mean is greater.
pub fn more_trips_are_as_good()
    ensures as_good { (less more : Timetable) (d : DelayLists) (small large : NetworkModel) → IsPartOf less more
        → IsNetworkOf less d small → IsNetworkOf more d large → IsSafeToo IsAsGood (λ own at. own ≡ at) small large own }
    ensures no_worse { (less more : Timetable) (d : DelayLists) (small large : NetworkModel) → IsPartOf less more
        → IsNetworkOf less d small → IsNetworkOf more d large → IsSafeToo IsNoWorse (λ own at. own ≤ at) small large own }
{}

/// A law, with no code: a timetable is part of that with a longer window.
pub fn a_longer_window_has_more()
    ensures { (h : GtfsFolder) (start horizon longer : ℕ) → horizon ≤ longer
        → IsPartOf (record { parts = h; start = start; horizon = horizon }) (record { parts = h; start = start; horizon = longer }) }
{}

/// A law, with no code: with one trip more, wherever that stands among the others, a folder has all that it had.
pub fn one_trip_more_has_more()
    ensures { (h : GtfsFolder) (index : ℕ) (new : NewTrip) → IsSoundFeed h.feed → index ≤ length h.feed.trip_ids
        → HasAllOf h (record h { feed = with_trip h.feed index new }) }
{}
