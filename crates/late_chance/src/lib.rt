//! The least chance of being late for a promised moment: the chance as a score, a network as it is
//! seen from a start on, so that the promise is a moment that the score knows, and what a graph for that
//! network says of the network itself.
//!
//! A call that takes an allocator may answer that there is no memory, as `NoMemory` or as the variant
//! of that name; then what it was lent is as it was, unless its own comment says otherwise.
#![tactic(auto)]

ghost use Rattle.std.specs.Prelude.{◌≡◌, ℕ, ◌≤◌};
ghost use Rattle.plan_model.specs.declared.model.Query.{Query};
ghost use Rattle.plan_model.specs.Network.{NetworkModel, IsValid};
ghost use Rattle.plan_model.specs.Strategy.{IsSafeFor};
ghost use Rattle.plan_model.specs.View.{IsView, SafeAlike};
ghost use Rattle.plan_graph.specs.declared.PlanGraph.{PlanGraph};
ghost use Rattle.plan_graph.specs.Tidy.{IsTidy};
ghost use Rattle.plan_graph.specs.Unfold.{unfold_plan};
ghost use Rattle.late_chance.specs.declared.shift.Promise.{Promise};
ghost use Rattle.late_chance.specs.declared.shift.TheConstants.{SECONDS_PER_WEEK};
ghost use Rattle.late_chance.specs.LaterGraphs.{IsShown, LaterAlike};
ghost use Rattle.late_chance.specs.Punctual.{shifted_parts, IsPunctual, PunctualAlike, IsAboutNetwork};
ghost use Rattle.interval_fixed.specs.Interval.{Interval};

mod chance;
mod shift;
mod text;

pub use chance::LateChance;
pub use shift::{Promise, SECONDS_PER_WEEK, shifted, sooner, unshifted};
pub use text::write_chance;

/// A law, with no code: the network as it is seen from a start on is valid, and a view of the network. The
/// trees that are safe in it are those that are safe in the network by the shift later.
pub fn shifted_is_view()
    ensures valid { (shift start : ℕ) (m : NetworkModel) → IsValid m → IsValid (shifted_parts shift start m) }
    ensures view { (shift start : ℕ) (m : NetworkModel) → shift ≤ start → IsView (shifted_parts shift start m) m shift start }
    ensures alike { (shift start : ℕ) (m : NetworkModel) → IsValid m → shift ≤ start → SafeAlike (shifted_parts shift start m) m shift start }
{}

/// A law, with no code: of a graph that is tidy and safe for a query of a view, the later graph is tidy and safe for the
/// later query of the network, and unfolds to the later tree.
pub fn later_graph_fits()
    ensures { (n m : NetworkModel) (shift first : ℕ) (q : Query) (graph : PlanGraph) → IsShown n m shift first q → IsTidy n q graph →
        IsSafeFor n q (unfold_plan graph n q) → LaterAlike n m shift q graph }
{}

/// A law, with no code: what a graph of the least chance of being late says in a view, the later graph says
/// in the network for the later promise; and if nothing is safe in the view, nothing is in the network.
pub fn punctual_in_view()
    ensures { (n m : NetworkModel) (shift first : ℕ) (q : Query) → IsShown n m shift first q → PunctualAlike n m shift q }
{}

/// A law, with no code: a graph of the least chance over the shifted network, shifted back, is one over the
/// network for its own query and promise; and if nothing is safe in the one, nothing is in the other.
pub fn punctual_by_shift()
    ensures { (m : NetworkModel) (p : Promise) → IsValid m → IsAboutNetwork m p.query p.moment.0 }
{}

/// A law, with no code: the seconds of a week, which are the moment that represents a promise.
pub fn week_is_seven_days()
    ensures { SECONDS_PER_WEEK ≡ 604800 }
{}

/// A law, with no code: if the promised moment is not before the deadline, both bounds are 0.
pub fn no_chance_by_the_deadline()
    ensures { (m : NetworkModel) (q : Query) (promise : ℕ) (graph : PlanGraph) (chance : Interval) → IsPunctual m q promise graph chance
        → q.deadline.0 ≤ promise → chance ≡ record { lo = 0; hi = 0 } }
{}
