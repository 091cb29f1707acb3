//! Whatever delays come, a safe trip arrives.
ghost use Rattle.std.specs.Prelude.{ℕ};
ghost use Rattle.plan_model.specs.Network.{IsValid, NetworkModel};
ghost use Rattle.plan_model.specs.Strategy.{IsSafeFor};
ghost use Rattle.plan_model.specs.Tree.{Tree};
ghost use Rattle.plan_model.specs.declared.model.Query.{Query as Asked};
ghost use Rattle.plan_graph.specs.declared.PlanGraph.{PlanGraph as Graph};
ghost use Rattle.plan_graph.specs.Tidy.{IsTidy};
ghost use Rattle.plan_graph.specs.Unfold.{unfold_plan};
ghost use Rattle.trip_replay.specs.Late.{ArePossible, Arrives};
ghost use Rattle.trip_replay.specs.Onward.{AreUpTo, ArrivesByRows};

/// A law, with no code: however late each connection is by its class, the trip by a safe strategy has its delays, is never stuck,
/// and arrives by the deadline.
pub fn a_safe_trip_arrives()
    ensures { (n : NetworkModel) (q : Asked) (tree : Tree) (late : ℕ → ℕ) → IsSafeFor n q tree → ArePossible n late
        → Arrives n q.deadline.0 tree late }
{}

/// A law, with no code: let each ride be as late as it happens to be, but no later than by some delay of its class. By a tidy graph
/// whose strategy is safe there is a row after each ride, the traveller is in time for its leg, and arrives by the deadline.
pub fn a_late_trip_arrives()
    ensures { (n : NetworkModel) (q : Asked) (graph : Graph) (late : ℕ → ℕ) → IsValid n → IsTidy n q graph
        → IsSafeFor n q (unfold_plan graph n q) → AreUpTo n late → ArrivesByRows n q graph late }
{}
