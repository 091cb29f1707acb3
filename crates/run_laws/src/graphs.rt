//! That a network and a query have one plan: what the contracts of the decision graph leave open is
//! nothing but whether there was memory.
ghost use Rattle.std.specs.Prelude.{◌≡◌, List as Sequence};
ghost use Rattle.plan_model.specs.declared.model.Query.{Query as QueryParts};
ghost use Rattle.plan_model.specs.Network.{NetworkModel};
ghost use Rattle.plan_graph.specs.declared.PlanGraph.{PlanGraph as GraphByPlace};
ghost use Rattle.plan_graph.specs.declared.ExpandedGraph.{ExpandedGraph as GraphByRide};
ghost use Rattle.plan_graph.specs.Ready.{IsSafeForSome};
ghost use Rattle.plan_graph.specs.Tidy.{IsTidy};
ghost use Rattle.plan_graph.specs.Unfold.{unfold_plan, unfold_expanded};
ghost use Rattle.interval_fixed.specs.Interval.{Interval};
ghost use Rattle.plan_model.specs.declared.model.ConnectionId.{ConnectionId as Id};
ghost use Rattle.plan_model.specs.Order.{IsScanOrder};
ghost use Rattle.decision_graph.specs.Planned.{IsPlanned, IsExpanded};
ghost use Rattle.run_laws.specs.Wholes.{HasEveryRow, IsOneStrategy};

/// A tidy graph by place follows from its tree, if that is safe: two that unfold to one are the same.
pub fn one_tidy_graph()
    ensures { (n : NetworkModel) (q : QueryParts) (a b : GraphByPlace)
        → IsTidy n q a → IsTidy n q b → IsSafeForSome n q (unfold_plan a n q)
        → unfold_plan a n q ≡ unfold_plan b n q → a ≡ b }
{}

/// A whole graph by ride with a row for each outcome follows from its tree: two that unfold to one are
/// the same.
pub fn one_whole_graph()
    ensures { (n : NetworkModel) (q : QueryParts) (a b : GraphByRide)
        → HasEveryRow n q a → HasEveryRow n q b → unfold_expanded a n q ≡ unfold_expanded b n q → a ≡ b }
{}

/// A network has one scan order.
pub fn one_scan_order()
    ensures { (n : NetworkModel) (xs ys : Sequence Id) → IsScanOrder n xs → IsScanOrder n ys → xs ≡ ys }
{}

/// A network and a query have one decision graph with a table for each place, and one pair of bounds.
pub fn one_plan()
    ensures { (n : NetworkModel) (q : QueryParts) (a b : GraphByPlace) (s t : Interval)
        → IsPlanned n q a s → IsPlanned n q b t → (a ≡ b) × (s ≡ t) }
{}

/// The same of the decision graph by ride.
pub fn one_expanded_plan()
    ensures { (n : NetworkModel) (q : QueryParts) (a b : GraphByRide) (s t : Interval)
        → IsExpanded n q a s → IsExpanded n q b t → (a ≡ b) × (s ≡ t) }
{}

/// And both are of one strategy.
pub fn one_strategy_of_both()
    ensures { (n : NetworkModel) (q : QueryParts) (a : GraphByRide) (b : GraphByPlace) (s t : Interval)
        → IsExpanded n q a s → IsPlanned n q b t → IsOneStrategy n q a b s t }
{}
