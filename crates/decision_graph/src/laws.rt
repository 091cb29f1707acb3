//! What two plans of one problem have to do with each other.
ghost use Rattle.std.specs.Prelude.{◌≡◌, ◌≤◌, Some};
ghost use Rattle.interval_fixed.specs.Interval.{Interval};
ghost use Rattle.plan_model.specs.Network.{NetworkModel};
ghost use Rattle.plan_model.specs.declared.model.Query.{Query as Asked};
ghost use Rattle.plan_model.specs.Strategy.{IsLeastWorst};
ghost use Rattle.plan_model.specs.Tree.{Tree, worst};
ghost use Rattle.plan_graph.specs.declared.PlanGraph.{PlanGraph as Graph};
ghost use Rattle.plan_graph.specs.Unfold.{unfold_plan};
ghost use Rattle.decision_graph.specs.GraphValues.{IsBest};
ghost use Rattle.decision_graph.specs.Planned.{IsPlanned};

/// A law, with no code: a plan whose deadline is the least worst arrival arrives by then at worst, and no sooner.
pub fn least_worst_is_kept()
    ensures { (n : NetworkModel) (q : Asked) (graph : Graph) (bounds : Interval) → IsPlanned n q graph bounds
        → IsLeastWorst n q.source.0 q.target.0 q.start.0 (Some q.deadline)
        → worst (unfold_plan graph n q) ≡ q.deadline.0 }
{}

/// A law, with no code: with a later deadline nothing is lost. The upper bound of the plan with the later
/// deadline is at most that of the other plan.
pub fn a_later_deadline_is_no_worse()
    ensures { (n : NetworkModel) (q r : Asked) (graph other : Graph) (bounds later : Interval) → IsPlanned n q graph bounds
        → IsPlanned n r other later → r.source.0 ≡ q.source.0 → r.target.0 ≡ q.target.0 → r.start.0 ≡ q.start.0
        → q.deadline.0 ≤ r.deadline.0 → later.hi ≤ bounds.hi }
{}

/// A law, with no code: all best strategies of a query have one upper bound, however ties are decided.
pub fn one_upper_bound()
    ensures { (n : NetworkModel) (q : Asked) (strategy other : Tree) (bounds others : Interval) → IsBest n q strategy bounds
        → IsBest n q other others → bounds.hi ≡ others.hi }
{}
