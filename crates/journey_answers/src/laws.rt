//! The bounds of a strategy, and those of its graph.
ghost use Rattle.std.specs.Prelude.{◌≡◌, ◌≤◌};
ghost use Rattle.interval_fixed.specs.Interval.{Interval};
ghost use Rattle.plan_model.specs.Network.{NetworkModel};
ghost use Rattle.plan_model.specs.declared.model.Query.{Query as Sought};
ghost use Rattle.plan_model.specs.Tree.{Tree};
ghost use Rattle.graph_score.specs.Scores.{span_of};
ghost use Rattle.decision_graph.specs.GraphValues.{IsBest};

/// The upper bound of `plan` and `expand` is the mean of their strategy, rounded up ride by ride, as `check` finds it; the
/// lower one is at most the mean rounded down.
pub fn upper_bound_is_that_of_the_graph()
    ensures { (n : NetworkModel) (q : Sought) (strategy : Tree) (bounds : Interval) → IsBest n q strategy bounds
        → (bounds.hi ≡ (span_of n strategy).hi) × (bounds.lo ≤ (span_of n strategy).lo) }
{}
