//! What more service gives to a plan.
ghost use Rattle.std.specs.Prelude.{◌≡◌, ℕ, ◌≤◌};
ghost use Rattle.interval_fixed.specs.Interval.{Interval};
ghost use Rattle.plan_model.specs.Network.{NetworkModel};
ghost use Rattle.plan_model.specs.Tree.{Tree};
ghost use Rattle.plan_model.specs.declared.model.Query.{Query as Asked};
ghost use Rattle.decision_graph.specs.GraphValues.{IsBest};
ghost use Rattle.service_laws.specs.Embeds.{EmbedsNoLater};

/// A law, with no code: with more service by the same weights, no later a start and no earlier a deadline, the upper bound of a
/// best strategy is no later.
pub fn a_plan_with_more_service_is_no_worse()
    ensures { (small large : NetworkModel) (image place : ℕ → ℕ) (q r : Asked) (strategy other : Tree) (bounds others : Interval)
        → EmbedsNoLater small large image place → IsBest small q strategy bounds → IsBest large r other others
        → r.source.0 ≡ place q.source.0 → r.target.0 ≡ place q.target.0 → r.start.0 ≤ q.start.0 → q.deadline.0 ≤ r.deadline.0
        → others.hi ≤ bounds.hi }
{}
