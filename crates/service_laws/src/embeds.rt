//! What more service gives.
ghost use Rattle.std.specs.Prelude.{◌≡◌, ℕ, ◌≤◌, Option};
ghost use Rattle.plan_model.specs.declared.model.Moment.{Moment as At};
ghost use Rattle.plan_model.specs.Network.{NetworkModel};
ghost use Rattle.plan_model.specs.Strategy.{IsLeastWorst};
ghost use Rattle.plan_model.specs.Tree.{worst};
ghost use Rattle.service_laws.specs.Embeds.{Embeds, EmbedsNoLater, EmbedsAlike, IsNoLaterThan, IsSafeToo, IsNoWorse, IsAsGood};

/// A law, with no code: with more service nothing gets later for who must arrive. For each strategy that is safe there is
/// one that is safe with the same deadline and no later at worst, also from an earlier moment; and the least worst arrival
/// is no later.
pub fn more_service_is_no_later()
    ensures safe { (small large : NetworkModel) (image place : ℕ → ℕ) → Embeds small large image place
        → IsSafeToo (λ other tree. worst other ≤ worst tree) (λ own at. own ≤ at) small large place }
    ensures least { (small large : NetworkModel) (image place : ℕ → ℕ) → Embeds small large image place
        → (source target start own : ℕ) (least other : Option At) → own ≤ start → IsLeastWorst small source target start least
        → IsLeastWorst large (place source) (place target) own other → IsNoLaterThan other least }
{}

/// A law, with no code: with more service by the same weights, each safe strategy has one that is safe with the same
/// deadline and of which no mean over the arrivals is greater, if what is averaged does not fall.
pub fn more_service_is_no_worse()
    ensures { (small large : NetworkModel) (image place : ℕ → ℕ) → EmbedsNoLater small large image place
        → IsSafeToo IsNoWorse (λ own at. own ≤ at) small large place }
{}

/// A law, with no code: if what was there stays as it was, each safe strategy has one that is safe with the same deadline,
/// with the same latest arrival and the same means over the arrivals.
pub fn more_service_is_as_good()
    ensures { (small large : NetworkModel) (image place : ℕ → ℕ) → EmbedsAlike small large image place
        → IsSafeToo IsAsGood (λ own at. own ≡ at) small large place }
{}

/// A law, with no code: what offers no less by the same weights offers no less.
pub fn by_weight_embeds()
    ensures no_later { (small large : NetworkModel) (image place : ℕ → ℕ) → EmbedsNoLater small large image place → Embeds small large image place }
    ensures alike { (small large : NetworkModel) (image place : ℕ → ℕ) → EmbedsAlike small large image place → EmbedsNoLater small large image place }
{}

/// A law, with no code: what offers no less than a network that offers no less offers no less.
pub fn embeds_one_after_another()
    ensures at_worst { (a b c : NetworkModel) (f g p q : ℕ → ℕ) → Embeds a b f p → Embeds b c g q → Embeds a c (λ i. g (f i)) (λ x. q (p x)) }
    ensures no_later { (a b c : NetworkModel) (f g p q : ℕ → ℕ) → EmbedsNoLater a b f p → EmbedsNoLater b c g q → EmbedsNoLater a c (λ i. g (f i)) (λ x. q (p x)) }
    ensures alike { (a b c : NetworkModel) (f g p q : ℕ → ℕ) → EmbedsAlike a b f p → EmbedsAlike b c g q → EmbedsAlike a c (λ i. g (f i)) (λ x. q (p x)) }
{}
