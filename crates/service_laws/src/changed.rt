//! What is more service.
ghost use Rattle.std.specs.Prelude.{ℕ, List, length};
ghost use Rattle.plan_model.specs.declared.model.Connection.{Connection as Ride};
ghost use Rattle.plan_model.specs.declared.model.Outcome.{Outcome as Late};
ghost use Rattle.plan_model.specs.declared.model.Way.{Way as Link};
ghost use Rattle.plan_model.specs.Network.{NetworkModel, IsValid, AreLinks};
ghost use Rattle.service_laws.specs.Embeds.{Embeds, EmbedsAlike};
ghost use Rattle.service_laws.specs.Changed.{own, AreAmong, with_connections, with_changes, with_classes, with_links, AreShorter, AreLessLate, AreNoFewer};

/// A law, with no code: with more connections, as with one more run, a network offers no less, also if its runs then have
/// other numbers.
pub fn more_connections_embed()
    ensures { (network : NetworkModel) (number : ℕ → ℕ) (connections : List Ride) → AreAmong network number connections
        → (image : ℕ → ℕ) × EmbedsAlike network (with_connections network connections) image own }
{}

/// A law, with no code: with shorter change times a network offers no less.
pub fn shorter_changes_embed()
    ensures { (network : NetworkModel) (change : List ℕ) → IsValid network → AreShorter network change
        → EmbedsAlike network (with_changes network change) own own }
{}

/// A law, with no code: with lesser delays, or without some of them, a network offers no less to who must arrive.
pub fn fewer_delays_embed()
    ensures { (network : NetworkModel) (classes : List (List Late)) → IsValid network → AreLessLate network classes
        → Embeds network (with_classes network classes) own own }
{}

/// A law, with no code: with more links or shorter ones a network offers no less.
pub fn more_links_embed()
    ensures { (network : NetworkModel) (links : List (List Link)) → IsValid network → AreLinks (length network.change) links
        → AreNoFewer network links → EmbedsAlike network (with_links network links) own own }
{}
