//! What a network and a view of it have in common.
ghost use Rattle.std.specs.Prelude.{◌≡◌, ℕ, ◌+◌, ◌<◌, ◌↔◌, List as Sources};
ghost use Rattle.plan_model.specs.Network.{NetworkModel, IsValid};
ghost use Rattle.plan_model.specs.Tree.{Tree};
ghost use Rattle.plan_model.specs.declared.model.PlaceId.{PlaceId as Source};
ghost use Rattle.plan_model.specs.Expected.{LateBelow, LateCovers};
ghost use Rattle.plan_model.specs.Gates.{IsGate, HasGates, SafeFromGate, FitGates, extended_by};
ghost use Rattle.plan_model.specs.View.{later_by, IsView, SafeAlike};

/// In a view exactly those trees are safe which are safe in the network by the shift later.
pub fn safe_in_view()
    ensures { (n m : NetworkModel) (shift first : ℕ) → IsView n m shift first → IsValid m →
        SafeAlike n m shift first }
{}

/// From a gate exactly those trees are safe which are safe from its source a second later.
pub fn safe_from_gate()
    ensures { (n m : NetworkModel) (gate source : ℕ) → IsGate n m gate source → IsValid m →
        SafeFromGate n m gate source }
{}

/// With a gate for each of some of its places a network is one, which shows it.
pub fn extends()
    ensures valid { (m : NetworkModel) (sources : Sources Source) → FitGates m sources → IsValid m →
        IsValid (extended_by m sources) }
    ensures gates { (m : NetworkModel) (sources : Sources Source) → FitGates m sources → IsValid m →
        HasGates (extended_by m sources) m sources }
{}

/// The chance of being late for a promise is that of the later tree for the later promise.
pub fn late_by_view()
    ensures below { (shift promise lo : ℕ) (tree : Tree) →
        LateBelow promise lo tree ↔ LateBelow (promise + shift) lo (later_by shift tree) }
    ensures covers { (shift promise hi : ℕ) (tree : Tree) →
        LateCovers promise hi tree ↔ LateCovers (promise + shift) hi (later_by shift tree) }
{}
