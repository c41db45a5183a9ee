// Laws.

ghost use Rattle.std.specs.Prelude.{◌≡◌, List, None, fold, slice_get};
ghost use Rattle.language.specs.Sooner.{sooner};
ghost use Rattle.language.specs.declared.typing.Violation.{Violation};
ghost use Rattle.findings.specs.Order.{AreInOrder};

/// Of violations in their order the first is the one that is named.
#[tactic(auto, using(crate::proofs::OrderLemmas::named_first))]
pub fn first_is_named()
    ensures { (all ordered : List Violation) → AreInOrder all ordered → slice_get ordered 0 ≡ fold sooner None all }
{}
