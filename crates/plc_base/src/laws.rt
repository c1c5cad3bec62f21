//! What the definition of the least broken rule says, whatever is met.
ghost use Rattle.std.specs.Prelude.{◌≡◌, ◌++◌, [], List, None, Some};
ghost use Rattle.plc_base.specs.Least.{IsLeast, least, sooner};
ghost use Rattle.plc_base.specs.declared.refusal.Refusal.{Refusal};

/// The least of a list is one of it, and none of the list precedes it.
pub fn none_precedes()
    ensures { (rs : List Refusal) (r : Refusal) → least rs ≡ Some r → IsLeast rs r }
{}

/// Only the empty list has no least one.
pub fn none_of_nothing()
    ensures { (rs : List Refusal) → least rs ≡ None → rs ≡ [] }
{}

/// The least of two lists, one behind the other, is the sooner of theirs.
pub fn least_of_both()
    ensures { (rs qs : List Refusal) → least (rs ++ qs) ≡ sooner (least rs) (least qs) }
{}
