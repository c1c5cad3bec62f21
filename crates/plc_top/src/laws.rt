//! What the definitions of acceptance and refusal say together, whatever is called.
ghost use Rattle.std.specs.Prelude.{◌≡◌, ◌⊎◌, ℕ, List};
ghost use Rattle.plc_base.specs.declared.refusal.Refusal.{Refusal};
ghost use Rattle.plc_top.specs.Decision.{IsAccepted, IsRefused};

/// Each source is accepted or refused.
pub fn decided()
    ensures { (source : List ℕ) → IsAccepted source ⊎ ((why : Refusal) × IsRefused source why) }
{}

/// No source is accepted and refused.
pub fn accepted_not_refused()
    ensures { (source : List ℕ) (why : Refusal) → IsAccepted source → IsRefused source why → ⊥ }
{}

/// A source is refused for one reason, at one place.
pub fn one_refusal()
    ensures { (source : List ℕ) (why other : Refusal) → IsRefused source why → IsRefused source other → why ≡ other }
{}
