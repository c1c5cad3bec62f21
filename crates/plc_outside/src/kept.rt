// What the forms in memory keep of calls that are to fail.
ghost use Rattle.std.specs.Prelude.{◌≡◌, ◌⊎◌, ◌≤◌, ◌<◌, true, false, nat_eq};
ghost use Rattle.std.specs.Bool.{OnTrue, OnFalse};
ghost use Rattle.std.specs.List.{list_any};

/// Whether the call of this number is listed, or wants more room than is left.
pub fn is_refused(fail: &[u64], number: u64, left: usize, need: usize) -> bool
    ensures cause { OnTrue result ((list_any (λ listed. nat_eq listed number) fail.now ≡ true) ⊎ (left < need)) }
    ensures fits { OnFalse result ((list_any (λ listed. nat_eq listed number) fail.now ≡ false) × (need ≤ left)) }
{
    left < need || fail.contains(&number)
}
