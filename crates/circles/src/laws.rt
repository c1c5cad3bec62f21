//! What the definitions of circles say of paths, whatever needs what.
ghost use Rattle.std.specs.Prelude.{◌≡◌, ◌↔◌, List, ℕ, true};
ghost use Rattle.circles.specs.Needs.{is_circular, Path};

/// A node is circular where a path of needs, however long, leads from it to itself, and only there.
pub fn circular_is_path()
    ensures { (g : List (List ℕ)) (a : ℕ) → is_circular g a ≡ true ↔ Path g a a }
{}
