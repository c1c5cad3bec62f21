//! What the definitions of the forms of tokens say of first bytes, whatever is called.
ghost use Rattle.std.specs.Prelude.{◌≡◌, ◌∷◌, ℕ, List, map, true};
ghost use Rattle.plc_spelling.specs.FirstBytes.{may_begin, starting, counting, by_byte};
ghost use Rattle.plc_spelling.specs.Spelling.{Form, passes};

/// A spelling of a form begins with a byte that may begin one of that form; and which forms may begin with each of the
/// 256 bytes.
pub fn first_bytes()
    ensures table { map starting (counting 0 256) ≡ by_byte }
    ensures first { (form : Form) (b : ℕ) (bs : List ℕ) → passes (b ∷ bs) form ≡ true → may_begin form b ≡ true }
{}
