//! What the grammar's definitions say together, whatever is called.
ghost use Rattle.std.specs.Prelude.{◌≡◌, ◌⊎◌, List};
ghost use Rattle.decl_parse.specs.Parsed.{IsAccepted, IsRefused, SpellsUnit};
ghost use Rattle.plc_base.specs.declared.refusal.Refusal.{Refusal};
ghost use Rattle.plc_tokens.specs.declared.token.Token.{Token};
ghost use Rattle.plc_tokens.specs.Tokens.{AllInPlace, IsClosed};
ghost use Rattle.plc_tree.specs.declared.tree.Unit.{Unit as Source};

/// A list of tokens has at most one tree.
pub fn one_unit()
    ensures spelled { (w : List Token) (a b : Source) → SpellsUnit w a → SpellsUnit w b → a ≡ b }
    ensures accepted { (s : List Token) (a b : Source) → IsAccepted s a → IsAccepted s b → a ≡ b }
{}

/// No token of a source is the end of a list, bad, or left out of the language, but for RETAIN and NON_RETAIN right behind
/// the first word of a section that may have them.
pub fn no_stop()
    ensures { (w : List Token) (u : Source) → SpellsUnit w u → AllInPlace w }
{}

/// A list of tokens that has an end is accepted or refused.
pub fn decided()
    ensures { (s : List Token) → IsClosed s → ((u : Source) × IsAccepted s u) ⊎ ((r : Refusal) × IsRefused s r) }
{}

/// What is accepted is not refused.
pub fn accepted_not_refused()
    ensures { (s : List Token) (u : Source) (r : Refusal) → IsAccepted s u → IsRefused s r → ⊥ }
{}

/// A list of tokens is refused for one reason at one place at most.
pub fn one_refusal()
    ensures { (s : List Token) (r q : Refusal) → IsRefused s r → IsRefused s q → r ≡ q }
{}
