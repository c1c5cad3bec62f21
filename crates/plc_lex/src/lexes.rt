//! What the definition of a text's tokens says, whatever is called.
ghost use Rattle.std.specs.Prelude.{◌≡◌, ℕ, Bool, false, List};
ghost use Rattle.plc_tokens.specs.declared.token.Token.{Token};
ghost use Rattle.plc_lex.specs.Lexes.{Lexes, Closed, Numbered};
ghost use Rattle.plc_lex.specs.Names.{AreSorted, HaveNames};
ghost use Rattle.plc_lex.specs.Tokens.{lexed, start};

/// The tokens of a text are the longest spellings, one after the other, with blanks and comments
/// between, and no other list is.
pub fn longest()
    ensures spelled { (text : List ℕ) (file : ℕ) (nested : Bool) → Lexes nested text (start file) false (lexed text file nested) }
    ensures only { (text : List ℕ) (file : ℕ) (nested : Bool) (tokens : List Token) → Lexes nested text (start file) false tokens → lexed text file nested ≡ tokens }
{}

/// Their list has one end, their numbers count from 0, their names are in capitals, and their sorts are those of their
/// kinds.
pub fn listed()
    ensures closed { (text : List ℕ) (file : ℕ) (nested : Bool) → Closed (lexed text file nested) }
    ensures numbered { (text : List ℕ) (file : ℕ) (nested : Bool) → Numbered file 0 (lexed text file nested) }
    ensures named { (text : List ℕ) (file : ℕ) (nested : Bool) → HaveNames (lexed text file nested) }
    ensures sorted { (text : List ℕ) (file : ℕ) (nested : Bool) → AreSorted (lexed text file nested) }
{}
