//! What the grammar's definitions say together, whatever is called.
ghost use Rattle.std.specs.Prelude.{◌≡◌, List};
ghost use Rattle.phrase.specs.Exact.{Phrase};
ghost use Rattle.plc_tokens.specs.Tokens.{AllKept};
ghost use Rattle.plc_tokens.specs.declared.token.Token.{Token};
ghost use Rattle.plc_tree.specs.declared.tree.Stmt.{Stmt as Statement};
ghost use Rattle.st_parse.specs.Depth.{Statements};

/// A list of tokens is spelled by at most one list of statements.
pub fn one_list()
    ensures { (w : List Token) (a b : List Statement) → Phrase Statements w a → Phrase Statements w b → a ≡ b }
{}

/// No token of statements is the end of a list, bad, or left out of the language.
pub fn no_stop()
    ensures { (w : List Token) (a : List Statement) → Phrase Statements w a → AllKept w }
{}
