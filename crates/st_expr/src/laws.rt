//! What the grammar's definitions say together, whatever is called.
ghost use Rattle.std.specs.Prelude.{◌≡◌, Bool, List};
ghost use Rattle.phrase.specs.Exact.{Phrase};
ghost use Rattle.st_expr.specs.Depth.{Arguments, Expressions, Operands, Paths};
ghost use Rattle.st_expr.specs.Nested.{Tall};
ghost use Rattle.plc_tokens.specs.declared.token.Token.{Token};
ghost use Rattle.plc_tokens.specs.Tokens.{AllKept};
ghost use Rattle.plc_tree.specs.declared.tree.Arg.{Arg as Argument};
ghost use Rattle.plc_tree.specs.declared.tree.Expr.{Expr as Expression};
ghost use Rattle.plc_tree.specs.declared.tree.Path.{Path as Variable};

/// A list of tokens is spelled by at most one tree.
pub fn one_tree()
    ensures expressions { (w : List Token) (a b : Tall Expression) → Phrase Expressions w a → Phrase Expressions w b → a ≡ b }
    ensures arguments { (w : List Token) (a b : Tall (List Argument)) → Phrase Arguments w a → Phrase Arguments w b → a ≡ b }
    ensures paths { (line : Bool) (w : List Token) (a b : Tall Variable) → Phrase (Paths line) w a → Phrase (Paths line) w b → a ≡ b }
    ensures operands { (line : Bool) (w : List Token) (a b : Tall Expression) → Phrase (Operands line) w a → Phrase (Operands line) w b → a ≡ b }
{}

/// No token of a phrase is the end of a list, bad, or left out of the language.
pub fn no_stop()
    ensures expressions { (w : List Token) (a : Tall Expression) → Phrase Expressions w a → AllKept w }
    ensures arguments { (w : List Token) (a : Tall (List Argument)) → Phrase Arguments w a → AllKept w }
    ensures paths { (line : Bool) (w : List Token) (a : Tall Variable) → Phrase (Paths line) w a → AllKept w }
    ensures operands { (line : Bool) (w : List Token) (a : Tall Expression) → Phrase (Operands line) w a → AllKept w }
{}
