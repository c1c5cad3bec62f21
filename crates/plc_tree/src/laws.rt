//! What the definitions of execution say of fuel and loops, whatever is run.
ghost use Rattle.std.specs.Prelude.{◌≡◌, ◌≤◌, ◌<◌, List, Option, if◌then◌else◌, ℕ};
ghost use Rattle.plc_tree.specs.Execution.{counted, elem_of_node, Env, exec, exec_list, for_test, found, holds, place, value};
ghost use Rattle.plc_tree.specs.Loops.{for_turns, Next, next_turn, repeat_turns, State, while_turns};
ghost use Rattle.plc_tree.specs.Outcome.{Done, then_do, with_turn};
ghost use Rattle.plc_tree.specs.Store.{Store, write};
ghost use Rattle.plc_tree.specs.declared.typed.TExpr.{TExpr};
ghost use Rattle.plc_tree.specs.declared.typed.TPath.{TPath};
ghost use Rattle.plc_tree.specs.declared.typed.TStmt.{For, Repeat, TStmt, While};

/// No statement makes fuel.
pub fn fuel_never_grows()
    ensures { (env : Env) (x : TStmt) (s : Store) (st : State) (n r : ℕ) → exec env x s n ≡ Done st r → r ≤ n }
{}

/// The number that a loop is said in says nothing: any that is greater than the fuel gives the same.
pub fn any_number()
    ensures of_while { (env : Env) (test : TExpr) (body : List TStmt) (s : Store) (n g : ℕ) → n < g
        → exec env (While test body) s n ≡ while_turns g (holds env test) (exec_list env body) s n }
    ensures of_repeat { (env : Env) (body : List TStmt) (test : TExpr) (s : Store) (n g : ℕ) → n < g
        → exec env (Repeat body test) s n ≡ repeat_turns g (exec_list env body) (holds env test) s n }
    ensures of_for { (env : Env) (v : TPath) (start limit : TExpr) (step : Option TExpr) (body : List TStmt) (s : Store) (n g : ℕ) → n < g
        → exec env (For v start limit step body) s n
        ≡ then_do (value env start s n) (λ z r. let first = write env.unit s (place env v) z in
        then_do (found env step limit first r) (λ x k. for_turns g (for_test env v) (exec_list env body) (counted env (elem_of_node start) v step limit) x first k)) }
{}

/// A WHILE is its test, then, where it holds, a turn, and the same WHILE with the fuel that is left. A REPEAT is a
/// turn, then its test, and where it doesn't hold, the same REPEAT with the fuel that is left.
pub fn turn_by_turn()
    ensures of_while { (env : Env) (test : TExpr) (body : List TStmt) (s : Store) (n : ℕ)
        → exec env (While test body) s n
        ≡ then_do (holds env test s n) (λ b r. if b then with_turn r (λ k. then_do (exec_list env body s k) (λ st j. next_turn st j (exec env (While test body)))) else Done (s, Next) r) }
    ensures of_repeat { (env : Env) (body : List TStmt) (test : TExpr) (s : Store) (n : ℕ)
        → exec env (Repeat body test) s n
        ≡ with_turn n (λ k. then_do (exec_list env body s k) (λ st j. next_turn st j
        (λ t i. then_do (holds env test t i) (λ ends r. if ends then Done (t, Next) r else exec env (Repeat body test) t r)))) }
{}
