//! What the definitions of execution say of fuel, of loops and of the statements of functions, whatever is run.
ghost use Rattle.std.specs.Prelude.{◌≡◌, ◌≤◌, ◌<◌, List, if◌then◌else◌, ℕ, suc, ℤ};
ghost use Rattle.c_meaning.specs.Execution.{c_body, c_exec, c_run, c_value, c_walk, call_of, CallsSpend, Frame, Left, Passed};
ghost use Rattle.c_meaning.specs.Items.{Function};
ghost use Rattle.c_meaning.specs.Loops.{c_back, c_jumps, c_next_turn, c_turns, CNext, CState, CStore, is_true, Jumps};
ghost use Rattle.c_meaning.specs.Objects.{Objects};
ghost use Rattle.c_meaning.specs.Outcome.{c_then, c_turn, CDone};
ghost use Rattle.c_meaning.specs.Run.{c_init, c_scan};
ghost use Rattle.c_tree.specs.declared.tree.CExpr.{CExpr};
ghost use Rattle.c_tree.specs.declared.tree.CItem.{CItem};
ghost use Rattle.c_tree.specs.declared.tree.CStmt.{CStmt, While};
ghost use Rattle.c_tree.specs.declared.tree.CUnit.{CUnit};

/// No statement makes fuel, and no body of a function does, where the calls of its frame make none; and no call in a
/// unit makes fuel, no start and no scan.
pub fn fuel_never_grows()
    ensures of_statement { (fr : Frame) → CallsSpend fr
        → (x : CStmt) (s : CStore) (st : CState) (n r : ℕ) → c_exec fr x s n ≡ CDone st r → r ≤ n }
    ensures of_body { (fr : Frame) → CallsSpend fr
        → (body : List CStmt) (s : CStore) (st : CState) (n r : ℕ) → c_body fr body s n ≡ CDone st r → r ≤ n }
    ensures of_call { (items : List CItem) (fs : List Function) (name : List ℕ) (xs : List Passed) (o : Objects) (l : Left) (n r : ℕ)
        → call_of items fs name xs o n ≡ CDone l r → r ≤ n }
    ensures of_start { (c : CUnit) (o p : Objects) (n r : ℕ) → c_init c o n ≡ CDone p r → r ≤ n }
    ensures of_scan { (c : CUnit) (m : ℤ) (o p : Objects) (n r : ℕ) → c_scan c m o n ≡ CDone p r → r ≤ n }
{}

/// The number that a loop or the body of a function is said in says nothing: any that is greater than the fuel gives
/// the same.
pub fn any_number()
    ensures of_while { (fr : Frame) → CallsSpend fr
        → (test : CExpr) (body : List CStmt) (s : CStore) (n g : ℕ) → n < g
        → c_exec fr (While test body) s n ≡ c_turns g (c_value fr test) (c_run fr body) s n }
    ensures of_body { (fr : Frame) → CallsSpend fr
        → (body : List CStmt) (s : CStore) (n g : ℕ) → n < g
        → c_body fr body s n ≡ c_jumps g (c_walk fr body) (s, CNext) n }
{}

/// A `while` is its test, then, where it holds, a turn, and the same `while` with the fuel that is left. The body of a
/// function is one walk over its statements, then, where a label is still sought, a turn, and the same body with the
/// fuel that is left, where that label is sought.
pub fn turn_by_turn()
    ensures of_while { (fr : Frame) → CallsSpend fr
        → (test : CExpr) (body : List CStmt) (s : CStore) (n : ℕ)
        → c_exec fr (While test body) s n
        ≡ c_then (c_value fr test s n) (λ v r. if is_true v.0 then c_turn r (λ k. c_then (c_run fr body v.1 k) (λ st j. c_next_turn st j (c_exec fr (While test body)))) else CDone (v.1, CNext) r) }
    ensures of_body { (fr : Frame) → CallsSpend fr
        → (body : List CStmt) (st : CState) (n : ℕ)
        → c_jumps (suc n) (c_walk fr body) st n
        ≡ c_then (c_walk fr body st n) (λ t r. c_back t r (λ u k. c_jumps (suc k) (c_walk fr body) u k)) }
{}

/// A body whose statements, run one after the other, don't end at a label that is still sought is those statements run.
pub fn straight_bodies()
    ensures { (fr : Frame) (body : List CStmt) (s : CStore) (n : ℕ)
        → ((t : CStore) (name : List ℕ) (r : ℕ) → c_run fr body s n ≡ CDone (t, Jumps name) r → ⊥)
        → c_body fr body s n ≡ c_run fr body s n }
{}
