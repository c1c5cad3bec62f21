//! Printing of statements.
ghost use Rattle.std.specs.Prelude.{◌≡◌, OnOk, flat_map};
ghost use Rattle.c_tree.specs.Layout.{put_all};
ghost use Rattle.c_tree.specs.Spelling as spec;
ghost use Rattle.c_tree.specs.declared.tree.CStmt.TheVariants as stmts;

use crate::printer::Printer;
use crate::sign::Sign;
use crate::tree::{CArg, CExpr, CPath, CStmt};
use plc_base::{Name, OutOfMemory};

#[tactic(auto, using(crate::proofs::GrowingText::pieces))]
impl Printer {
    /// Statements one after the other.
    #[cycle(stmt)]
    pub fn stmts(&mut self, stmts: &[CStmt]) -> Result<(), OutOfMemory>
        ensures { OnOk result (self.new ≡ put_all self.old (flat_map spec.stmt_pieces stmts.now)) }
    {
        for stmt in stmts {
            self.stmt(stmt)?;
        }
        Ok(())
    }

    #[cycle(stmt)]
    fn stmt(&mut self, stmt: &CStmt) -> Result<(), OutOfMemory>
        ensures { OnOk result (self.new ≡ put_all self.old (spec.stmt_pieces stmt.now)) }
    {
        match stmt {
            CStmt::Set { to, from } => self.set(to, from),
            CStmt::InitVar { to, from } => self.setting(b"__INIT_VAR", to, from),
            CStmt::SetVar { to, from } => self.setting(b"__SET_VAR", to, from),
            CStmt::InitLocated { to, cell } => self.init_located(to, cell),
            CStmt::SetLocated { to, from } => self.setting(b"__SET_LOCATED", to, from),
            CStmt::Copy { to, from } => self.copy(to, from),
            CStmt::Publish(path) => self.publish(path),
            CStmt::Call { name, args } => self.call_stmt(name, args.as_slice()),
            CStmt::If { test, body, other } => {
                self.test(b"if", test)?;
                self.block(body.as_slice())?;
                if let Some(stmts) = other {
                    self.word(b"else")?;
                    self.block(stmts.as_slice())?;
                }
                Ok(())
            }
            CStmt::While { test, body } => {
                self.test(b"while", test)?;
                self.block(body.as_slice())
            }
            CStmt::Break => {
                self.word(b"break")?;
                self.ending(Sign::Semicolon)?;
                Ok(())
            }
            CStmt::Goto(name) => self.goto(name),
            CStmt::Label(name) => self.label(name),
            CStmt::Return(value) => self.return_value(value),
        }
    }

    // Statements in braces.
    #[cycle(stmt)]
    fn block(&mut self, stmts: &[CStmt]) -> Result<(), OutOfMemory>
        ensures { OnOk result (self.new ≡ put_all self.old (spec.block_pieces stmts.now)) }
    {
        self.ending(Sign::OpenBrace)?;
        self.stmts(stmts)?;
        self.ending(Sign::CloseBrace)?;
        Ok(())
    }

    // An `if` or a `while` up to its open brace.
    fn test(&mut self, keyword: &[u8], test: &CExpr) -> Result<(), OutOfMemory>
        ensures { OnOk result (self.new ≡ put_all self.old (spec.test_pieces keyword.now test.now)) }
    {
        self.form(keyword)?;
        self.expr(test)?;
        self.mark(Sign::CloseParen)?;
        Ok(())
    }

    fn return_value(&mut self, value: &Option<CExpr>) -> Result<(), OutOfMemory>
        ensures { OnOk result (self.new ≡ put_all self.old (spec.stmt_pieces (stmts.Return value.now))) }
    {
        self.word(b"return")?;
        if let Some(expr) = value {
            self.expr(expr)?;
        }
        self.ending(Sign::Semicolon)?;
        Ok(())
    }

    fn goto(&mut self, name: &Name) -> Result<(), OutOfMemory>
        ensures { OnOk result (self.new ≡ put_all self.old (spec.stmt_pieces (stmts.Goto name.now))) }
    {
        self.word(b"goto")?;
        self.name(name)?;
        self.ending(Sign::Semicolon)?;
        Ok(())
    }

    fn label(&mut self, name: &Name) -> Result<(), OutOfMemory>
        ensures { OnOk result (self.new ≡ put_all self.old (spec.stmt_pieces (stmts.Label name.now))) }
    {
        self.name(name)?;
        self.ending(Sign::Colon)?;
        Ok(())
    }

    fn set(&mut self, to: &CPath, from: &CExpr) -> Result<(), OutOfMemory>
        ensures { OnOk result (self.new ≡ put_all self.old (spec.stmt_pieces (stmts.Set to.now from.now))) }
    {
        self.path(to)?;
        self.spaced(Sign::Assign)?;
        self.expr(from)?;
        self.ending(Sign::Semicolon)?;
        Ok(())
    }

    // A form that sets what a path leads to.
    fn setting(&mut self, form: &[u8], to: &CPath, from: &CExpr) -> Result<(), OutOfMemory>
        ensures { OnOk result (self.new ≡ put_all self.old (spec.setting_pieces form.now to.now from.now)) }
    {
        self.form(form)?;
        self.path(to)?;
        self.mark(Sign::Comma)?;
        self.expr(from)?;
        self.end_of_call()
    }

    fn init_located(&mut self, to: &CPath, cell: &Name) -> Result<(), OutOfMemory>
        ensures { OnOk result (self.new ≡ put_all self.old (spec.stmt_pieces (stmts.InitLocated to.now cell.now))) }
    {
        self.form(b"__INIT_LOCATED")?;
        self.path(to)?;
        self.mark(Sign::Comma)?;
        self.name(cell)?;
        self.end_of_call()
    }

    fn copy(&mut self, to: &CPath, from: &CPath) -> Result<(), OutOfMemory>
        ensures { OnOk result (self.new ≡ put_all self.old (spec.stmt_pieces (stmts.Copy to.now from.now))) }
    {
        self.form(b"__COPY")?;
        self.path(to)?;
        self.mark(Sign::Comma)?;
        self.path(from)?;
        self.end_of_call()
    }

    fn publish(&mut self, path: &CPath) -> Result<(), OutOfMemory>
        ensures { OnOk result (self.new ≡ put_all self.old (spec.stmt_pieces (stmts.Publish path.now))) }
    {
        self.form(b"__PUBLISH")?;
        self.path(path)?;
        self.end_of_call()
    }

    fn call_stmt(&mut self, name: &Name, args: &[CArg]) -> Result<(), OutOfMemory>
        ensures { OnOk result (self.new ≡ put_all self.old (spec.stmt_pieces (stmts.Call name.now args.now))) }
    {
        self.call(name, args)?;
        self.ending(Sign::Semicolon)?;
        Ok(())
    }
}
