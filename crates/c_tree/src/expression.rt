//! Printing of paths, expressions and arguments.
ghost use Rattle.std.specs.Prelude.{◌≡◌, ◌++◌, [], ◌∷◌, OnOk, flat_map};
ghost use Rattle.c_tree.specs.Layout.{put_all};
ghost use Rattle.c_tree.specs.Spelling as spec;
ghost use Rattle.c_tree.specs.declared.sign.Sign.TheVariants.{CloseParen};

use crate::printer::Printer;
use crate::sign::Sign;
use crate::tree::{CArg, CExpr, CPath, CSel};
use crate::word::{bin_sign, un_sign};
use plc_base::{Elem, Name, OutOfMemory};

#[tactic(auto, using(crate::proofs::GrowingText::pieces))]
impl Printer {
    /// A path to an object, a member, a parameter or a local.
    #[cycle(expr)]
    pub fn path(&mut self, path: &CPath) -> Result<(), OutOfMemory>
        ensures { OnOk result (self.new ≡ put_all self.old (spec.path_pieces path.now)) }
    {
        self.start(&path.first, &path.arrow)?;
        self.sels(path.parts.as_slice())
    }

    // A path up to its parts.
    fn start(&mut self, first: &Name, arrow: &Option<Name>) -> Result<(), OutOfMemory>
        ensures { OnOk result (self.new ≡ put_all self.old (spec.start_pieces first.now arrow.now)) }
    {
        self.name(first)?;
        if let Some(name) = arrow {
            self.mark(Sign::Arrow)?;
            self.name(name)?;
        }
        Ok(())
    }

    #[cycle(expr)]
    fn sels(&mut self, sels: &[CSel]) -> Result<(), OutOfMemory>
        ensures { OnOk result (self.new ≡ put_all self.old (flat_map spec.sel_pieces sels.now)) }
    {
        for sel in sels {
            self.sel(sel)?;
        }
        Ok(())
    }

    #[cycle(expr)]
    fn sel(&mut self, sel: &CSel) -> Result<(), OutOfMemory>
        ensures { OnOk result (self.new ≡ put_all self.old (spec.sel_pieces sel.now)) }
    {
        match sel {
            CSel::Field(name) => {
                self.mark(Sign::Dot)?;
                self.name(name)?;
                Ok(())
            }
            CSel::Index(expr) => {
                self.mark(Sign::OpenBracket)?;
                self.expr(expr)?;
                self.mark(Sign::CloseBracket)?;
                Ok(())
            }
        }
    }

    /// An expression; each operator and each cast has its own parentheses.
    #[cycle(expr)]
    pub fn expr(&mut self, expr: &CExpr) -> Result<(), OutOfMemory>
        ensures { OnOk result (self.new ≡ put_all self.old (spec.expr_pieces expr.now)) }
    {
        match expr {
            CExpr::Number { value, kind } => self.number(*value, *kind),
            CExpr::Path(path) => self.path(path),
            CExpr::Moment => self.word(b"__CURRENT_TIME"),
            CExpr::GetVar(path) => self.form_of_path(b"__GET_VAR", path),
            CExpr::GetLocated(path) => self.form_of_path(b"__GET_LOCATED", path),
            CExpr::Call { name, args } => self.call(name, args.as_slice()),
            CExpr::Bin { op, left, right } => {
                self.mark(Sign::OpenParen)?;
                self.expr(left.get())?;
                self.spaced(bin_sign(*op))?;
                self.expr(right.get())?;
                self.mark(Sign::CloseParen)?;
                Ok(())
            }
            CExpr::Un { op, inner } => {
                self.mark(Sign::OpenParen)?;
                self.mark(un_sign(*op))?;
                self.expr(inner.get())?;
                self.mark(Sign::CloseParen)?;
                Ok(())
            }
            CExpr::Cast { to, inner } => {
                self.type_to_cast(*to)?;
                self.expr(inner.get())?;
                self.mark(Sign::CloseParen)?;
                Ok(())
            }
        }
    }

    // The parenthesis of a cast, and its type in another.
    fn type_to_cast(&mut self, to: Elem) -> Result<(), OutOfMemory>
        ensures { OnOk result (self.new ≡ put_all self.old (spec.cast_pieces to)) }
    {
        self.mark(Sign::OpenParen)?;
        self.mark(Sign::OpenParen)?;
        self.elem(to)?;
        self.mark(Sign::CloseParen)?;
        Ok(())
    }

    // A form that reads what a path leads to.
    #[cycle(expr)]
    fn form_of_path(&mut self, form: &[u8], path: &CPath) -> Result<(), OutOfMemory>
        ensures { OnOk result (self.new ≡ put_all self.old (spec.form_pieces form.now ++ spec.path_pieces path.now ++ spec.mark CloseParen ∷ [])) }
    {
        self.form(form)?;
        self.path(path)?;
        self.mark(Sign::CloseParen)?;
        Ok(())
    }

    /// A call up to its close parenthesis.
    #[cycle(expr)]
    pub fn call(&mut self, name: &Name, args: &[CArg]) -> Result<(), OutOfMemory>
        ensures { OnOk result (self.new ≡ put_all self.old (spec.call_pieces name.now args.now)) }
    {
        self.form(name.bytes())?;
        self.args(args)?;
        self.mark(Sign::CloseParen)?;
        Ok(())
    }

    // The first argument, and each later one behind a comma.
    #[cycle(expr)]
    fn args(&mut self, args: &[CArg]) -> Result<(), OutOfMemory>
        ensures { OnOk result (self.new ≡ put_all self.old (spec.between_commas spec.arg_pieces args.now)) }
    {
        match args.split_first() {
            None => Ok(()),
            Some((first, rest)) => {
                self.arg(first)?;
                for arg in rest {
                    self.mark(Sign::Comma)?;
                    self.arg(arg)?;
                }
                Ok(())
            }
        }
    }

    #[cycle(expr)]
    fn arg(&mut self, arg: &CArg) -> Result<(), OutOfMemory>
        ensures { OnOk result (self.new ≡ put_all self.old (spec.arg_pieces arg.now)) }
    {
        match arg {
            CArg::Value(expr) => self.expr(expr),
            CArg::Address(path) => {
                self.mark(Sign::Ampersand)?;
                self.path(path)
            }
            CArg::Pass(name) => self.name(name),
        }
    }
}
