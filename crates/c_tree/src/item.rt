//! Printing of items and of the parts of a unit.
ghost use Rattle.std.specs.Prelude.{◌≡◌, OnOk, flat_map};
ghost use Rattle.c_tree.specs.Layout.{put, put_all};
ghost use Rattle.c_tree.specs.Spelling as spec;
ghost use Rattle.c_tree.specs.declared.tree.CItem.TheVariants as items;

use crate::printer::Printer;
use crate::sign::Sign;
use crate::tree::{CItem, CLocal, CNum, CParam, CPath, CRow, CStmt, CType};
use crate::word::{celled_name, flagged_name, row_word};
use plc_base::{Elem, Name, OutOfMemory};

#[tactic(auto, using(crate::proofs::GrowingText::pieces))]
impl Printer {
    fn ctype(&mut self, ty: &CType) -> Result<(), OutOfMemory>
        ensures { OnOk result (self.new ≡ put_all self.old (spec.ctype_pieces ty.now)) }
    {
        match ty {
            CType::Plain(elem) => self.elem(*elem),
            CType::Flagged(elem) => self.word(flagged_name(*elem)),
            CType::Celled(elem) => self.word(celled_name(*elem)),
            CType::Struct(name) => self.name(name),
        }
    }

    fn dims(&mut self, dims: &[u32]) -> Result<(), OutOfMemory>
        ensures { OnOk result (self.new ≡ put_all self.old (flat_map spec.dim_pieces dims.now)) }
    {
        for dim in dims {
            self.dim(*dim)?;
        }
        Ok(())
    }

    fn dim(&mut self, dim: u32) -> Result<(), OutOfMemory>
        ensures { OnOk result (self.new ≡ put_all self.old (spec.dim_pieces dim)) }
    {
        self.mark(Sign::OpenBracket)?;
        self.number(dim as u64, CNum::Int)?;
        self.mark(Sign::CloseBracket)
    }

    fn params(&mut self, params: &[CParam]) -> Result<(), OutOfMemory>
        ensures { OnOk result (self.new ≡ put_all self.old (spec.params_pieces params.now)) }
    {
        match params.split_first() {
            None => self.word(b"void"),
            Some((first, rest)) => {
                self.param(first)?;
                self.later_params(rest)
            }
        }
    }

    fn later_params(&mut self, params: &[CParam]) -> Result<(), OutOfMemory>
        ensures { OnOk result (self.new ≡ put_all self.old (spec.behind_commas spec.param_pieces params.now)) }
    {
        for param in params {
            self.mark(Sign::Comma)?;
            self.param(param)?;
        }
        Ok(())
    }

    fn param(&mut self, param: &CParam) -> Result<(), OutOfMemory>
        ensures { OnOk result (self.new ≡ put_all self.old (spec.param_pieces param.now)) }
    {
        match param {
            CParam::Value { elem, name } => {
                self.elem(*elem)?;
                self.name(name)
            }
            CParam::Pointer { to, name } => {
                self.name(to)?;
                self.mark(Sign::Star)?;
                self.name(name)
            }
        }
    }

    fn locals(&mut self, locals: &[CLocal]) -> Result<(), OutOfMemory>
        ensures { OnOk result (self.new ≡ put_all self.old (flat_map spec.local_pieces locals.now)) }
    {
        for local in locals {
            self.local(local)?;
        }
        Ok(())
    }

    fn local(&mut self, local: &CLocal) -> Result<(), OutOfMemory>
        ensures { OnOk result (self.new ≡ put_all self.old (spec.local_pieces local.now)) }
    {
        self.elem(local.elem)?;
        self.name(&local.name)?;
        self.spaced(Sign::Assign)?;
        self.expr(&local.init)?;
        self.ending(Sign::Semicolon)?;
        Ok(())
    }
}

impl Printer {
    /// Writes a part of a unit, the first or a later one.
    #[tactic(auto, using(crate::proofs::GrowingText::items))]
    pub fn part(&mut self, first: bool, items: &[CItem]) -> Result<(), OutOfMemory>
        ensures { OnOk result (self.new ≡ put_all self.old (spec.part_pieces first items.now)) }
    {
        if first {
            self.include()?;
        }
        self.items(items)
    }

    #[cycle(item)]
    fn items(&mut self, items: &[CItem]) -> Result<(), OutOfMemory>
        ensures { OnOk result (self.new ≡ put_all self.old (spec.items_pieces items.now)) }
    {
        for item in items {
            self.item(item)?;
        }
        Ok(())
    }

    #[cycle(item)]
    fn item(&mut self, item: &CItem) -> Result<(), OutOfMemory>
        ensures { OnOk result (self.new ≡ put_all self.old (spec.item_pieces item.now)) }
    {
        match item {
            CItem::Struct { members, name } => self.structure(members.as_slice(), name),
            CItem::Object { ty, name, dims } => self.object(ty, name, dims.as_slice()),
            CItem::Located {
                elem,
                name,
                dir,
                size,
                numbers,
            } => self.located(*elem, name, *dir, *size, numbers.as_slice()),
            CItem::Func {
                result,
                name,
                params,
                locals,
                body,
            } => self.func(
                *result,
                name,
                params.as_slice(),
                locals.as_slice(),
                body.as_slice(),
            ),
            CItem::DebugRow {
                number,
                elem,
                path,
                kind,
            } => self.debug_row(*number, *elem, path, *kind),
        }
    }

    #[cycle(item)]
    fn structure(&mut self, members: &[CItem], name: &Name) -> Result<(), OutOfMemory>
        ensures { OnOk result (self.new ≡ put_all self.old (spec.item_pieces (items.Struct members.now name.now))) }
    {
        self.word(b"typedef")?;
        self.word(b"struct")?;
        self.ending(Sign::OpenBrace)?;
        self.items(members)?;
        self.ending(Sign::CloseBrace)?;
        self.name(name)?;
        self.ending(Sign::Semicolon)?;
        Ok(())
    }

    fn object(&mut self, ty: &CType, name: &Name, dims: &[u32]) -> Result<(), OutOfMemory>
        ensures { OnOk result (self.new ≡ put_all self.old (spec.item_pieces (items.Object ty.now name.now dims.now))) }
    {
        self.ctype(ty)?;
        self.name(name)?;
        self.dims(dims)?;
        self.ending(Sign::Semicolon)?;
        Ok(())
    }

    fn located(
        &mut self,
        elem: Elem,
        name: &Name,
        dir: u8,
        size: u8,
        numbers: &[u32],
    ) -> Result<(), OutOfMemory>
        ensures { OnOk result (self.new ≡ put_all self.old (spec.item_pieces (items.Located elem name.now dir size numbers.now))) }
    {
        self.cell(elem, name, dir, size)?;
        self.numbers(numbers)?;
        self.ending(Sign::CloseParen)?;
        Ok(())
    }

    // A cell up to its numbers.
    fn cell(&mut self, elem: Elem, name: &Name, dir: u8, size: u8) -> Result<(), OutOfMemory>
        ensures { OnOk result (self.new ≡ put_all self.old (spec.cell_pieces elem name.now dir size)) }
    {
        self.form(b"__LOCATED_VAR")?;
        self.elem(elem)?;
        self.mark(Sign::Comma)?;
        self.name(name)?;
        self.mark(Sign::Comma)?;
        self.word(&[dir])?;
        self.mark(Sign::Comma)?;
        self.word(&[size])?;
        Ok(())
    }

    fn numbers(&mut self, numbers: &[u32]) -> Result<(), OutOfMemory>
        ensures { OnOk result (self.new ≡ put_all self.old (spec.behind_commas spec.int_pieces numbers.now)) }
    {
        for number in numbers {
            self.mark(Sign::Comma)?;
            self.number(*number as u64, CNum::Int)?;
        }
        Ok(())
    }

    fn func(
        &mut self,
        gives: Option<Elem>,
        name: &Name,
        params: &[CParam],
        locals: &[CLocal],
        body: &[CStmt],
    ) -> Result<(), OutOfMemory>
        ensures { OnOk result (self.new ≡ put_all self.old (spec.item_pieces (items.Func gives name.now params.now locals.now body.now))) }
    {
        self.head(gives, name, params)?;
        self.body(locals, body)?;
        Ok(())
    }

    // A function up to its open brace.
    fn head(
        &mut self,
        gives: Option<Elem>,
        name: &Name,
        params: &[CParam],
    ) -> Result<(), OutOfMemory>
        ensures { OnOk result (self.new ≡ put_all self.old (spec.head_pieces gives name.now params.now)) }
    {
        self.gives(gives)?;
        self.name(name)?;
        self.mark(Sign::OpenParen)?;
        self.params(params)?;
        self.mark(Sign::CloseParen)?;
        self.ending(Sign::OpenBrace)?;
        Ok(())
    }

    fn gives(&mut self, gives: Option<Elem>) -> Result<(), OutOfMemory>
        ensures { OnOk result (self.new ≡ put self.old (spec.result_piece gives)) }
    {
        match gives {
            None => self.word(b"void"),
            Some(elem) => self.elem(elem),
        }
    }

    fn body(&mut self, locals: &[CLocal], body: &[CStmt]) -> Result<(), OutOfMemory>
        ensures { OnOk result (self.new ≡ put_all self.old (spec.body_pieces locals.now body.now)) }
    {
        self.locals(locals)?;
        self.stmts(body)?;
        self.ending(Sign::CloseBrace)?;
        Ok(())
    }

    fn debug_row(
        &mut self,
        number: u32,
        elem: Elem,
        path: &CPath,
        kind: CRow,
    ) -> Result<(), OutOfMemory>
        ensures { OnOk result (self.new ≡ put_all self.old (spec.item_pieces (items.DebugRow number elem path.now kind))) }
    {
        self.form(b"__DEBUG_ROW")?;
        self.number(number as u64, CNum::Int)?;
        self.mark(Sign::Comma)?;
        self.elem(elem)?;
        self.mark(Sign::Comma)?;
        self.path(path)?;
        self.mark(Sign::Comma)?;
        self.word(row_word(kind))?;
        self.end_of_call()
    }
}
