//! A row of declarations, and what one declaration adds to it.
ghost use Rattle.std.specs.Prelude.{◌≡◌, OnOk};
ghost use Rattle.plc_names.specs.Declarations.{OfType, OfPou, OfVars, OfConfig, OfResource, OfTask, OfInst};
ghost use Rattle.plc_declared.specs.Row.{add};

use crate::declaration::{
    Spot, Standing, declare_values_of, declare_variables, pou_declared, type_declared, untyped,
};
use crate::made::{make_spec, make_type};
use crate::number::number;
use plc_base::OutOfMemory;
use plc_names::declarations::{Declaration, Made};
use plc_names::names::NameKind;
use plc_tree::tree::{Config, Decl, Inst, Pou, Resource, Section, Task, TypeDef};
use sqlite_items::Items;
use std::alloc::Global;

/// What is declared, in a row.
#[derive(Drop)]
pub struct Declared {
    /// The names; the number of a declaration is its place here.
    pub names: Items<Declaration>,
    /// The types that are made; the number of a type is its place here.
    pub made: Items<Made>,
}

// ---- one entry

#[tactic(auto, unfolding(crate::specs::Row::add))]
impl Declared {
    pub fn add_type(&mut self, alloc: Global, own: bool, def: &TypeDef) -> Result<(), OutOfMemory>
        ensures { OnOk result (self.new ≡ add own self.old (OfType def.now)) }
    {
        let next = number(self.made.len())?;
        self.names.push(type_declared(alloc, own, next, def)?)?;
        declare_values_of(alloc, own, next, &def.what, &mut self.names)?;
        make_type(alloc, &def.what, &mut self.made)
    }

    pub fn add_pou(
        &mut self,
        alloc: Global,
        own: bool,
        inner: u32,
        pou: &Pou,
    ) -> Result<(), OutOfMemory>
        ensures { OnOk result (self.new ≡ add own self.old (OfPou inner pou.now)) }
    {
        self.names.push(pou_declared(alloc, own, inner, pou)?)?;
        Ok(())
    }

    pub fn add_variables(
        &mut self,
        alloc: Global,
        own: bool,
        scope: u32,
        section: &Section,
        decl: &Decl,
    ) -> Result<(), OutOfMemory>
        ensures { OnOk result (self.new ≡ add own self.old (OfVars scope section.now decl.now)) }
    {
        let next = number(self.made.len())?;
        let spot = Spot {
            own,
            next,
            scope,
            section,
        };
        declare_variables(alloc, spot, decl, &mut self.names)?;
        make_spec(alloc, false, &decl.spec, &mut self.made)
    }

    pub fn add_config(
        &mut self,
        alloc: Global,
        own: bool,
        scope: u32,
        inner: u32,
        config: &Config,
    ) -> Result<(), OutOfMemory>
        ensures { OnOk result (self.new ≡ add own self.old (OfConfig scope inner config.now)) }
    {
        let standing = Standing {
            own,
            kind: NameKind::Config,
            scope,
            inner: Some(inner),
        };
        self.names
            .push(untyped(alloc, standing, &config.name, config.at)?)?;
        Ok(())
    }

    pub fn add_resource(
        &mut self,
        alloc: Global,
        own: bool,
        scope: u32,
        inner: u32,
        resource: &Resource,
    ) -> Result<(), OutOfMemory>
        ensures { OnOk result (self.new ≡ add own self.old (OfResource scope inner resource.now)) }
    {
        let standing = Standing {
            own,
            kind: NameKind::Resource,
            scope,
            inner: Some(inner),
        };
        self.names
            .push(untyped(alloc, standing, &resource.name, resource.at)?)?;
        Ok(())
    }

    pub fn add_task(
        &mut self,
        alloc: Global,
        own: bool,
        scope: u32,
        task: &Task,
    ) -> Result<(), OutOfMemory>
        ensures { OnOk result (self.new ≡ add own self.old (OfTask scope task.now)) }
    {
        let standing = Standing {
            own,
            kind: NameKind::Task,
            scope,
            inner: None,
        };
        self.names
            .push(untyped(alloc, standing, &task.name, task.at)?)?;
        Ok(())
    }

    pub fn add_inst(
        &mut self,
        alloc: Global,
        own: bool,
        scope: u32,
        inst: &Inst,
    ) -> Result<(), OutOfMemory>
        ensures { OnOk result (self.new ≡ add own self.old (OfInst scope inst.now)) }
    {
        let standing = Standing {
            own,
            kind: NameKind::Inst,
            scope,
            inner: None,
        };
        self.names
            .push(untyped(alloc, standing, &inst.name, inst.at)?)?;
        Ok(())
    }
}
