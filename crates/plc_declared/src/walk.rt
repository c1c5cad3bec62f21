//! The walk over a program organisation unit and over a configuration.
ghost use Rattle.std.specs.Prelude.{◌≡◌, OnOk, map};
ghost use Rattle.std.specs.List.{flat_map, enumerate_from};
ghost use Rattle.plc_names.specs.Declarations as defined;
ghost use Rattle.plc_names.specs.Declarations.{OfTask, OfInst};
ghost use Rattle.plc_declared.specs.Row.{added};

use crate::number::behind;
use crate::row::Declared;
use plc_base::OutOfMemory;
use plc_tree::tree::{Config, Inst, Pou, Resource, Section, Task};
use std::alloc::Global;

// ---- sections and program organisation units

impl Declared {
    fn section(
        &mut self,
        alloc: Global,
        own: bool,
        scope: u32,
        section: &Section,
    ) -> Result<(), OutOfMemory>
        ensures { OnOk result (self.new ≡ added own self.old (defined.section_entries scope section.now)) }
    {
        for decl in section.decls.as_slice() {
            self.add_variables(alloc, own, scope, section, decl)?;
        }
        Ok(())
    }

    fn sections(
        &mut self,
        alloc: Global,
        own: bool,
        scope: u32,
        sections: &[Section],
    ) -> Result<(), OutOfMemory>
        ensures { OnOk result (self.new ≡ added own self.old (flat_map (defined.section_entries scope) sections.now)) }
    {
        for section in sections {
            self.section(alloc, own, scope, section)?;
        }
        Ok(())
    }

    pub fn pou(
        &mut self,
        alloc: Global,
        own: bool,
        inner: u32,
        pou: &Pou,
    ) -> Result<(), OutOfMemory>
        ensures { OnOk result (self.new ≡ added own self.old (defined.pou_entries inner pou.now)) }
    {
        self.add_pou(alloc, own, inner, pou)?;
        self.sections(alloc, own, inner, pou.sections.as_slice())
    }
}

// ---- configurations

#[tactic(auto, using(crate::proofs::Adding::added_then))]
impl Declared {
    fn tasks(
        &mut self,
        alloc: Global,
        own: bool,
        scope: u32,
        tasks: &[Task],
    ) -> Result<(), OutOfMemory>
        ensures { OnOk result (self.new ≡ added own self.old (map (OfTask scope) tasks.now)) }
    {
        for task in tasks {
            self.add_task(alloc, own, scope, task)?;
        }
        Ok(())
    }

    fn insts(
        &mut self,
        alloc: Global,
        own: bool,
        scope: u32,
        insts: &[Inst],
    ) -> Result<(), OutOfMemory>
        ensures { OnOk result (self.new ≡ added own self.old (map (OfInst scope) insts.now)) }
    {
        for inst in insts {
            self.add_inst(alloc, own, scope, inst)?;
        }
        Ok(())
    }

    fn resource(
        &mut self,
        alloc: Global,
        own: bool,
        scope: u32,
        inner: u32,
        resource: &Resource,
    ) -> Result<(), OutOfMemory>
        ensures { OnOk result (self.new ≡ added own self.old (defined.resource_entries scope (inner, resource.now))) }
    {
        self.add_resource(alloc, own, scope, inner, resource)?;
        self.sections(alloc, own, inner, resource.globals.as_slice())?;
        self.tasks(alloc, own, inner, resource.tasks.as_slice())?;
        self.insts(alloc, own, inner, resource.insts.as_slice())
    }

    fn resources(
        &mut self,
        alloc: Global,
        own: bool,
        scope: u32,
        first: u32,
        resources: &[Resource],
    ) -> Result<(), OutOfMemory>
        ensures { OnOk result (self.new ≡ added own self.old (flat_map (defined.resource_entries scope) (enumerate_from first resources.now))) }
    {
        for (k, resource) in resources.iter().enumerate() {
            let inner = behind(first, k)?;
            self.resource(alloc, own, scope, inner, resource)?;
        }
        Ok(())
    }

    pub fn config(
        &mut self,
        alloc: Global,
        own: bool,
        inner: u32,
        config: &Config,
    ) -> Result<(), OutOfMemory>
        ensures { OnOk result (self.new ≡ added own self.old (defined.config_entries inner config.now)) }
    {
        let first = behind(inner, 1)?;
        let scope = behind(first, config.resources.len())?;
        self.add_config(alloc, own, scope, inner, config)?;
        self.sections(alloc, own, inner, config.globals.as_slice())?;
        self.resources(alloc, own, scope, first, config.resources.as_slice())
    }
}
