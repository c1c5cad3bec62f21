//! The names that a program organisation unit declares itself.
ghost use Rattle.std.specs.Prelude.{◌≡◌, ℕ, List, [], IfOk, OnOk};
ghost use Rattle.std.specs.Str.{bytes_eq};
ghost use Rattle.plc_names.specs.Needs.{decl_has, section_has, sections_have};
ghost use Rattle.plc_needs.specs.Own.{has, Joins};

use indexmap::IndexSet;
use plc_base::{Name, OutOfMemory};
use plc_tree::tree::{Decl, Section};
use std::alloc::Global;
use std::marker::Model;

/// The names that a program organisation unit declares itself.
#[derive(Drop)]
pub struct Own {
    names: IndexSet<Vec<u8>>,
}

impl Model for Own {
    ghost use Rattle.std.specs.Prelude.{ℕ, List, map};

    ghost Value = { List (List ℕ) };

    ghost view = { λ o. map (λ name. name.items) o.names.keys };
}

impl Own {
    /// Those that these sections declare.
    pub fn of(alloc: Global, sections: &[Section]) -> Result<Own, OutOfMemory>
        ensures { IfOk result (λ own. (name : List ℕ) → has own name ≡ sections_have sections.now name) }
    {
        let mut own = Own {
            names: IndexSet::new(alloc),
        };
        for section in sections {
            own.section(alloc, section)?;
        }
        Ok(own)
    }

    /// Whether a name is one of them.
    pub fn has(&self, name: &Name) -> bool
        ensures { result ≡ has self.now name.now }
    {
        self.names.contains(name.bytes())
    }

    fn section(&mut self, alloc: Global, section: &Section) -> Result<(), OutOfMemory>
        ensures { OnOk result (Joins self.old (λ name. section_has name section.now) self.new) }
    {
        for decl in section.decls.as_slice() {
            self.decl(alloc, decl)?;
        }
        Ok(())
    }

    fn decl(&mut self, alloc: Global, decl: &Decl) -> Result<(), OutOfMemory>
        ensures { OnOk result (Joins self.old (λ name. decl_has name decl.now) self.new) }
    {
        for id in decl.names.as_slice() {
            self.add(alloc, &id.name)?;
        }
        Ok(())
    }

    fn add(&mut self, alloc: Global, name: &Name) -> Result<(), OutOfMemory>
        ensures { OnOk result (Joins self.old (λ other. bytes_eq other name.now) self.new) }
    {
        let key = Vec::from_slice(alloc, name.bytes())?;
        self.names.insert(key)?;
        Ok(())
    }
}
