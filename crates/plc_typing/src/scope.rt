//! The variables of a program organisation unit by their names, and the types that expressions can have.
ghost use Rattle.std.specs.Prelude.{◌≡◌, ◌∷◌, [], IfOk, OnOk, List, ℕ};
ghost use Rattle.plc_typing.specs.Scope as spec;
ghost use Rattle.plc_typing.specs.Uses.{is_built_spec};

use crate::word::Word;
use indexmap::IndexMap;
use plc_base::{Elem, Name, OutOfMemory};
use plc_tree::tree::{Decl, Section, Spec};
use std::alloc::Global;
use std::marker::Model;

const INT: &[u8] = b"INT";

const BOOL: &[u8] = b"BOOL";

// ---- types

/// The place of a type in the order in which types are taken.
fn order(elem: Elem) -> u8
    ensures { result ≡ spec.order elem }
{
    match elem {
        Elem::Sint => 0,
        Elem::Int => 1,
        Elem::Dint => 2,
        Elem::Lint => 3,
        Elem::Usint => 4,
        Elem::Uint => 5,
        Elem::Udint => 6,
        Elem::Ulint => 7,
        Elem::Byte => 8,
        Elem::Word => 9,
        Elem::Dword => 10,
        Elem::Lword => 11,
        Elem::Bool => 12,
        Elem::Time => 13,
    }
}

/// Whether two types are one.
pub fn is_elem(wanted: Elem, elem: Elem) -> bool
    ensures { result ≡ spec.is_elem wanted elem }
{
    order(wanted) == order(elem)
}

/// The elementary type of what is declared: INT, else BOOL.
pub fn elem_of_spec(what: &Spec) -> Elem
    ensures { result ≡ spec.elem_of_spec what.now }
{
    match what {
        Spec::Named(id) if id.name.bytes() == INT => Elem::Int,
        _ => Elem::Bool,
    }
}

/// Whether a type is built: INT and BOOL are.
pub fn is_built_spec(what: &Spec) -> bool
    ensures { result ≡ is_built_spec what.now }
{
    match what {
        Spec::Named(id) => id.name.bytes() == INT || id.name.bytes() == BOOL,
        Spec::Sub { .. } | Spec::Array { .. } => false,
    }
}

// ---- variables

/// The variables of a program organisation unit.
#[derive(Drop)]
pub struct Scope {
    types: IndexMap<Word, Elem>,
}

impl Model for Scope {
    ghost use Rattle.plc_typing.specs.Scope.{Variable};
    ghost use Rattle.std.specs.Prelude.{List};

    ghost Value = { List Variable };

    ghost view = { λ s. s.types.entries };
}

impl Scope {
    /// What these sections declare.
    pub fn of(alloc: Global, sections: &[Section]) -> Result<Scope, OutOfMemory>
        ensures { IfOk result (λ scope. (name : List ℕ) → spec.types_of scope name ≡ spec.type_in (spec.variables sections.now) name) }
    {
        let mut scope = Scope {
            types: IndexMap::new(alloc),
        };
        for section in sections {
            scope.section(alloc, section)?;
        }
        Ok(scope)
    }

    /// What a name is of, where a variable has it.
    pub fn elem_of(&self, alloc: Global, name: &Name) -> Result<Option<Elem>, OutOfMemory>
        ensures { IfOk result (λ elem. elem ≡ spec.types_of self.now name.now) }
    {
        let word = Word::of(alloc, name)?;
        Ok(self.types.get(&word).copied())
    }

    fn section(&mut self, alloc: Global, section: &Section) -> Result<(), OutOfMemory>
        ensures { OnOk result (spec.IsJoined self.old (spec.section_variables section.now) self.new) }
    {
        for decl in section.decls.as_slice() {
            self.decl(alloc, decl)?;
        }
        Ok(())
    }

    fn decl(&mut self, alloc: Global, decl: &Decl) -> Result<(), OutOfMemory>
        ensures { OnOk result (spec.IsJoined self.old (spec.decl_variables decl.now) self.new) }
    {
        for id in decl.names.as_slice() {
            self.add(alloc, &id.name, elem_of_spec(&decl.spec))?;
        }
        Ok(())
    }

    fn add(&mut self, alloc: Global, name: &Name, elem: Elem) -> Result<(), OutOfMemory>
        ensures { OnOk result (spec.IsJoined self.old ((name.now, elem) ∷ []) self.new) }
    {
        let word = Word::of(alloc, name)?;
        self.types.insert(word, elem)?;
        Ok(())
    }
}
