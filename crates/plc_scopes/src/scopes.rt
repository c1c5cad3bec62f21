//! The tables of scopes: all that is declared, by scope and name.
ghost use Rattle.std.specs.Prelude.{◌≡◌, ◌<◌, ◌^◌, true, IfOk};
ghost use Rattle.std.specs.List.{position_from};
ghost use Rattle.plc_names.specs.Lookup.{number_in, is_global_named, owners_in};
ghost use Rattle.plc_scopes.specs.Scopes.{HasMembers};

use crate::firsts::Firsts;
use crate::members::members_of;
use crate::owners::{Owners, owners_of};
use crate::spaces::{globals_of, spaces_of};
use plc_base::OutOfMemory;
use plc_names::declarations::{Declaration, Made};
use plc_names::types::TypeId;
use sqlite_items::Items;
use std::alloc::Global;
use std::marker::Model;

/// What the library and a source declare, with tables by scope and name.
#[derive(Drop)]
pub struct Scopes {
    declared: Items<Declaration>,
    made: Items<Made>,
    count: u32,
    spaces: Vec<Firsts>,
    globals: Firsts,
    members: Vec<Items<u32>>,
    owners: Owners,
}

impl Model for Scopes {
    ghost use Rattle.plc_scopes.specs.Scopes.{Told, AreTables};

    ghost Value = { Told };

    ghost view = { λ s. record { declared = s.declared; made = s.made; count = s.count } };

    ghost invariant = { λ s. AreTables s.declared s.made s.count s.spaces.items s.globals s.members.items s.owners.names s.owners.lists.items };
}

/// Whether each of so many has a number.
fn has_numbers(length: usize) -> bool
    ensures { result ≡ true → length < 2 ^ 32 }
{
    length <= u32::MAX as usize
}

impl Scopes {
    /// Makes the tables of what is declared and made, in so many scopes.
    pub fn of(
        alloc: Global,
        declared: Items<Declaration>,
        made: Items<Made>,
        count: u32,
    ) -> Result<Scopes, OutOfMemory>
        ensures { IfOk result (λ s. s ≡ record { declared = declared; made = made; count = count }) }
    {
        if !has_numbers(declared.len()) || !has_numbers(made.len()) {
            return Err(OutOfMemory);
        }
        let spaces = spaces_of(alloc, declared.as_slice())?;
        let globals = globals_of(alloc, declared.as_slice())?;
        let members = members_of(alloc, declared.as_slice(), count)?;
        let owners = owners_of(alloc, made.as_slice())?;
        Ok(Scopes {
            declared,
            made,
            count,
            spaces,
            globals,
            members,
            owners,
        })
    }

    /// The declarations, by their numbers.
    pub fn declared(&self) -> &[Declaration]
        ensures { result.now ≡ self.now.declared }
    {
        self.declared.as_slice()
    }

    /// The types that are made, by their numbers.
    pub fn made(&self) -> &[Made]
        ensures { result.now ≡ self.now.made }
    {
        self.made.as_slice()
    }

    /// How many scopes there are.
    pub fn count(&self) -> u32
        ensures { result ≡ self.now.count }
    {
        self.count
    }

    /// The number of the first declaration of a name in a scope, and in that alone. Values of enumerations are passed over.
    pub fn find(&self, scope: u32, name: &[u8]) -> Option<u32>
        ensures { result ≡ number_in self.now.declared scope name.now }
    {
        match self.spaces.get(scope as usize) {
            Some(space) => space.find(name),
            None => None,
        }
    }

    /// The number of the first global of a name, in the configuration or a resource.
    pub fn global(&self, name: &[u8]) -> Option<u32>
        ensures { result ≡ position_from (is_global_named name.now) 0 self.now.declared }
    {
        self.globals.find(name)
    }

    /// The numbers that are declared in a scope, in text order; none where there is no such scope.
    pub fn members(&self, scope: u32) -> Option<&[u32]>
        ensures { HasMembers self.now scope result }
    {
        match self.members.get(scope as usize) {
            Some(list) => Some(list.as_slice()),
            None => None,
        }
    }

    /// The enumerations that have a value of a name, in text order.
    pub fn owners(&self, name: &[u8]) -> &[TypeId]
        ensures { result.now ≡ owners_in self.now.made name.now }
    {
        self.owners.find(name)
    }
}
