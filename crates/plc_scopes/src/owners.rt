//! The enumerations that have a value of a name.
ghost use Rattle.std.specs.Prelude.{◌≡◌, ◌<◌, ◌^◌, ℕ, List, length, IfOk, OnOk};
ghost use Rattle.std.specs.List.{list_any};
ghost use Rattle.std.specs.Str.{bytes_eq};
ghost use Rattle.plc_names.specs.Lookup.{has_value, owners_in};
ghost use Rattle.plc_scopes.specs.Lists as spec;
ghost use Rattle.plc_scopes.specs.Lists.{owned, noted, IsPlace, Notes};

use crate::words::Words;
use plc_base::{Name, OutOfMemory};
use plc_names::declarations::Made;
use plc_names::types::TypeId;
use sqlite_items::Items;
use std::alloc::Global;

/// The names of values, and beside each the enumerations that have it.
#[derive(Drop)]
pub struct Owners {
    pub names: Words,
    pub lists: Vec<Items<TypeId>>,
}

/// Whether a type is this enumeration.
fn is_enum(id: TypeId, number: u32) -> bool
    ensures { result ≡ spec.is_enum number id }
{
    match id {
        TypeId::Enum(k) => k == number,
        TypeId::Elem(_) | TypeId::Sub(_) | TypeId::Array(_) => false,
        TypeId::Struct(_) | TypeId::Block(_) => false,
    }
}

/// Whether the last of a list is this enumeration.
fn is_last(list: &[TypeId], number: u32) -> bool
    ensures { result ≡ spec.is_last list.now number }
{
    match list.last() {
        Some(id) => is_enum(*id, number),
        None => false,
    }
}

/// Puts an enumeration at the end of a list, unless it is there.
fn note(list: &mut Items<TypeId>, number: u32) -> Result<(), OutOfMemory>
    ensures { OnOk result (list.new ≡ noted list.old number) }
{
    if !is_last(list.as_slice(), number) {
        list.push(TypeId::Enum(number))?;
    }
    Ok(())
}

impl Owners {
    /// The enumerations beside a name; none where it isn't there.
    pub fn find(&self, name: &[u8]) -> &[TypeId]
        ensures { result.now ≡ owned self.now.names self.now.lists.items name.now }
    {
        match self.names.find(name) {
            Some(place) => match self.lists.get(place) {
                Some(list) => list.as_slice(),
                None => &[],
            },
            None => &[],
        }
    }

    /// The place of a name, which is put in where it isn't there yet.
    fn place(&mut self, alloc: Global, name: &[u8]) -> Result<usize, OutOfMemory>
        requires { length self.old.names ≡ length self.old.lists.items }
        ensures { IfOk result (λ place. IsPlace name.now place self.old.names self.old.lists.items self.new.names self.new.lists.items) }
    {
        let (place, new) = self.names.add(alloc, name)?;
        if new {
            self.lists.push(Items::new(alloc))?;
        }
        Ok(place)
    }

    /// Notes an enumeration at the name of one of its values.
    fn add(&mut self, alloc: Global, name: &[u8], number: u32) -> Result<(), OutOfMemory>
        requires { length self.old.names ≡ length self.old.lists.items }
        ensures { OnOk result (Notes (λ m. bytes_eq m name.now) number self.old.names self.old.lists.items self.new.names self.new.lists.items) }
    {
        let place = self.place(alloc, name)?;
        let list = &mut self.lists[place];
        note(list, number)
    }

    /// Notes an enumeration at the names of its values.
    fn add_all(&mut self, alloc: Global, values: &[Name], number: u32) -> Result<(), OutOfMemory>
        requires { length self.old.names ≡ length self.old.lists.items }
        ensures { OnOk result (Notes (λ m. list_any (bytes_eq m) values.now) number self.old.names self.old.lists.items self.new.names self.new.lists.items) }
    {
        for value in values {
            self.add(alloc, value.bytes(), number)?;
        }
        Ok(())
    }

    /// Notes a type that is made at the names of its values, of which none but an enumeration has some.
    fn add_made(&mut self, alloc: Global, made: &Made, number: u32) -> Result<(), OutOfMemory>
        requires { length self.old.names ≡ length self.old.lists.items }
        ensures { OnOk result (Notes (λ m. has_value m made.now) number self.old.names self.old.lists.items self.new.names self.new.lists.items) }
    {
        match made {
            Made::Enum(values) => self.add_all(alloc, values.as_slice(), number),
            Made::Struct(_) | Made::Sub { .. } | Made::Array { .. } => Ok(()),
        }
    }
}

/// The enumerations that have a value of a name, for each name.
pub fn owners_of(alloc: Global, all: &[Made]) -> Result<Owners, OutOfMemory>
    requires { length all.now < 2 ^ 32 }
    ensures { IfOk result (λ owners. (name : List ℕ) → owned owners.names owners.lists.items name ≡ owners_in all.now name) }
{
    let mut owners = Owners {
        names: Words::new(alloc),
        lists: Vec::new(alloc),
    };
    for (i, made) in all.iter().enumerate() {
        owners.add_made(alloc, made, i as u32)?;
    }
    Ok(owners)
}
