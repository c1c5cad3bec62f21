//! Names with the number that each was entered with first.
ghost use Rattle.std.specs.Prelude.{◌≡◌, [], OnOk};
ghost use Rattle.plc_scopes.specs.Firsts.{first_of, entered};

use indexmap::IndexMap;
use plc_base::OutOfMemory;
use std::alloc::Global;
use std::marker::Model;

/// Names and their first numbers.
#[derive(Drop)]
pub struct Firsts {
    names: IndexMap<Vec<u8>, u32>,
}

impl Model for Firsts {
    ghost use Rattle.std.specs.Prelude.{ℕ, List, map};
    ghost use Rattle.plc_scopes.specs.Firsts.{plain};

    ghost Value = { List (List ℕ × ℕ) };

    ghost view = { λ f. map plain f.names.entries };
}

impl Firsts {
    /// No name yet.
    pub fn new(alloc: Global) -> Firsts
        ensures { result ≡ [] }
    {
        Firsts {
            names: IndexMap::new(alloc),
        }
    }

    /// The first number of a name.
    pub fn find(&self, name: &[u8]) -> Option<u32>
        ensures { result ≡ first_of self.now name.now }
    {
        self.names.get(name).copied()
    }

    /// Enters a name with a number. One that is there keeps its own.
    pub fn enter(&mut self, alloc: Global, name: &[u8], number: u32) -> Result<(), OutOfMemory>
        ensures { OnOk result (self.new ≡ entered self.old name.now number) }
    {
        if self.find(name).is_some() {
            return Ok(());
        }
        let key = Vec::from_slice(alloc, name)?;
        self.names.insert(key, number)?;
        Ok(())
    }
}
