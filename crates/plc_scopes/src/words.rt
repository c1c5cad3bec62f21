//! The different names of a list, in the order in which they were met first.
ghost use Rattle.std.specs.Prelude.{◌≡◌, [], ◌++◌, ◌∷◌, ◌<◌, not, position, length, IfOk, IfSome, if◌then◌else◌};
ghost use Rattle.std.specs.List.{list_any, position_or_len};
ghost use Rattle.std.specs.Str.{bytes_eq};

use indexmap::IndexSet;
use plc_base::OutOfMemory;
use std::alloc::Global;
use std::marker::Model;

/// Names, none of them twice.
#[derive(Drop)]
pub struct Words {
    names: IndexSet<Vec<u8>>,
}

impl Model for Words {
    ghost use Rattle.std.specs.Prelude.{ℕ, List, map};
    ghost use Rattle.plc_scopes.specs.Firsts.{bytes_of};

    ghost Value = { List (List ℕ) };

    ghost view = { λ w. map bytes_of w.names.keys };
}

impl Words {
    /// No name yet.
    pub fn new(alloc: Global) -> Words
        ensures { result ≡ [] }
    {
        Words {
            names: IndexSet::new(alloc),
        }
    }

    /// The place of a name.
    pub fn find(&self, name: &[u8]) -> Option<usize>
        ensures { result ≡ position (bytes_eq name.now) self.now }
    {
        self.names.get_index_of(name)
    }

    /// Adds a name, and tells its place and whether it is a new one.
    pub fn add(&mut self, alloc: Global, name: &[u8]) -> Result<(usize, bool), OutOfMemory>
        ensures place { IfOk result (λ r. r.0 ≡ position_or_len (bytes_eq name.now) self.old) }
        ensures new { IfOk result (λ r. r.1 ≡ not (list_any (bytes_eq name.now) self.old)) }
        ensures names { IfOk result (λ r. self.new ≡ if r.1 then self.old ++ name.now ∷ [] else self.old) }
    {
        let key = Vec::from_slice(alloc, name)?;
        Ok(self.names.insert_full(key)?)
    }
}
