//! The numbers of declared names.
ghost use Rattle.std.specs.Prelude.{◌≡◌, ◌++◌, ◌∷◌, [], IfOk, List, ℕ, ◌<◌, ◌^◌, length, not, if◌then◌else◌};
ghost use Rattle.plc_typing.specs.Standard.{is_one_of};
ghost use Rattle.plc_typing.specs.Typing.{number_in};

use crate::word::Word;
use indexmap::IndexSet;
use plc_base::{Name, OutOfMemory};
use std::alloc::Global;
use std::marker::Model;

/// The names that were declared, in text order.
#[derive(Drop)]
pub struct Numbers {
    names: IndexSet<Word>,
}

impl Model for Numbers {
    ghost use Rattle.std.specs.Prelude.{ℕ, List};

    ghost Value = { List (List ℕ) };

    ghost view = { λ n. n.names.keys };
}

impl Numbers {
    /// No name yet.
    pub fn new(alloc: Global) -> Numbers
        ensures { result ≡ [] }
    {
        Numbers {
            names: IndexSet::new(alloc),
        }
    }

    /// Declares a name, and tells whether it is a new one.
    pub fn declare(&mut self, alloc: Global, name: &Name) -> Result<bool, OutOfMemory>
        ensures new { IfOk result (λ new. new ≡ not (is_one_of self.old name.now)) }
        ensures names { IfOk result (λ new. self.new ≡ if new then self.old ++ name.now ∷ [] else self.old) }
    {
        let word = Word::of(alloc, name)?;
        let (_, new) = self.names.insert_full(word)?;
        Ok(new)
    }

    /// The number of a name; 0 where it isn't there.
    pub fn of(&self, alloc: Global, name: &Name) -> Result<u32, OutOfMemory>
        requires { length self.now < 2 ^ 32 }
        ensures { IfOk result (λ number. number ≡ number_in self.now name.now) }
    {
        let word = Word::of(alloc, name)?;
        match self.names.get_index_of(&word) {
            Some(index) => Ok(index as u32),
            None => Ok(0),
        }
    }
}
