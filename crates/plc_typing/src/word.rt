//! Words as keys of sets and maps.
ghost use Rattle.std.specs.Prelude.{◌≡◌, ◌==◌, IfOk};
ghost use Rattle.std.proofs.Common.{rules};
ghost use Rattle.std.specs.Hash as fed;
ghost use Rattle.std.specs.Cmp.Rules.{comparing};
ghost use Rattle.std.specs.Cmp.Lexicographic.{pointwise};
ghost use Rattle.plc_typing.specs.WordLaws.{same_hash};

use plc_base::{Name, OutOfMemory};
use std::alloc::Global;
use std::hash::{Hash, Hasher};
use std::marker::Model;

/// The bytes of a name.
#[derive(Drop)]
pub struct Word {
    bytes: Vec<u8>,
}

impl Model for Word {
    ghost use Rattle.std.specs.Prelude.{ℕ, List};

    ghost Value = { List ℕ };

    ghost view = { λ w. w.bytes.items };
}

impl Word {
    /// The word of a name.
    pub fn of(alloc: Global, name: &Name) -> Result<Word, OutOfMemory>
        ensures { IfOk result (λ word. word ≡ name.now) }
    {
        Ok(Word {
            bytes: Vec::from_slice(alloc, name.bytes())?,
        })
    }
}

impl PartialEq for Word {
    ghost eq = { pointwise (λ x y. x == y) };

    ghost laws = { Prim.search (comparing, rules) };

    fn eq(&self, other: &Word) -> bool {
        self.bytes.as_slice() == other.bytes.as_slice()
    }
}

impl Eq for Word {
    ghost laws = { Prim.search (comparing, rules) };
}

impl Hash for Word {
    ghost hash_input = { fed.slice fed.u8 };

    ghost respects_eq = { same_hash };

    fn hash<H: Hasher>(&self, state: &mut H) {
        self.bytes.as_slice().hash(state);
    }
}
