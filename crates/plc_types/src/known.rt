//! What is known of names: the tables of scopes, and what the name of a type stands for.
ghost use Rattle.std.specs.Prelude.{◌≡◌, ◌&&◌, ◌||◌, not, option_copied};
ghost use Rattle.plc_names.specs.Lookup.{found_in};
ghost use Rattle.plc_types.specs.Known as spec;

use crate::standings::standing_named;
use plc_names::declarations::Declaration;
use plc_names::types::Standing;
use plc_scopes::Scopes;
use std::marker::Model;

/// The tables of scopes, and for each declaration of a type or a block what its name stands for.
pub struct Known {
    scopes: Scopes,
    standings: Vec<Option<Standing>>,
}

impl Model for Known {
    ghost use Rattle.plc_types.specs.Known.{KnownNames};

    ghost Value = { KnownNames };

    ghost view = { λ k. record { scopes = k.scopes; standings = k.standings.items } };
}

impl Known {
    /// All that is known.
    pub fn of(scopes: Scopes, standings: Vec<Option<Standing>>) -> Known
        ensures { result ≡ record { scopes = scopes; standings = standings.items } }
    {
        Known { scopes, standings }
    }

    /// The tables of scopes.
    pub fn scopes(&self) -> &Scopes
        ensures { result.now ≡ self.now.scopes }
    {
        &self.scopes
    }

    /// The declaration of a name in the scope of the source.
    pub fn declaration(&self, name: &[u8]) -> Option<&Declaration>
        ensures { option_copied result ≡ found_in self.now.scopes.declared 0 name.now }
    {
        let number = self.scopes.find(0, name)?;
        self.scopes.declared().get(number as usize)
    }

    /// What the name of a type stands for.
    pub fn standing(&self, name: &[u8]) -> Option<Standing>
        ensures { result ≡ spec.standing_named self.now.scopes.declared self.now.standings name.now }
    {
        standing_named(&self.scopes, self.standings.as_slice(), name)
    }
}
