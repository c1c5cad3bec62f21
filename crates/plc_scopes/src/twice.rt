//! Which declarations have a name that an earlier one has.
ghost use Rattle.std.specs.Prelude.{◌≡◌, ◌||◌, ◌&&◌, take};
ghost use Rattle.std.specs.List.{list_any, position_from};
ghost use Rattle.plc_names.specs.Lookup as lookup;
ghost use Rattle.plc_names.specs.Lookup.{number_in, is_global_named};
ghost use Rattle.plc_names.specs.Rules.{clash};
ghost use Rattle.plc_scopes.specs.Scopes.{before};

use crate::scopes::Scopes;
use crate::spaces::is_global;
use plc_names::declarations::Declaration;

/// Whether there is a number, and it is below another one.
fn is_before(found: Option<u32>, number: u32) -> bool
    ensures { result ≡ before found number }
{
    match found {
        Some(k) => k < number,
        None => false,
    }
}

impl Scopes {
    /// Whether the first declaration of this name in its scope, or the first such global where this is one, is before the
    /// number.
    fn is_found_before(&self, number: u32, declaration: &Declaration) -> bool
        ensures { result ≡ (before (number_in self.now.declared declaration.now.scope declaration.now.name) number || (lookup.is_global declaration.now.kind && before (position_from (is_global_named declaration.now.name) 0 self.now.declared) number)) }
    {
        let name = declaration.name.bytes();
        is_before(self.find(declaration.scope, name), number)
            || (is_global(declaration.kind) && is_before(self.global(name), number))
    }

    /// Whether one of the declarations before this number has the name of this one: one of its scope, or a global where it
    /// is one.
    pub fn is_taken(&self, number: u32, declaration: &Declaration) -> bool
        ensures { result ≡ list_any (clash declaration.now) (take number self.now.declared) }
    {
        self.is_found_before(number, declaration)
    }
}
