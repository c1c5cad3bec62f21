//! The names of each scope, and the globals.
ghost use Rattle.std.specs.Prelude.{◌≡◌, ◌<◌, ◌≤◌, ◌^◌, ℕ, List, length, nat_eq, not, if◌then◌else◌, IfOk, OnOk};
ghost use Rattle.std.specs.List.{position_from};
ghost use Rattle.plc_names.specs.Lookup as lookup;
ghost use Rattle.plc_names.specs.Lookup.{number_in, is_global_named};
ghost use Rattle.plc_scopes.specs.Firsts.{first_of, space_at, Enters};

use crate::firsts::Firsts;
use plc_base::OutOfMemory;
use plc_names::declarations::Declaration;
use plc_names::names::NameKind;
use std::alloc::Global;

/// A value of an enumeration.
fn is_value(kind: NameKind) -> bool
    ensures { result ≡ lookup.is_value kind }
{
    matches!(kind, NameKind::Value)
}

/// A global of the configuration or of one of its resources.
pub fn is_global(kind: NameKind) -> bool
    ensures { result ≡ lookup.is_global kind }
{
    matches!(kind, NameKind::Global)
}

/// Makes the spaces up to that of a scope.
fn reach(alloc: Global, spaces: &mut Vec<Firsts>, scope: usize) -> Result<(), OutOfMemory>
    ensures there { OnOk result (scope < length spaces.new.items) }
    ensures same { OnOk result ((s : ℕ) → space_at spaces.new.items s ≡ space_at spaces.old.items s) }
{
    'reached: while spaces.len() <= scope {
        spaces.push(Firsts::new(alloc))?;
    }
    Ok(())
}

/// Enters a name in a space that is there.
fn enter_there(
    alloc: Global,
    spaces: &mut Vec<Firsts>,
    scope: usize,
    name: &[u8],
    number: u32,
) -> Result<(), OutOfMemory>
    requires { scope < length spaces.old.items }
    ensures { OnOk result (Enters scope name.now number spaces.old.items spaces.new.items) }
{
    let space = &mut spaces[scope];
    space.enter(alloc, name, number)
}

/// Enters a name in the space of a scope.
fn enter(
    alloc: Global,
    spaces: &mut Vec<Firsts>,
    scope: usize,
    name: &[u8],
    number: u32,
) -> Result<(), OutOfMemory>
    ensures { OnOk result (Enters scope name.now number spaces.old.items spaces.new.items) }
{
    reach(alloc, spaces, scope)?;
    enter_there(alloc, spaces, scope, name, number)
}

/// The names of each scope with the numbers of their first declarations.
pub fn spaces_of(alloc: Global, declared: &[Declaration]) -> Result<Vec<Firsts>, OutOfMemory>
    requires { length declared.now < 2 ^ 32 }
    ensures { IfOk result (λ spaces. (scope : ℕ) (name : List ℕ) → first_of (space_at spaces.items scope) name ≡ number_in declared.now scope name) }
{
    let mut spaces = Vec::new(alloc);
    for (i, d) in declared.iter().enumerate() {
        if !is_value(d.kind) {
            enter(
                alloc,
                &mut spaces,
                d.scope as usize,
                d.name.bytes(),
                i as u32,
            )?;
        }
    }
    Ok(spaces)
}

/// The globals with the numbers of their first declarations.
pub fn globals_of(alloc: Global, declared: &[Declaration]) -> Result<Firsts, OutOfMemory>
    requires { length declared.now < 2 ^ 32 }
    ensures { IfOk result (λ globals. (name : List ℕ) → first_of globals name ≡ position_from (is_global_named name) 0 declared.now) }
{
    let mut globals = Firsts::new(alloc);
    for (i, d) in declared.iter().enumerate() {
        if is_global(d.kind) {
            globals.enter(alloc, d.name.bytes(), i as u32)?;
        }
    }
    Ok(globals)
}
