//! What each declaration stands for as a type, found in an order in which those that aren't on a circle stand behind what
//! they need.
ghost use Rattle.std.specs.Prelude.{◌≡◌, IfOk, slice_set, List, ℕ};
ghost use Rattle.circles.specs.Circles.{Describes};
ghost use Rattle.plc_names.specs.Declarations.{all_declared};
ghost use Rattle.plc_names.specs.Needs.{graph, rows};
ghost use Rattle.plc_tree.specs.declared.tree.Unit.{Unit as Source};
ghost use Rattle.plc_names.specs.Types.{standing_kind, standing_written, world};
ghost use Rattle.plc_types.specs.Known as spec;
ghost use Rattle.plc_types.specs.Known.{standing_named};
ghost use Rattle.plc_types.specs.Standings as all;

use crate::elementary::elem_named;
use circles::Circles;
use plc_base::OutOfMemory;
use plc_names::declarations::{Declaration, Written};
use plc_names::names::NameKind;
use plc_names::types::{Standing, TypeId};
use plc_scopes::Scopes;
use plc_standard::block_number;
use std::alloc::Global;

/// What the declaration of this number stands for, where that is found.
fn standing_at(found: &[Option<Standing>], number: u32) -> Option<Standing>
    ensures { result ≡ spec.standing_at found.now number }
{
    match found.get(number as usize) {
        Some(standing) => *standing,
        None => None,
    }
}

/// What the name of a type stands for, by what is found.
pub fn standing_named(scopes: &Scopes, found: &[Option<Standing>], name: &[u8]) -> Option<Standing>
    ensures { result ≡ spec.standing_named scopes.now.declared found.now name.now }
{
    if let Some(elem) = elem_named(name) {
        return Some(Standing::Type(TypeId::Elem(elem)));
    }
    match scopes.find(0, name) {
        Some(number) => standing_at(found, number),
        None => block_number(name).map(Standing::Block),
    }
}

/// What the type of a name stands for.
pub fn standing_written(
    scopes: &Scopes,
    found: &[Option<Standing>],
    written: &Written,
) -> Option<Standing>
    ensures { result ≡ standing_written (standing_named scopes.now.declared found.now) written.now }
{
    match written {
        Written::Untyped => None,
        Written::Itself(ty) => Some(Standing::Type(*ty)),
        Written::ByName(name) => standing_named(scopes, found, name.bytes()),
    }
}

/// What a declaration stands for; none but a type and a block does.
fn standing_of(
    scopes: &Scopes,
    found: &[Option<Standing>],
    declaration: &Declaration,
) -> Option<Standing>
    ensures { result ≡ standing_kind (standing_named scopes.now.declared found.now) declaration.now.kind declaration.now.ty }
{
    match declaration.kind {
        NameKind::Named | NameKind::Block => standing_written(scopes, found, &declaration.ty),
        _ => None,
    }
}

/// What the declaration of this number stands for, by what is found of those that it needs.
fn stands_for(
    scopes: &Scopes,
    circles: &Circles,
    found: &[Option<Standing>],
    number: u32,
) -> Option<Standing>
    ensures { result ≡ all.stands_for scopes.now.declared circles.now.circular found.now number }
{
    if circles.is_circular(number) {
        return None;
    }
    match scopes.declared().get(number as usize) {
        Some(declaration) => standing_of(scopes, found, declaration),
        None => None,
    }
}

/// Nothing is found yet, of so many.
fn nothing(alloc: Global, count: usize) -> Result<Vec<Option<Standing>>, OutOfMemory>
    ensures { IfOk result (λ found. found.items ≡ all.nothing count) }
{
    let mut found = Vec::new(alloc);
    for _ in 0..count {
        found.push(None)?;
    }
    Ok(found)
}

/// A place of a list gets a value, where there is that place.
fn put(found: &mut Vec<Option<Standing>>, number: u32, standing: Option<Standing>)
    ensures { found.new.items ≡ slice_set found.old.items number standing }
{
    if (number as usize) < found.len() {
        found[number as usize] = standing;
    }
}

/// For each declaration, by its number, what it stands for as a type. Where the circles are those of what needs what in the
/// library and a source, the names of types stand for it.
pub fn standings(
    alloc: Global,
    scopes: &Scopes,
    circles: &Circles,
) -> Result<Vec<Option<Standing>>, OutOfMemory>
    ensures found { IfOk result (λ found. found.items ≡ all.standings scopes.now.declared circles.now) }
    ensures stands { IfOk result (λ found. (library u : Source) → scopes.now.declared ≡ all_declared library u → Describes (graph (all_declared library u) (rows library u)) circles.now
        → (name : List ℕ) → standing_named scopes.now.declared found.items name ≡ (world library u).standing name) }
{
    let mut found = nothing(alloc, scopes.declared().len())?;
    let order = circles.order();
    for number in order {
        let standing = stands_for(scopes, circles, found.as_slice(), *number);
        put(&mut found, *number, standing);
    }
    Ok(found)
}
