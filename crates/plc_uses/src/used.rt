//! What a name that is used in the scope of the source must be: declared, of the right kind, and declared before.
ghost use Rattle.std.specs.Prelude.{◌≡◌, ◌||◌, not};
ghost use Rattle.plc_base.specs.Least.{Meets};
ghost use Rattle.plc_names.specs.Rules as spec;
ghost use Rattle.plc_uses.specs.Faults.{use_faults};
ghost use Rattle.plc_types.specs.Known.{world_of};

use plc_base::{Least, Name, Place, Rule};
use plc_names::names::NameKind;
use plc_names::types::{Standing, TypeId};
use plc_names::wants::Want;
use plc_standard::{is_block, is_function};
use plc_types::elementary::elem_named;
use plc_types::known::Known;

/// Whether no declaration has the name.
fn is_nothing(known: &Known, name: &[u8]) -> bool
    ensures { result ≡ spec.is_nothing (spec.found (world_of known.now) name.now) }
{
    elem_named(name).is_none()
        && known.declaration(name).is_none()
        && !is_function(name)
        && !is_block(name)
}

/// Whether the name is declared behind this place of the source.
fn is_later(known: &Known, at: Place, name: &[u8]) -> bool
    ensures { result ≡ spec.is_later at (spec.found (world_of known.now) name.now) }
{
    if elem_named(name).is_some() {
        return false;
    }
    match known.declaration(name) {
        Some(declaration) => declaration.own && at.token < declaration.at.token,
        None => false,
    }
}

fn is_leaf(ty: TypeId) -> bool
    ensures { result ≡ spec.is_leaf ty }
{
    matches!(ty, TypeId::Elem(_) | TypeId::Enum(_) | TypeId::Sub(_))
}

fn is_enum(ty: TypeId) -> bool
    ensures { result ≡ spec.is_enum ty }
{
    matches!(ty, TypeId::Enum(_))
}

/// Whether what a name of a type stands for has no parts, where it stands for something.
fn stands_for_leaf(standing: Option<Standing>) -> bool
    ensures { result ≡ spec.standing_is spec.is_leaf standing }
{
    match standing {
        None => true,
        Some(Standing::Type(ty)) => is_leaf(ty),
        Some(Standing::Block(_)) => false,
    }
}

/// Whether what a name of a type stands for is an enumeration, where it stands for something.
fn stands_for_enum(standing: Option<Standing>) -> bool
    ensures { result ≡ spec.standing_is spec.is_enum standing }
{
    match standing {
        None => true,
        Some(Standing::Type(ty)) => is_enum(ty),
        Some(Standing::Block(_)) => false,
    }
}

/// Whether a declared type can stand where this is wanted.
fn type_fits(want: Want, standing: Option<Standing>) -> bool
    ensures { result ≡ spec.type_fits want standing }
{
    match want {
        Want::AType | Want::ATypeOrBlock => true,
        Want::ALeafType => stands_for_leaf(standing),
        Want::AnEnum => stands_for_enum(standing),
        Want::AProgram => false,
    }
}

fn takes_elementary(want: Want) -> bool
    ensures { result ≡ spec.takes_elementary want }
{
    matches!(want, Want::AType | Want::ATypeOrBlock | Want::ALeafType)
}

fn takes_block(want: Want) -> bool
    ensures { result ≡ spec.takes_block want }
{
    matches!(want, Want::ATypeOrBlock)
}

fn takes_program(want: Want) -> bool
    ensures { result ≡ spec.takes_program want }
{
    matches!(want, Want::AProgram)
}

/// Whether what is declared as this can stand where that is wanted.
fn kind_fits(want: Want, kind: NameKind, standing: Option<Standing>) -> bool
    ensures { result ≡ spec.kind_fits want kind standing }
{
    match kind {
        NameKind::Named => type_fits(want, standing),
        NameKind::Block => takes_block(want),
        NameKind::Prog => takes_program(want),
        _ => false,
    }
}

/// Whether a name that no declaration has can stand there: a name of nothing breaks another rule.
fn standard_fits(want: Want, name: &[u8]) -> bool
    ensures { result ≡ spec.standard_fits want name.now }
{
    if is_function(name) {
        return false;
    }
    !is_block(name) || takes_block(want)
}

/// Whether a name is of a kind that is wanted there.
fn fits(known: &Known, want: Want, name: &[u8]) -> bool
    ensures { result ≡ spec.fits (world_of known.now) want name.now (spec.found (world_of known.now) name.now) }
{
    if elem_named(name).is_some() {
        return takes_elementary(want);
    }
    match known.declaration(name) {
        Some(declaration) => kind_fits(want, declaration.kind, known.standing(name)),
        None => standard_fits(want, name),
    }
}

/// Whether a name may stand in front of its declaration, or doesn't.
fn is_in_order(known: &Known, forward: bool, at: Place, name: &[u8]) -> bool
    ensures { result ≡ (forward || not (spec.is_later at (spec.found (world_of known.now) name.now))) }
{
    forward || !is_later(known, at, name)
}

/// A name is used in the scope of the source.
pub fn used(known: &Known, forward: bool, want: Want, name: &Name, at: Place, met: &mut Least)
    ensures { Meets (use_faults forward (world_of known.now) (record { want = want; name = name.now; at = at })) met.old met.new }
{
    let bytes = name.bytes();
    met.want(!is_nothing(known, bytes), Rule::N2, at);
    met.want(fits(known, want, bytes), Rule::N3, at);
    met.want(is_in_order(known, forward, at, bytes), Rule::N4, at);
}
