//! What each type that is made is made of (IEC 61131-3, 2.3.3).
ghost use Rattle.std.specs.Prelude.{◌≡◌, ◌+◌, IfOk, option_map};
ghost use Rattle.plc_names.specs.declared.types.Shape.TheVariants as shape;
ghost use Rattle.plc_names.specs.Types as types;
ghost use Rattle.plc_types.specs.Known.{world_of};

use crate::elementary::elem_named;
use crate::known::Known;
use plc_base::{Name, OutOfMemory};
use plc_names::declarations::{Made, Part, PartType};
use plc_names::types::{Field, Shape, Standing, TypeId};
use sqlite_items::Items;
use std::alloc::Global;

fn copied(alloc: Global, names: &[Name]) -> Result<Items<Name>, OutOfMemory>
    ensures { IfOk result (λ copy. copy ≡ names.now) }
{
    let mut copy = Items::new(alloc);
    for name in names {
        copy.push(Name::new(alloc, name.bytes())?)?;
    }
    Ok(copy)
}

fn copied_bounds(alloc: Global, bounds: &[(i128, i128)]) -> Result<Items<(i128, i128)>, OutOfMemory>
    ensures { IfOk result (λ copy. copy ≡ bounds.now) }
{
    let mut copy = Items::new(alloc);
    for range in bounds {
        copy.push(*range)?;
    }
    Ok(copy)
}

/// The type that a name stands for.
fn type_named(known: &Known, name: &[u8]) -> Option<TypeId>
    ensures { result ≡ types.type_named (world_of known.now) name.now }
{
    match known.standing(name) {
        Some(Standing::Type(ty)) => Some(ty),
        Some(Standing::Block(_)) | None => None,
    }
}

/// The type of a field, where the next type that is made has this number.
fn type_of_part(known: &Known, next: u32, part: &Part) -> Option<TypeId>
    ensures { result ≡ types.type_of_part (world_of known.now) next part.now.ty }
{
    match &part.ty {
        PartType::ByName(name) => type_named(known, name.bytes()),
        PartType::Sub => Some(TypeId::Sub(next)),
        PartType::Array => Some(TypeId::Array(next)),
    }
}

/// The number of the next type that is made behind a field.
fn behind(next: u32, part: &Part) -> Result<u32, OutOfMemory>
    ensures { IfOk result (λ n. n ≡ next + types.makes part.now.ty) }
{
    match part.ty {
        PartType::ByName(_) => Ok(next),
        PartType::Sub | PartType::Array => next.checked_add(1).ok_or(OutOfMemory),
    }
}

/// The fields of a structure, where the next type that is made has this number and each field has a type.
fn fields(
    alloc: Global,
    known: &Known,
    first: u32,
    parts: &[Part],
) -> Result<Option<Items<Field>>, OutOfMemory>
    ensures { IfOk result (λ found. found ≡ types.fields (world_of known.now) first parts.now) }
{
    let mut done = Items::new(alloc);
    let mut next = first;
    let mut rest = parts;
    while let [part, more @ ..] = rest {
        let Some(ty) = type_of_part(known, next, part) else {
            return Ok(None);
        };
        let name = Name::new(alloc, part.name.bytes())?;
        done.push(Field { name, ty })?;
        next = behind(next, part)?;
        rest = more;
    }
    Ok(Some(done))
}

fn structure(
    alloc: Global,
    known: &Known,
    number: u32,
    parts: &[Part],
) -> Result<Option<Shape>, OutOfMemory>
    ensures { IfOk result (λ found. found ≡ option_map shape.Struct (types.fields (world_of known.now) (number + 1) parts.now)) }
{
    let first = number.checked_add(1).ok_or(OutOfMemory)?;
    match fields(alloc, known, first, parts)? {
        Some(list) => Ok(Some(Shape::Struct(list))),
        None => Ok(None),
    }
}

fn subrange(base: &[u8], low: i128, high: i128) -> Option<Shape>
    ensures { result ≡ option_map (λ e. shape.Sub e low high) (types.elem_named base.now) }
{
    match elem_named(base) {
        Some(base) => Some(Shape::Sub { base, low, high }),
        None => None,
    }
}

fn array(
    alloc: Global,
    known: &Known,
    bounds: &[(i128, i128)],
    element: &[u8],
) -> Result<Option<Shape>, OutOfMemory>
    ensures { IfOk result (λ found. found ≡ option_map (shape.Array bounds.now) (types.type_named (world_of known.now) element.now)) }
{
    let Some(element) = type_named(known, element) else {
        return Ok(None);
    };
    let bounds = copied_bounds(alloc, bounds)?;
    Ok(Some(Shape::Array { bounds, element }))
}

/// What a type that is made is made of, where it has this number.
pub fn shape_of(
    alloc: Global,
    known: &Known,
    number: u32,
    made: &Made,
) -> Result<Option<Shape>, OutOfMemory>
    ensures { IfOk result (λ found. found ≡ types.shape_made (world_of known.now) number made.now) }
{
    match made {
        Made::Enum(values) => Ok(Some(Shape::Enum(copied(alloc, values.as_slice())?))),
        Made::Struct(parts) => structure(alloc, known, number, parts.as_slice()),
        Made::Sub { base, low, high } => Ok(subrange(base.bytes(), *low, *high)),
        Made::Array {
            bounds,
            element,
            ..
        } => array(alloc, known, bounds.as_slice(), element.bytes()),
    }
}
