//! The types that a declaration makes.
ghost use Rattle.std.specs.Prelude.{◌≡◌, ◌++◌, IfOk, OnOk, map};
ghost use Rattle.std.specs.List.{flat_map};
ghost use Rattle.plc_names.specs.Declarations as defined;

use plc_base::{Name, OutOfMemory};
use plc_names::declarations::{Made, Part, PartType};
use plc_tree::tree::{Bounds, Id, Member, Spec, TypeWhat};
use sqlite_items::Items;
use std::alloc::Global;

pub fn copied(alloc: Global, name: &Name) -> Result<Name, OutOfMemory>
    ensures { IfOk result (λ copy. copy ≡ name.now) }
{
    Name::new(alloc, name.bytes())
}

fn names_of(alloc: Global, ids: &[Id]) -> Result<Items<Name>, OutOfMemory>
    ensures { IfOk result (λ names. names ≡ map defined.name_of ids.now) }
{
    let mut names = Items::new(alloc);
    for id in ids {
        names.push(copied(alloc, &id.name)?)?;
    }
    Ok(names)
}

fn limits(alloc: Global, bounds: &[Bounds]) -> Result<Items<(i128, i128)>, OutOfMemory>
    ensures { IfOk result (λ limits. limits ≡ map defined.limits bounds.now) }
{
    let mut limits = Items::new(alloc);
    for b in bounds {
        limits.push((b.low.value, b.high.value))?;
    }
    Ok(limits)
}

/// What a specification makes: an array that is declared as a type has a name.
pub fn make_spec(
    alloc: Global,
    named: bool,
    spec: &Spec,
    made: &mut Items<Made>,
) -> Result<(), OutOfMemory>
    ensures { OnOk result (made.new ≡ made.old ++ defined.spec_made named spec.now) }
{
    match spec {
        Spec::Named(_) => Ok(()),
        Spec::Sub { base, bounds } => {
            let base = copied(alloc, &base.name)?;
            let (low, high) = (bounds.low.value, bounds.high.value);
            made.push(Made::Sub { base, low, high })?;
            Ok(())
        }
        Spec::Array {
            bounds,
            element,
            ..
        } => {
            let bounds = limits(alloc, bounds.as_slice())?;
            let element = copied(alloc, &element.name)?;
            made.push(Made::Array {
                named,
                bounds,
                element,
            })?;
            Ok(())
        }
    }
}

// ---- structures

fn part_type(alloc: Global, spec: &Spec) -> Result<PartType, OutOfMemory>
    ensures { IfOk result (λ ty. ty ≡ defined.part_type spec.now) }
{
    match spec {
        Spec::Named(id) => Ok(PartType::ByName(copied(alloc, &id.name)?)),
        Spec::Sub { .. } => Ok(PartType::Sub),
        Spec::Array { .. } => Ok(PartType::Array),
    }
}

fn part_of(alloc: Global, member: &Member) -> Result<Part, OutOfMemory>
    ensures { IfOk result (λ part. part ≡ defined.part_of member.now) }
{
    Ok(Part {
        name: copied(alloc, &member.name)?,
        ty: part_type(alloc, &member.spec)?,
    })
}

fn parts(alloc: Global, members: &[Member]) -> Result<Items<Part>, OutOfMemory>
    ensures { IfOk result (λ parts. parts ≡ map defined.part_of members.now) }
{
    let mut parts = Items::new(alloc);
    for member in members {
        parts.push(part_of(alloc, member)?)?;
    }
    Ok(parts)
}

/// The types of fields that are written without a name.
fn make_members(
    alloc: Global,
    members: &[Member],
    made: &mut Items<Made>,
) -> Result<(), OutOfMemory>
    ensures { OnOk result (made.new ≡ made.old ++ flat_map defined.member_made members.now) }
{
    for member in members {
        make_spec(alloc, false, &member.spec, made)?;
    }
    Ok(())
}

// ---- declared types

/// The types of a declaration of a type: the fields' stand behind their structure.
pub fn make_type(alloc: Global, what: &TypeWhat, made: &mut Items<Made>) -> Result<(), OutOfMemory>
    ensures { OnOk result (made.new ≡ made.old ++ defined.type_made what.now) }
{
    match what {
        TypeWhat::Enum { values, .. } => {
            let values = names_of(alloc, values.as_slice())?;
            made.push(Made::Enum(values))?;
            Ok(())
        }
        TypeWhat::Struct(members) => {
            let parts = parts(alloc, members.as_slice())?;
            made.push(Made::Struct(parts))?;
            make_members(alloc, members.as_slice(), made)
        }
        TypeWhat::Spec { spec, .. } => make_spec(alloc, true, spec, made),
    }
}
