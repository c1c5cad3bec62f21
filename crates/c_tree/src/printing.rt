//! Printing of units.
ghost use Rattle.std.specs.Prelude.{◌≡◌, ◌∷◌, ◌<◌, length, map, true, false, IfOk};
ghost use Rattle.c_tree.specs.Layout.{put_all};
ghost use Rattle.c_tree.specs.Printing as spec;
ghost use Rattle.c_tree.specs.Spelled.{SpellsUnit};
ghost use Rattle.c_tree.specs.WellSpelled.{WellSpelled};

use crate::printer::Printer;
use crate::text::{CText, Text};
use crate::tree::{CItem, CPart, CUnit};
use plc_base::{Name, OutOfMemory};
use std::alloc::Global;

/// The text of one part of a unit, by its number from 0.
pub fn print(alloc: Global, unit: &CUnit, part: u32) -> Result<Vec<u8>, OutOfMemory>
    requires { part < length unit.now.parts }
    ensures { IfOk result (λ text. text.items ≡ spec.printed unit.now part) }
{
    let items = &unit.parts.as_slice()[part as usize].items;
    print_items(alloc, part == 0, items.as_slice())
}

/// The texts of all parts, in order and named as they are.
pub fn print_unit(alloc: Global, unit: &CUnit) -> Result<Vec<CText>, OutOfMemory>
    ensures texts { IfOk result (λ texts. texts.items ≡ spec.printed_unit unit.now) }
    ensures spells { IfOk result (λ texts. WellSpelled unit.now → SpellsUnit texts.items unit.now) }
{
    let texts = print_parts(alloc, unit.parts.as_slice())?;
    Ok(texts)
}

fn print_parts(alloc: Global, parts: &[CPart]) -> Result<Vec<CText>, OutOfMemory>
    ensures { IfOk result (λ texts. texts.items ≡ spec.part_texts parts.now) }
{
    match parts.split_first() {
        None => Ok(Vec::new(alloc)),
        Some((first, later)) => print_from(alloc, first, later),
    }
}

fn print_from(alloc: Global, first: &CPart, later: &[CPart]) -> Result<Vec<CText>, OutOfMemory>
    ensures { IfOk result (λ texts. texts.items ≡ spec.part_text true first.now ∷ map (spec.part_text false) later.now) }
{
    let mut texts = Vec::new(alloc);
    texts.push(print_part(alloc, true, first)?)?;
    for part in later {
        texts.push(print_part(alloc, false, part)?)?;
    }
    Ok(texts)
}

fn print_part(alloc: Global, first: bool, part: &CPart) -> Result<CText, OutOfMemory>
    ensures { IfOk result (λ text. text ≡ spec.part_text first part.now) }
{
    let bytes = print_items(alloc, first, part.items.as_slice())?;
    Ok(CText {
        name: Name::new(alloc, part.name.bytes())?,
        bytes: Text::from_vec(bytes),
    })
}

fn print_items(alloc: Global, first: bool, items: &[CItem]) -> Result<Vec<u8>, OutOfMemory>
    ensures { IfOk result (λ text. text.items ≡ spec.printed_part first items.now) }
{
    let mut printer = Printer::new(alloc);
    printer.part(first, items)?;
    Ok(printer.into_text())
}
