//! The order in which the declarations of a source stand: by the tokens of their names.
ghost use Rattle.std.specs.Prelude.{◌≡◌, ◌++◌, IfOk, OnOk, Some, map};
ghost use Rattle.std.specs.List.{enumerate_from};
ghost use Rattle.plc_names.specs.Items as defined;
ghost use Rattle.plc_declared.specs.Order.{seen, merged};

use plc_base::OutOfMemory;
use plc_tree::tree::Unit;
use sqlite_items::Items;
use std::alloc::Global;

/// What is declared, by its number among those of its kind, from 0.
#[derive(Clone, Copy)]
pub enum What {
    Type(usize),
    /// A program organisation unit.
    Pou(usize),
    /// The first configuration.
    Config,
}

/// A declaration of a source, by the token of its name.
#[derive(Clone, Copy)]
pub struct Item {
    pub token: u32,
    pub what: What,
}

// ---- the declarations of one kind

fn types(alloc: Global, unit: &Unit) -> Result<Items<Item>, OutOfMemory>
    ensures { IfOk result (λ items. map (seen unit.now) items ≡ map Some (map defined.type_item unit.now.types)) }
{
    let mut items = Items::new(alloc);
    for (k, def) in unit.types.as_slice().iter().enumerate() {
        items.push(Item {
            token: def.at.token,
            what: What::Type(k),
        })?;
    }
    Ok(items)
}

fn pous(alloc: Global, unit: &Unit) -> Result<Items<Item>, OutOfMemory>
    ensures { IfOk result (λ items. map (seen unit.now) items ≡ map Some (map defined.pou_item (enumerate_from 0 unit.now.pous))) }
{
    let mut items = Items::new(alloc);
    for (k, pou) in unit.pous.as_slice().iter().enumerate() {
        items.push(Item {
            token: pou.at.token,
            what: What::Pou(k),
        })?;
    }
    Ok(items)
}

/// That of the first configuration, since what stands in others is not looked at.
fn configs(alloc: Global, unit: &Unit) -> Result<Items<Item>, OutOfMemory>
    ensures { IfOk result (λ items. map (seen unit.now) items ≡ map Some (map defined.config_item (defined.first_config unit.now))) }
{
    let mut items = Items::new(alloc);
    if let Some(config) = unit.configs.get(0) {
        items.push(Item {
            token: config.at.token,
            what: What::Config,
        })?;
    }
    Ok(items)
}

// ---- two lists merged

/// The items, and more of them.
fn extended(mut items: Items<Item>, more: &[Item]) -> Result<Items<Item>, OutOfMemory>
    ensures { IfOk result (λ all. all ≡ items ++ more.now) }
{
    for item in more {
        items.push(*item)?;
    }
    Ok(items)
}

/// Of two with the same token that of `left` is first.
fn merge(alloc: Global, left: &[Item], right: &[Item]) -> Result<Items<Item>, OutOfMemory>
    ensures { IfOk result (λ items. items ≡ merged left.now right.now) }
{
    let mut items = Items::new(alloc);
    let (mut xs, mut ys) = (left, right);
    'both: loop {
        let [x, later_xs @ ..] = xs else {
            return extended(items, ys);
        };
        let [y, later_ys @ ..] = ys else {
            return extended(items, xs);
        };
        if x.token <= y.token {
            items.push(*x)?;
            xs = later_xs;
        } else {
            items.push(*y)?;
            ys = later_ys;
        }
    }
}

// ---- sources

/// The types and the program organisation units of a source, in text order.
pub fn own_items(alloc: Global, unit: &Unit) -> Result<Items<Item>, OutOfMemory>
    ensures { IfOk result (λ items. map (seen unit.now) items ≡ map Some (defined.own_items unit.now)) }
{
    let types = types(alloc, unit)?;
    let pous = pous(alloc, unit)?;
    merge(alloc, types.as_slice(), pous.as_slice())
}

/// All that a source declares, in text order; of the configurations only the first.
pub fn items(alloc: Global, unit: &Unit) -> Result<Items<Item>, OutOfMemory>
    ensures { IfOk result (λ items. map (seen unit.now) items ≡ map Some (defined.items unit.now)) }
{
    let own = own_items(alloc, unit)?;
    let configs = configs(alloc, unit)?;
    merge(alloc, own.as_slice(), configs.as_slice())
}
