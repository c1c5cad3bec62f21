//! The walk over the library and a source, in text order.
ghost use Rattle.std.specs.Prelude.{◌≡◌, IfOk, OnOk, true, false};
ghost use Rattle.std.specs.List.{flat_map};
ghost use Rattle.plc_names.specs.Declarations as defined;
ghost use Rattle.plc_declared.specs.Row.{added, numbered_entries};

use crate::number::behind;
use crate::order::{Item, What, items, own_items};
use crate::row::Declared;
use plc_base::OutOfMemory;
use plc_tree::tree::Unit;
use sqlite_items::Items;
use std::alloc::Global;

/// The scopes of a unit.
#[derive(Clone, Copy)]
struct Scopes {
    /// Whether it is the source, and not the library.
    own: bool,
    /// That of the first program organisation unit.
    first: u32,
    config: u32,
}

impl Declared {
    fn item(
        &mut self,
        alloc: Global,
        scopes: Scopes,
        unit: &Unit,
        item: &Item,
    ) -> Result<(), OutOfMemory>
        ensures { OnOk result (self.new ≡ added scopes.own self.old (numbered_entries scopes.first scopes.config unit.now item.now)) }
    {
        match item.what {
            What::Type(k) => match unit.types.get(k) {
                Some(def) => self.add_type(alloc, scopes.own, def),
                None => Ok(()),
            },
            What::Pou(k) => match unit.pous.get(k) {
                Some(pou) => self.pou(alloc, scopes.own, behind(scopes.first, k)?, pou),
                None => Ok(()),
            },
            What::Config => match unit.configs.get(0) {
                Some(config) => self.config(alloc, scopes.own, scopes.config, config),
                None => Ok(()),
            },
        }
    }

    fn items(
        &mut self,
        alloc: Global,
        scopes: Scopes,
        unit: &Unit,
        items: &[Item],
    ) -> Result<(), OutOfMemory>
        ensures { OnOk result (self.new ≡ added scopes.own self.old (flat_map (numbered_entries scopes.first scopes.config unit.now) items.now)) }
    {
        for item in items {
            self.item(alloc, scopes, unit, item)?;
        }
        Ok(())
    }

    fn library(&mut self, alloc: Global, library: &Unit) -> Result<(), OutOfMemory>
        ensures { OnOk result (self.new ≡ added false self.old (defined.library_entries library.now)) }
    {
        let scopes = Scopes {
            own: false,
            first: 1,
            config: 0,
        };
        let list = own_items(alloc, library)?;
        self.items(alloc, scopes, library, list.as_slice())
    }

    fn source(&mut self, alloc: Global, library: &Unit, unit: &Unit) -> Result<(), OutOfMemory>
        ensures { OnOk result (self.new ≡ added true self.old (defined.source_entries library.now unit.now)) }
    {
        let first = behind(1, library.pous.len())?;
        let scopes = Scopes {
            own: true,
            first,
            config: behind(first, unit.pous.len())?,
        };
        let list = items(alloc, unit)?;
        self.items(alloc, scopes, unit, list.as_slice())
    }
}

/// What the library and a source declare, in a row, and the types that are made. Of the configurations only the first of
/// the source is looked at.
pub fn declared(alloc: Global, library: &Unit, unit: &Unit) -> Result<Declared, OutOfMemory>
    ensures names { IfOk result (λ row. row.names ≡ defined.all_declared library.now unit.now) }
    ensures made { IfOk result (λ row. row.made ≡ defined.all_made library.now unit.now) }
{
    let mut row = Declared {
        names: Items::new(alloc),
        made: Items::new(alloc),
    };
    row.library(alloc, library)?;
    row.source(alloc, library, unit)?;
    Ok(row)
}
