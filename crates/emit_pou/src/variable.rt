//! The variables of the running instance.
ghost use Rattle.std.specs.Prelude.{◌≡◌, IfOk};
ghost use Rattle.std.specs.Option.{option_copied};
ghost use Rattle.plc_tree.specs.WellTyped.{AreNumbered, var_in};
ghost use Rattle.emit_pou.specs.Expressions as spec;

use crate::c_name::{SELF, copied};
use c_tree::tree::CPath;
use plc_base::{Name, OutOfMemory};
use plc_tree::typed::TVar;
use sqlite_items::Items;
use std::alloc::Global;

/// The variable with this number, which stands as far behind the first as its number says.
fn variable(vars: &[TVar], id: u32) -> Option<&TVar>
    requires { AreNumbered vars.now }
    ensures { option_copied result ≡ var_in vars.now id }
{
    let first = vars.first()?;
    if id < first.id {
        return None;
    }
    vars.get((id - first.id) as usize)
}

/// Its name; empty where it isn't there.
fn variable_name(alloc: Global, vars: &[TVar], id: u32) -> Result<Name, OutOfMemory>
    requires { AreNumbered vars.now }
    ensures { IfOk result (λ name. name ≡ spec.name_of_var (var_in vars.now id)) }
{
    match variable(vars, id) {
        Some(var) => copied(alloc, &var.name),
        None => Ok(Name::from_vec(Vec::new(alloc))),
    }
}

/// A variable of the running instance, by its name.
pub fn own(alloc: Global, name: &Name) -> Result<CPath, OutOfMemory>
    ensures { IfOk result (λ path. path ≡ spec.own name.now) }
{
    own_path(alloc, copied(alloc, name)?)
}

fn own_path(alloc: Global, name: Name) -> Result<CPath, OutOfMemory>
    ensures { IfOk result (λ path. path ≡ spec.own name) }
{
    Ok(CPath {
        first: Name::new(alloc, SELF)?,
        arrow: Some(name),
        parts: Items::new(alloc),
    })
}

/// And by its number.
pub fn leaf(alloc: Global, vars: &[TVar], id: u32) -> Result<CPath, OutOfMemory>
    requires { AreNumbered vars.now }
    ensures { IfOk result (λ path. path ≡ spec.leaf vars.now id) }
{
    own_path(alloc, variable_name(alloc, vars, id)?)
}
