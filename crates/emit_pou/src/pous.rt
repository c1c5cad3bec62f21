//! Program organisation units by their numbers.
ghost use Rattle.std.specs.Prelude.{◌≡◌, IfOk};
ghost use Rattle.std.specs.Option.{option_copied};
ghost use Rattle.plc_tree.specs.Rows.{pou_in, vars_of};
ghost use Rattle.emit_pou.specs.Emitted.{name_of};

use crate::c_name::copied;
use plc_base::{Name, OutOfMemory};
use plc_tree::typed::{TPou, TVar};
use std::alloc::Global;

/// The POU with this number.
fn pou_of(pous: &[TPou], id: u32) -> Option<&TPou>
    ensures { option_copied result ≡ pou_in pous.now id }
{
    for pou in pous {
        if pou.id == id {
            return Some(pou);
        }
    }
    None
}

/// Its variables; none where it isn't there.
pub fn variables(pous: &[TPou], id: u32) -> &[TVar]
    ensures { result.now ≡ vars_of (pou_in pous.now id) }
{
    match pou_of(pous, id) {
        Some(pou) => pou.vars.as_slice(),
        None => &[],
    }
}

/// Its name; empty where it isn't there.
pub fn program_name(alloc: Global, pous: &[TPou], id: u32) -> Result<Name, OutOfMemory>
    ensures { IfOk result (λ name. name ≡ name_of (pou_in pous.now id)) }
{
    match pou_of(pous, id) {
        Some(pou) => copied(alloc, &pou.name),
        None => Ok(Name::from_vec(Vec::new(alloc))),
    }
}
