//! The names of the stated C for what a source declares.
ghost use Rattle.std.specs.Prelude.{◌≡◌, ◌++◌, IfOk, codes};
ghost use Rattle.emit_pou.specs.CNames as spec;

use plc_base::{Name, OutOfMemory};
use std::alloc::Global;

/// The function that starts a configuration.
pub const CONFIG_INIT: &[u8] = b"config_init__";

/// The function of a scan.
pub const CONFIG_RUN: &[u8] = b"config_run__";

/// The pointer to the running instance.
pub const SELF: &[u8] = b"p__";

/// The number of the tick.
pub const TICK: &[u8] = b"tick__";

/// Whether an arm of the innermost IF or CASE was picked.
pub const PICK: &[u8] = b"pick__";

/// The number that a CASE looks for.
pub const CASE: &[u8] = b"case__";

/// The step of the innermost FOR.
pub const STEP: &[u8] = b"step__";

/// Its limit.
pub const LIMIT: &[u8] = b"limit__";

/// Two parts, one after the other.
pub fn joined(alloc: Global, front: &[u8], end: &[u8]) -> Result<Name, OutOfMemory>
    ensures { IfOk result (λ name. name ≡ front.now ++ end.now) }
{
    let mut bytes = Vec::from_slice(alloc, front)?;
    bytes.extend_from_slice(end)?;
    Ok(Name::from_vec(bytes))
}

/// The function that sets a POU's variables.
pub fn init_name(alloc: Global, pou: &Name) -> Result<Name, OutOfMemory>
    ensures { IfOk result (λ name. name ≡ spec.init_name pou.now) }
{
    joined(alloc, pou.bytes(), b"_init__")
}

/// The function of a POU's body.
pub fn body_name(alloc: Global, pou: &Name) -> Result<Name, OutOfMemory>
    ensures { IfOk result (λ name. name ≡ spec.body_name pou.now) }
{
    joined(alloc, pou.bytes(), b"_body__")
}

/// The function that starts a resource.
pub fn start_name(alloc: Global, resource: &Name) -> Result<Name, OutOfMemory>
    ensures { IfOk result (λ name. name ≡ spec.start_name resource.now) }
{
    joined(alloc, resource.bytes(), b"_start__")
}

/// The function of a resource's share of a scan.
pub fn run_name(alloc: Global, resource: &Name) -> Result<Name, OutOfMemory>
    ensures { IfOk result (λ name. name ≡ spec.run_name resource.now) }
{
    joined(alloc, resource.bytes(), b"_run__")
}

/// A copy of a name.
pub fn copied(alloc: Global, name: &Name) -> Result<Name, OutOfMemory>
    ensures { IfOk result (λ copy. copy ≡ name.now) }
{
    Name::new(alloc, name.bytes())
}
