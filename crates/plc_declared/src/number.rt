//! Counts as scopes and types are numbered. One that is too large is more than there is memory for.
ghost use Rattle.std.specs.Prelude.{◌≡◌, ◌+◌, IfOk};

use plc_base::OutOfMemory;

/// A count as a number.
pub fn number(count: usize) -> Result<u32, OutOfMemory>
    ensures { IfOk result (λ n. n ≡ count) }
{
    match u32::try_from(count) {
        Ok(n) => Ok(n),
        Err(_) => Err(OutOfMemory),
    }
}

/// The number so many behind another one.
pub fn behind(first: u32, count: usize) -> Result<u32, OutOfMemory>
    ensures { IfOk result (λ n. n ≡ first + count) }
{
    let more = number(count)?;
    match first.checked_add(more) {
        Some(n) => Ok(n),
        None => Err(OutOfMemory),
    }
}
