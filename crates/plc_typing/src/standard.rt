//! The names that no source declares.
ghost use Rattle.std.specs.Prelude.{◌≡◌};
ghost use Rattle.plc_typing.specs.Standard as spec;

use plc_standard::{is_block, is_file, is_function};

/// Whether a name is that of a standard function or block, or of a file that every compile writes.
#[tactic(auto, unfolding(crate::specs::Standard::is_standard))]
pub fn is_standard(name: &[u8]) -> bool
    ensures { result ≡ spec.is_standard name.now }
{
    is_function(name) || is_block(name) || is_file(name)
}
