//! The names of files that every compile writes.
ghost use Rattle.std.specs.Prelude.{◌≡◌};
ghost use Rattle.plc_standard.specs.Files as spec;

use crate::listed::is_listed;

const FILES: [&[u8]; 2] = [b"POUS", b"LOCATED_VARIABLES"];

/// Whether a name is that of a file that every compile writes.
#[tactic(auto, unfolding(crate::specs::Files::is_file))]
pub fn is_file(name: &[u8]) -> bool
    ensures { result ≡ spec.is_file name.now }
{
    is_listed(&FILES, name)
}
