//! Names: of declared things, in capitals, and of files.
ghost use Rattle.std.specs.Prelude.{◌≡◌, IfOk};

use crate::OutOfMemory;
use std::alloc::Global;
use std::marker::Model;

/// The bytes of a name.
#[derive(Debug, Drop)]
pub struct Name {
    bytes: Vec<u8>,
}

impl Model for Name {
    ghost use Rattle.std.specs.Prelude.{List, ℕ};

    ghost Value = { List ℕ };

    ghost view = { λ n. n.bytes.items };
}

impl Name {
    /// A name of these bytes.
    pub fn new(alloc: Global, bytes: &[u8]) -> Result<Name, OutOfMemory>
        ensures { IfOk result (λ name. name ≡ bytes.now) }
    {
        Ok(Name {
            bytes: Vec::from_slice(alloc, bytes)?,
        })
    }

    /// A name of these bytes, without memory.
    pub fn from_vec(bytes: Vec<u8>) -> Name
        ensures { result ≡ bytes.items }
    {
        Name { bytes }
    }

    /// Its bytes.
    pub fn bytes(&self) -> &[u8]
        ensures { result.now ≡ self.now }
    {
        &self.bytes
    }
}
