//! Real files. It is trusted that the system reads and writes what it says it did.
ghost use Rattle.std.specs.Prelude.{◌≡◌, None};
ghost use Rattle.iec2c.specs.Reading.{Added};

use crate::reading::{Counted, read_start};
use plc_base::Name;
use plc_outside::{FileFault, Files};
use std::alloc::Global;
use std::{fs, rt};

/// The files of the system, and how many calls failed. What the files hold is not told.
#[derive(Drop)]
pub struct DiskFiles<'a, R: rt::Files> {
    system: &'a R,
    fetch_faults: u64,
    put_faults: u64,
}

impl<'a, R: rt::Files> DiskFiles<'a, R> {
    /// The files of this system, with no fault counted.
    pub fn new(system: &'a R) -> Self
        ensures fetches { result.fetch_faults ≡ 0 }
        ensures puts { result.put_faults ≡ 0 }
    {
        DiskFiles {
            system,
            fetch_faults: 0,
            put_faults: 0,
        }
    }
}

/// Appends the first bytes of a file. A name that is no UTF-8 text names none.
fn read_file<R: rt::Files>(
    system: &R,
    name: &[u8],
    most: usize,
    into: &mut Vec<u8>,
) -> Result<bool, FileFault>
    ensures { Added most into.old.items into.new.items result }
{
    let path = match std::str::from_utf8(name) {
        Ok(path) => path,
        Err(_) => return Err(FileFault::Failed),
    };
    match fs::open(system, path) {
        Ok(file) => read_start(&mut Counted::new(file), most, into),
        Err(_) => Err(FileFault::Failed),
    }
}

/// Makes these bytes the content of a file.
fn write_file<R: rt::Files>(system: &R, name: &[u8], bytes: &[u8]) -> Result<(), FileFault> {
    let path = match std::str::from_utf8(name) {
        Ok(path) => path,
        Err(_) => return Err(FileFault::Failed),
    };
    match fs::write(system, path, bytes) {
        Ok(()) => Ok(()),
        Err(_) => Err(FileFault::Failed),
    }
}

impl<R: rt::Files> Files for DiskFiles<'_, R> {
    ghost seen = { λ d. record { fetch_faults = d.fetch_faults; put_faults = d.put_faults; files = None; asked = None; puts = None; handed = None } };

    fn fetch(
        &mut self,
        alloc: Global,
        name: &Name,
        most: usize,
        into: &mut Vec<u8>,
    ) -> Result<bool, FileFault> {
        let _ = alloc;
        match read_file(self.system, name.bytes(), most, into) {
            Ok(more) => Ok(more),
            Err(FileFault::Failed) => {
                self.fetch_faults = self.fetch_faults.saturating_add(1);
                Err(FileFault::Failed)
            }
            Err(FileFault::OutOfMemory) => Err(FileFault::OutOfMemory),
        }
    }

    fn put(&mut self, name: &Name, bytes: &[u8]) -> Result<(), FileFault> {
        match write_file(self.system, name.bytes(), bytes) {
            Ok(()) => Ok(()),
            Err(_) => {
                self.put_faults = self.put_faults.saturating_add(1);
                Err(FileFault::Failed)
            }
        }
    }
}
