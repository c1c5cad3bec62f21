//! The outside: files and a console, by what was asked of them and what they hold.
ghost use Rattle.plc_outside.specs.Outside.{FilesSeen, ConsoleSeen, MeansFetch, MeansPut, MeansSay, MeansComplain};

use crate::{ConsoleFault, FileFault};
use plc_base::Name;
use std::alloc::Global;

/// Files by their names.
pub trait Files {
    ghost seen: { Self → FilesSeen };

    /// Appends the first bytes of a file, at most `most`, and tells whether more stand.
    fn fetch(
        &mut self,
        alloc: Global,
        name: &Name,
        most: usize,
        into: &mut Vec<u8>,
    ) -> Result<bool, FileFault>
        ensures { MeansFetch name.now most result into.old.items into.new.items (seen self.old) (seen self.new) };

    /// Binds the name to these bytes.
    fn put(&mut self, name: &Name, bytes: &[u8]) -> Result<(), FileFault>
        ensures { MeansPut name.now bytes.now result (seen self.old) (seen self.new) };
}

/// Where results and complaints are written.
pub trait Console {
    ghost seen: { Self → ConsoleSeen };

    /// Writes bytes to the output.
    fn say(&mut self, bytes: &[u8]) -> Result<(), ConsoleFault>
        ensures { MeansSay bytes.now result (seen self.old) (seen self.new) };

    /// Writes bytes to the output of errors.
    fn complain(&mut self, bytes: &[u8]) -> Result<(), ConsoleFault>
        ensures { MeansComplain bytes.now result (seen self.old) (seen self.new) };
}
