//! Readers that count their faults, and the first bytes that one gives.
ghost use Rattle.std.specs.Prelude.{◌≡◌, List, ℕ, Option, OnOk, OnErr, IfSome, None};
ghost use Rattle.std.specs.Io.{ReadsAtMost};
ghost use Rattle.std.specs.Io.KnownBytes.{ReadConsumes};
ghost use Rattle.plc_outside.specs.Outside.{Rose};
ghost use Rattle.iec2c.specs.Reading.{Added, AddsFirst, TellsFault};

use plc_outside::FileFault;
use std::io;
use std::io::Read;

/// A reader that counts the reads that failed.
pub trait CountedRead {
    // The bytes that reads will give from here on, where they are known.
    ghost left: { Self → Option (List ℕ) };

    ghost faults: { Self → ℕ };

    /// Gives some bytes, and none only at the end or without room.
    fn read(&mut self, buffer: &mut [u8]) -> io::Result<usize>
        ensures bound { ReadsAtMost result buffer.new }
        ensures bytes { ReadConsumes (left self.old) (left self.new) result buffer.new }
        ensures kept { OnOk result (faults self.new ≡ faults self.old) }
        ensures failed { OnErr result (Rose (faults self.old) (faults self.new)) };
}

/// A reader of the library, and how many reads failed.
#[derive(Drop)]
pub struct Counted<R: Read + Drop> {
    inner: R,
    faults: u64,
}

impl<R: Read + Drop> Counted<R> {
    /// This reader, with no fault counted.
    pub fn new(inner: R) -> Self
        ensures inner { result.inner ≡ inner }
        ensures faults { result.faults ≡ 0 }
    {
        Counted { inner, faults: 0 }
    }
}

impl<R: Read + Drop> CountedRead for Counted<R> {
    ghost left = { λ c. R.remaining c.inner };

    ghost faults = { λ c. c.faults };

    fn read(&mut self, buffer: &mut [u8]) -> io::Result<usize> {
        let result = self.inner.read(buffer);
        if result.is_err() {
            self.faults = self.faults.saturating_add(1);
        }
        result
    }
}

/// How many bytes one read may give.
const CHUNK: usize = 4096;

/// Appends the first bytes of a reader, at most so many, and tells whether more stand.
pub fn read_start<S: CountedRead>(
    source: &mut S,
    most: usize,
    into: &mut Vec<u8>,
) -> Result<bool, FileFault>
    ensures added { Added most into.old.items into.new.items result }

    // Failed comes exactly where a read failed, however many bytes are wanted and however few a read gives.
    ensures fails { TellsFault result (S.faults source.old) (S.faults source.new) }

    // Of a reader whose bytes are known, the right ones.
    ensures known { IfSome (S.left source.old) (λ bytes. AddsFirst most bytes into.old.items into.new.items result) }
{
    let mut buffer = [0u8; CHUNK];
    let mut left = most;
    loop {
        let count = match source.read(&mut buffer) {
            Ok(count) => count,
            Err(_) => return Err(FileFault::Failed),
        };
        if count == 0 {
            return Ok(false);
        }
        let given = if count < left { count } else { left };
        match into.extend_from_slice(&buffer[..given]) {
            Ok(()) => {}
            Err(_) => return Err(FileFault::OutOfMemory),
        }
        // where nothing more is wanted, a byte is one too many, so each further turn wants fewer
        if left < count {
            return Ok(true);
        }
        left -= count;
    }
}
