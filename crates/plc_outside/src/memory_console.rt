// A console that keeps all in memory.
ghost use Rattle.std.specs.Prelude.{◌≡◌, ◌+◌, ◌≤◌, ℕ, [], Some, IfOk, vec_len, vec_capacity};
ghost use Rattle.plc_outside.specs.Outside.{ConsoleSeen};

use crate::kept::is_refused;
use crate::{Console, ConsoleFault};
use plc_base::OutOfMemory;
use std::alloc::Global;

/// Keeps what is said and complained, in the room that `new` took. Calls are numbered from 1, and those of the list fail.
#[derive(Drop)]
pub struct MemoryConsole {
    said: Vec<u8>,
    complained: Vec<u8>,
    left: usize,
    calls: u64,
    handed: u64,
    say_faults: u64,
    complain_faults: u64,
    fail: Vec<u64>,
    ghost said_fits: { vec_len said + left ≤ vec_capacity said },
    ghost complained_fits: { vec_len complained + left ≤ vec_capacity complained },
}

impl MemoryConsole {
    ghost use Rattle.plc_outside.specs.MemoryConsole.{console_seen, console_kept};

    /// A console with so much room for both texts, whose calls of these numbers fail.
    pub fn new(alloc: Global, room: usize, fail: Vec<u64>) -> Result<MemoryConsole, OutOfMemory>
        ensures seen { IfOk result (λ console. console_seen console
            ≡ record { say_faults = 0; complain_faults = 0; said = Some []; complained = Some []; handed = Some 0 }) }
        ensures kept { IfOk result (λ console. console_kept console ≡ record { left = room; calls = 0; fail = fail.items }) }
    {
        Ok(MemoryConsole {
            said: Vec::with_capacity(alloc, room)?,
            complained: Vec::with_capacity(alloc, room)?,
            left: room,
            calls: 0,
            handed: 0,
            say_faults: 0,
            complain_faults: 0,
            fail,
        })
    }

    /// What was said.
    pub fn said(&self) -> &[u8]
        ensures { Some result.now ≡ (console_seen self.now).said }
    {
        &self.said
    }

    /// What was complained.
    pub fn complained(&self) -> &[u8]
        ensures { Some result.now ≡ (console_seen self.now).complained }
    {
        &self.complained
    }

    /// How many bytes were handed to says, and one more for each say, at most 2^64 - 1; those that failed count.
    pub fn handed(&self) -> u64
        ensures { Some result ≡ (console_seen self.now).handed }
    {
        self.handed
    }

    /// How many says failed, at most 2^64 - 1.
    pub fn say_faults(&self) -> u64
        ensures { result ≡ (console_seen self.now).say_faults }
    {
        self.say_faults
    }

    /// How many complaints failed, at most 2^64 - 1.
    pub fn complain_faults(&self) -> u64
        ensures { result ≡ (console_seen self.now).complain_faults }
    {
        self.complain_faults
    }
}

impl Console for MemoryConsole {
    ghost use Rattle.plc_outside.specs.MemoryConsole.{console_seen, console_kept};
    ghost use Rattle.plc_outside.specs.Outside.{MeansSay, MeansComplain};
    ghost use Rattle.plc_outside.specs.Kept.{KeepsSay, KeepsComplain};

    ghost seen = { console_seen };

    fn say(&mut self, bytes: &[u8]) -> Result<(), ConsoleFault>
        ensures means { MeansSay bytes.now result (console_seen self.old) (console_seen self.new) }
        ensures kept { KeepsSay bytes.now result (console_seen self.old) (console_seen self.new) (console_kept self.old) (console_kept self.new) }
    {
        self.calls = self.calls.saturating_add(1);
        self.handed = self.handed.saturating_add(bytes.len() as u64 + 1);
        if is_refused(&self.fail, self.calls, self.left, bytes.len()) {
            self.say_faults = self.say_faults.saturating_add(1);
            return Err(ConsoleFault::Failed);
        }
        self.left -= bytes.len();
        self.said.extend_from_slice(bytes).unwrap();
        Ok(())
    }

    fn complain(&mut self, bytes: &[u8]) -> Result<(), ConsoleFault>
        ensures means { MeansComplain bytes.now result (console_seen self.old) (console_seen self.new) }
        ensures kept { KeepsComplain bytes.now result (console_seen self.old) (console_seen self.new) (console_kept self.old) (console_kept self.new) }
    {
        self.calls = self.calls.saturating_add(1);
        if is_refused(&self.fail, self.calls, self.left, bytes.len()) {
            self.complain_faults = self.complain_faults.saturating_add(1);
            return Err(ConsoleFault::Failed);
        }
        self.left -= bytes.len();
        self.complained.extend_from_slice(bytes).unwrap();
        Ok(())
    }
}
