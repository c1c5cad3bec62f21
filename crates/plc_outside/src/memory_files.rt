// Files that are kept in memory.
ghost use Rattle.std.specs.Prelude.{◌≡◌, ◌↔◌, ◌+◌, ◌-◌, ◌≤◌, ◌<◌, ◌^◌, IsTrue, ◌++◌, ◌∷◌, ℕ, [], Some, IfOk, OnOk, OnErr, take, length, nat_lt, vec_len, vec_capacity};
ghost use Rattle.std.specs.List.{All};
ghost use Rattle.plc_outside.specs.Kept.{one_more};
ghost use Rattle.std.specs.FinMap as map;
ghost use Rattle.plc_outside.specs.Spans.{IsWithin, HasSlots, files_of};
ghost use Rattle.std.specs.VecDeque.{deque_len, deque_capacity};

use crate::kept::is_refused;
use crate::span::{Span, bind, newest};
use crate::{FileFault, Files};
use plc_base::{Name, OutOfMemory};
use std::alloc::Global;
use std::collections::VecDeque;

/// Keeps files in the room that `new` took. Calls are numbered from 1, and those of the list fail.
#[derive(Drop)]
pub struct MemoryFiles {
    bytes: Vec<u8>,
    spans: VecDeque<Span>,
    asked: Vec<Name>,
    left: usize,
    calls: u64,
    puts: u64,
    handed: u64,
    fetch_faults: u64,
    put_faults: u64,
    fail: Vec<u64>,
    ghost fits: { vec_len bytes + left ≤ vec_capacity bytes },
    ghost within: { All (IsWithin (vec_len bytes)) spans.items },
    ghost slots: { HasSlots (files_of bytes.items spans.items) (deque_len spans) left (deque_capacity spans) },
}

impl MemoryFiles {
    ghost use Rattle.std.specs.Option.{option_map};
    ghost use Rattle.std.specs.FinMap as map;
    ghost use Rattle.plc_outside.specs.MemoryFiles.{files_seen, files_kept, empty_files};

    /// Files with so much room for names and contents, whose calls of these numbers fail.
    pub fn new(alloc: Global, room: usize, fail: Vec<u64>) -> Result<MemoryFiles, OutOfMemory>
        ensures seen { IfOk result (λ files. files_seen files ≡ empty_files) }
        ensures kept { IfOk result (λ files. files_kept files ≡ record { left = room; calls = 0; fail = fail.items }) }
    {
        let slots = room.saturating_mul(2).saturating_add(1);
        Ok(MemoryFiles {
            bytes: Vec::with_capacity(alloc, room)?,
            spans: VecDeque::with_capacity(alloc, slots)?,
            asked: Vec::new(alloc),
            left: room,
            calls: 0,
            puts: 0,
            handed: 0,
            fetch_faults: 0,
            put_faults: 0,
            fail,
        })
    }

    /// How many bytes of names and contents there is room for.
    pub fn room(&self) -> usize
        ensures { result ≡ (files_kept self.now).left }
    {
        self.left
    }

    /// The names that were asked for; a fetch that found no memory asked for none.
    pub fn asked(&self) -> &[Name]
        ensures { Some result.now ≡ (files_seen self.now).asked }
    {
        &self.asked
    }

    /// How many puts there were, at most 2^64 - 1; those that failed count.
    pub fn puts(&self) -> u64
        ensures { Some result ≡ (files_seen self.now).puts }
    {
        self.puts
    }

    /// How many bytes of names and contents were handed to puts, and one more for each put, at most 2^64 - 1.
    pub fn handed(&self) -> u64
        ensures { Some result ≡ (files_seen self.now).handed }
    {
        self.handed
    }

    /// How many fetches failed, at most 2^64 - 1.
    pub fn fetch_faults(&self) -> u64
        ensures { result ≡ (files_seen self.now).fetch_faults }
    {
        self.fetch_faults
    }

    /// How many puts failed, at most 2^64 - 1.
    pub fn put_faults(&self) -> u64
        ensures { result ≡ (files_seen self.now).put_faults }
    {
        self.put_faults
    }

    /// Binds a name to bytes; it counts no call.
    pub fn load(&mut self, name: &Name, bytes: &[u8])
        requires { length name.now + length bytes.now ≤ (files_kept self.old).left }
        ensures seen { files_seen self.new ≡ record (files_seen self.old) {
          files = option_map (λ files. map.insert files name.now bytes.now) (files_seen self.old).files;
        } }
        ensures kept { files_kept self.new ≡ record (files_kept self.old) { left = (files_kept self.old).left - (length name.now + length bytes.now) } }
    {
        self.keep(name.bytes(), bytes);
    }

    /// Binds a name to bytes in the room that is left. An empty name that is bound to nothing takes no slot again.
    fn keep(&mut self, name: &[u8], bytes: &[u8])
        requires { length name.now + length bytes.now ≤ (files_kept self.old).left }
        ensures seen { files_seen self.new ≡ record (files_seen self.old) {
          files = option_map (λ files. map.insert files name.now bytes.now) (files_seen self.old).files;
        } }
        ensures kept { files_kept self.new ≡ record (files_kept self.old) { left = (files_kept self.old).left - (length name.now + length bytes.now) } }
    {
        let need = name.len() + bytes.len();
        if is_blank(&self.bytes, &self.spans, need) {
            return;
        }
        self.left -= need;
        bind(&mut self.bytes, &mut self.spans, name, bytes);
    }

    /// The content of a file.
    pub fn find(&self, name: &Name) -> Option<&[u8]>
        ensures { Some (option_map (λ content. content.now) result) ≡ option_map (λ files. map.get files name.now) (files_seen self.now).files }
    {
        let span = newest(&self.bytes, &self.spans, name.bytes())?;
        Some(&self.bytes[span.middle..span.end])
    }
}

/// Whether nothing is to be kept, and the file of the empty name is there and empty.
fn is_blank(bytes: &[u8], spans: &VecDeque<Span>, need: usize) -> bool
    requires { All (IsWithin (length bytes.now)) spans.now.items }
    ensures { IsTrue result ↔ (need ≡ 0) × (map.get (files_of bytes.now spans.now.items) [] ≡ Some []) }
{
    match newest(bytes, spans, &[]) {
        Some(span) => need == 0 && span.middle == span.end,
        None => false,
    }
}

/// Remembers that a name was asked for.
fn remember(alloc: Global, asked: &mut Vec<Name>, name: &[u8]) -> Result<(), OutOfMemory>
    ensures ok { OnOk result (asked.new.items ≡ asked.old.items ++ name.now ∷ []) }
    ensures err { OnErr result (asked.new.items ≡ asked.old.items) }
{
    let name = Name::new(alloc, name)?;
    asked.push(name)?;
    Ok(())
}

/// Counts a fetch that fails; without memory it is no fetch.
fn refuse(alloc: Global, asked: &mut Vec<Name>, faults: &mut u64, name: &[u8]) -> FileFault
    ensures failed { result ≡ FileFault.Failed → (asked.new.items ≡ asked.old.items ++ name.now ∷ []) × (faults.new ≡ one_more faults.old) }
    ensures no_memory { result ≡ FileFault.OutOfMemory → (asked.new.items ≡ asked.old.items) × (faults.new ≡ faults.old) }
    ensures later { faults.old ≤ faults.new }
{
    match remember(alloc, asked, name) {
        Ok(()) => {
            *faults = faults.saturating_add(1);
            FileFault::Failed
        }
        Err(_) => FileFault::OutOfMemory,
    }
}

/// Copies the first bytes of a file, and tells whether more stand.
fn copy_start(file: &[u8], most: usize, into: &mut Vec<u8>) -> Result<bool, OutOfMemory>
    ensures ok { IfOk result (λ more. (into.new.items ≡ into.old.items ++ take most file.now) × (more ≡ nat_lt most (length file.now))) }
    ensures err { OnErr result (into.new.items ≡ into.old.items) }
    ensures most { length file.now < 2 ^ 63 }
{
    if most < file.len() {
        into.extend_from_slice(&file[..most])?;
        Ok(true)
    } else {
        into.extend_from_slice(file)?;
        Ok(false)
    }
}

impl Files for MemoryFiles {
    ghost use Rattle.plc_outside.specs.MemoryFiles.{files_seen, files_kept};
    ghost use Rattle.plc_outside.specs.Outside.{MeansFetch, MeansPut};
    ghost use Rattle.plc_outside.specs.Kept.{KeepsFetch, KeepsPut};

    ghost seen = { files_seen };

    fn fetch(
        &mut self,
        alloc: Global,
        name: &Name,
        most: usize,
        into: &mut Vec<u8>,
    ) -> Result<bool, FileFault>
        ensures means { MeansFetch name.now most result into.old.items into.new.items (files_seen self.old) (files_seen self.new) }
        ensures kept { KeepsFetch name.now result into.old.items into.new.items (files_seen self.old) (files_seen self.new) (files_kept self.old) (files_kept self.new) }
    {
        self.calls = self.calls.saturating_add(1);
        if self.fail.contains(&self.calls) {
            return Err(refuse(alloc, &mut self.asked, &mut self.fetch_faults, name.bytes()));
        }
        let Some(span) = newest(&self.bytes, &self.spans, name.bytes()) else {
            return Err(refuse(alloc, &mut self.asked, &mut self.fetch_faults, name.bytes()));
        };
        let more = match copy_start(&self.bytes[span.middle..span.end], most, into) {
            Ok(more) => more,
            Err(_) => return Err(FileFault::OutOfMemory),
        };
        match remember(alloc, &mut self.asked, name.bytes()) {
            Ok(()) => Ok(more),
            Err(_) => Err(FileFault::OutOfMemory),
        }
    }

    fn put(&mut self, name: &Name, bytes: &[u8]) -> Result<(), FileFault>
        ensures means { MeansPut name.now bytes.now result (files_seen self.old) (files_seen self.new) }
        ensures kept { KeepsPut name.now bytes.now result (files_seen self.old) (files_seen self.new) (files_kept self.old) (files_kept self.new) }
    {
        let name = name.bytes();
        let need = name.len() + bytes.len();
        self.calls = self.calls.saturating_add(1);
        self.puts = self.puts.saturating_add(1);
        self.handed = self.handed.saturating_add(need as u64 + 1);
        if is_refused(&self.fail, self.calls, self.left, need) {
            self.put_faults = self.put_faults.saturating_add(1);
            return Err(FileFault::Failed);
        }
        self.keep(name, bytes);
        Ok(())
    }
}
