//! Complaints, each one line in one call, from room that was taken beforehand.
ghost use Rattle.std.specs.Prelude.{◌≡◌, ◌+◌, ◌-◌, ◌^◌, ◌≤◌, ◌++◌, [], ◌∷◌, length, vec_capacity, codes, decimal, IfOk, OnOk};
ghost use Rattle.std.specs.List.{flat_map};
ghost use Rattle.plc_outside.specs.Calls.{Complained};
ghost use Rattle.plc_top.specs.Lines.{rule_text, usage_line, no_memory_line, console_line, read_line, write_line, refusal_line};
ghost use Rattle.plc_top.specs.Complaints.{room, besides, HasRoom};

use crate::Status;
use itoa::Buffer;
use plc_base::{OutOfMemory, Refusal, Rule};
use plc_outside::Console;
use std::alloc::Global;

/// How long a line about a name may be beside the name.
const BESIDES: usize = 192;

/// Complains one line. A complaint that fails changes nothing else.
fn complain_line<O: Console>(console: &mut O, line: &[u8])
    ensures { Complained line.now (O.seen console.old) (O.seen console.new) }
{
    let _told = console.complain(line);
}

/// Tells that memory was refused.
#[tactic(auto, unfolding(crate::specs::Lines::no_memory_line))]
pub fn run_out<O: Console>(console: &mut O) -> Status
    ensures is { result ≡ Status.NoMemory }
    ensures told { Complained no_memory_line (O.seen console.old) (O.seen console.new) }
{
    complain_line(console, b"iec2c: out of memory\n");
    Status::NoMemory
}

/// Tells how the words should be.
#[tactic(auto, unfolding(crate::specs::Lines::usage_line))]
pub fn tell_usage<O: Console>(console: &mut O)
    ensures { Complained usage_line (O.seen console.old) (O.seen console.new) }
{
    complain_line(
        console,
        b"usage: iec2c [-f] [-l] [-p] [-n] [-I folder] [-T folder] file\n",
    );
}

/// Tells that the console could not be written.
#[tactic(auto, unfolding(crate::specs::Lines::console_line))]
pub fn cannot_say<O: Console>(console: &mut O)
    ensures { Complained console_line (O.seen console.old) (O.seen console.new) }
{
    complain_line(console, b"iec2c: cannot write to the console\n");
}

/// The name of a rule, and what it asks.
fn rule_text(rule: &Rule) -> &[u8]
    ensures text { result.now ≡ rule_text rule.now }
    ensures short { length result.now ≤ 64 }
{
    match rule {
        Rule::L1 => b"L1: no token begins here",
        Rule::L2 => b"L2: comment is not finished",
        Rule::L3 => b"L3: bad literal",
        Rule::L4 => b"L4: literal is out of range",
        Rule::L5 => b"L5: word is longer than 64 bytes",
        Rule::L6 => b"L6: file is longer than 4 MiB",
        Rule::G1 => b"G1: not expected here",
        Rule::G2 => b"G2: nested more than 64 deep",
        Rule::U1 => b"U1: not in this profile",
        Rule::NotYet => b"NotYet: not built yet",
        Rule::N1 => b"N1: name is declared twice",
        Rule::N2 => b"N2: unknown name",
        Rule::N3 => b"N3: name is of the wrong kind",
        Rule::N4 => b"N4: used before its declaration",
        Rule::N5 => b"N5: declaration goes in a circle",
        Rule::N6 => b"N6: value is listed twice",
        Rule::N7 => b"N7: bad bounds",
        Rule::N8 => b"N8: bad initial value",
        Rule::N9 => b"N9: address and type disagree",
        Rule::N10 => b"N10: second initial step",
        Rule::N11 => b"N11: limit is passed",
    }
}

/// The room of a line about a name.
#[derive(Drop)]
pub struct Complaint {
    line: Vec<u8>,
}

/// Fills a line with pieces, in room that is there.
fn fill(line: &mut Vec<u8>, pieces: &[&[u8]])
    requires { length (flat_map (λ piece. piece.now) pieces.now) ≤ vec_capacity line.old }
    ensures text { line.new.items ≡ flat_map (λ piece. piece.now) pieces.now }
    ensures room { vec_capacity line.old ≤ vec_capacity line.new }
{
    line.clear();
    for piece in pieces {
        line.extend_from_slice(piece).unwrap();
    }
}

impl Complaint {
    /// Room for a line about a name of so many bytes.
    pub fn new(alloc: Global, name: usize) -> Result<Complaint, OutOfMemory>
        requires { name + besides ≤ 2 ^ 64 - 1 }
        ensures { IfOk result (λ c. name + besides ≤ room c) }
    {
        Ok(Complaint {
            line: Vec::with_capacity(alloc, name + BESIDES)?,
        })
    }

    /// Takes room for a line about another name.
    pub fn reserve(&mut self, name: usize) -> Result<(), OutOfMemory>
        requires { name + besides ≤ 2 ^ 64 - 1 }
        ensures ok { OnOk result (name + besides ≤ room self.new) }
        ensures room { room self.old ≤ room self.new }
    {
        self.line.clear();
        self.line.reserve(name + BESIDES)?;
        Ok(())
    }

    /// Complains these pieces as one line.
    fn tell<O: Console>(&mut self, console: &mut O, pieces: &[&[u8]])
        requires { length (flat_map (λ piece. piece.now) pieces.now) ≤ room self.old }
        ensures { Complained (flat_map (λ piece. piece.now) pieces.now) (O.seen console.old) (O.seen console.new) }
    {
        fill(&mut self.line, pieces);
        complain_line(console, &self.line);
    }

    /// Tells that a file could not be read.
    #[tactic(auto, unfolding(crate::specs::Lines::read_line))]
    pub fn cannot_read<O: Console>(&mut self, console: &mut O, name: &[u8])
        requires { HasRoom (room self.old) name.now }
        ensures { Complained (read_line name.now) (O.seen console.old) (O.seen console.new) }
    {
        let front: &[u8] = b"iec2c: cannot read ";
        let end: &[u8] = b"\n";
        self.tell(console, &[front, name, end]);
    }

    /// Tells that a file could not be written.
    #[tactic(auto, unfolding(crate::specs::Lines::write_line))]
    pub fn cannot_write<O: Console>(&mut self, console: &mut O, name: &[u8])
        requires { HasRoom (room self.old) name.now }
        ensures { Complained (write_line name.now) (O.seen console.old) (O.seen console.new) }
    {
        let front: &[u8] = b"iec2c: cannot write ";
        let end: &[u8] = b"\n";
        self.tell(console, &[front, name, end]);
    }

    /// Tells which rule a source breaks, and where.
    #[tactic(auto, unfolding(crate::specs::Lines::refusal_line))]
    pub fn refused<O: Console>(&mut self, console: &mut O, name: &[u8], refusal: Refusal)
        requires { HasRoom (room self.old) name.now }
        ensures { Complained (refusal_line name.now refusal) (O.seen console.old) (O.seen console.new) }
    {
        let colon: &[u8] = b":";
        let error: &[u8] = b": error ";
        let rule: &[u8] = rule_text(&refusal.rule);
        let end: &[u8] = b"\n";
        let mut line = Buffer::new();
        let mut col = Buffer::new();
        let line = line.format(refusal.place.line).as_bytes();
        let col = col.format(refusal.place.col).as_bytes();
        self.tell(console, &[name, colon, line, colon, col, error, rule, end]);
    }
}
