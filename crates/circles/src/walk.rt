//! A walk along what nodes need, and the order in which it finishes them.
ghost use Rattle.std.specs.Prelude.{◌≡◌, ◌-◌, ◌<◌, ◌≤◌, ℕ, IfOk, OnOk, length, slice_index};
ghost use Rattle.circles.specs.Walk.{new, Goes, IsWalked, Keeps, Opens, Finishes, Steps};

use crate::Needs;
use plc_base::OutOfMemory;
use std::alloc::Global;

/// The place of a node that wasn't met.
const NEW: u32 = 0xffff_ffff;

/// The place of a node that was met and isn't finished.
const OPEN: u32 = 0xffff_fffe;

/// A walk from node to node along what they need.
#[derive(Drop)]
pub struct Walk {
    /// The finished nodes, in the order in which they were.
    pub(crate) order: Vec<u32>,
    /// Where each node stands in the order.
    pub(crate) place: Vec<u32>,
    /// The open nodes, each needed by the one before.
    stack: Vec<u32>,
    /// How many needs of each of these were looked at.
    at: Vec<usize>,
}

/// The first need of a row, from there on, that wasn't met; the row's length where there is none.
fn next_new(row: &[u32], from: usize, place: &[u32]) -> usize
    ensures passed { (i : ℕ) → from ≤ i → i < result → i < length row.now → slice_index row.now i < length place.now → slice_index place.now (slice_index row.now i) ≡ new → ⊥ }
    ensures met { result < length row.now → (slice_index row.now result < length place.now) × (slice_index place.now (slice_index row.now result) ≡ new) }
{
    for i in from..row.len() {
        let node = row[i] as usize;
        if node < place.len() && place[node] == NEW {
            return i;
        }
    }
    row.len()
}

impl Walk {
    /// Nothing was met.
    fn new(alloc: Global, needs: &Needs) -> Result<Walk, OutOfMemory>
        ensures goes { IfOk result (λ w. Goes needs.now w) }
        ensures blank { IfOk result (λ w. length w.stack.items ≡ 0) }
    {
        Ok(Walk {
            order: Vec::new(alloc),
            place: vec![in alloc; NEW; needs.len()]?,
            stack: Vec::new(alloc),
            at: Vec::new(alloc),
        })
    }

    /// A node is met.
    fn open(&mut self, node: u32) -> Result<(), OutOfMemory>
        requires { node < length self.old.place.items }
        ensures { OnOk result (Opens node self.old self.new) }
    {
        self.place[node as usize] = OPEN;
        self.stack.push(node)?;
        self.at.push(0)?;
        Ok(())
    }

    /// The node on top is finished.
    fn finish(&mut self, node: u32) -> Result<(), OutOfMemory>
        requires within { node < length self.old.place.items }
        requires few { length self.old.order.items < 0xffff_fffe }
        requires top { (0 < length self.old.stack.items) × (slice_index self.old.stack.items (length self.old.stack.items - 1) ≡ node) }
        requires paired { length self.old.at.items ≡ length self.old.stack.items }
        ensures { OnOk result (Finishes self.old self.new) }
    {
        self.place[node as usize] = self.order.len() as u32;
        self.stack.pop();
        self.at.pop();
        self.order.push(node)?;
        Ok(())
    }

    /// Goes on to what wasn't met, or finishes the node on top.
    fn step(&mut self, needs: &Needs) -> Result<(), OutOfMemory>
        requires goes { Goes needs.now self.old }
        requires open { 0 < length self.old.stack.items }
        ensures steps { OnOk result (Steps needs.now self.old self.new) }
        ensures keeps { OnOk result (Keeps self.old.place.items self.new.place.items) }
    {
        let top = self.stack.len() - 1;
        let node = self.stack[top];
        let row = needs.row(node as usize);
        let next = next_new(row, self.at[top], &self.place);
        self.at[top] = next;
        if next < row.len() {
            self.open(row[next])
        } else {
            self.finish(node)
        }
    }

    /// Goes on until no node is open.
    fn run(&mut self, needs: &Needs) -> Result<(), OutOfMemory>
        requires { Goes needs.now self.old }
        ensures goes { OnOk result (Goes needs.now self.new) }
        ensures keeps { OnOk result (Keeps self.old.place.items self.new.place.items) }
        ensures done { OnOk result (length self.new.stack.items ≡ 0) }
    {
        while self.stack.len() > 0 {
            self.step(needs)?;
        }
        Ok(())
    }

    /// Walks from a node, unless it was met.
    fn visit(&mut self, needs: &Needs, node: usize) -> Result<(), OutOfMemory>
        requires goes { Goes needs.now self.old }
        requires rests { length self.old.stack.items ≡ 0 }
        requires within { node < length needs.now }
        ensures goes { OnOk result (Goes needs.now self.new) }
        ensures keeps { OnOk result (Keeps self.old.place.items self.new.place.items) }
        ensures done { OnOk result (length self.new.stack.items ≡ 0) }
        ensures met { OnOk result (slice_index self.new.place.items node ≡ new → ⊥) }
    {
        if self.place[node] == NEW {
            self.open(node as u32)?;
            self.run(needs)?;
        }
        Ok(())
    }

    /// Walks from every node.
    pub(crate) fn of(alloc: Global, needs: &Needs) -> Result<Walk, OutOfMemory>
        ensures { IfOk result (λ w. IsWalked needs.now w.order.items w.place.items) }
    {
        let mut walk = Walk::new(alloc, needs)?;
        for node in 0..needs.len() {
            walk.visit(needs, node)?;
        }
        Ok(walk)
    }
}
