//! What needs what, by numbers.
ghost use Rattle.std.specs.Prelude.{◌≡◌, ◌++◌, ◌∷◌, ◌<◌, ◌≤◌, ◌-◌, [], length, OnOk};
ghost use Rattle.circles.specs.Needs.{needs_of, with_need};

use plc_base::OutOfMemory;
use std::alloc::Global;
use std::marker::Model;

/// How many nodes there may be, so that each has a number and two numbers are left.
const MOST: usize = 0xffff_fffe;

/// What needs what, by numbers.
#[derive(Drop)]
pub struct Needs {
    alloc: Global,
    rows: Vec<Vec<u32>>,
}

impl Model for Needs {
    ghost use Rattle.std.specs.Prelude.{ℕ, List, length, map, ◌≤◌};

    ghost Value = { List (List ℕ) };

    ghost view = { λ n. map (λ row. row.items) n.rows.items };

    ghost invariant = { λ n. length n.rows.items ≤ 0xffff_fffe };
}

impl Needs {
    /// No node yet.
    pub fn new(alloc: Global) -> Needs
        ensures { result ≡ [] }
    {
        Needs {
            alloc,
            rows: Vec::new(alloc),
        }
    }

    /// Begins the next node, which needs nothing yet. Refused where memory is, and where no number is left for it.
    pub fn begin(&mut self) -> Result<(), OutOfMemory>
        ensures { OnOk result (self.new ≡ self.old ++ ([] ∷ [])) }
    {
        if self.rows.len() >= MOST {
            return Err(OutOfMemory);
        }
        self.rows.push(Vec::new(self.alloc))?;
        Ok(())
    }

    /// The node that was begun last needs another.
    pub fn need(&mut self, other: u32) -> Result<(), OutOfMemory>
        requires { 0 < length self.old }
        ensures { OnOk result (self.new ≡ with_need self.old (length self.old - 1) other) }
    {
        let last = self.rows.len() - 1;
        self.add(last, other)
    }

    /// A node needs another.
    pub(crate) fn add(&mut self, node: usize, other: u32) -> Result<(), OutOfMemory>
        requires { node < length self.old }
        ensures { OnOk result (self.new ≡ with_need self.old node other) }
    {
        let row = &mut self.rows[node];
        row.push(other)?;
        Ok(())
    }

    /// How many nodes were begun.
    pub fn len(&self) -> usize
        ensures count { result ≡ length self.now }
        ensures few { result ≤ 0xffff_fffe }
    {
        self.rows.len()
    }

    /// What a node needs.
    pub(crate) fn row(&self, node: usize) -> &[u32]
        requires { node < length self.now }
        ensures { result.now ≡ needs_of self.now node }
    {
        &self.rows[node]
    }
}
