//! Which nodes lie on a circle of needs, and an order.
ghost use Rattle.std.specs.Prelude.{◌≡◌, ◌<◌, ◌&&◌, IfOk, length, nat_eq, nat_lt, slice_index, slice_index_or, false, ℕ};
ghost use Rattle.std.specs.List.{list_any};
ghost use Rattle.circles.specs.Circles.{Describes};
ghost use Rattle.circles.specs.Needs.{needs_of};

use crate::Needs;
use crate::gathered::gathered;
use crate::walk::Walk;
use plc_base::OutOfMemory;
use std::alloc::Global;
use std::marker::Model;

/// Which nodes lie on a circle of needs, and an order in which each other stands behind all that it needs.
#[derive(Drop)]
pub struct Circles {
    circular: Vec<bool>,
    order: Vec<u32>,
}

impl Model for Circles {
    ghost use Rattle.circles.specs.Circles.{Answer};

    ghost Value = { Answer };

    ghost view = { λ c. record { circular = c.circular.items; order = c.order.items } };
}

/// Whether one of a row is gathered under the number.
fn leads_back(row: &[u32], under: &[u32], number: u32) -> bool
    ensures { result ≡ list_any (λ b. nat_lt b (length under.now) && nat_eq (slice_index under.now b) number) row.now }
{
    row.iter().any(|b| (*b as usize) < under.len() && under[*b as usize] == number)
}

/// For each node whether it needs one that is gathered with it.
fn circular(alloc: Global, needs: &Needs, under: &[u32]) -> Result<Vec<bool>, OutOfMemory>
    requires { length under.now ≡ length needs.now }
    ensures sized { IfOk result (λ flags. length flags.items ≡ length needs.now) }
    ensures each { IfOk result (λ flags. (a : ℕ) → a < length needs.now → slice_index_or flags.items a false ≡ list_any (λ b. nat_lt b (length under.now) && nat_eq (slice_index under.now b) (slice_index under.now a)) (needs_of needs.now a)) }
{
    let mut flags = Vec::new(alloc);
    for node in 0..needs.len() {
        flags.push(leads_back(needs.row(node), under, under[node]))?;
    }
    Ok(flags)
}

impl Circles {
    /// The circles of what needs what.
    pub fn of(alloc: Global, needs: &Needs) -> Result<Circles, OutOfMemory>
        ensures { IfOk result (λ c. Describes needs.now c) }
    {
        let walk = Walk::of(alloc, needs)?;
        let under = gathered(alloc, needs, &walk)?;
        let circular = circular(alloc, needs, &under)?;
        Ok(Circles {
            circular,
            order: walk.order,
        })
    }

    /// Whether a node lies on a circle.
    pub fn is_circular(&self, node: u32) -> bool
        ensures { result ≡ slice_index_or self.now.circular node false }
    {
        match self.circular.get(node as usize) {
            Some(flag) => *flag,
            None => false,
        }
    }

    /// The nodes, each that isn't circular behind all that it needs.
    pub fn order(&self) -> &[u32]
        ensures { result.now ≡ self.now.order }
    {
        &self.order
    }
}
