//! Nodes that lead to one another are gathered under one number.
ghost use Rattle.std.specs.Prelude.{◌+◌, ◌<◌, IfOk, OnOk, length};
ghost use Rattle.circles.specs.Gathered.{IsGathered, TakesIn};
ghost use Rattle.circles.specs.Reversed.{IsReversed};
ghost use Rattle.circles.specs.Walk.{IsWalked};

use crate::Needs;
use crate::walk::Walk;
use plc_base::OutOfMemory;
use std::alloc::Global;

/// No number was given yet.
const NONE: u32 = 0xffff_ffff;

/// Those of a row that have no number are given this one, and join the queue.
fn take_in(
    row: &[u32],
    number: u32,
    under: &mut Vec<u32>,
    queue: &mut Vec<u32>,
) -> Result<(), OutOfMemory>
    requires { number < 0xffff_ffff }
    ensures { OnOk result (TakesIn row.now number under.old.items queue.old.items under.new.items queue.new.items) }
{
    for node in row {
        let at = *node as usize;
        if at < under.len() && under[at] == NONE {
            under[at] = number;
            queue.push(*node)?;
        }
    }
    Ok(())
}

/// The node at a place and all that lead to it, unless they have a number, are given the place.
fn gather(
    needs: &Needs,
    reversed: &Needs,
    walk: &Walk,
    place: usize,
    under: &mut Vec<u32>,
    queue: &mut Vec<u32>,
) -> Result<(), OutOfMemory>
    requires reversed { IsReversed needs.now reversed.now }
    requires walked { IsWalked needs.now walk.now.order.items walk.now.place.items }
    requires within { place < length walk.now.order.items }
    requires before { IsGathered needs.now walk.now.order.items walk.now.place.items under.old.items (place + 1) }
    ensures { OnOk result (IsGathered needs.now walk.now.order.items walk.now.place.items under.new.items place) }
{
    let root = walk.order[place];
    if under[root as usize] != NONE {
        return Ok(());
    }
    queue.clear();
    under[root as usize] = place as u32;
    queue.push(root)?;
    let mut head = 0;
    while head < queue.len() {
        let row = reversed.row(queue[head] as usize);
        take_in(row, place as u32, under, queue)?;
        head += 1;
    }
    Ok(())
}

/// The number under which each node is gathered.
pub(crate) fn gathered(alloc: Global, needs: &Needs, walk: &Walk) -> Result<Vec<u32>, OutOfMemory>
    requires { IsWalked needs.now walk.now.order.items walk.now.place.items }
    ensures { IfOk result (λ under. IsGathered needs.now walk.now.order.items walk.now.place.items under.items 0) }
{
    let reversed = crate::reversed::reversed(alloc, needs)?;
    let mut under = vec![in alloc; NONE; needs.len()]?;
    let mut queue = Vec::new(alloc);
    let mut place = walk.order.len();
    while place > 0 {
        place -= 1;
        gather(needs, &reversed, walk, place, &mut under, &mut queue)?;
    }
    Ok(under)
}
