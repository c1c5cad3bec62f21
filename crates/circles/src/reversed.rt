//! What is needed by what.
ghost use Rattle.std.specs.Prelude.{◌≡◌, ◌<◌, ◌&&◌, ◌||◌, ℕ, IfOk, OnOk, length, nat_eq, false};
ghost use Rattle.std.specs.List.{list_any};
ghost use Rattle.circles.specs.Needs.{needs};
ghost use Rattle.circles.specs.Reversed.{IsReversed};

use crate::Needs;
use plc_base::OutOfMemory;
use std::alloc::Global;

/// So many nodes, which need nothing.
fn blank(alloc: Global, count: usize) -> Result<Needs, OutOfMemory>
    ensures sized { IfOk result (λ h. length h ≡ count) }
    ensures nothing { IfOk result (λ h. (b a : ℕ) → needs h b a ≡ false) }
{
    let mut blank = Needs::new(alloc);
    for _ in 0..count {
        blank.begin()?;
    }
    Ok(blank)
}

/// Each of a row is needed by a node.
fn turn(reversed: &mut Needs, node: u32, row: &[u32]) -> Result<(), OutOfMemory>
    ensures sized { OnOk result (length reversed.new ≡ length reversed.old) }
    ensures turned { OnOk result ((b a : ℕ) → b < length reversed.old → needs reversed.new b a ≡ (needs reversed.old b a || (nat_eq a node && list_any (nat_eq b) row.now))) }
{
    for other in row {
        let other = *other as usize;
        if other < reversed.len() {
            reversed.add(other, node)?;
        }
    }
    Ok(())
}

/// The same needs, turned round.
pub(crate) fn reversed(alloc: Global, needs: &Needs) -> Result<Needs, OutOfMemory>
    ensures { IfOk result (λ h. IsReversed needs.now h) }
{
    let mut reversed = blank(alloc, needs.len())?;
    for node in 0..needs.len() {
        turn(&mut reversed, node as u32, needs.row(node))?;
    }
    Ok(reversed)
}
