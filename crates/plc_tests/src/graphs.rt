//! Graphs that are small, and some that are large: a long chain, a long circle, and circles that lead to one another.
ghost use Rattle.std.specs.Prelude.{◌<◌, length, IfOk};

use circles::{Circles, Needs};
use plc_base::OutOfMemory;
use std::alloc::Global;
use std::test::Fail;

/// How many nodes a large graph has.
const MANY: u32 = 100_000;

/// A chain in which each needs the next, and the last another.
fn chain(alloc: Global, count: u32, last: u32) -> Result<Needs, OutOfMemory> {
    let mut needs = Needs::new(alloc);
    for node in 0..count {
        needs.begin()?;
        if node < count - 1 {
            needs.need(node + 1)?;
        } else {
            needs.need(last)?;
        }
    }
    Ok(needs)
}

/// Circles of two, each of which needs the next circle's first.
fn circles_of_two(alloc: Global, count: u32) -> Result<Needs, OutOfMemory>
    requires { count < 1000000 }
{
    let mut needs = Needs::new(alloc);
    for circle in 0..count {
        needs.begin()?;
        needs.need(2 * circle + 1)?;
        needs.begin()?;
        needs.need(2 * circle)?;
        needs.need(2 * circle + 2)?;
    }
    Ok(needs)
}

#[test]
fn two_need_each_other_and_a_third_needs_one(rt: HostRuntime) -> Result<(), Fail> {
    let mut needs = Needs::new(rt.alloc());
    needs.begin()?;
    needs.need(1)?;
    needs.begin()?;
    needs.need(2)?;
    needs.need(7)?;
    needs.begin()?;
    needs.need(1)?;
    assert_eq!(rt; needs.len(), 3);
    let circles = Circles::of(rt.alloc(), &needs)?;
    assert!(rt; !circles.is_circular(0));
    assert!(rt; circles.is_circular(1));
    assert!(rt; circles.is_circular(2));
    assert!(rt; !circles.is_circular(7));
    assert_eq!(rt; circles.order(), [2, 1, 0].as_slice());
    Ok(())
}

#[test]
fn a_long_chain(rt: HostRuntime) -> Result<(), Fail> {
    let needs = chain(rt.alloc(), MANY, MANY)?;
    let circles = Circles::of(rt.alloc(), &needs)?;
    assert!(rt; !circles.is_circular(0));
    assert!(rt; !circles.is_circular(MANY - 1));
    assert_eq!(rt; circles.order().first(), Some(&(MANY - 1)));
    assert_eq!(rt; circles.order().last(), Some(&0));
    Ok(())
}

#[test]
fn a_long_circle(rt: HostRuntime) -> Result<(), Fail> {
    let needs = chain(rt.alloc(), MANY, 0)?;
    let circles = Circles::of(rt.alloc(), &needs)?;
    assert!(rt; circles.is_circular(0));
    assert!(rt; circles.is_circular(MANY - 1));
    Ok(())
}

#[test]
fn a_chain_that_ends_in_a_circle_of_one(rt: HostRuntime) -> Result<(), Fail> {
    let needs = chain(rt.alloc(), MANY, MANY - 1)?;
    let circles = Circles::of(rt.alloc(), &needs)?;
    assert!(rt; !circles.is_circular(MANY - 2));
    assert!(rt; circles.is_circular(MANY - 1));
    Ok(())
}

#[test]
fn circles_that_lead_to_one_another(rt: HostRuntime) -> Result<(), Fail> {
    let needs = circles_of_two(rt.alloc(), MANY)?;
    let circles = Circles::of(rt.alloc(), &needs)?;
    assert!(rt; circles.is_circular(0));
    assert!(rt; circles.is_circular(2 * MANY - 1));
    assert!(rt; !circles.is_circular(2 * MANY));
    assert_eq!(rt; circles.order().len(), needs.len());
    Ok(())
}
