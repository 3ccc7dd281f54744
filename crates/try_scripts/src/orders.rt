mod beside;
mod names;
mod plain;
mod run;
mod states;
mod whole;

use beside::{Beside, FORGOTTEN, NEW, NUMBERED};
use names::{EXCHANGED, MOVED, RENAMED, REPLACED, UNLINKED};
use plain::LeftOut;
use run::report_of;
use states::{Walked, walk};
use std::alloc::{AllocError, Global};
use std::io;
use whole::{EXCLUSIVE, LOOKED_UP, MADE, ONE_SLOT, THERE, TOO_MUCH, Whole};

/// How many orders were run, and how many of these ended as none of the ends.
#[derive(Clone, Copy)]
struct Count {
    orders: u64,
    others: u64,
}

fn count_order(
    alloc: Global,
    beside: &Beside<'_>,
    mask: u32,
    forget: &[u32],
    count: &mut Count,
) -> Result<(), AllocError> {
    let report = report_of(alloc, beside.script(alloc, mask, forget)?)?;
    count.orders = count.orders.saturating_add(1);
    if !beside.ends.iter().any(|end| report.ends_with(end)) {
        count.others = count.others.saturating_add(1);
    }
    Ok(())
}

// The steps of the two as the mask says, and those of the forget at all places among them.
fn count_forgets(
    alloc: Global,
    beside: &Beside<'_>,
    mask: u32,
    count: &mut Count,
) -> Result<(), AllocError> {
    if beside.forgotten == 0 {
        return count_order(alloc, beside, mask, &[], count);
    }
    for first in 0..beside.places {
        for second in first.saturating_add(1)..beside.places {
            count_order(alloc, beside, mask, &[first, second], count)?;
        }
    }
    Ok(())
}

// Every order of the steps.
fn count_orders(alloc: Global, beside: &Beside<'_>) -> Result<Count, AllocError> {
    let mut count = Count {
        orders: 0,
        others: 0,
    };
    for mask in 0..beside.masks {
        if mask.count_ones() == beside.steps {
            count_forgets(alloc, beside, mask, &mut count)?;
        }
    }
    Ok(count)
}

fn write_walked(rt: &impl Print, alloc: Global, whole: &Whole<'_>) -> io::Result<Walked> {
    let walked = walk(alloc, whole)?;
    println!(rt;
        "{}: {} states, {} orders, {} end otherwise",
        whole.name, walked.states, walked.orders, walked.others
    )?;
    Ok(walked)
}

fn write_left_out(rt: &impl Print, name: &str, left_out: LeftOut) -> io::Result<()> {
    println!(rt;
        "{name}: {} left out, {} unnoticed",
        left_out.steps, left_out.agreeing
    )
}

fn write_counts(rt: &impl Print, alloc: Global, each: &[&Beside<'_>]) -> io::Result<()> {
    for beside in each {
        let count = count_orders(alloc, beside)?;
        println!(rt;
            "{}: {} orders, {} end otherwise",
            beside.name, count.orders, count.others
        )?;
    }
    Ok(())
}

fn write_states(rt: &impl Print, alloc: Global, each: &[&Whole<'_>]) -> io::Result<()> {
    for whole in each {
        let _walked = write_walked(rt, alloc, whole)?;
    }
    Ok(())
}

// Lookups, and creates of one name.
fn write_makings(rt: &impl Print, alloc: Global) -> io::Result<()> {
    let each = [&LOOKED_UP, &THERE, &TOO_MUCH, &MADE, &EXCLUSIVE];
    write_states(rt, alloc, &each)
}

// Names that are moved and taken away beside lookups.
fn write_movings(rt: &impl Print, alloc: Global) -> io::Result<()> {
    let each = [&RENAMED, &EXCHANGED, &REPLACED, &MOVED, &UNLINKED];
    write_states(rt, alloc, &each)
}

/// Runs lookups, creates, renames and a forget beside each other in every order of their steps, and writes how many
/// orders do not end as a plain count says. Three cases of lookups are run order by order, whole requests by the
/// states that orders lead to.
pub fn write_orders(rt: &impl Print, alloc: Global) -> io::Result<()> {
    write_counts(rt, alloc, &[&NUMBERED, &FORGOTTEN, &NEW])?;
    write_makings(rt, alloc)?;
    write_movings(rt, alloc)?;
    let walked = write_walked(rt, alloc, &ONE_SLOT)?;
    write_left_out(rt, "counts that are given back", walked.given_back)?;
    write_left_out(rt, "counts that are forgotten", walked.forgotten)
}
