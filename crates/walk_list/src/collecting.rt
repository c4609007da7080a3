//! The steps of a walk for a box: one loop over the list, with no stack.

ghost use Rattle.std.specs.Prelude.{◌≡◌, ℕ, ◌<◌, ◌≤◌, ◌++◌, length, IfOk, OnOk};
ghost use Rattle.walk_list.specs.Leaves.{met_between, met_of};
ghost use Rattle.walk_list.specs.Covering.{CoversAll};
ghost use Rattle.walk_list.specs.Parts.{StandsAt, Steps};

use crate::meeting::meet;
use crate::{Leaf, Record};
use fixed_box::Box3;
use std::alloc::AllocError;

/// Adds the numbers of the leaves from one position up to another whose boxes meet the queried one.
pub(crate) fn test_run(
    leaves: &[Leaf],
    q: &Box3,
    first: usize,
    end: usize,
    numbers: &mut Vec<u32>,
) -> Result<(), AllocError>
    requires order { first ≤ end }
    requires within { end ≤ length leaves.now }
    ensures { OnOk result (numbers.new.items ≡ numbers.old.items ++ met_between leaves.now q.now first end) }
{
    for position in first..end {
        let leaf = &leaves[position];
        if meet(&leaf.fit, q) {
            numbers.push(leaf.number)?;
        }
    }
    Ok(())
}

/// One step: past the record where its box misses, and else past its own box, with its leaves added if it is a run.
pub(crate) fn step(
    records: &[Record],
    leaves: &[Leaf],
    q: &Box3,
    at: usize,
    position: usize,
    numbers: &mut Vec<u32>,
) -> Result<(usize, usize), AllocError>
    requires within { at < length records.now }
    requires stands { StandsAt leaves.now records.now at position }
    ensures { IfOk result (λ next. Steps leaves.now records.now q.now at position numbers.old.items
        numbers.new.items next.0 next.1) }
{
    let r = &records[at];
    let end = r.end as usize;
    if !meet(&r.fit, q) {
        return Ok((at + r.escape as usize, end));
    }
    if r.escape != 1 {
        return Ok((at + 1, position));
    }
    test_run(leaves, q, position, end, numbers)?;
    Ok((at + 1, end))
}

/// Adds the numbers of all leaves whose boxes meet the queried one.
pub(crate) fn collect(
    records: &[Record],
    leaves: &[Leaf],
    q: &Box3,
    numbers: &mut Vec<u32>,
) -> Result<(), AllocError>
    requires { CoversAll leaves.now records.now }
    ensures { OnOk result (numbers.new.items ≡ numbers.old.items ++ met_of q.now leaves.now) }
{
    let mut at = 0usize;
    let mut position = 0usize;
    while at < records.len() {
        let next = step(records, leaves, q, at, position, numbers)?;
        at = next.0;
        position = next.1;
    }
    Ok(())
}
