//! Workers that stop at random, and which nodes wait for them, reckoned from what each was handed and not by the machine.

ghost use Rattle.std.specs.Prelude.{◌<◌, ◌≤◌, All, IfOk, IfSome};

use super::counting::{Table, table_of};
use super::{jump, machine, picked, scattered, tree_of};
use crate::{BATCH, Phase, phase_of, replay, unfitted};
use std::alloc::{AllocError, Global};
use std::process::Abort;
use std::test::Fail;

/// What a worker does next; a side is twice the split of its node, and one more for the right one.
#[derive(Clone, Copy, PartialEq, Eq)]
enum Doing {
    Looks,
    Carries(usize),
    HasOpened(usize),
    CameSecond(usize),
    Collects(usize),
    HasEnded,
}

/// A worker: how many batches it has been at, the places in the live list that it has yet to carry up, and how many turns
/// are left to it before it stops.
#[derive(Clone, Copy)]
struct Hand {
    batches: usize,
    from: usize,
    to: usize,
    doing: Doing,
    turns: u64,
}

/// A fitting as the test follows it.
#[derive(Drop)]
struct Ledger<'a> {
    table: Table,
    live: &'a [u32],
    /// Which batches somebody was at first.
    taken: Vec<bool>,
    /// Which sides of nodes have come, and which nodes were left with both.
    arrived: Vec<bool>,
    left: Vec<bool>,
    hands: Vec<Hand>,
}

/// A bit, or false where there is none.
fn is_set(bits: &[bool], index: usize) -> bool {
    bits.get(index).copied().unwrap_or(false)
}

fn set(bits: &mut [bool], index: usize) {
    if let Some(bit) = bits.get_mut(index) {
        *bit = true;
    }
}

/// How many turns a worker has: of three workers about two stop, after some hundred turns or fewer.
fn turns_of(seed: u64) -> u64 {
    if jump(seed) >> 33 & 3 == 0 {
        u64::MAX
    } else {
        jump(seed ^ 1) >> 33 & 127
    }
}

impl<'a> Ledger<'a> {
    /// Before the first event: what is not live has come, and a node over nothing live was left.
    fn of(
        alloc: Global,
        table: Table,
        live: &'a [u32],
        nodes: usize,
        workers: usize,
        seed: u64,
    ) -> Result<Ledger<'a>, AllocError> {
        let mut arrived = Vec::new(alloc);
        let mut left = Vec::new(alloc);
        for node in 0..nodes {
            let side = node.saturating_mul(2);
            let lefts = !table.is_live(side);
            let rights = !table.is_live(side | 1);
            arrived.push(lefts)?;
            arrived.push(rights)?;
            left.push(lefts && rights)?;
        }
        let mut hands = Vec::new(alloc);
        for worker in 0..workers {
            hands.push(Hand {
                batches: 0,
                from: 0,
                to: 0,
                doing: Doing::Looks,
                turns: turns_of(seed ^ (worker as u64) << 40),
            })?;
        }
        let taken = vec![in alloc; false; live.len().div_ceil(BATCH)]?;
        Ok(Ledger {
            table,
            live,
            taken,
            arrived,
            left,
            hands,
        })
    }

    /// The side above the leaf at a place of the live list.
    fn side_of(&self, place: usize) -> Option<usize> {
        let position = *self.live.get(place)?;
        self.table.above_leaf(position)
    }

    /// What a worker does that carries nothing: the next of its places, the next batch, or nothing more.
    fn without_load(&self, was: Hand) -> Hand {
        let next = if was.from < was.to {
            self.side_of(was.from)
        } else {
            None
        };
        let doing = match next {
            Some(side) => Doing::Carries(side),
            None if was.batches == self.taken.len() => Doing::HasEnded,
            None => Doing::Looks,
        };
        Hand {
            from: was.from.saturating_add(1).min(was.to),
            doing,
            ..was
        }
    }

    /// A worker behind its look at a batch, which is its own if nobody was there before.
    fn after_look(&mut self, was: Hand) -> Hand {
        let batch = was.batches;
        let from = batch.saturating_mul(BATCH);
        let to = if is_set(&self.taken, batch) {
            from
        } else {
            from.saturating_add(BATCH).min(self.live.len())
        };
        set(&mut self.taken, batch);
        self.without_load(Hand {
            batches: batch.saturating_add(1),
            from,
            to,
            ..was
        })
    }

    /// A worker behind its next event.
    fn after_event(&mut self, was: Hand) -> Hand {
        match was.doing {
            Doing::Looks => self.after_look(was),
            Doing::Carries(side) => Hand {
                doing: Doing::HasOpened(side),
                ..was
            },
            Doing::HasOpened(side) => {
                set(&mut self.arrived, side);
                if is_set(&self.arrived, side ^ 1) {
                    Hand {
                        doing: Doing::CameSecond(side),
                        ..was
                    }
                } else {
                    self.without_load(was)
                }
            }
            Doing::CameSecond(side) => Hand {
                doing: Doing::Collects(side),
                ..was
            },
            Doing::Collects(side) => {
                set(&mut self.left, side / 2);
                match self.table.above_node(side / 2) {
                    Some(up) => Hand {
                        doing: Doing::Carries(up),
                        ..was
                    },
                    None => self.without_load(was),
                }
            }
            Doing::HasEnded => was,
        }
    }

    /// The first worker from one on that has not ended and has a turn left, if there is one.
    fn first_from(&self, worker: u32, workers: u32) -> Option<u32>
        requires few { workers ≤ 64 }
        requires one { worker < workers }
        ensures { IfSome result (λ k. k < workers) }
    {
        for offset in 0..workers {
            let k = (worker + offset) % workers;
            let hand = self.hands.get(k as usize);
            if hand.is_some_and(|h| h.doing != Doing::HasEnded && 0 < h.turns) {
                return Some(k);
            }
        }
        None
    }

    /// A worker has its next event.
    fn go(&mut self, worker: u32) {
        let Some(was) = self.hands.get(worker as usize).copied() else {
            return;
        };
        let now = self.after_event(Hand {
            turns: was.turns.saturating_sub(1),
            ..was
        });
        if let Some(hand) = self.hands.get_mut(worker as usize) {
            *hand = now;
        }
    }

    /// Goes through a random schedule until each worker has ended or stopped, and answers the schedule.
    fn go_on(&mut self, alloc: Global, workers: u32, seed: u64) -> Result<Vec<u32>, AllocError>
        requires one { 0 < workers }
        requires few { workers ≤ 64 }
        ensures { IfOk result (λ ks. All (λ k. k < workers) ks.items) }
    {
        let mut schedule = Vec::new(alloc);
        let mut jumping = seed;
        let mut worker = 0;
        for _ in 0..100_000u32 {
            jumping = jump(jumping);
            if jumping >> 61 > seed % 8 {
                worker = (jumping >> 33) as u32 % workers;
            }
            let Some(next) = self.first_from(worker, workers) else {
                break;
            };
            self.go(next);
            schedule.push(next)?;
        }
        Ok(schedule)
    }

    /// Marks the nodes above a side.
    fn mark(&self, waits: &mut [bool], from: usize) {
        let mut side = from;
        for _ in 0..self.left.len() {
            set(waits, side / 2);
            let Some(up) = self.table.above_node(side / 2) else {
                break;
            };
            side = up;
        }
    }

    /// Marks the nodes above the leaves at these places of the live list.
    fn mark_places(&self, waits: &mut [bool], from: usize, to: usize) {
        for place in from..to {
            if let Some(side) = self.side_of(place) {
                self.mark(waits, side);
            }
        }
    }

    /// Marks the nodes above what a worker holds: its places, its load, and both children of a node that it came second
    /// at.
    fn mark_held(&self, waits: &mut [bool], hand: Hand) {
        self.mark_places(waits, hand.from, hand.to);
        match hand.doing {
            Doing::Carries(side) | Doing::HasOpened(side) => self.mark(waits, side),
            Doing::CameSecond(side) | Doing::Collects(side) => {
                self.mark(waits, side);
                self.mark(waits, side ^ 1);
            }
            Doing::Looks | Doing::HasEnded => {}
        }
    }

    /// Which nodes are above what some worker holds, or above a leaf of a batch that nobody took.
    fn waiting(&self, alloc: Global) -> Result<Vec<bool>, AllocError> {
        let mut waits = vec![in alloc; false; self.left.len()]?;
        for hand in &self.hands {
            self.mark_held(&mut waits, *hand);
        }
        for (batch, taken) in self.taken.iter().enumerate() {
            if !*taken {
                let from = batch.saturating_mul(BATCH);
                let to = from.saturating_add(BATCH).min(self.live.len());
                self.mark_places(&mut waits, from, to);
            }
        }
        Ok(waits)
    }
}

/// A random schedule over a random tree, in which some workers stop, and the nodes that then wait.
fn stop_at_random(rt: &impl Abort, alloc: Global, seed: u64) -> Result<(), Fail> {
    let leaves = 2 + (jump(seed) >> 33) as u32 % 299;
    let workers = 1 + (jump(seed ^ 1) >> 33) as u32 % 64;
    let boxes = scattered(alloc, leaves, seed)?;
    let tree = tree_of(rt, alloc, &boxes)?;
    let live = picked(alloc, leaves, seed, [16, 16, 8, 1][seed as usize % 4])?;
    let table = table_of(alloc, &tree, &boxes, &live)?;
    let mut ledger = Ledger::of(
        alloc,
        table,
        &live,
        leaves as usize - 1,
        workers as usize,
        seed,
    )?;
    let schedule = ledger.go_on(alloc, workers, seed)?;
    let mut s = machine(alloc, &tree, &boxes, &live, workers)?;
    assert_eq!(rt;
        replay(&mut s, &schedule),
        schedule.len() as u64,
        "events of {seed}"
    );
    let waits = ledger.waiting(alloc)?;
    let count = waits.iter().filter(|waits| **waits).count();
    assert_eq!(rt; unfitted(&s) as usize, count, "nodes that wait, {seed}");
    assert!(rt;
        waits
            .iter()
            .zip(&ledger.left)
            .all(|(waits, left)| *waits != *left),
        "nodes that were left, {seed}"
    );
    for worker in 0..workers {
        let hand = ledger.hands.get(worker as usize);
        let ended = hand.is_some_and(|h| h.doing == Doing::HasEnded);
        assert_eq!(rt; phase_of(&s, worker) == Phase::Ended, ended);
    }
    Ok(())
}

#[test]
fn five_hundred_random_stops_leave_the_nodes_above_what_is_held(
    rt: HostRuntime,
) -> Result<(), Fail> {
    for seed in 0..500u64 {
        stop_at_random(&rt, rt.alloc(), seed)?;
    }
    Ok(())
}
