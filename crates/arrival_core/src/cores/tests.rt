//! Schedules worked by hand, and two thousand random ones beside the plain build, with each state counted over. Workers
//! that stop at random stand in `stopping`.

mod counting;
mod stopping;

ghost use Rattle.std.specs.Prelude.{◌≡◌, ◌+◌, ◌^◌, ◌<◌, ◌≤◌, All, AllPairs, IfOk, length};
ghost use Rattle.fixed_box.specs.World.{BoxInWorld};
ghost use Rattle.morton_key.specs.Keys.{IsLawful};
ghost use Rattle.radix_tree.specs.Fit.{IsFitted};
ghost use Rattle.arrival_core.specs.Cores.{setting_of, frame_of_core};

use self::counting::{Seen, Table, is_lawful, side_index, table_of};
use crate::{
    CoreState, Packet, Phase, Side, phase_of, replay, resting, start, step, tally_of, unfitted,
};
use fixed_box::{Box3, Point, in_world};
use morton_key::{Key, order};
use outside::Memory;
use radix_tree::{Tree, plain};
use std::alloc::{AllocError, Global};
use std::process::Abort;
use std::test::Fail;

/// The tree of a thousand boxes or fewer, which have to lie in the world.
fn tree_of(rt: &impl Abort, alloc: Global, boxes: &[Box3]) -> Result<Tree, Memory>
    ensures { IfOk result (λ t. IsFitted t boxes.now) }
{
    assert!(rt; boxes.len() <= 1000);
    assert!(rt; boxes.iter().all(|b| in_world(&b.lo) && in_world(&b.hi)));
    let keys = order(alloc, boxes)?;
    plain(alloc, keys, boxes)
}

/// Position 0, and of the other positions those that a sequence picks, `share` of 16.
fn picked(alloc: Global, count: u32, seed: u64, share: u64) -> Result<Vec<u32>, AllocError>
    requires { 0 < count }
    ensures within { IfOk result (λ live. All (λ p. p < count) live.items) }
    ensures rising { IfOk result (λ live. AllPairs (λ p q. p < q) live.items) }
    ensures some { IfOk result (λ live. 0 < length live.items) }
{
    let mut live = Vec::new(alloc);
    live.push(0)?;
    for p in 1..count {
        if jump(seed ^ u64::from(p)) >> 60 < share {
            live.push(p)?;
        }
    }
    Ok(live)
}

/// The start over a tree that is fitted to the boxes already.
fn machine<'a>(
    alloc: Global,
    tree: &'a Tree,
    boxes: &'a [Box3],
    live: &'a [u32],
    workers: u32,
) -> Result<CoreState<'a>, Memory>
    requires fitted { IsFitted tree.now boxes.now }
    requires two { 1 < length boxes.now }
    requires within { All (λ p. p < length boxes.now) live.now }
    requires rising { AllPairs (λ p q. p < q) live.now }
    requires some { 0 < length live.now }
    requires one { 0 < workers }
    requires few { workers ≤ 64 }
    ensures workers { IfOk result (λ s. (setting_of s).workers ≡ workers) }
    ensures nodes { IfOk result (λ s. (frame_of_core s).nodes + 1 ≡ length boxes.now) }
{
    let _keys = tree.keys();
    start(alloc, tree, boxes, live, workers)
}

/// The next number of a sequence that jumps about.
fn jump(seed: u64) -> u64 {
    seed.wrapping_mul(6364136223846793005)
        .wrapping_add(1442695040888963407)
}

/// The box of the triangle with its corners at (x, 0, 0), (x + 4, 0, 0) and (x, 4, 0).
fn over(x: i32) -> Box3 {
    Box3::of_corners(
        Point { x, y: 0, z: 0 },
        Point {
            x: x.saturating_add(4),
            y: 4,
            z: 0,
        },
    )
}

/// The box of the point (x, 0, 0).
fn point(x: i32) -> Box3 {
    Box3::of_corners(Point { x, y: 0, z: 0 }, Point { x, y: 0, z: 0 })
}

fn eight_keys() -> [Key; 8]
    ensures { IsLawful result }
{
    [
        Key { code: 1, tri: 1 },
        Key { code: 2, tri: 2 },
        Key { code: 4, tri: 3 },
        Key { code: 5, tri: 4 },
        Key { code: 19, tri: 5 },
        Key { code: 24, tri: 6 },
        Key { code: 25, tri: 7 },
        Key { code: 30, tri: 8 },
    ]
}

/// The fits and the steps of two workers.
fn sums(s: &CoreState<'_>) -> (u64, u64)
    requires { (setting_of s.now).workers ≡ 2 }
{
    let one = tally_of(s, 0);
    let two = tally_of(s, 1);
    (
        one.fits.saturating_add(two.fits),
        one.steps.saturating_add(two.steps),
    )
}

#[test]
fn two_leaves_are_fitted_alike_by_three_schedules(rt: HostRuntime) -> Result<(), Fail> {
    let boxes = [over(0), over(0)];
    let tree = tree_of(&rt, rt.alloc(), &boxes)?;
    let live = picked(rt.alloc(), 2, 0, 16)?;
    let leaf = |position| Packet {
        first: position,
        last: position,
        split: position,
        fit: over(0),
    };
    for schedule in [
        [1, 1, 1, 1, 1, 1, 1, 0],
        [0, 0, 0, 0, 0, 0, 0, 1],
        [0, 1, 0, 0, 0, 0, 0, 0],
    ] {
        let mut s = machine(rt.alloc(), &tree, &boxes, &live, 2)?;
        assert!(rt; schedule.iter().all(|k| *k < 2));
        assert_eq!(rt; replay(&mut s, &schedule), 8);
        assert_eq!(rt; phase_of(&s, 0), Phase::Ended);
        assert_eq!(rt; phase_of(&s, 1), Phase::Ended);
        assert_eq!(rt; resting(&s, 0, Side::Left), Some(leaf(0)));
        assert_eq!(rt; resting(&s, 0, Side::Right), Some(leaf(1)));
        assert_eq!(rt; unfitted(&s), 0);
        assert_eq!(rt; sums(&s), (1, 8));
        assert!(rt; !step(&mut s, 0));
        assert!(rt; !step(&mut s, 1));
    }
    Ok(())
}

#[test]
fn a_stopped_worker_keeps_the_root_unfitted(rt: HostRuntime) -> Result<(), Fail> {
    let boxes = [over(0), over(0)];
    let tree = tree_of(&rt, rt.alloc(), &boxes)?;
    let live = picked(rt.alloc(), 2, 0, 16)?;
    let mut s = machine(rt.alloc(), &tree, &boxes, &live, 2)?;
    assert_eq!(rt; replay(&mut s, &[0, 0, 0, 1]), 4);
    assert!(rt; matches!(phase_of(&s, 0), Phase::Carry(load) if load.packet.first == 1));
    assert_eq!(rt; phase_of(&s, 1), Phase::Ended);
    assert_eq!(rt; unfitted(&s), 1);
    Ok(())
}

#[test]
fn one_live_leaf_of_three_is_carried_to_the_root(rt: HostRuntime) -> Result<(), Fail> {
    let boxes = [over(0), over(100), over(200)];
    let tree = tree_of(&rt, rt.alloc(), &boxes)?;
    let live = picked(rt.alloc(), 3, 0, 0)?;
    let mut s = machine(rt.alloc(), &tree, &boxes, &live, 2)?;
    assert_eq!(rt; unfitted(&s), 2);
    assert_eq!(rt; replay(&mut s, &[0, 0, 0, 0, 0, 0, 0, 0, 0, 1]), 10);
    assert_eq!(rt; phase_of(&s, 0), Phase::Ended);
    assert_eq!(rt; phase_of(&s, 1), Phase::Ended);
    assert_eq!(rt; unfitted(&s), 0);
    assert_eq!(rt; sums(&s), (2, 10));
    Ok(())
}

#[test]
fn nine_events_of_one_worker_fit_the_first_pair_of_eight(rt: HostRuntime) -> Result<(), Fail> {
    let boxes = [
        point(1),
        point(2),
        point(3),
        point(4),
        point(5),
        point(6),
        point(7),
        point(8),
    ];
    let tree = plain(
        rt.alloc(),
        Vec::from_array(rt.alloc(), eight_keys())?,
        &boxes,
    )?;
    let live = picked(rt.alloc(), 8, 0, 16)?;
    let mut s = machine(rt.alloc(), &tree, &boxes, &live, 2)?;
    assert_eq!(rt; replay(&mut s, &[0, 0, 0, 0, 0, 0, 0, 0, 0, 1]), 10);
    assert!(rt; matches!(phase_of(&s, 0), Phase::Carry(_)));
    assert_eq!(rt; phase_of(&s, 1), Phase::Ended);
    assert_eq!(rt; unfitted(&s), 6);
    let pair = Packet {
        first: 0,
        last: 1,
        split: 0,
        fit: Box3::of_corners(Point { x: 1, y: 0, z: 0 }, Point { x: 2, y: 0, z: 0 }),
    };
    assert_eq!(rt; resting(&s, 1, Side::Left), Some(pair));
    Ok(())
}

/// Boxes of one point each, near together, so that some are equal.
fn scattered(alloc: Global, count: u32, seed: u64) -> Result<Vec<Box3>, AllocError>
    ensures { IfOk result (λ boxes. length boxes.items ≡ count) }
{
    let mut boxes = Vec::new(alloc);
    let mut jumping = seed;
    for _ in 0..count {
        jumping = jump(jumping);
        let point = Point {
            x: (jumping >> 58) as i32,
            y: (jump(jumping) >> 58) as i32,
            z: 0,
        };
        boxes.push(Box3::of_corners(point, point))?;
    }
    Ok(boxes)
}

/// One event of the first worker from `first` on that has one, or false where all have ended.
fn any_event(s: &mut CoreState<'_>, first: u32, workers: u32) -> bool
    requires first { first < workers }
    requires few { workers ≤ 64 }
    requires workers { (setting_of s.old).workers ≡ workers }
    ensures { setting_of s.new ≡ setting_of s.old }
{
    for offset in 0..workers {
        if step(s, (first + offset) % workers) {
            return true;
        }
    }
    false
}

/// A random schedule until all workers have ended, with a look at every state on the way.
fn run_out(
    rt: &impl Abort,
    s: &mut CoreState<'_>,
    seen: &mut Seen,
    table: &Table,
    workers: u32,
    seed: u64,
)
    requires one { 0 < workers }
    requires few { workers ≤ 64 }
    requires workers { (setting_of s.old).workers ≡ workers }
    ensures { setting_of s.new ≡ setting_of s.old }
{
    let mut jumping = seed;
    let mut worker = 0;
    for _ in 0..100_000u32 {
        assert!(rt;
            is_lawful(
                seen,
                table,
                &s.claimed,
                &s.forks,
                &s.climbers,
                s.terrain.live
            ),
            "seed {seed}"
        );
        jumping = jump(jumping);
        if jumping >> 61 > seed % 8 {
            worker = (jumping >> 33) as u32 % workers;
        }
        if !any_event(s, worker, workers) {
            break;
        }
    }
}

/// Where all have ended: the packets of the table, and the counts of a fitting run.
fn compare(rt: &impl Abort, s: &CoreState<'_>, table: &Table, leaves: u32, workers: u32)
    requires nodes { (frame_of_core s.now).nodes + 1 ≡ leaves }
    requires workers { (setting_of s.now).workers ≡ workers }
{
    assert_eq!(rt; unfitted(s), 0);
    let mut fits = 0u64;
    let mut steps = 0u64;
    for split in 0..leaves - 1 {
        let mut node_live = false;
        for side in [Side::Left, Side::Right] {
            let child = table.children.get(side_index(split, side));
            assert_eq!(rt; resting(s, split, side), child.map(|c| c.packet));
            let live = child.is_some_and(|c| c.live);
            steps = steps.saturating_add(2 * u64::from(live));
            node_live = node_live || live;
        }
        fits = fits.saturating_add(u64::from(node_live));
        steps = steps.saturating_add(2 * u64::from(node_live));
    }
    for worker in 0..workers {
        let tally = tally_of(s, worker);
        assert_eq!(rt; phase_of(s, worker), Phase::Ended);
        fits = fits.wrapping_sub(tally.fits);
        steps = steps
            .saturating_add(s.claimed.len() as u64)
            .wrapping_sub(tally.steps);
    }
    assert_eq!(rt; (fits, steps), (0, 0));
}

/// A random schedule over a random tree.
fn play(rt: &impl Abort, alloc: Global, seed: u64) -> Result<(), Fail> {
    let leaves = 2 + (jump(seed) >> 33) as u32 % 299;
    let workers = 1 + (jump(seed ^ 1) >> 33) as u32 % 64;
    let boxes = scattered(alloc, leaves, seed)?;
    let tree = tree_of(rt, alloc, &boxes)?;
    let live = picked(alloc, leaves, seed, [16, 16, 8, 1][seed as usize % 4])?;
    let table = table_of(alloc, &tree, &boxes, &live)?;
    let mut seen = Seen::blank(alloc, leaves as usize - 1)?;
    let mut s = machine(alloc, &tree, &boxes, &live, workers)?;
    run_out(rt, &mut s, &mut seen, &table, workers, seed);
    compare(rt, &s, &table, leaves, workers);
    Ok(())
}

#[test]
fn random_schedules_fit_every_node_as_the_plain_build_does(rt: HostRuntime) -> Result<(), Fail> {
    for seed in 0..2000u64 {
        play(&rt, rt.alloc(), seed)?;
    }
    Ok(())
}
