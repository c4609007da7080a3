//! Trees worked by hand, and one of many triangles against a second reading of the rule.

ghost use Rattle.std.specs.Prelude.{◌≡◌, ◌+◌, ◌*◌, ◌-◌, ◌<◌, ◌≤◌, All, length, IfOk, vec_len, ◌≤ℤ◌, ◌<ℤ◌, pos, negsuc};
ghost use Rattle.fixed_box.specs.World.{BoxInWorld};
ghost use Rattle.morton_key.specs.Keys.{IsLawful};

use crate::{Child, Tree, height, left, plain, right};
use fixed_box::{Box3, Point};
use morton_key::{Key, order};
use std::alloc::{AllocError, Global};
use std::rt::HostRuntime;
use std::test::Fail;

/// The range and the split of each node, by number.
type Rows = Vec<(usize, usize, usize)>;

fn rows_of(alloc: Global, t: &Tree) -> Result<Rows, AllocError> {
    t.nodes()
        .iter()
        .map(|n| (n.first as usize, n.last as usize, n.split as usize))
        .collect(alloc)
}

/// The box of one point on the x axis.
fn at(x: u8) -> Box3
    ensures { BoxInWorld result }
{
    let point = Point {
        x: i32::from(x),
        y: 0,
        z: 0,
    };
    Box3 {
        lo: point,
        hi: point,
    }
}

fn eight_keys() -> [Key; 8]
    ensures { IsLawful result }
{
    [
        Key { code: 1, tri: 1 },
        Key { code: 2, tri: 2 },
        Key { code: 4, tri: 3 },
        Key { code: 5, tri: 4 },
        Key { code: 19, tri: 5 },
        Key { code: 24, tri: 6 },
        Key { code: 25, tri: 7 },
        Key { code: 30, tri: 8 },
    ]
}

fn five_equal_codes() -> [Key; 5]
    ensures { IsLawful result }
{
    [
        Key { code: 9, tri: 1 },
        Key { code: 9, tri: 2 },
        Key { code: 9, tri: 3 },
        Key { code: 9, tri: 4 },
        Key { code: 9, tri: 5 },
    ]
}

#[test]
fn eight_keys_part_where_their_codes_first_differ(rt: HostRuntime) -> Result<(), Fail> {
    let keys = Vec::from_array(rt.alloc(), eight_keys())?;
    let boxes = [at(0), at(1), at(2), at(3), at(4), at(5), at(6), at(7)];
    let t = plain(rt.alloc(), keys, &boxes)?;
    let rows = rows_of(rt.alloc(), &t)?;
    let expected = [
        (0, 7, 3),
        (0, 1, 0),
        (2, 3, 2),
        (0, 3, 1),
        (4, 7, 4),
        (5, 7, 6),
        (5, 6, 5),
    ];
    assert_eq!(rt; rows.as_slice(), expected.as_slice());
    assert_eq!(rt; height(&t), 4);
    assert_eq!(rt; t.nodes().len(), 7);
    assert_eq!(rt; left(&t, 0), Child::Inner(3));
    assert_eq!(rt; right(&t, 0), Child::Inner(4));
    assert_eq!(rt; left(&t, 4), Child::Leaf(4));
    assert_eq!(rt; right(&t, 5), Child::Leaf(7));
    Ok(())
}

#[test]
fn five_equal_codes_part_by_their_positions(rt: HostRuntime) -> Result<(), Fail> {
    let keys = Vec::from_array(rt.alloc(), five_equal_codes())?;
    let boxes = [at(9), at(9), at(9), at(9), at(9)];
    let t = plain(rt.alloc(), keys, &boxes)?;
    let rows = rows_of(rt.alloc(), &t)?;
    assert_eq!(rt;
        rows.as_slice(),
        [(0, 4, 3), (0, 1, 0), (2, 3, 2), (0, 3, 1)].as_slice()
    );
    assert_eq!(rt; height(&t), 3);
    Ok(())
}

#[test]
fn no_key_and_one_key_have_no_node_and_two_have_one(rt: HostRuntime) -> Result<(), Fail> {
    let none = plain(rt.alloc(), order(rt.alloc(), &[])?, &[])?;
    assert_eq!(rt; none.nodes().len(), 0);
    assert_eq!(rt; height(&none), 0);
    let boxes = [at(7), at(3)];
    let one = plain(rt.alloc(), order(rt.alloc(), &boxes[..1])?, &boxes[..1])?;
    assert_eq!(rt; one.nodes().len(), 0);
    assert_eq!(rt; one.keys().len(), 1);
    assert_eq!(rt; height(&one), 0);
    let two = plain(rt.alloc(), order(rt.alloc(), &boxes)?, &boxes)?;
    let rows = rows_of(rt.alloc(), &two)?;
    assert_eq!(rt; rows.as_slice(), [(0, 1, 0)].as_slice());
    assert_eq!(rt; height(&two), 1);
    assert_eq!(rt; left(&two, 0), Child::Leaf(0));
    assert_eq!(rt; right(&two, 0), Child::Leaf(1));
    Ok(())
}

#[test]
fn a_put_box_replaces_one_box(rt: HostRuntime) -> Result<(), Fail> {
    let keys = Vec::from_array(rt.alloc(), five_equal_codes())?;
    let boxes = [at(9), at(9), at(9), at(9), at(9)];
    let mut t = plain(rt.alloc(), keys, &boxes)?;
    assert_eq!(rt; t.nodes().len(), 4);
    t.put(2, at(1));
    let fits: Vec<Box3> = t.nodes().iter().map(|n| n.fit).collect(rt.alloc())?;
    assert_eq!(rt; fits.as_slice(), [at(9), at(9), at(1), at(9)].as_slice());
    Ok(())
}

/// The next number of a sequence that jumps about.
fn jump(seed: u64) -> u64 {
    seed.wrapping_mul(6364136223846793005)
        .wrapping_add(1442695040888963407)
}

/// A number from -12 to 11, so that some points come twice.
fn coordinate(seed: u64) -> i32
    ensures low { negsuc 11 ≤ℤ result }
    ensures high { result <ℤ pos 12 }
{
    (seed >> 40) as i32 % 24 - 12
}

/// The box of one point of a sequence.
fn scattered_box(seed: u64) -> Box3
    ensures { BoxInWorld result }
{
    let x = coordinate(seed);
    let y = coordinate(jump(seed));
    let point = Point { x, y, z: x };
    Box3 {
        lo: point,
        hi: point,
    }
}

fn scattered(alloc: Global) -> Result<Vec<Box3>, AllocError>
    ensures world { IfOk result (λ boxes. All BoxInWorld boxes.items) }
    ensures count { IfOk result (λ boxes. vec_len boxes ≡ 200) }
{
    let mut boxes = Vec::new(alloc);
    let mut seed = 2026;
    for _ in 0..200usize {
        boxes.push(scattered_box(seed))?;
        seed = jump(jump(seed));
    }
    Ok(boxes)
}

/// The bits of a code and then of its position.
fn tag(keys: &[Key], position: usize) -> u128 {
    match keys.get(position) {
        Some(key) => (u128::from(key.code) << 20) ^ (position as u128 & 0xfffff),
        None => 0,
    }
}

/// The nodes by another reading of the rule: a list of ranges that are still to be parted, each scanned from its end.
fn rows_by_scanning(alloc: Global, keys: &[Key]) -> Result<Rows, AllocError> {
    let mut rows = vec![in alloc; (0, 0, 0); keys.len().saturating_sub(1)]?;
    let mut open = Vec::new(alloc);
    if keys.len() > 1 {
        open.push((0, 0, keys.len() - 1))?;
    }
    for _ in 0..keys.len() {
        let Some((number, first, last)) = open.pop() else {
            break;
        };
        let highest = 127
            - (tag(keys, first) ^ tag(keys, last))
                .leading_zeros()
                .min(127);
        let mut split = last;
        for candidate in first..last {
            if tag(keys, candidate) >> highest & 1 == 0 {
                split = candidate;
            }
        }
        if let Some(row) = rows.get_mut(number) {
            *row = (first, last, split);
        }
        if first < split {
            open.push((split, first, split))?;
        }
        if split < last && split + 1 < last {
            open.push((split + 1, split + 1, last))?;
        }
    }
    Ok(rows)
}

#[test]
fn two_hundred_triangles_have_the_nodes_that_a_scan_finds(rt: HostRuntime) -> Result<(), Fail> {
    let boxes = scattered(rt.alloc())?;
    let keys = order(rt.alloc(), &boxes)?;
    let expected = rows_by_scanning(rt.alloc(), &keys)?;
    let t = plain(rt.alloc(), keys, &boxes)?;
    let rows = rows_of(rt.alloc(), &t)?;
    assert_eq!(rt; rows.len(), 199);
    assert_eq!(rt; rows.as_slice(), expected.as_slice());
    Ok(())
}
