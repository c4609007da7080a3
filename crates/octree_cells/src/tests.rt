//! Cells worked by hand, and those of many boxes with few codes, at each level, against a pass over all prefixes.

ghost use Rattle.std.specs.Prelude.{◌≡◌, ◌^◌, ◌≤◌, length, All, IfOk, vec_len, ◌≤ℤ◌, ◌<ℤ◌, pos, negsuc};
ghost use Rattle.fixed_box.specs.World.{BoxInWorld};

use crate::{Cell, CellList, cells, count};
use fixed_box::{Box3, Point};
use morton_key::{Key, LEVELS, POSITION_WIDTH, order};
use radix_tree::{Tree, plain};
use std::alloc::{AllocError, Global};
use std::rt::HostRuntime;
use std::test::Fail;

/// The tree of the triangles with these boxes.
fn tree(alloc: Global, boxes: &[Box3]) -> Result<Tree, Fail>
    requires world { All BoxInWorld boxes.now }
    requires few { length boxes.now ≤ 2 ^ POSITION_WIDTH }
{
    let keys = order(alloc, boxes)?;
    Ok(plain(alloc, keys, boxes)?)
}

fn floor() -> Box3
    ensures { BoxInWorld result }
{
    Box3 {
        lo: Point { x: 0, y: 0, z: 0 },
        hi: Point {
            x: 256,
            y: 256,
            z: 0,
        },
    }
}

fn ramp() -> Box3
    ensures { BoxInWorld result }
{
    Box3 {
        lo: Point { x: 256, y: 0, z: 0 },
        hi: Point {
            x: 416,
            y: 256,
            z: 80,
        },
    }
}

/// The box of the triangle (0, 0, 0), (4, 0, 0), (0, 4, 0).
fn corner() -> Box3
    ensures { BoxInWorld result }
{
    Box3 {
        lo: Point { x: 0, y: 0, z: 0 },
        hi: Point { x: 4, y: 4, z: 0 },
    }
}

#[test]
fn two_equal_codes_have_one_cell_at_each_level(rt: HostRuntime) -> Result<(), Fail> {
    let t = tree(rt.alloc(), &[corner(), corner()])?;
    let expected = [
        (18, 15762598695796784),
        (17, 1970324836974598),
        (1, 7),
        (0, 0),
    ];
    for (level, prefix) in expected {
        let cell = Cell {
            level,
            prefix,
            first: 0,
            last: 1,
        };
        assert_eq!(rt; cells(rt.alloc(), &t, level)?.items(), [cell].as_slice());
    }
    assert_eq!(rt; count(&t), 19);
    Ok(())
}

#[test]
fn no_key_and_one_key_have_no_cell(rt: HostRuntime) -> Result<(), Fail> {
    let none = tree(rt.alloc(), &[])?;
    let one = tree(rt.alloc(), &[corner()])?;
    for level in 0..LEVELS + 1 {
        assert_eq!(rt; cells(rt.alloc(), &none, level)?.items().len(), 0);
        assert_eq!(rt; cells(rt.alloc(), &one, level)?.items().len(), 0);
    }
    assert_eq!(rt; count(&none), 0);
    assert_eq!(rt; count(&one), 0);
    Ok(())
}

#[test]
fn a_floor_and_a_ramp_of_two_triangles_each_have_28_cells(rt: HostRuntime) -> Result<(), Fail> {
    let t = tree(rt.alloc(), &[floor(), floor(), ramp(), ramp()])?;
    assert_eq!(rt; count(&t), 28);
    Ok(())
}

/// The next number of a sequence that jumps about.
fn jump(seed: u64) -> u64 {
    seed.wrapping_mul(6364136223846793005)
        .wrapping_add(1442695040888963407)
}

/// One of ten coordinates, some of which are near one another.
fn coordinate(seed: u64) -> i32
    ensures low { negsuc 131071 ≤ℤ result }
    ensures high { result <ℤ pos 131072 }
{
    match seed >> 40 & 15 {
        0 => -131072,
        1 => -40000,
        2 => -5,
        3 => -4,
        4 => 0,
        5 => 1,
        6 => 2,
        7 => 3000,
        8 => 3001,
        _ => 131071,
    }
}

/// The box of one point of a sequence.
fn scattered_box(seed: u64) -> Box3
    ensures { BoxInWorld result }
{
    let x = coordinate(seed);
    let y = coordinate(jump(seed));
    let point = Point { x, y, z: x };
    Box3 {
        lo: point,
        hi: point,
    }
}

fn scattered(alloc: Global) -> Result<Vec<Box3>, AllocError>
    ensures world { IfOk result (λ boxes. All BoxInWorld boxes.items) }
    ensures count { IfOk result (λ boxes. vec_len boxes ≡ 300) }
{
    let mut boxes = Vec::new(alloc);
    let mut seed = 2026;
    for _ in 0..300usize {
        boxes.push(scattered_box(seed))?;
        seed = jump(jump(seed));
    }
    Ok(boxes)
}

/// The prefix of a level, by dropping an octal digit for each level below it.
fn prefix(key: &Key, level: u32) -> u64 {
    let mut prefix = key.code;
    for _ in level..LEVELS {
        prefix /= 8;
    }
    prefix
}

/// The cells of a level, by a pass over the prefixes, of which each keeps its first and its last position.
fn cells_by_passing(alloc: Global, keys: &[Key], level: u32) -> Result<Vec<Cell>, AllocError> {
    let mut found: Vec<Cell> = Vec::new(alloc);
    let mut position = 0u32;
    for key in keys {
        let own = prefix(key, level);
        let count = found.len();
        if count > 0 && found[count - 1].prefix == own {
            found[count - 1].last = position;
        } else {
            found.push(Cell {
                level,
                prefix: own,
                first: position,
                last: position,
            })?;
        }
        position = position.wrapping_add(1);
    }
    found.retain(|cell| cell.first < cell.last);
    Ok(found)
}

#[test]
fn three_hundred_boxes_have_the_cells_that_a_pass_over_prefixes_finds(
    rt: HostRuntime,
) -> Result<(), Fail> {
    let boxes = scattered(rt.alloc())?;
    let t = tree(rt.alloc(), &boxes)?;
    let mut all = 0u64;
    for level in 0..LEVELS + 1 {
        let expected = cells_by_passing(rt.alloc(), t.keys(), level)?;
        assert_eq!(rt; cells(rt.alloc(), &t, level)?.items(), expected.as_slice());
        all = all.wrapping_add(expected.len() as u64);
    }
    assert_eq!(rt; count(&t), all);
    Ok(())
}
