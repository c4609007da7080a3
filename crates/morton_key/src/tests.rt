//! Worked rows, whose figures were reckoned by hand, and the ends of each range.

ghost use Rattle.std.specs.Prelude.{◌≡◌, length};
ghost use Rattle.fixed_box.specs.World.{IsCoordinate, BoxInWorld};
ghost use Rattle.morton_key.specs.Keys.{IsLawful};

use crate::{Key, code, delta, order};
use fixed_box::{Box3, Point};
use std::rt::HostRuntime;
use std::test::Fail;

/// The box of one point.
fn at(x: i32, y: i32, z: i32) -> Box3
    requires x { IsCoordinate x }
    requires y { IsCoordinate y }
    requires z { IsCoordinate z }
    ensures { BoxInWorld result }
{
    Box3 {
        lo: Point { x, y, z },
        hi: Point { x, y, z },
    }
}

fn eight_keys() -> [Key; 8]
    ensures { IsLawful result }
{
    [
        Key { code: 1, tri: 1 },
        Key { code: 2, tri: 2 },
        Key { code: 4, tri: 3 },
        Key { code: 5, tri: 4 },
        Key { code: 19, tri: 5 },
        Key { code: 24, tri: 6 },
        Key { code: 25, tri: 7 },
        Key { code: 30, tri: 8 },
    ]
}

fn three_equal_codes() -> [Key; 3]
    ensures { IsLawful result }
{
    [
        Key { code: 9, tri: 1 },
        Key { code: 9, tri: 2 },
        Key { code: 9, tri: 3 },
    ]
}

#[test]
fn keys_share_the_prefixes_of_their_codes(rt: HostRuntime) {
    let keys = eight_keys();
    assert_eq!(rt; delta(&keys, 0, 1), 52);
    assert_eq!(rt; delta(&keys, 1, 2), 51);
    assert_eq!(rt; delta(&keys, 3, 4), 49);
    assert_eq!(rt; delta(&keys, 6, 7), 51);
    assert_eq!(rt; delta(&keys, 7, 0), 49);
    assert_eq!(rt; delta(&keys, 7, 7), 74);
    assert_eq!(rt; delta(&keys, 0, -1), -1);
    assert_eq!(rt; delta(&keys, 7, 8), -1);
}

#[test]
fn equal_codes_go_on_with_their_positions(rt: HostRuntime) {
    let keys = three_equal_codes();
    assert_eq!(rt; delta(&keys, 0, 1), 73);
    assert_eq!(rt; delta(&keys, 1, 2), 72);
    assert_eq!(rt; delta(&keys, 2, 2), 74);
}

#[test]
fn a_small_triangle_at_the_origin_has_this_code(rt: HostRuntime) {
    let triangle = Box3 {
        lo: Point { x: 0, y: 0, z: 0 },
        hi: Point { x: 4, y: 4, z: 0 },
    };
    assert_eq!(rt; code(&triangle), 7 * (1 << 51) + 48);
}

#[test]
fn the_corners_of_the_world_have_the_outermost_codes(rt: HostRuntime) {
    let (low, high) = (-131072, 131071);
    assert_eq!(rt; code(&at(low, low, low)), 0);
    assert_eq!(rt; code(&at(high, low, low)), 10293942005418276);
    assert_eq!(rt; code(&at(low, high, low)), 5146971002709138);
    assert_eq!(rt; code(&at(low, low, high)), 2573485501354569);
    assert_eq!(rt; code(&at(high, high, high)), 18014398509481983);
    let whole = Box3 {
        lo: Point {
            x: low,
            y: low,
            z: low,
        },
        hi: Point {
            x: high,
            y: high,
            z: high,
        },
    };
    // the middle of the world is (-1, -1, -1)
    assert_eq!(rt; code(&whole), 2251799813685247);
}

#[test]
fn boxes_with_one_code_stand_by_their_numbers(rt: HostRuntime) -> Result<(), Fail> {
    let boxes = [
        at(5, 5, 5),
        at(-131072, -131072, -131072),
        at(5, 5, 5),
        at(5, 5, 5),
    ];
    let keys = order(rt.alloc(), &boxes)?;
    let same = code(&at(5, 5, 5));
    let expected = [
        Key { code: 0, tri: 2 },
        Key { code: same, tri: 1 },
        Key { code: same, tri: 3 },
        Key { code: same, tri: 4 },
    ];
    assert_eq!(rt; keys.as_slice(), expected.as_slice());
    Ok(())
}

#[test]
fn no_box_and_one_box_have_an_order(rt: HostRuntime) -> Result<(), Fail> {
    let none = order(rt.alloc(), &[])?;
    assert_eq!(rt; none.len(), 0);
    let one = order(rt.alloc(), &[at(131071, 131071, 131071)])?;
    assert_eq!(rt;
        one.as_slice(),
        [Key {
            code: 18014398509481983,
            tri: 1
        }]
        .as_slice()
    );
    Ok(())
}
