//! The Morton code of a box.
//! A coordinate is spread by masks, each of which halves the groups of bits that still stand together.

ghost use Rattle.std.specs.Prelude.{◌≡◌, ◌<◌, ◌^◌};
ghost use Rattle.fixed_box.specs.World.{IsCoordinate, BoxInWorld};
ghost use Rattle.fixed_box.specs.Centre.{IsCentre};
ghost use Rattle.fixed_box.specs.declared.shapes.Point.{Point};
ghost use Rattle.morton_key.specs.Codes.{interleaved, raised, code_of, code_of_point};
ghost use Rattle.morton_key.specs.Spread.{IsSpread};

use crate::{LEVELS, WIDTH};
use fixed_box::{Box3, HALF, centre};

/// The number with two zeros after each of its bits.
fn spread(number: u32) -> u64
    ensures bits { IsSpread 1 number result }
{
    let whole = u64::from(number);
    let sixteen = (whole | whole << 32) & 0xffff_0000_0000_ffff;
    let eight = (sixteen | sixteen << 16) & 0x00ff_0000_ff00_00ff;
    let four = (eight | eight << 8) & 0xf00f_00f0_0f00_f00f;
    let two = (four | four << 4) & 0x30c3_0c30_c30c_30c3;
    (two | two << 2) & 0x9249_2492_4924_9249
}

/// The bits of three coordinates in turn, from the highest.
fn interleave(x: u32, y: u32, z: u32) -> u64
    requires x { x < 2 ^ LEVELS }
    requires y { y < 2 ^ LEVELS }
    requires z { z < 2 ^ LEVELS }
    ensures { result ≡ interleaved LEVELS x y z }
{
    spread(x) << 2 | spread(y) << 1 | spread(z)
}

/// A coordinate, counted from the world's lower end.
fn raise(coordinate: i32) -> u32
    requires { IsCoordinate coordinate }
    ensures value { result ≡ raised coordinate }
    ensures fits { result < 2 ^ LEVELS }
{
    (coordinate + HALF) as u32
}

/// The Morton code of the middle of a box: the bits of its coordinates in turn, x before y before z.
///
/// Each coordinate is counted from the world's lower end, so it has `LEVELS` bits and the code has `WIDTH`. The middle
/// is rounded down on each axis. It takes no memory (Lauterbach et al., 2009).
pub fn code(b: &Box3) -> u64
    requires { BoxInWorld b.now }
    ensures value { result ≡ code_of b.now }
    ensures centre { (p : Point) → IsCentre b.now p → result ≡ code_of_point p }
    ensures fits { result < 2 ^ WIDTH }
{
    let middle = centre(b);
    interleave(raise(middle.x), raise(middle.y), raise(middle.z))
}
