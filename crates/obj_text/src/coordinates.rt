//! Coordinates of a `v` line: decimals, as grid values within the world.

ghost use Rattle.std.specs.Prelude.{◌≡◌, ◌≤◌};
ghost use Rattle.obj_text.specs.Rows.{in_world, coordinate, coordinate_of, point_of};

use crate::fault::Why;
use decimals::{NumberFault, grid};
use fixed_box::{HALF, Point};

/// The point that three words write, with `unit` grid steps to their unit.
pub fn point(x: &[u8], y: &[u8], z: &[u8], unit: u32) -> Result<Point, Why>
    ensures { result ≡ point_of unit x.now y.now z.now }
{
    let x = coordinate(x, unit)?;
    let y = coordinate(y, unit)?;
    let z = coordinate(z, unit)?;
    Ok(Point { x, y, z })
}

fn coordinate(word: &[u8], unit: u32) -> Result<i32, Why>
    ensures { result ≡ coordinate_of unit word.now }
{
    match grid(word, unit) {
        Ok(steps) => in_world(steps),
        Err(NumberFault::NotANumber) => Err(Why::NotANumber),
        Err(NumberFault::TooLong) => Err(Why::NumberTooLong),
    }
}

/// The coordinate of so many grid steps, or `Outside` where it is none of the world.
pub fn in_world(steps: i64) -> Result<i32, Why>
    ensures { result ≡ in_world steps }
{
    if steps < -i64::from(HALF) || steps >= i64::from(HALF) {
        return Err(Why::Outside);
    }
    Ok(steps as i32)
}
