//! The numbers of a line, each in the next word. The words were counted before, so there is always one.

ghost use Rattle.std.specs.Prelude.{◌≡◌, IfOk, drop};
ghost use Rattle.fixed_box.specs.World.{IsCoordinate};
ghost use Rattle.query_script.specs.Asks.{within, within_reach, within_world, Within, coordinate_of, steps_of, fault_of, number_of, first_of};

use crate::bounds::Bounds;
use crate::faults::LineFault;
use crate::limits::REACH;
use decimals::{NumberFault, grid, whole};
use fixed_box::HALF;
use text_words::Words;

/// The next word as a coordinate, in grid steps.
pub fn coordinate(words: &mut Words, unit: u32, bounds: Bounds) -> Result<i32, LineFault>
    ensures value { result ≡ coordinate_of unit bounds (first_of words.old) }
    ensures within { IfOk result (Within bounds) }
    ensures rest { words.new ≡ drop 1 words.old }
{
    let word = words.next().unwrap_or(b"");
    coordinate_of(word, unit, bounds)
}

/// A word as a coordinate.
pub fn coordinate_of(word: &[u8], unit: u32, bounds: Bounds) -> Result<i32, LineFault>
    ensures value { result ≡ coordinate_of unit bounds word.now }
    ensures within { IfOk result (Within bounds) }
{
    let steps = steps_of(word, unit)?;
    within(steps, bounds)
}

#[tactic(auto, unfolding(crate::specs::Asks::steps_of))]
fn steps_of(word: &[u8], unit: u32) -> Result<i64, LineFault>
    ensures { result ≡ steps_of unit word.now }
{
    grid(word, unit).map_err(fault_of)
}

/// A count of grid steps as a coordinate, where it is within its bounds.
pub fn within(steps: i64, bounds: Bounds) -> Result<i32, LineFault>
    ensures value { result ≡ within bounds steps }
    ensures within { IfOk result (Within bounds) }
{
    match bounds {
        Bounds::Reach => within_reach(steps),
        Bounds::World => within_world(steps),
    }
}

fn within_reach(steps: i64) -> Result<i32, LineFault>
    ensures { result ≡ within_reach steps }
{
    if -REACH <= steps && steps <= REACH {
        Ok(steps as i32)
    } else {
        Err(LineFault::OutOfRange)
    }
}

fn within_world(steps: i64) -> Result<i32, LineFault>
    ensures value { result ≡ within_world steps }
    ensures within { IfOk result IsCoordinate }
{
    if -i64::from(HALF) <= steps && steps < i64::from(HALF) {
        Ok(steps as i32)
    } else {
        Err(LineFault::OutOfRange)
    }
}

/// The next word as a whole number.
pub fn number(words: &mut Words) -> Result<u64, LineFault>
    ensures value { result ≡ number_of (first_of words.old) }
    ensures rest { words.new ≡ drop 1 words.old }
{
    let word = words.next().unwrap_or(b"");
    number_of(word)
}

/// A word as a whole number.
pub fn number_of(word: &[u8]) -> Result<u64, LineFault>
    ensures { result ≡ number_of word.now }
{
    whole(word).map_err(fault_of)
}

fn fault_of(fault: NumberFault) -> LineFault
    ensures { result ≡ fault_of fault }
{
    match fault {
        NumberFault::NotANumber => LineFault::NotANumber,
        NumberFault::TooLong => LineFault::NumberTooLong,
    }
}
