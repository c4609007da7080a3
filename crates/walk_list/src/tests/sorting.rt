//! Found numbers put in order, many by their marks.

use crate::sorting::sorted;
use std::rt::HostRuntime;
use std::test::Fail;

#[test]
fn many_numbers_are_told_rising(rt: HostRuntime) -> Result<(), Fail> {
    // Beside a prime the multiples of 400 are all numbers below it, each once.
    let mut numbers = Vec::new(rt.alloc());
    let mut rising = Vec::new(rt.alloc());
    for i in 1..1009u32 {
        numbers.push(i * 400 % 1009)?;
        rising.push(i)?;
    }
    let told = sorted(rt.alloc(), numbers);
    assert_eq!(rt; told.as_slice(), rising.as_slice());
    Ok(())
}

#[test]
fn a_number_that_stands_twice_is_told_twice(rt: HostRuntime) -> Result<(), Fail> {
    let mut numbers = Vec::new(rt.alloc());
    let mut rising = Vec::new(rt.alloc());
    for i in 0..300u32 {
        numbers.push((299 - i) / 2)?;
        rising.push(i / 2)?;
    }
    let told = sorted(rt.alloc(), numbers);
    assert_eq!(rt; told.as_slice(), rising.as_slice());
    Ok(())
}

#[test]
fn numbers_far_apart_are_told_rising(rt: HostRuntime) -> Result<(), Fail> {
    let mut numbers = Vec::new(rt.alloc());
    let mut rising = Vec::new(rt.alloc());
    for i in 0..300u32 {
        numbers.push(u32::MAX - 1000 * i)?;
        rising.push(u32::MAX - 1000 * (299 - i))?;
    }
    let told = sorted(rt.alloc(), numbers);
    assert_eq!(rt; told.as_slice(), rising.as_slice());
    Ok(())
}
