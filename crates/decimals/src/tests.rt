//! Words against values that were worked out by another program, and each public call once.

use super::*;
use std::process::Abort;

mod table;

fn has_values(rt: &impl Abort, cases: &[(&[u8], u32, i64)]) {
    for (at, (word, unit, value)) in cases.iter().enumerate() {
        assert_eq!(rt; grid(word, *unit), Ok(*value), "row {at}");
    }
}

#[test]
fn words_have_the_values_of_exact_arithmetic(rt: HostRuntime) {
    has_values(&rt, &table::VALUES_1);
    has_values(&rt, &table::VALUES_2);
    has_values(&rt, &table::VALUES_3);
}

#[test]
fn words_without_a_value_have_their_fault(rt: HostRuntime) {
    for (at, (word, unit, fault)) in table::FAULTS.iter().enumerate() {
        assert_eq!(rt; grid(word, *unit), Err(*fault), "row {at}");
    }
}

#[test]
fn whole_numbers_are_digits_alone(rt: HostRuntime) {
    assert_eq!(rt; whole(b"0"), Ok(0));
    assert_eq!(rt; whole(b"007"), Ok(7));
    assert_eq!(rt; whole(b"1099511627775"), Ok(1_099_511_627_775));
    assert_eq!(rt; whole(b"1099511627777"), Ok(GREATEST));
    assert_eq!(rt; whole(b"999999999999999999999999"), Ok(GREATEST));
    assert_eq!(rt; whole(b"00000000000000000000000000000001"), Ok(1));
    assert_eq!(rt;
        whole(b"1000000000000000000000000"),
        Err(NumberFault::TooLong)
    );
    for word in [
        b"".as_slice(),
        b"+1",
        b"-1",
        b"1.",
        b"1e3",
        b"1 ",
        b"x",
        b"/",
        b":",
    ] {
        assert_eq!(rt; whole(word), Err(NumberFault::NotANumber));
    }
}
