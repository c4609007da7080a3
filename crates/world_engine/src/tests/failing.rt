//! Devices that fail in the middle of a run.

use super::devices::{Devices, TRIANGLE, comes_to, in_pieces};
use crate::Status;
use std::test::Fail;

#[test]
fn a_failing_device_ends_the_run_where_it_fails(rt: HostRuntime) -> Result<(), Fail> {
    let twice = b"box 4 4 0 9 9 0\nbox 4 4 0 9 9 0\n";
    let third_fetch = Devices {
        mesh_piece: 8,
        mesh_fail: 3,
        ..in_pieces(8)
    };
    comes_to(
        &rt,
        TRIANGLE,
        twice,
        &third_fetch,
        Status::ReadFault,
        b"",
        "the third fetch",
    )?;
    let fourth_write = Devices {
        out_piece: 8,
        out_fail: 4,
        ..in_pieces(8)
    };
    comes_to(
        &rt,
        TRIANGLE,
        twice,
        &fourth_write,
        Status::WriteFault,
        b"overlaps 1: 1\noverlaps",
        "the fourth write",
    )?;
    let second_read = Devices {
        script_piece: 16,
        script_fail: 2,
        ..in_pieces(16)
    };
    comes_to(
        &rt,
        TRIANGLE,
        twice,
        &second_read,
        Status::ReadFault,
        b"overlaps 1: 1\n",
        "the second read",
    )?;
    Ok(())
}
