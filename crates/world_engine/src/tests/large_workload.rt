//! The large workload.

use super::devices::{Devices, TRIANGLE, in_pieces, words_come_to};
use crate::{Build, Status, grid_report};
use outside::OpenGate;
use std::test::Fail;

/// What the large workload of two squares along each side writes.
pub const REPORT: &[u8] = b"triangles 8 nodes 7 height 3 cells 46\n\
hits 8 misses 0 numbers 29 overlaps 46 work 100\n\
hits 8 misses 0 numbers 29 overlaps 35 work 100\n\
triangles 8 nodes 7 height 3 cells 22\n\
hits 8 misses 0 numbers 29 overlaps 35 work 100\n";

/// Neither shelf nor script is touched, so that they fail is not seen.
#[test]
fn the_large_workload_needs_no_file_and_no_script(rt: HostRuntime) -> Result<(), Fail> {
    let devices = Devices {
        mesh_fail: 1,
        script_fail: 1,
        ..in_pieces(7)
    };
    words_come_to(
        &rt,
        "--workers 3 --grid 2",
        TRIANGLE,
        b"work\n",
        &devices,
        Status::Done,
        REPORT,
        "two squares a side",
    )?;
    let devices = Devices {
        out_fail: 2,
        ..in_pieces(7)
    };
    words_come_to(
        &rt,
        "--grid 2",
        TRIANGLE,
        b"work\n",
        &devices,
        Status::WriteFault,
        b"triangl",
        "a write that fails",
    )
}

#[test]
fn the_large_workload_is_the_same_by_either_build_and_any_number_of_workers(
    rt: HostRuntime,
) -> Result<(), Fail> {
    let one = grid_report(&rt, rt.alloc(), 64, Build::Karras, 1, &OpenGate)
        .ok()
        .expect(&rt, "memory");
    for (build, workers) in [(Build::Karras, 7), (Build::Apetrei, 1), (Build::Apetrei, 7)] {
        let other = grid_report(&rt, rt.alloc(), 64, build, workers, &OpenGate)
            .ok()
            .expect(&rt, "memory");
        assert!(rt; one == other, "one worker and others");
    }
    assert!(rt;
        one.starts_with(b"triangles 8192 nodes 8191 height "),
        "its first line"
    );
    Ok(())
}
