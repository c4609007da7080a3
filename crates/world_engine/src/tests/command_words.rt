//! Which words choose what, and which are refused.

use super::devices::{TRIANGLE, in_pieces, words_come_to};
use super::large_workload::REPORT;
use crate::Status;
use std::test::Fail;

#[test]
fn words_choose_the_unit_or_are_refused(rt: HostRuntime) -> Result<(), Fail> {
    let outside = b"mesh line 1: outside the world\n";
    let rows: [(&str, &[u8], Status, &[u8]); 17] = [
        (
            "--unit 1 level.obj",
            b"v 131071 0 0\n",
            Status::Done,
            b"work 0\n",
        ),
        (
            "level.obj --unit=1",
            b"v 131072 0 0\n",
            Status::MeshRefused,
            outside,
        ),
        ("level.obj", b"v 2047.98 0 0\n", Status::Done, b"work 0\n"),
        (
            "--unit=64 level.obj",
            b"v 2048 0 0\n",
            Status::MeshRefused,
            outside,
        ),
        (
            "level.obj --workers 64 --build karras",
            TRIANGLE,
            Status::Done,
            b"work 0\n",
        ),
        (
            "level.obj --workers 64 --build apetrei",
            TRIANGLE,
            Status::Done,
            b"work 0\n",
        ),
        (
            "level.obj --build fast",
            TRIANGLE,
            Status::Usage,
            b"bad command line\n",
        ),
        (
            "level.obj --workers 0",
            TRIANGLE,
            Status::Usage,
            b"bad command line\n",
        ),
        (
            "level.obj --unit +1",
            TRIANGLE,
            Status::Usage,
            b"bad command line\n",
        ),
        (
            "level.obj level.obj",
            TRIANGLE,
            Status::Usage,
            b"bad command line\n",
        ),
        (
            "-- level.obj",
            TRIANGLE,
            Status::Usage,
            b"bad command line\n",
        ),
        ("--help", TRIANGLE, Status::Usage, b"bad command line\n"),
        ("--grid 1", TRIANGLE, Status::Usage, b"bad command line\n"),
        (
            "--grid 2 level.obj",
            TRIANGLE,
            Status::Usage,
            b"bad command line\n",
        ),
        ("--grid=2", TRIANGLE, Status::Done, REPORT),
        ("--build apetrei --grid 2", TRIANGLE, Status::Done, REPORT),
        ("other.obj", TRIANGLE, Status::ReadFault, b""),
    ];
    for (line, mesh, status, output) in rows {
        let devices = in_pieces(4096);
        words_come_to(&rt, line, mesh, b"work\n", &devices, status, output, line)?;
    }
    Ok(())
}
