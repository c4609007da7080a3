//! Runs in which each fetch, read and write fails in turn, and meshes that end at each of their bytes.

use crate::words::words_of;
use outside::{MemShelf, MemSink, MemSource, Name, OpenGate};
use std::alloc::{AllocError, Global};
use std::process::Abort;
use std::rt::HostRuntime;
use std::test::Fail;
use std::thread::Threads;
use world_engine::{Status, run};

/// A triangle of 32 bytes.
const TRIANGLE: &[u8] = b"v 0 0 0\nv 4 0 0\nv 0 4 0\nf 1 2 3\n";

/// The same with a last line that names no vertex.
const FAULTY: &[u8] = b"v 0 0 0\nv 4 0 0\nv 0 4 0\nf 1 2 4\n";

/// A box that touches the triangle's box, asked once and twice, with 16 bytes a line. The reply has 14.
const ONCE: &[u8] = b"box 4 4 0 9 9 0\n";

const TWICE: &[u8] = b"box 4 4 0 9 9 0\nbox 4 4 0 9 9 0\n";

const FIRST: &[u8] = b"overlaps 1: 1\n";

const FIRST_AND_HALF: &[u8] = b"overlaps 1: 1\noverlaps";

const BOTH: &[u8] = b"overlaps 1: 1\noverlaps 1: 1\n";

const NO_VERTEX: &[u8] = b"mesh line 4: no such vertex\n";

/// The calls at which devices fail, 0 for none, and for how many bytes there is room.
#[derive(Clone, Copy)]
struct Faults {
    fetch: u64,
    read: u64,
    write: u64,
    room: usize,
}

const NONE: Faults = Faults {
    fetch: 0,
    read: 0,
    write: 0,
    room: 4096,
};

const fn fetch(call: u64) -> Faults {
    Faults {
        fetch: call,
        ..NONE
    }
}

const fn read(call: u64) -> Faults {
    Faults { read: call, ..NONE }
}

const fn write(call: u64) -> Faults {
    Faults {
        write: call,
        ..NONE
    }
}

/// The list of one call that fails, or of none.
fn calls(alloc: Global, call: u64) -> Result<Vec<u64>, AllocError> {
    let mut all = Vec::new(alloc);
    if call != 0 {
        all.push(call)?;
    }
    Ok(all)
}

/// Runs by both builds over a shelf of pieces of 8 bytes, a script of pieces of 16 and a sink of pieces of 8, and compares
/// status and output.
fn comes_to<R: Threads + Sync + Abort + AllocGlobal>(
    rt: &R,
    mesh: &[u8],
    script: &[u8],
    faults: Faults,
    status: Status,
    output: &[u8],
    name: &str,
) -> Result<(), Fail> {
    let alloc = rt.alloc();
    for line in ["--unit 1 level.obj", "--unit 1 level.obj --build apetrei"] {
        let words = words_of(alloc, line)?;
        let level = Name::new(b"level.obj".to_vec(alloc)?);
        let mut shelf = MemShelf::new(level, mesh.to_vec(alloc)?, 8, calls(alloc, faults.fetch)?);
        let mut source = MemSource::new(script.to_vec(alloc)?, 16, calls(alloc, faults.read)?);
        let mut sink = MemSink::new(alloc, faults.room, 8, calls(alloc, faults.write)?).map_err(
            |_| "no room for the output",
        )?;
        let got = run(
            rt,
            alloc,
            &words,
            &mut shelf,
            &mut source,
            &mut sink,
            &OpenGate,
        );
        assert!(rt; got == status, "status of {name}");
        assert!(rt; sink.bytes() == output, "output of {name}");
    }
    Ok(())
}

#[test]
fn each_call_that_fails_ends_the_run_where_it_fails(rt: HostRuntime) -> Result<(), Fail> {
    let rows = [
        ("no call", NONE, Status::Done, BOTH),
        ("fetch 1", fetch(1), Status::ReadFault, b"".as_slice()),
        ("fetch 2", fetch(2), Status::ReadFault, b"".as_slice()),
        ("fetch 3", fetch(3), Status::ReadFault, b"".as_slice()),
        ("fetch 4", fetch(4), Status::ReadFault, b"".as_slice()),
        ("fetch 5", fetch(5), Status::ReadFault, b"".as_slice()),
        ("read 1", read(1), Status::ReadFault, b"".as_slice()),
        ("read 2", read(2), Status::ReadFault, FIRST),
        ("read 3", read(3), Status::ReadFault, BOTH),
        ("write 1", write(1), Status::WriteFault, b"".as_slice()),
        (
            "write 2",
            write(2),
            Status::WriteFault,
            b"overlaps".as_slice(),
        ),
        ("write 3", write(3), Status::WriteFault, FIRST),
        ("write 4", write(4), Status::WriteFault, FIRST_AND_HALF),
        (
            "no room behind the first reply",
            Faults { room: 14, ..NONE },
            Status::WriteFault,
            FIRST,
        ),
        (
            "read 2 and write 2",
            Faults {
                read: 2,
                write: 2,
                ..NONE
            },
            Status::WriteFault,
            b"overlaps".as_slice(),
        ),
        (
            "read 2 and write 3",
            Faults {
                read: 2,
                write: 3,
                ..NONE
            },
            Status::ReadFault,
            FIRST,
        ),
        (
            "fetch 5, read 1 and write 1",
            Faults {
                fetch: 5,
                read: 1,
                write: 1,
                ..NONE
            },
            Status::ReadFault,
            b"".as_slice(),
        ),
    ];
    for (name, faults, status, output) in rows {
        comes_to(&rt, TRIANGLE, TWICE, faults, status, output, name)?;
    }
    Ok(())
}

// The script is not touched, so that it would fail is not seen.
#[test]
fn a_refused_mesh_is_told_whatever_the_script_does(rt: HostRuntime) -> Result<(), Fail> {
    let rows = [
        ("no call", NONE, Status::MeshRefused, NO_VERTEX),
        ("read 1", read(1), Status::MeshRefused, NO_VERTEX),
        ("write 1", write(1), Status::WriteFault, b"".as_slice()),
        (
            "write 2",
            write(2),
            Status::WriteFault,
            b"mesh lin".as_slice(),
        ),
        ("fetch 5", fetch(5), Status::ReadFault, b"".as_slice()),
    ];
    for (name, faults, status, output) in rows {
        comes_to(&rt, FAULTY, TWICE, faults, status, output, name)?;
    }
    Ok(())
}

// A line of the triangle's text has eight bytes. It has too few words until its last one begins, and needs no line feed.
#[test]
fn a_mesh_that_ends_early_is_read_or_refused_line_by_line(rt: HostRuntime) -> Result<(), Fail> {
    for length in 0..=32_usize {
        let text = TRIANGLE.get(..length).unwrap_or(TRIANGLE);
        let within = length % 8;
        if 1 <= within && within <= 6 {
            let line = length / 8 + 1;
            let refusal = format!(in rt.alloc(); "mesh line {line}: too few words\n")?;
            comes_to(
                &rt,
                text,
                ONCE,
                NONE,
                Status::MeshRefused,
                refusal.as_bytes(),
                "a mesh cut in a line",
            )?;
        } else {
            let met = if length < 31 {
                b"overlaps 0\n".as_slice()
            } else {
                FIRST
            };
            comes_to(&rt, text, ONCE, NONE, Status::Done, met, "a mesh cut")?;
        }
    }
    Ok(())
}

#[test]
fn a_script_that_ends_in_a_line_is_answered(rt: HostRuntime) -> Result<(), Fail> {
    let wrong = b"line 1: wrong count of words\n".as_slice();
    let rows = [
        (b"box 4 4 0 9 9 0".as_slice(), Status::Done, FIRST),
        (b"box 4 4 0 9 9".as_slice(), Status::LinesRefused, wrong),
    ];
    for (script, status, output) in rows {
        comes_to(&rt, TRIANGLE, script, NONE, status, output, "a script cut")?;
    }
    Ok(())
}
