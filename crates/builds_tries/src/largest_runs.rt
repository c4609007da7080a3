//! Runs over as many triangles as a mesh may have, in the deepest tree that codes allow. And a script of one byte too
//! many.

use crate::words::words_of;
use outside::{MemShelf, MemSink, MemSource, Name, OpenGate};
use std::alloc::{AllocError, Global};
use std::process::Abort;
use std::rt::HostRuntime;
use std::test::Fail;
use std::thread::Threads;
use world_engine::{Status, run};

/// How many triangles a mesh may have.
const MOST: usize = 1_048_576;

/// How many bytes a script may have.
const SCRIPT_MOST: usize = 16_777_216;

/// How many bits a code has.
const BITS: u32 = 54;

/// Room for the longest output of these runs, the numbers of all triangles.
const ROOM: usize = 16_000_000;

/// A text many times.
fn many(alloc: Global, text: &[u8], count: usize) -> Result<Vec<u8>, AllocError> {
    let mut all = Vec::new(alloc);
    for _ in 0..count {
        all.extend_from_slice(text)?;
    }
    Ok(all)
}

/// The reply to a box that meets all triangles.
fn all_numbers(alloc: Global) -> Result<Vec<u8>, AllocError> {
    let mut reply = Vec::from_slice(alloc, b"overlaps 1048576:")?;
    for number in 1..=MOST {
        reply.extend_from_slice(format!(in alloc; " {number}")?.as_bytes())?;
    }
    reply.push(b'\n')?;
    Ok(reply)
}

/// Runs by both builds at one step to a unit, and compares status and output.
fn comes_to<R: Threads + Sync + Abort + AllocGlobal>(
    rt: &R,
    mesh: &[u8],
    script: &[u8],
    status: Status,
    output: &[u8],
    name: &str,
) -> Result<(), Fail> {
    let alloc = rt.alloc();
    for line in ["--unit 1 level.obj", "--unit 1 level.obj --build apetrei"] {
        let words = words_of(alloc, line)?;
        let level = Name::new(b"level.obj".to_vec(alloc)?);
        let mut shelf = MemShelf::new(level, mesh.to_vec(alloc)?, 65_536, Vec::new(alloc));
        let mut source = MemSource::new(script.to_vec(alloc)?, 4096, Vec::new(alloc));
        let mut sink = MemSink::new(alloc, ROOM, ROOM, Vec::new(alloc)).map_err(
            |_| "no room for the output",
        )?;
        let got = run(
            rt,
            alloc,
            &words,
            &mut shelf,
            &mut source,
            &mut sink,
            &OpenGate,
        );
        assert!(rt; got == status, "status of {name}, {line}");
        assert!(rt; sink.bytes() == output, "output of {name}, {line}");
    }
    Ok(())
}

/// The vertex whose code has one bit set, as a line. Bits go round the axes: the lowest is one of z, the next of y, the
/// next of x.
fn vertex_of_bit(alloc: Global, bit: u32) -> Result<String, AllocError> {
    let low: i32 = -131_072;
    let high = low.wrapping_add(1_i32.wrapping_shl(bit / 3));
    match bit % 3 {
        0 => format!(in alloc; "v {low} {low} {high}\n"),
        1 => format!(in alloc; "v {low} {high} {low}\n"),
        _ => format!(in alloc; "v {high} {low} {low}\n"),
    }
}

// One triangle for each bit of a code, each at one point, and all others in the lowest cell of the world.
#[test]
fn the_deepest_tree_is_met_by_box_and_segment(rt: HostRuntime) -> Result<(), Fail> {
    let alloc = rt.alloc();
    let mut mesh = Vec::from_slice(
        alloc,
        b"v -131072 -131072 -131072\nv -131071 -131072 -131072\nv -131072 -131071 -131072\n",
    )?;
    mesh.extend_from_slice(&many(alloc, b"f 1 2 3\n", MOST - 54)?)?;
    for bit in 0..BITS {
        mesh.extend_from_slice(vertex_of_bit(alloc, bit)?.as_bytes())?;
    }
    for bit in 0..BITS {
        let number = bit + 4;
        mesh.extend_from_slice(format!(in alloc; "f {number} {number} {number}\n")?.as_bytes())?;
    }
    let mut output = Vec::from_slice(
        alloc,
        b"triangles 1048576 nodes 1048575 height 74 cells 19\nhit 1 1/1\n",
    )?;
    output.extend_from_slice(&all_numbers(alloc)?)?;
    output.extend_from_slice(b"work 2097151\ncells 0 1: 0\n")?;
    comes_to(
        &rt,
        &mesh,
        b"stat\nseg 131071 131071 131071 -131072 -131072 -131072\nbox -131072 -131072 -131072 131071 131071 131071\nwork\ncells 0\n",
        Status::Done,
        &output,
        "the deepest tree",
    )
}

#[test]
fn a_script_of_one_byte_too_many_is_told(rt: HostRuntime) -> Result<(), Fail> {
    let alloc = rt.alloc();
    let rows = [
        (SCRIPT_MOST, b"line 1: line too long\n".as_slice()),
        (SCRIPT_MOST + 1, b"script too long\n".as_slice()),
    ];
    for (length, output) in rows {
        let script = vec![in alloc; b'#'; length]?;
        comes_to(
            &rt,
            b"",
            &script,
            Status::LinesRefused,
            output,
            "a script of one comment",
        )?;
    }
    Ok(())
}
