//! Runs over devices in memory that give and take so many bytes at a time, and fail at a chosen call.

use crate::{Status, run};
use outside::{MemShelf, MemSink, MemSource, Name, OpenGate};
use std::alloc::{AllocError, Global};
use std::process::Abort;
use std::test::Fail;
use std::thread::Threads;

/// A triangle of four units a side, as a mesh text of 32 bytes.
pub const TRIANGLE: &[u8] = b"v 0 0 0\nv 4 0 0\nv 0 4 0\nf 1 2 3\n";

/// Three such triangles in a row, a hundred units apart.
pub const THREE: &[u8] =
    b"v 0 0 0\nv 4 0 0\nv 0 4 0\nv 100 0 0\nv 104 0 0\nv 100 4 0\nv 200 0 0\nv 204 0 0\nv 200 4 0\nf 1 2 3\nf 4 5 6\nf 7 8 9\n";

/// How a run's devices give and take: how many bytes at a time, and at which calls they fail.
#[derive(Clone, Copy)]
pub struct Devices {
    pub mesh_piece: usize,
    pub mesh_fail: u64,
    pub script_piece: usize,
    pub script_fail: u64,
    pub out_piece: usize,
    pub out_fail: u64,
}

/// Devices that move up to so many bytes at a time and do not fail.
pub fn in_pieces(piece: usize) -> Devices {
    Devices {
        mesh_piece: piece,
        mesh_fail: 0,
        script_piece: piece,
        script_fail: 0,
        out_piece: piece,
        out_fail: 0,
    }
}

/// Runs the word `level.obj` over a shelf that holds the mesh under that name, and compares status and output.
pub fn comes_to<R: Threads + Sync + Abort + AllocGlobal>(
    rt: &R,
    mesh: &[u8],
    script: &[u8],
    devices: &Devices,
    status: Status,
    output: &[u8],
    name: &str,
) -> Result<(), Fail> {
    words_come_to(rt, "level.obj", mesh, script, devices, status, output, name)
}

/// Runs the words of a line over a shelf that holds the mesh as `level.obj`, and compares status and output.
pub fn words_come_to<R: Threads + Sync + Abort + AllocGlobal>(
    rt: &R,
    line: &str,
    mesh: &[u8],
    script: &[u8],
    devices: &Devices,
    status: Status,
    output: &[u8],
    name: &str,
) -> Result<(), Fail> {
    let alloc = rt.alloc();
    let mut words = Vec::new(alloc);
    for word in line.split(' ') {
        words.push(String::from_str(alloc, word)?)?;
    }
    let mut shelf = MemShelf::new(
        Name::new(b"level.obj".to_vec(alloc)?),
        mesh.to_vec(alloc)?,
        devices.mesh_piece.max(1),
        vec![in alloc; devices.mesh_fail]?,
    );
    let mut source = MemSource::new(
        script.to_vec(alloc)?,
        devices.script_piece.max(1),
        vec![in alloc; devices.script_fail]?,
    );
    let mut sink = MemSink::new(
        alloc,
        4096,
        devices.out_piece.max(1),
        vec![in alloc; devices.out_fail]?,
    )
    .map_err(|_| "no room for the output")?;
    let got = run(
        rt,
        alloc,
        &words,
        &mut shelf,
        &mut source,
        &mut sink,
        &OpenGate,
    );
    assert!(rt; got == status, "status of {name}");
    assert!(rt; sink.bytes() == output, "output of {name}");
    Ok(())
}

/// A text many times.
pub fn many(alloc: Global, text: &[u8], count: usize) -> Result<Vec<u8>, AllocError> {
    let mut all = Vec::new(alloc);
    for _ in 0..count {
        all.extend_from_slice(text)?;
    }
    Ok(all)
}
