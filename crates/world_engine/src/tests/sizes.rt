//! The limits of a mesh and of a script.

ghost use Rattle.std.specs.Prelude.{◌≤◌, length};

use super::devices::{comes_to, in_pieces, many};
use crate::{Status, run};
use outside::{Failed, MemSink, OpenGate, Shelf, Source};
use std::process::Abort;
use std::test::Fail;
use std::thread::Threads;

#[test]
fn a_mesh_has_its_limits_of_vertices_and_triangles(rt: HostRuntime) -> Result<(), Fail> {
    let alloc = rt.alloc();
    let devices = in_pieces(65_536);
    let vertices = many(alloc, b"v 0 0 0\n", 1_048_577)?;
    let refused = b"mesh line 1048577: too many vertices\n";
    comes_to(
        &rt,
        &vertices,
        b"",
        &devices,
        Status::MeshRefused,
        refused,
        "vertices",
    )?;

    let mut fan = Vec::from_slice(alloc, b"v 0 0 0\nf")?;
    fan.extend_from_slice(&many(alloc, b" 1", 1_048_578)?)?;
    comes_to(
        &rt,
        &fan,
        b"work\n",
        &devices,
        Status::Done,
        b"work 0\n",
        "triangles",
    )?;
    fan.extend_from_slice(b" 1")?;
    let refused = b"mesh line 2: too many triangles\n";
    comes_to(
        &rt,
        &fan,
        b"",
        &devices,
        Status::MeshRefused,
        refused,
        "one triangle more",
    )
}

/// A file or a script of one byte many times, made as it is asked for.
#[derive(Drop)]
struct Repeated {
    byte: u8,
    left: u64,
}

/// Fills the front of a buffer with as many bytes as are left.
fn fill(buf: &mut [u8], byte: u8, left: u64) -> usize
    ensures within { result ≤ length buf.new }
    ensures few { result ≤ left }
{
    let count = left.min(buf.len() as u64) as usize;
    for b in buf[..count].iter_mut() {
        *b = byte;
    }
    count
}

impl Shelf for Repeated {
    ghost use Rattle.std.specs.Prelude.{None};

    ghost holds = { λ _. None };

    ghost faults = { λ _. 0 };

    fn fetch(&mut self, _name: &str, at: u64, buf: &mut [u8]) -> Result<usize, Failed> {
        Ok(fill(buf, self.byte, self.left.saturating_sub(at)))
    }
}

impl Source for Repeated {
    ghost use Rattle.std.specs.Prelude.{None};

    ghost left = { λ _. None };

    ghost faults = { λ _. 0 };

    fn read(&mut self, buf: &mut [u8]) -> Result<usize, Failed> {
        let count = fill(buf, self.byte, self.left);
        self.left -= count as u64;
        Ok(count)
    }
}

/// Runs over a mesh and a script of one byte many times, and compares status, output and what is left of the script.
fn many_come_to<R: Threads + Sync + Abort + AllocGlobal>(
    rt: &R,
    mesh: u64,
    script: u64,
    status: Status,
    output: &[u8],
    left: u64,
    name: &str,
) -> Result<(), Fail> {
    let alloc = rt.alloc();
    let words = vec![in alloc; String::from_str(alloc, "level.obj")?]?;
    let mut shelf = Repeated {
        byte: b'#',
        left: mesh,
    };
    let mut source = Repeated {
        byte: b'#',
        left: script,
    };
    let mut sink = MemSink::new(alloc, 4096, 4096, Vec::new(alloc)).map_err(
        |_| "no room for the output",
    )?;
    let got = run(
        rt,
        alloc,
        &words,
        &mut shelf,
        &mut source,
        &mut sink,
        &OpenGate,
    );
    assert!(rt; got == status, "status of {name}");
    assert!(rt; sink.bytes() == output, "output of {name}");
    assert_eq!(rt; source.left, left, "rest of {name}");
    Ok(())
}

#[test]
fn mesh_and_script_have_their_limits_to_the_byte(rt: HostRuntime) -> Result<(), Fail> {
    many_come_to(
        &rt,
        268_435_457,
        9,
        Status::MeshRefused,
        b"mesh too long\n",
        9,
        "a mesh one byte too long",
    )?;
    many_come_to(
        &rt,
        268_435_456,
        0,
        Status::Done,
        b"",
        0,
        "a mesh at its limit",
    )?;
    many_come_to(
        &rt,
        0,
        16_777_300,
        Status::LinesRefused,
        b"script too long\n",
        83,
        "a script too long",
    )?;
    many_come_to(
        &rt,
        0,
        1_001,
        Status::LinesRefused,
        b"line 1: line too long\n",
        0,
        "a line one byte too long",
    )?;
    many_come_to(
        &rt,
        0,
        1_000,
        Status::Done,
        b"",
        0,
        "a comment at the limit of a line",
    )?;
    many_come_to(
        &rt,
        0,
        16_777_216,
        Status::LinesRefused,
        b"line 1: line too long\n",
        0,
        "a script at its limit",
    )?;
    Ok(())
}
