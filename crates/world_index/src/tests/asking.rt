//! A world that is asked without a script.

ghost use Rattle.query_script.specs.Asks.{IsAskable};

use crate::{Build, World};
use obj_text::read_mesh;
use outside::{Memory, OpenGate};
use query_script::{Ask, Reply, read_line, reply_text};
use std::process::Abort;
use std::test::Fail;
use std::thread::Threads;

/// Three triangles of four units a side in a row, a hundred units apart, as a mesh text.
const THREE: &[u8] =
    b"v 0 0 0\nv 4 0 0\nv 0 4 0\nv 100 0 0\nv 104 0 0\nv 100 4 0\nv 200 0 0\nv 204 0 0\nv 200 4 0\nf 1 2 3\nf 4 5 6\nf 7 8 9\n";

/// Asks the world; where memory is wanting it asks once more, since the world is then as before.
pub fn asked<R: Threads + Sync + AllocGlobal>(
    rt: &R,
    world: &mut World,
    ask: &Ask,
) -> Result<Reply, Memory>
    requires { IsAskable ask.now }
{
    match world.answer(rt, rt.alloc(), &OpenGate, ask) {
        Ok(reply) => Ok(reply),
        Err(Memory) => world.answer(rt, rt.alloc(), &OpenGate, ask),
    }
}

/// Asks the world what a line at one step to a unit asks, and compares the text of its reply.
fn answers<R: Threads + Sync + Abort + AllocGlobal>(
    rt: &R,
    world: &mut World,
    line: &str,
    text: &[u8],
) -> Result<(), Fail> {
    let alloc = rt.alloc();
    let Ok(ask) = read_line(line.as_bytes(), 1) else {
        panic!(rt; "{line} is refused");
    };
    let reply = asked(rt, world, &ask)?;
    let got = match reply_text(alloc, 1, &reply) {
        Ok(got) => got,
        Err(Memory) => reply_text(alloc, 1, &reply)?,
    };
    assert!(rt; got.as_slice() == text, "{line}");
    Ok(())
}

#[test]
fn a_world_is_asked_without_a_script(rt: HostRuntime) -> Result<(), Fail> {
    let alloc = rt.alloc();
    let mesh = read_mesh(alloc, THREE, 1).map_err(|_| "the mesh is refused")?;
    let mut world = World::new(&rt, alloc, mesh, Build::Karras, 64, &OpenGate).map_err(
        |_| "no memory for the world",
    )?;
    let rows: [(&str, &[u8]); 17] = [
        ("node 1", b"node 1 0 1 0 0 0 0 104 4 0\n"),
        ("box 104 4 0 200 9 0", b"overlaps 2: 2 3\n"),
        ("node 2", b"line 1: no such node\n"),
        ("node 1099511627776", b"line 1: no such node\n"),
        ("work", b"work 5\n"),
        ("seg 101 1 -1 101 1 1", b"hit 2 1/2\n"),
        ("seg 301 1 -1 301 1 1", b"miss\n"),
        ("groups", b"groups 1: default 3\n"),
        ("# nothing", b""),
        ("move 0 0 0 0", b"line 1: no such vertex\n"),
        ("move 10 0 0 0", b"line 1: no such vertex\n"),
        ("move 3 0 8 0", b"moved 3\n"),
        ("box 0 8 0 0 8 0", b"overlaps 1: 1\n"),
        ("work", b"work 5\n"),
        ("refit", b"refitted\n"),
        ("node 1", b"node 1 0 1 0 0 0 0 104 8 0\n"),
        ("rebuild", b"rebuilt\n"),
    ];
    for (line, text) in rows {
        answers(&rt, &mut world, line, text)?;
    }
    Ok(())
}
