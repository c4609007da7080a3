//! Worked scripts, with what is written to the byte.

use super::devices::{THREE, TRIANGLE, in_pieces, many, words_come_to};
use crate::Status;
use std::test::Fail;

/// The words that name the mesh, by each of the two builds.
const BY_EITHER_BUILD: [&str; 2] = ["level.obj", "--build apetrei level.obj"];

/// The same at one grid step to a unit.
const AT_ONE_STEP: [&str; 2] = ["--unit 1 level.obj", "--unit 1 --build apetrei level.obj"];

/// A box that touches the triangle's box and not the triangle, as a script line.
const TOUCHING: &[u8] = b"box 4 4 0 9 9 0\n";

#[test]
fn worked_scripts_are_answered_byte_for_byte(rt: HostRuntime) -> Result<(), Fail> {
    let rows: [(&str, &[u8], &[u8], Status, &[u8]); 23] = [
        (
            "boxes touch where triangles do not",
            TRIANGLE,
            TOUCHING,
            Status::Done,
            b"overlaps 1: 1\n",
        ),
        (
            "a word that is not known",
            TRIANGLE,
            b"frob 1\n",
            Status::LinesRefused,
            b"line 1: unknown word\n",
        ),
        (
            "segments through a triangle, at its edge and at their ends",
            TRIANGLE,
            b"seg 1 1 -1 1 1 1\nseg 2 2 -1 2 2 3\nseg 1 1 -1 1 1 0\nseg 1 1 0 1 1 5\n",
            Status::Done,
            b"hit 1 1/2\nhit 1 1/4\nhit 1 1/1\nhit 1 0/1\n",
        ),
        (
            "segments past a triangle, and in its plane",
            TRIANGLE,
            b"seg 1 1 1 1 1 3\nseg 1 1 -3 1 1 -1\nseg -1 1 0 5 1 0\n",
            Status::Done,
            b"miss\nmiss\nmiss\n",
        ),
        (
            "of triangles struck at one fraction the lowest number",
            b"v 0 0 0\nv 4 0 0\nv 0 4 0\nf 1 2 3\nf 1 2 3\n",
            b"seg 1 1 -1 1 1 1\n",
            Status::Done,
            b"hit 1 1/2\n",
        ),
        (
            "an empty mesh has no hit and no group",
            b"",
            b"seg 0 0 0 1 1 1\nnode 0\ngroups\nwork\n",
            Status::LinesRefused,
            b"miss\nline 2: no such node\ngroups 0\nwork 0\n",
        ),
        (
            "groups in the order of their first triangles, each with its own count",
            b"g late\nv 0 0 0\nv 4 0 0\nv 0 4 0\ng zinc\nf 1 2 3\no\nf 1 2 3\ng zinc\nf 1 2 3 1\ng alum\nf 3 2 1\n",
            b"groups\n",
            Status::Done,
            b"groups 3: zinc 3 default 1 alum 1\n",
        ),
        (
            "a faulty line of the mesh",
            b"v 0 0 0\nv 4 0 0\nv 0 4 0\nvt 0 0\nf 1 2 \\\n9\nf 1\n",
            b"box 0 0 0 1 1 1\n",
            Status::MeshRefused,
            b"mesh line 5: no such vertex\n",
        ),
        (
            "a fan over four corners, of a mesh as exporters write it",
            b"# a tool\r\no Square\nv -0.5 -.5 0.0\nv +5e-1 -0.5 0\nv 0.5 0.5 0\nv -0.5 0.5 0\nvn 0 0 1\ng wall\nf 1//1 2//1 3//1 -1//-1\n",
            b"box 0.25 -0.25 0 0.25 -0.25 0\nbox -1 -1 0.0078125 1 1 1\n",
            Status::Done,
            b"overlaps 2: 1 2\noverlaps 0\n",
        ),
        (
            "a face before its vertices",
            b"f 1 2 3\nv 0 0 0\nv 4 0 0\nv 0 4 0\n",
            b"box 0 0 0 0 0 0\n",
            Status::Done,
            b"overlaps 1: 1\n",
        ),
        (
            "an empty mesh",
            b"",
            b"box 0 0 0 1 1 1\n",
            Status::Done,
            b"overlaps 0\n",
        ),
        ("an empty script", TRIANGLE, b"", Status::Done, b""),
        (
            "an unfinished last line",
            TRIANGLE,
            b"box 4 4 0 9 9 0",
            Status::Done,
            b"overlaps 1: 1\n",
        ),
        (
            "a refused line does not stop the script",
            TRIANGLE,
            b"frob\n\n# box\nbox 5 5 0 9 9 0\n",
            Status::LinesRefused,
            b"line 1: unknown word\noverlaps 0\n",
        ),
        (
            "corners are decimals, rounded to the nearest step, halves upward",
            TRIANGLE,
            b"box 4.0078125 0 0 5 1 1\nbox 4.0078124 0 0 5 1 1\n",
            Status::Done,
            b"overlaps 0\noverlaps 1: 1\n",
        ),
        (
            "corners in any order",
            TRIANGLE,
            b"box 9 9 0 4 4 0\n",
            Status::Done,
            b"overlaps 1: 1\n",
        ),
        (
            "a triangle named twice",
            b"v 0 0 0\nv 4 0 0\nv 0 4 0\nf 1 2 3\nf 1 2 3\n",
            b"box 4 4 0 9 9 0\nwork\n",
            Status::Done,
            b"overlaps 2: 1 2\nwork 3\n",
        ),
        (
            "one triangle is one box to test",
            TRIANGLE,
            b"work\nbox 4 4 0 9 9 0\nwork\n",
            Status::Done,
            b"work 0\noverlaps 1: 1\nwork 1\n",
        ),
        (
            "nodes of three triangles, in grid steps",
            THREE,
            b"node 0\nnode 1\nnode 2\n",
            Status::LinesRefused,
            b"node 0 0 2 1 0 0 0 13056 256 0\nnode 1 0 1 0 0 0 0 6656 256 0\nline 3: no such node\n",
        ),
        (
            "each reason to refuse a line",
            TRIANGLE,
            b"frob 1\nseg 1 2 3\nbox a 0 0 1 1 1\n# node\nbox 2147483648 0 0 0 0 0\nnode 0\nnode -1\nnode 1234567890123456789012345\nwork 1\nseg 0 0 0 0 0 2048\n",
            Status::LinesRefused,
            b"line 1: unknown word\nline 2: wrong count of words\nline 3: not a number\nline 5: out of range\nline 6: no such node\nline 7: not a number\nline 8: number too long\nline 9: wrong count of words\nline 10: out of range\n",
        ),
        (
            "a refused line leaves the work as it is",
            TRIANGLE,
            b"box 0 0 0 1 1 1\nbox 0 0 0 1 1\nnode 7\nwork\n",
            Status::LinesRefused,
            b"overlaps 1: 1\nline 2: wrong count of words\nline 3: no such node\nwork 1\n",
        ),
        (
            "an unfinished line of too few words",
            TRIANGLE,
            b"box 4 4 0 9 9",
            Status::LinesRefused,
            b"line 1: wrong count of words\n",
        ),
        (
            "a box far outside",
            TRIANGLE,
            b"box -9999999 0 0 9999999 0 0\n",
            Status::Done,
            b"overlaps 1: 1\n",
        ),
    ];
    for (name, mesh, script, status, output) in rows {
        for piece in [1, 7, 4096] {
            for words in BY_EITHER_BUILD {
                let devices = in_pieces(piece);
                words_come_to(&rt, words, mesh, script, &devices, status, output, name)?;
            }
        }
    }
    Ok(())
}

#[test]
fn the_script_has_the_unit_of_the_mesh(rt: HostRuntime) -> Result<(), Fail> {
    words_come_to(
        &rt,
        "--unit 1 level.obj",
        THREE,
        b"node 1\nbox 104.5 4 0 200 9 0\nseg 301 1 -1 301 1 1\n",
        &in_pieces(4096),
        Status::Done,
        b"node 1 0 1 0 0 0 0 104 4 0\noverlaps 1: 3\nmiss\n",
        "three triangles at one step to a unit",
    )
}

#[test]
fn cells_and_counts_are_those_of_the_last_build(rt: HostRuntime) -> Result<(), Fail> {
    let rows: [(&[u8], &[u8], Status, &[u8]); 4] = [
        (
            b"",
            b"cells 0\nstat\n",
            Status::Done,
            b"cells 0 0\ntriangles 0 nodes 0 height 0 cells 0\n",
        ),
        (
            b"v 0 0 0\r\nv 4 0 0\r\nv 0 \\\r\n4 0\r\n# end \\\r\nf 1 2 3\r\n",
            b"stat\ncells 18\n",
            Status::Done,
            b"triangles 1 nodes 0 height 0 cells 0\ncells 18 0\n",
        ),
        (
            b"v 0 0 0\nv 4 0 0\nv 0 4 0\nf 1 2 3\nf 1 2 3\n",
            b"cells 18\ncells 17\ncells 1\ncells 0\ncells 19\nstat\n",
            Status::LinesRefused,
            b"cells 18 1: 15762598695796784\ncells 17 1: 1970324836974598\ncells 1 1: 7\ncells 0 1: 0\nline 5: no such level\ntriangles 2 nodes 1 height 1 cells 19\n",
        ),
        (
            b"v 0 0 0\nv 4 0 0\nv 0 4 0\nf 1 2 3\nv -4 -4 -4\nf 4 4 4\n",
            b"cells 0\ncells 1\nmove 4 2 2 0\ncells 1\nrefit\nstat\nrebuild\ncells 1\nstat\n",
            Status::Done,
            b"cells 0 1: 0\ncells 1 0\nmoved 4\ncells 1 0\nrefitted\ntriangles 2 nodes 1 height 1 cells 1\nrebuilt\ncells 1 1: 7\ntriangles 2 nodes 1 height 1 cells 19\n",
        ),
    ];
    for (mesh, script, status, output) in rows {
        let devices = in_pieces(4096);
        for words in AT_ONE_STEP {
            words_come_to(&rt, words, mesh, script, &devices, status, output, "cells")?;
        }
    }
    Ok(())
}

#[test]
fn a_world_changes_between_the_lines_of_a_script(rt: HostRuntime) -> Result<(), Fail> {
    let long = many(rt.alloc(), b"x", 1_001)?;
    let mut refused = Vec::from_slice(
        rt.alloc(),
        b"frob 1\nseg 1 2 3\nbox a 0 0 1 1 1\n# moves\nbox 2147483648 0 0 0 0 0\nmove 4 0 0 0\nnode 0\nmove 1 131072 0 0\nnode 1234567890123456789012345\n",
    )?;
    refused.extend_from_slice(&long)?;
    let rows: [(&str, &[u8], &[u8], Status, &[u8]); 4] = [
        (
            "a triangle that moves away, is refitted, and is built anew",
            THREE,
            b"node 1\nseg 301 1 -1 301 1 1\nmove 1 300 0 0\nmove 2 304 0 0\nmove 3 300 4 0\nseg 301 1 -1 301 1 1\nrefit\nnode 1\nrebuild\nnode 1\nnode 0\n",
            Status::Done,
            b"node 1 0 1 0 0 0 0 104 4 0\nmiss\nmoved 1\nmoved 2\nmoved 3\nhit 1 1/2\nrefitted\nnode 1 0 1 0 100 0 0 304 4 0\nrebuilt\nnode 1 0 1 0 100 0 0 204 4 0\nnode 0 0 2 1 100 0 0 304 4 0\n",
        ),
        (
            "nothing to move in an empty mesh",
            b"",
            b"box 0 0 0 1 1 1\nseg 0 0 0 1 1 1\nnode 0\ngroups\nwork\nmove 1 0 0 0\nrefit\nrebuild\n",
            Status::LinesRefused,
            b"overlaps 0\nmiss\nline 3: no such node\ngroups 0\nwork 0\nline 6: no such vertex\nrefitted\nrebuilt\n",
        ),
        (
            "each reason to refuse a line, that of a vertex among them",
            TRIANGLE,
            &refused,
            Status::LinesRefused,
            b"line 1: unknown word\nline 2: wrong count of words\nline 3: not a number\nline 5: out of range\nline 6: no such vertex\nline 7: no such node\nline 8: out of range\nline 9: number too long\nline 10: line too long\n",
        ),
        (
            "the last work stays through moves and builds",
            TRIANGLE,
            b"box 4 4 0 9 9 0\nmove 01 -9 0 0\nwork\nrefit\nrebuild\nwork\n",
            Status::Done,
            b"overlaps 1: 1\nmoved 1\nwork 1\nrefitted\nrebuilt\nwork 1\n",
        ),
    ];
    for (name, mesh, script, status, output) in rows {
        for piece in [7, 4096] {
            for words in AT_ONE_STEP {
                let devices = in_pieces(piece);
                words_come_to(&rt, words, mesh, script, &devices, status, output, name)?;
            }
        }
    }
    Ok(())
}
