//! Worked lines and replies, and each public call once.

ghost use Rattle.fixed_box.specs.World.{InWorld};

use super::*;
use fixed_box::{Box3, Point, Tri};
use obj_text::Why;
use octree_cells::{Cell, CellList};
use outside::Name;
use radix_tree::Node;
use segment_hit::hit;
use std::alloc::Global;
use std::process::Abort;
use std::test::Fail;
use traversal::Numbers;

const TRIANGLE: Tri = Tri {
    a: Point { x: 0, y: 0, z: 0 },
    b: Point { x: 4, y: 0, z: 0 },
    c: Point { x: 0, y: 4, z: 0 },
};

/// A point under the triangle.
fn below() -> Point
    ensures { InWorld result }
{
    Point { x: 1, y: 1, z: -1 }
}

/// The point as far above it.
fn above() -> Point
    ensures { InWorld result }
{
    Point { x: 1, y: 1, z: 1 }
}

fn point(x: i32, y: i32, z: i32) -> Point {
    Point { x, y, z }
}

fn cell(prefix: u64, first: u32, last: u32) -> Cell {
    Cell {
        level: 1,
        prefix,
        first,
        last,
    }
}

fn box_between(lo: Point, hi: Point) -> Ask {
    let around = Box3::of_corners(lo, hi);
    Ask::Overlap { around }
}

#[test]
fn the_first_thing_wrong_from_left_to_right_is_the_fault(rt: HostRuntime) {
    let rows: [(&str, u32, LineFault); 36] = [
        ("frob 1", 1, LineFault::UnknownWord),
        ("frob a", 1, LineFault::UnknownWord),
        ("boxes 0 0 0 0 0 0", 1, LineFault::UnknownWord),
        ("Work", 1, LineFault::UnknownWord),
        ("Seg 1 1 -1 1 1 1", 1, LineFault::UnknownWord),
        ("groups 1", 1, LineFault::WrongCount),
        ("seg 1 2 3", 1, LineFault::WrongCount),
        ("seg 0 0 131072 a 0 0", 1, LineFault::OutOfRange),
        ("seg 0 0 0 0 -131073 0", 1, LineFault::OutOfRange),
        ("box a 0 0 0 0", 1, LineFault::WrongCount),
        ("box 0 0 0 0 0 0 0", 1, LineFault::WrongCount),
        ("node", 1, LineFault::WrongCount),
        ("node 1 2", 1, LineFault::WrongCount),
        ("work #", 1, LineFault::WrongCount),
        ("cells", 1, LineFault::WrongCount),
        ("stat 0", 1, LineFault::WrongCount),
        ("cells 1.5", 1, LineFault::NotANumber),
        ("box a 0 0 1 1 1", 1, LineFault::NotANumber),
        ("box . 0 0 0 0 0", 1, LineFault::NotANumber),
        ("box 0 0 0 0 0 1e", 1, LineFault::NotANumber),
        ("box 2147483648 0 0 0 0 0", 1, LineFault::OutOfRange),
        ("box 0 0 0 0 0 -2147483647.50001", 1, LineFault::OutOfRange),
        (
            "box 0 0 1e99999999999999999999 0 0 0",
            1,
            LineFault::OutOfRange,
        ),
        (
            "box 0 1234567890123456789012345 0 0 0 0",
            1,
            LineFault::NumberTooLong,
        ),
        ("box 0 0 0 0 0 -32768", 65536, LineFault::OutOfRange),
        ("box 9999999 a 0 0 0 0", 65536, LineFault::OutOfRange),
        (
            "box 1234567890123456789012345 a 0 0 0 0",
            1,
            LineFault::NumberTooLong,
        ),
        ("box a 9999999 0 0 0 0", 65536, LineFault::NotANumber),
        ("move 1 2 3", 1, LineFault::WrongCount),
        ("refit 1", 1, LineFault::WrongCount),
        ("rebuild 1", 1, LineFault::WrongCount),
        ("move 1.0 x 0 0", 1, LineFault::NotANumber),
        ("move 1 131072 0 x", 1, LineFault::OutOfRange),
        (
            "move 1234567890123456789012345 131072 0 0",
            1,
            LineFault::NumberTooLong,
        ),
        ("node -1", 1, LineFault::NotANumber),
        (
            "node 1234567890123456789012345",
            1,
            LineFault::NumberTooLong,
        ),
    ];
    for (line, unit, fault) in rows {
        assert_eq!(rt; read_line(line.as_bytes(), unit), Err(fault), "{line}");
    }
}

#[test]
fn blank_lines_and_comments_ask_nothing(rt: HostRuntime) {
    for line in ["", " ", " \t\x0b\x0c\r ", "#", "# box", "\t#frob 1 2"] {
        assert_eq!(rt; read_line(line.as_bytes(), 1), Ok(Ask::Nothing), "{line:?}");
    }
}

#[test]
fn words_and_numbers_become_asks(rt: HostRuntime) {
    let rows: [(&str, u32, Ask); 14] = [
        ("work", 1, Ask::Work),
        ("\twork\r", 1, Ask::Work),
        ("groups", 1, Ask::Groups),
        ("cells 018", 1, Ask::Cells { level: 18 }),
        ("stat", 1, Ask::Stat),
        (
            "seg -2048 1.5 -0.0078125 2047.99 0 0",
            64,
            Ask::Seg {
                p: point(-131072, 96, 0),
                q: point(131071, 0, 0),
            },
        ),
        (
            "move 007 -2048 0.5 1e0",
            64,
            Ask::Move {
                vertex: 7,
                to: point(-131072, 32, 64),
            },
        ),
        ("refit", 1, Ask::Refit),
        ("rebuild", 1, Ask::Rebuild),
        ("node 007", 1, Ask::NodeOf { number: 7 }),
        (
            "node 999999999999999999999999",
            1,
            Ask::NodeOf { number: 1 << 40 },
        ),
        (
            "box 4 4 0 9 9 0",
            64,
            box_between(point(256, 256, 0), point(576, 576, 0)),
        ),
        (
            "box 9 -4 0\x0b4 9\t-0007",
            1,
            box_between(point(4, -4, -7), point(9, 9, 0)),
        ),
        (
            "box -32767 0 0 32767 0 0",
            65536,
            box_between(point(-2_147_418_112, 0, 0), point(2_147_418_112, 0, 0)),
        ),
    ];
    for (line, unit, ask) in rows {
        assert_eq!(rt; read_line(line.as_bytes(), unit), Ok(ask), "{line}");
    }
}

#[test]
fn a_line_of_more_than_a_thousand_bytes_is_too_long(rt: HostRuntime) -> Result<(), Fail> {
    let letters = vec![in rt.alloc(); b'x'; 1001]?;
    assert_eq!(rt; letters.len(), 1001);
    assert_eq!(rt; read_line(&letters, 1), Err(LineFault::LineTooLong));
    assert_eq!(rt; read_line(&letters[..1000], 1), Err(LineFault::UnknownWord));
    let comment = vec![in rt.alloc(); b'#'; 1001]?;
    assert_eq!(rt; comment.len(), 1001);
    assert_eq!(rt; read_line(&comment, 1), Err(LineFault::LineTooLong));
    assert_eq!(rt; read_line(&comment[..1000], 1), Ok(Ask::Nothing));
    Ok(())
}

/// Compares the text of a reply to line 12.
fn is_written(rt: &impl Abort, alloc: Global, reply: &Reply, text: &str) {
    let written = reply_text(alloc, 12, reply).expect(rt, text);
    assert_eq!(rt; written.as_slice(), text.as_bytes(), "{text}");
}

#[test]
fn each_reply_is_one_line_of_words(rt: HostRuntime) -> Result<(), Fail> {
    let alloc = rt.alloc();
    is_written(&rt, alloc, &Reply::Nothing, "");
    is_written(&rt, alloc, &Reply::WorkIs(0), "work 0\n");
    is_written(
        &rt,
        alloc,
        &Reply::WorkIs(u64::MAX),
        "work 18446744073709551615\n",
    );

    let none = Numbers::new(Vec::new(alloc));
    is_written(&rt, alloc, &Reply::Overlaps(none), "overlaps 0\n");
    let one = Numbers::new(Vec::from_slice(alloc, &[1])?);
    is_written(&rt, alloc, &Reply::Overlaps(one), "overlaps 1: 1\n");
    let three = Numbers::new(Vec::from_slice(alloc, &[3, 14, 1_048_576])?);
    is_written(
        &rt,
        alloc,
        &Reply::Overlaps(three),
        "overlaps 3: 3 14 1048576\n",
    );

    let none = CellList::new(Vec::new(alloc));
    let told = Reply::CellsAre {
        level: 0,
        list: none,
    };
    is_written(&rt, alloc, &told, "cells 0 0\n");
    let octants = [cell(0, 0, 3), cell(7, 4, 5)];
    let two = CellList::new(Vec::from_slice(alloc, &octants)?);
    let told = Reply::CellsAre {
        level: 1,
        list: two,
    };
    is_written(&rt, alloc, &told, "cells 1 2: 0 7\n");
    let told = Reply::StatIs {
        triangles: 4,
        nodes: 3,
        height: 2,
        cells: 28,
    };
    is_written(&rt, alloc, &told, "triangles 4 nodes 3 height 2 cells 28\n");

    let first = GroupCount {
        name: Name::new(Vec::from_slice(alloc, b"Floor")?),
        count: 2,
    };
    let second = GroupCount {
        name: Name::new(Vec::from_slice(alloc, b"Ramp")?),
        count: 0,
    };
    let mut groups = Vec::new(alloc);
    is_written(
        &rt,
        alloc,
        &Reply::GroupsAre(GroupList::new(Vec::new(alloc))),
        "groups 0\n",
    );
    groups.push(first).map_err(|_| "no room for a group")?;
    groups.push(second).map_err(|_| "no room for a group")?;
    is_written(
        &rt,
        alloc,
        &Reply::GroupsAre(GroupList::new(groups)),
        "groups 2: Floor 2 Ramp 0\n",
    );

    let struck = hit(below(), above(), &TRIANGLE).ok_or("no hit")?;
    let told = Reply::Hit {
        tri: 7,
        at: HitFraction::new(struck),
    };
    is_written(&rt, alloc, &told, "hit 7 1/2\n");
    is_written(&rt, alloc, &Reply::Miss, "miss\n");
    is_written(&rt, alloc, &Reply::Moved(7), "moved 7\n");
    is_written(&rt, alloc, &Reply::Refitted, "refitted\n");
    is_written(&rt, alloc, &Reply::Rebuilt, "rebuilt\n");

    let node = Node {
        first: 0,
        last: 11,
        split: 7,
        fit: Box3::of_corners(point(-131072, -1, 0), point(64, 0, i32::MAX)),
    };
    let told = Reply::NodeIs { number: 5, node };
    is_written(
        &rt,
        alloc,
        &told,
        "node 5 0 11 7 -131072 -1 0 64 0 2147483647\n",
    );
    Ok(())
}

#[test]
fn a_refusal_names_its_line_and_reason(rt: HostRuntime) {
    let rows: [(LineFault, &str); 9] = [
        (LineFault::UnknownWord, "line 12: unknown word\n"),
        (LineFault::WrongCount, "line 12: wrong count of words\n"),
        (LineFault::NotANumber, "line 12: not a number\n"),
        (LineFault::NumberTooLong, "line 12: number too long\n"),
        (LineFault::OutOfRange, "line 12: out of range\n"),
        (LineFault::NoSuchVertex, "line 12: no such vertex\n"),
        (LineFault::NoSuchNode, "line 12: no such node\n"),
        (LineFault::NoSuchLevel, "line 12: no such level\n"),
        (LineFault::LineTooLong, "line 12: line too long\n"),
    ];
    for (fault, text) in rows {
        let reply = Reply::Refused(fault);
        assert!(rt; is_refused(&reply), "{text}");
        is_written(&rt, rt.alloc(), &reply, text);
    }
    assert!(rt; !is_refused(&Reply::WorkIs(1)));
    assert_eq!(rt; fault_text(LineFault::NoSuchNode), "no such node");
}

#[test]
fn a_refused_mesh_line_has_its_reason(rt: HostRuntime) {
    let rows: [(Why, &str); 8] = [
        (Why::NotANumber, "not a number"),
        (Why::NumberTooLong, "number too long"),
        (Why::Outside, "outside the world"),
        (Why::TooFewWords, "too few words"),
        (Why::BadReference, "bad reference"),
        (Why::NoSuchVertex, "no such vertex"),
        (Why::TooManyVertices, "too many vertices"),
        (Why::TooManyTriangles, "too many triangles"),
    ];
    for (why, text) in rows {
        assert_eq!(rt; why_text(why), text);
    }
}
