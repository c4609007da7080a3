//! Worked texts, one for each line of the table of `docs/OBJ.md`, and each public call once.

use super::*;
use fixed_box::{Point, UNIT_MAX};
use indexmap::IndexSet;
use outside::{Memory, Name};
use std::alloc::{AllocError, Global};
use std::process::Abort;
use std::test::Fail;
use std::thread::Threads;

/// `read_mesh`, where it may be called.
fn read_text(rt: &impl Abort, alloc: Global, text: &[u8], unit: u32) -> Result<Mesh, MeshFault> {
    assert!(rt; text.len() <= MOST_BYTES, "the text is too long");
    assert!(rt; 1 <= unit && unit <= UNIT_MAX, "no such unit");
    read_mesh(alloc, text, unit)
}

/// A mesh, as text: its points, then each face with its group's name.
fn mesh_shown(rt: &impl Abort, alloc: Global, mesh: &Mesh) -> Result<String, AllocError> {
    let mut shown = String::new(alloc);
    for point in mesh.points() {
        let one = format!(in alloc; "({} {} {})", point.x, point.y, point.z)?;
        shown.push_str(one.as_str())?;
    }
    for (face, group) in mesh.faces().iter().zip(mesh.group_of()) {
        let name = mesh
            .groups()
            .get_index(*group as usize)
            .expect(rt, "a group");
        let name = std::str::from_utf8(name.bytes())
            .ok()
            .expect(rt, "a name in UTF-8");
        let one = format!(in alloc; " {name}[{} {} {}]", face.a, face.b, face.c)?;
        shown.push_str(one.as_str())?;
    }
    Ok(shown)
}

/// What a text gives, as text: its mesh, or its fault.
fn shown(rt: &impl Abort, alloc: Global, text: &[u8], unit: u32) -> Result<String, AllocError> {
    match read_text(rt, alloc, text, unit) {
        Ok(mesh) => mesh_shown(rt, alloc, &mesh),
        Err(fault) => format!(in alloc; "{fault}"),
    }
}

fn all_shown(
    rt: &impl Abort,
    alloc: Global,
    cases: &[(&[u8], u32, &str)],
) -> Result<(), AllocError> {
    for (at, (text, unit, want)) in cases.iter().enumerate() {
        let shown = shown(rt, alloc, text, *unit)?;
        assert_eq!(rt; shown.as_str(), *want, "case {at}");
    }
    Ok(())
}

#[test]
fn each_form_of_line_is_read_or_passed_over(rt: HostRuntime) -> Result<(), Fail> {
    let cases: [(&[u8], u32, &str); 27] = [
        (b"", 65536, ""),
        (b"# v 1 2 3\n\n \t\x0b\x0c\r\nv 1 2 3", 1, "(1 2 3)"),
        (b"v 1 2 3#4\n", 1, "(1 2 3)"),
        (b"v 0 1 # 2 \\\nv 4 5 6", 1, "mesh line 1: too few words"),
        (b"v 1 \\\n2 \\\r\n 3\nv 4 5 6\\", 1, "(1 2 3)(4 5 6)"),
        (
            b"v 1 2 3 \\ 4\n\\\n\\\nv 1 2 \\\\\n7",
            1,
            "mesh line 2: not a number",
        ),
        (b"v 6.5 -.5 +1e2 255 128 0", 64, "(416 -32 6400)"),
        (b"v 6.5 -0.5 0.4999", 1, "(7 0 0)"),
        (
            b"f 1 2 3\nv 0 0 0\nv 1 1 1\nv 2 2 2",
            1,
            "(0 0 0)(1 1 1)(2 2 2) default[0 1 2]",
        ),
        (
            b"v 0 0 0\nv 1 0 0\nf -1 -2 -1\nv 2 0 0\n",
            1,
            "(0 0 0)(1 0 0)(2 0 0) default[1 0 1]",
        ),
        (b"v 0 0 0\nf 1/2 1//3 1/2/3", 1, "(0 0 0) default[0 0 0]"),
        (b"v 0 0 0\nf 1/ 1// +1/-2/+3", 1, "(0 0 0) default[0 0 0]"),
        (
            b"v 0 0 0\nf 00000000000000000000001 1 1",
            1,
            "(0 0 0) default[0 0 0]",
        ),
        (
            b"v 0 0 0\nv 1 0 0\nv 2 0 0\nf 1 2 3 2 1",
            1,
            "(0 0 0)(1 0 0)(2 0 0) default[0 1 2] default[0 2 1] default[0 1 0]",
        ),
        (
            b"v 0 0 0\ng b c\nf 1 1 1\no a\nf 1 1 1 1\ng b\nf 1 1 1\ng\nf 1 1 1\ng none",
            1,
            "(0 0 0) b[0 0 0] a[0 0 0] a[0 0 0] b[0 0 0] default[0 0 0]",
        ),
        (b"v 0 0 0\ng \xc3\xa4#\nf 1 1 1", 1, "(0 0 0) \u{e4}[0 0 0]"),
        (
            b"vt 1\nvn \xff\x00\nV 1 2\nmtllib a b\ns off\nF 1\nv 1 2 3",
            1,
            "(1 2 3)",
        ),
        (b"g \\\nv\nv 0 0 0\nf 1 \\\n 1 1", 1, "(0 0 0) v[0 0 0]"),
        (b"\xef\xbb\xbfv 0 0 0\nv 1 1 1", 1, "(1 1 1)"),
        (b"\xff\xfev\0 \x001\0\n\0", 1, ""),
        (b"v 131071 -131072 0", 1, "(131071 -131072 0)"),
        (b"v 2047.98 0 0", 64, "(131071 0 0)"),
        (b"v 0 0 0\rv 1 1 1\rf 1 1 1", 1, "(0 0 0)"),
        (b"v 1e-400 0x1 0", 1, "mesh line 1: not a number"),
        (
            b"v 0 0 0\nf 1\t1 1\r\nf 1 1 1#1\nf 1 1 01 1",
            1,
            "(0 0 0) default[0 0 0] default[0 0 0] default[0 0 0] default[0 0 0]",
        ),
        (
            b"v 0 0 0\nf 1 1 \\\n1\nf 1 1 1\\\n1",
            1,
            "(0 0 0) default[0 0 0] default[0 0 0] default[0 0 0]",
        ),
        (
            b"v 0 0 0\nv 1 0 0\nv 2 0 0\nf 3 2 1 2/2 -1",
            1,
            "(0 0 0)(1 0 0)(2 0 0) default[2 1 0] default[2 0 1] default[2 1 2]",
        ),
    ];
    all_shown(&rt, rt.alloc(), &cases)?;
    Ok(())
}

#[test]
fn the_first_fault_of_the_first_faulty_line_is_named(rt: HostRuntime) -> Result<(), Fail> {
    let cases: [(&[u8], u32, &str); 36] = [
        (b"v 0 0 0\nv 1 2\nv x", 64, "mesh line 2: too few words"),
        (b"v 1 x 2", 64, "mesh line 1: not a number"),
        (
            b"v x 1234567890123456789012345 0",
            1,
            "mesh line 1: not a number",
        ),
        (
            b"v 1234567890123456789012345 x 0",
            1,
            "mesh line 1: number too long",
        ),
        (b"v 0 131072 x", 1, "mesh line 1: outside the world"),
        (b"v 2048 0 0", 64, "mesh line 1: outside the world"),
        (b"v 0 0 -131072.6", 1, "mesh line 1: outside the world"),
        (b"v x 1", 1, "mesh line 1: too few words"),
        (b"v", 1, "mesh line 1: too few words"),
        (b"f", 1, "mesh line 1: too few words"),
        (b"v 0 0 0\nf 1 1", 1, "mesh line 2: too few words"),
        (b"v 0 0 0\nf 9 x", 1, "mesh line 2: too few words"),
        (b"v 0 0 0\nf 1 1 2", 1, "mesh line 2: no such vertex"),
        (b"v 0 0 0\nf 1 1 0", 1, "mesh line 2: no such vertex"),
        (b"v 0 0 0\nf 1 1 -0", 1, "mesh line 2: no such vertex"),
        (
            b"v 0 0 0\nf 1 1 1 4294967297",
            1,
            "mesh line 2: no such vertex",
        ),
        (
            b"v 0 0 0\nf -1 -1 -2\nv 0 0 0",
            1,
            "mesh line 2: no such vertex",
        ),
        (
            b"f -1 -2 -3\nv 0 0 0\nv 4 0 0\nv 0 4 0",
            1,
            "mesh line 1: no such vertex",
        ),
        (b"v 0 0 0\nf 1 1 1/a", 1, "mesh line 2: bad reference"),
        (b"v 0 0 0\nf 1 1 1/1/1/", 1, "mesh line 2: bad reference"),
        (b"v 0 0 0\nf 1 1 /1", 1, "mesh line 2: bad reference"),
        (b"v 0 0 0\nf 1 1 1.0", 1, "mesh line 2: bad reference"),
        (b"v 0 0 0\nf 1 1 --1", 1, "mesh line 2: bad reference"),
        (b"v 0 0 0\nf 1 1 1/+", 1, "mesh line 2: bad reference"),
        (b"v 0 0 0\nf 1 2 x", 1, "mesh line 2: no such vertex"),
        (b"v 0 0 0\nf 1 x 2", 1, "mesh line 2: bad reference"),
        (b"v 0 0 0\nf 1 1 1 1 x", 1, "mesh line 2: bad reference"),
        (
            b"g \\\n\\\na\nv 1 \\\n 2 \\\n x",
            1,
            "mesh line 4: not a number",
        ),
        (b"v 1 2 \\\n# 3", 1, "mesh line 1: too few words"),
        (b"v\xa01 2 3\nv \xa01 2 3", 1, "mesh line 2: not a number"),
        (
            b"v 0 0 0\nf 1 1 999999999",
            1,
            "mesh line 2: no such vertex",
        ),
        (
            b"v 0 0 0\nf 1 1 1000000001",
            1,
            "mesh line 2: no such vertex",
        ),
        (b"v 0 0 0\nf 1 1 1a", 1, "mesh line 2: bad reference"),
        (b"v 0 0 0\nf 2 1 1a", 1, "mesh line 2: no such vertex"),
        (b"v 0 0 0\nf 1 2 0 x", 1, "mesh line 2: no such vertex"),
        (b"v 0 0 0\nf 1 1 1 x", 1, "mesh line 2: bad reference"),
    ];
    all_shown(&rt, rt.alloc(), &cases)?;
    Ok(())
}

/// Lines as files of other tools have them.
const REFERENCES: &[u8] =
    b"v 0 0 0\nv 4 0 0\nv 0 4 0\nf -1 -2 -3\nf 1/1/1 2//2 3/3\nv 4 4 0\nv 2 6 0\nf 1 2 4 5 3\n";

const CARRIAGE_RETURNS: &[u8] = b"v 0 0 0\r\nv 4 0 0\r\nv 0 \\\r\n4 0\r\n# end \\\r\nf 1 2 3\r\n";

const LEVEL: &[u8] = b"# level\nmtllib level.mtl\no Floor\n\
v 0.000000 0.000000 0.000000\nv 4.000000 0.000000 0.000000\nv 4.000000 4.000000 0.000000\n\
v 0.000000 4.000000 0.000000\nvt 0.000000 0.000000\nvn 0.0000 0.0000 1.0000\nusemtl Stone\ns off\n\
f 1/1/1 2/1/1 3/1/1 4/1/1\no Ramp\n\
v 4.000000 0.000000 0.000000\nv 6.500000 0.000000 1.250000\nv 6.500000 4.000000 1.250000\n\
v 4.000000 4.000000 0.000000\nf 5//1 6//1 7//1 8//1\n";

#[test]
fn worked_meshes_are_read(rt: HostRuntime) -> Result<(), Fail> {
    let cases: [(&[u8], u32, &str); 3] = [
        (
            REFERENCES,
            1,
            "(0 0 0)(4 0 0)(0 4 0)(4 4 0)(2 6 0) default[2 1 0] default[0 1 2] default[0 1 3] \
default[0 3 4] default[0 4 2]",
        ),
        (CARRIAGE_RETURNS, 1, "(0 0 0)(4 0 0)(0 4 0) default[0 1 2]"),
        (
            LEVEL,
            64,
            "(0 0 0)(256 0 0)(256 256 0)(0 256 0)(256 0 0)(416 0 80)(416 256 80)(256 256 0) \
Floor[0 1 2] Floor[0 2 3] Ramp[4 5 6] Ramp[4 6 7]",
        ),
    ];
    all_shown(&rt, rt.alloc(), &cases)?;
    Ok(())
}

/// A text, and then a part again and again.
fn repeated(alloc: Global, first: &[u8], part: &[u8], times: u32) -> Result<Vec<u8>, AllocError> {
    let mut text = first.to_vec(alloc)?;
    for _ in 0..times {
        text.extend_from_slice(part)?;
    }
    Ok(text)
}

#[test]
fn the_line_past_a_limit_is_named(rt: HostRuntime) -> Result<(), Fail> {
    let full = repeated(rt.alloc(), b"f 1 1 1\n", b"v 0 0 0\n", 1_048_576)?;
    let mesh = read_text(&rt, rt.alloc(), &full, 1)?;
    assert_eq!(rt; mesh.points().len(), MOST_POINTS);
    let past = repeated(rt.alloc(), b"", b"v 0 0 0\n", 1_048_577)?;
    let fault = read_text(&rt, rt.alloc(), &past, 1).err();
    assert_eq!(rt;
        fault,
        Some(MeshFault::Line {
            line: 1_048_577,
            why: Why::TooManyVertices
        })
    );
    let full = repeated(rt.alloc(), b"v 0 0 0\nf", b" 1", 1_048_578)?;
    let mesh = read_text(&rt, rt.alloc(), &full, 1)?;
    assert_eq!(rt; mesh.faces().len(), MOST_FACES);
    assert_eq!(rt; mesh.groups().len(), 1);
    let past = repeated(rt.alloc(), b"v 0 0 0\nf", b" 1", 1_048_579)?;
    let fault = read_text(&rt, rt.alloc(), &past, 1).err();
    assert_eq!(rt;
        fault,
        Some(MeshFault::Line {
            line: 2,
            why: Why::TooManyTriangles
        })
    );
    Ok(())
}

/// `read_mesh_by_threads`, where it may be called.
fn read_joined<R: Threads + Sync + Abort>(
    rt: &R,
    alloc: Global,
    text: &[u8],
) -> Result<Mesh, MeshFault> {
    assert!(rt; text.len() <= MOST_BYTES, "the text is too long");
    read_mesh_by_threads(rt, alloc, text, 1)
}

/// Three vertices and four triangles in ten lines, with references from here, joins, and two names.
const BLOCK: &[u8] = b"o one\nv 0 0 0\nv 1 0 0\r\nv 0 \\\n1 0\nf -3 -2 -1\n\
f -1 \\\r\n-2 -3 # not joined \\\ng two\nf 1 2 3 1\n";

/// That a face has these corners, and its group this number.
fn expect_face(rt: &impl Abort, mesh: &Mesh, at: usize, a: u32, b: u32, c: u32, group: u32) {
    assert_eq!(rt; mesh.faces().get(at), Some(&Face { a, b, c }), "face {at}");
    assert_eq!(rt;
        mesh.group_of().get(at),
        Some(&group),
        "the group of face {at}"
    );
}

/// That two meshes are the same but for the names of their groups.
fn expect_same(rt: &impl Abort, mesh: &Mesh, other: &Mesh) {
    assert_eq!(rt; mesh.points(), other.points());
    assert_eq!(rt; mesh.faces(), other.faces());
    assert_eq!(rt; mesh.group_of(), other.group_of());
    assert_eq!(rt; mesh.groups().len(), other.groups().len());
}

#[test]
fn a_long_text_is_read_in_parts(rt: HostRuntime) -> Result<(), Fail> {
    let text = repeated(rt.alloc(), b"", BLOCK, 20_000)?;
    let mesh = read_joined(&rt, rt.alloc(), &text)?;
    assert_eq!(rt; mesh.points().len(), 60_000);
    assert_eq!(rt; mesh.faces().len(), 80_000);
    assert_eq!(rt; mesh.groups().len(), 2);
    expect_face(&rt, &mesh, 0, 0, 1, 2, 0);
    expect_face(&rt, &mesh, 3, 0, 2, 0, 1);
    expect_face(&rt, &mesh, 40_001, 30_002, 30_001, 30_000, 0);
    expect_face(&rt, &mesh, 40_002, 0, 1, 2, 1);
    expect_face(&rt, &mesh, 79_996, 59_997, 59_998, 59_999, 0);
    expect_face(&rt, &mesh, 79_999, 0, 2, 0, 1);
    expect_same(&rt, &mesh, &read_text(&rt, rt.alloc(), &text, 1)?);
    Ok(())
}

#[test]
fn a_group_goes_on_from_part_to_part(rt: HostRuntime) -> Result<(), Fail> {
    let front = b"g far\nf 1 1 90000\n";
    let text = repeated(rt.alloc(), front, b"v 0 0 0\nf -1 1 1\n", 90_000)?;
    let mesh = read_joined(&rt, rt.alloc(), &text)?;
    assert_eq!(rt; mesh.groups().len(), 1);
    expect_face(&rt, &mesh, 0, 0, 0, 89_999, 0);
    expect_face(&rt, &mesh, 90_000, 89_999, 0, 0, 0);
    Ok(())
}

/// Three vertices and three triangles in eight lines, with two names, and references from the first vertex on alone: to
/// its own block's, to the first three and to one that may stand far behind.
const FORWARD_BLOCK: &[u8] =
    b"o one\nv 0 0 0\nv 1 0 0\nv 0 \\\n1 0\nf 1 2 3\ng two\nf 3/1 2/7/ 60000//4\n";

#[test]
fn parts_of_a_long_text_name_vertices_of_others(rt: HostRuntime) -> Result<(), Fail> {
    let text = repeated(rt.alloc(), b"f 60000 1 2\n", FORWARD_BLOCK, 20_000)?;
    let mesh = read_joined(&rt, rt.alloc(), &text)?;
    assert_eq!(rt; mesh.points().len(), 60_000);
    assert_eq!(rt; mesh.faces().len(), 40_001);
    assert_eq!(rt; mesh.groups().len(), 3);
    expect_face(&rt, &mesh, 0, 59_999, 0, 1, 0);
    expect_face(&rt, &mesh, 1, 0, 1, 2, 1);
    expect_face(&rt, &mesh, 20_002, 2, 1, 59_999, 2);
    expect_face(&rt, &mesh, 39_999, 0, 1, 2, 1);
    expect_face(&rt, &mesh, 40_000, 2, 1, 59_999, 2);
    expect_same(&rt, &mesh, &read_text(&rt, rt.alloc(), &text, 1)?);
    let past = repeated(rt.alloc(), &text, b"f 1 2 60001\n", 1)?;
    expect_fault(&rt, rt.alloc(), &past, 160_002, Why::NoSuchVertex);
    let back = repeated(rt.alloc(), &text, b"f -1 -60000 1\n", 1)?;
    let mesh = read_joined(&rt, rt.alloc(), &back)?;
    expect_face(&rt, &mesh, 40_001, 59_999, 0, 0, 2);
    let far = repeated(rt.alloc(), &text, b"f -1 -60001 1\n", 1)?;
    expect_fault(&rt, rt.alloc(), &far, 160_002, Why::NoSuchVertex);
    Ok(())
}

#[test]
fn vertices_of_all_parts_are_counted(rt: HostRuntime) -> Result<(), Fail> {
    let full = repeated(rt.alloc(), b"", b"v 0 0 0\n", 1_048_576)?;
    let mesh = read_joined(&rt, rt.alloc(), &full)?;
    assert_eq!(rt; mesh.points().len(), MOST_POINTS);
    let past = repeated(rt.alloc(), &full, b"v 0 0 0\nf 1 1 2\n", 600_000)?;
    expect_fault(&rt, rt.alloc(), &past, 1_048_577, Why::TooManyVertices);
    Ok(())
}

/// That a long text is refused at a line.
fn expect_fault<R: Threads + Sync + Abort>(
    rt: &R,
    alloc: Global,
    text: &[u8],
    line: u32,
    why: Why,
) {
    let fault = read_joined(rt, alloc, text).err();
    assert_eq!(rt; fault, Some(MeshFault::Line { line, why }));
}

#[test]
fn the_first_faulty_line_of_a_long_text_is_named(rt: HostRuntime) -> Result<(), Fail> {
    let mut text = repeated(rt.alloc(), b"", BLOCK, 20_000)?;
    text.extend_from_slice(b"v 0 0 0\\\nx\nv 1 x 0\nf 1 1 99999\nv 1 2\n")?;
    let text = repeated(rt.alloc(), &text, BLOCK, 20_000)?;
    expect_fault(&rt, rt.alloc(), &text, 200_003, Why::NotANumber);
    Ok(())
}

#[test]
fn triangles_of_all_parts_are_counted(rt: HostRuntime) -> Result<(), Fail> {
    let full = repeated(rt.alloc(), b"v 0 0 0\n", b"f 1 1 1\n", 1_048_576)?;
    let mesh = read_joined(&rt, rt.alloc(), &full)?;
    assert_eq!(rt; mesh.faces().len(), MOST_FACES);
    let past = repeated(rt.alloc(), &full, b"f 1 1 1\nf 1 1 2\n", 1)?;
    expect_fault(&rt, rt.alloc(), &past, 1_048_578, Why::TooManyTriangles);
    Ok(())
}

#[test]
fn a_mesh_is_taken_apart(rt: HostRuntime) -> Result<(), Fail> {
    let mesh = read_text(&rt, rt.alloc(), b"v 0 0 0\nv 4 0 0\no a\nf 1 2 1\n", 2)?;
    let (points, faces, group_of, groups) = mesh.into_parts();
    assert_eq!(rt; points.len(), 2);
    assert_eq!(rt; points[1], Point { x: 8, y: 0, z: 0 });
    assert_eq!(rt; faces.as_slice(), [Face { a: 0, b: 1, c: 0 }].as_slice());
    assert_eq!(rt; group_of.as_slice(), [0].as_slice());
    let name = groups.get_index(0).ok_or("one group")?;
    assert_eq!(rt; name.bytes(), b"a".as_slice());
    Ok(())
}

/// What arrays give, as text: their mesh, or its first fault. A group has one byte for its name.
fn arrays_shown(
    rt: &impl Abort,
    alloc: Global,
    points: &[Point],
    faces: &[Face],
    group_of: &[u32],
    names: &[u8],
) -> Result<String, AllocError> {
    let mut groups = IndexSet::new(alloc);
    for name in names {
        let name = Name::new(Vec::from_slice(alloc, &[*name])?);
        if groups.insert_full(name).is_err() {
            return Err(AllocError);
        }
    }
    let points = points.to_vec(alloc)?;
    let faces = faces.to_vec(alloc)?;
    let group_of = group_of.to_vec(alloc)?;
    match Mesh::of(points, faces, group_of, groups) {
        Ok(mesh) => mesh_shown(rt, alloc, &mesh),
        Err(fault) => format!(in alloc; "{fault}"),
    }
}

/// A face of these three corners.
fn over(a: u32, b: u32, c: u32) -> Face {
    Face { a, b, c }
}

/// A point of these coordinates.
fn at(x: i32, y: i32, z: i32) -> Point {
    Point { x, y, z }
}

#[test]
fn arrays_are_a_mesh_or_their_first_fault_is_named(rt: HostRuntime) -> Result<(), Fail> {
    let low = at(-131072, -131072, -131072);
    let high = at(131071, 131071, 131071);
    let past = at(0, 131072, 0);
    let under = at(0, 0, -131073);
    let face = over(0, 1, 0);
    let cases: [(&[Point], &[Face], &[u32], &[u8], &str); 13] = [
        (&[], &[], &[], b"", ""),
        (&[], &[], &[], b"a", ""),
        (
            &[low, high],
            &[face, over(1, 1, 1)],
            &[1, 0],
            b"ab",
            "(-131072 -131072 -131072)(131071 131071 131071) b[0 1 0] a[1 1 1]",
        ),
        (
            &[low, past, under],
            &[],
            &[],
            b"",
            "point 1 is outside the world",
        ),
        (
            &[under, low, past],
            &[],
            &[],
            b"",
            "point 0 is outside the world",
        ),
        (
            &[low, high],
            &[face],
            &[],
            b"a",
            "not one group for each face",
        ),
        (&[past], &[], &[0], b"a", "not one group for each face"),
        (
            &[low, high],
            &[face, over(0, 2, 1)],
            &[0, 0],
            b"a",
            "face 1 names no such point",
        ),
        (
            &[low],
            &[face, over(0, 0, 1)],
            &[0, 0],
            b"a",
            "face 0 names no such point",
        ),
        (
            &[low, past],
            &[over(2, 0, 0)],
            &[0],
            b"a",
            "point 1 is outside the world",
        ),
        (
            &[low, high],
            &[over(0, 0, 4294967295)],
            &[1],
            b"a",
            "face 0 names no such point",
        ),
        (
            &[low, high],
            &[face, face, face],
            &[0, 1, 2],
            b"a",
            "face 1 is in no such group",
        ),
        (
            &[low, high],
            &[face],
            &[0],
            b"",
            "face 0 is in no such group",
        ),
    ];
    for (case, (points, faces, group_of, names, want)) in cases.iter().enumerate() {
        let shown = arrays_shown(&rt, rt.alloc(), points, faces, group_of, names)?;
        assert_eq!(rt; shown.as_str(), *want, "case {case}");
    }
    Ok(())
}

/// What so many points and faces give, all faces in one group.
fn sized(alloc: Global, points: usize, faces: usize) -> Result<Result<Mesh, ArrayFault>, Memory> {
    let name = Name::new(b"all".to_vec(alloc).map_err(|_| Memory)?);
    let (group_of, groups) = one_group(alloc, faces, name)?;
    let points = vec![in alloc; at(0, 0, 0); points].map_err(|_| Memory)?;
    let faces = vec![in alloc; over(0, 0, 0); faces].map_err(|_| Memory)?;
    Ok(Mesh::of(points, faces, group_of, groups))
}

#[test]
fn arrays_past_a_limit_are_refused(rt: HostRuntime) -> Result<(), Fail> {
    let mesh = sized(rt.alloc(), MOST_POINTS, MOST_FACES)?.ok();
    let mesh = mesh.expect(&rt, "a mesh at both limits");
    assert_eq!(rt; mesh.points().len(), 1_048_576);
    assert_eq!(rt; mesh.faces().len(), 1_048_576);
    expect_face(&rt, &mesh, 1_048_575, 0, 0, 0, 0);
    let fault = sized(rt.alloc(), 1_048_577, 1_048_577)?.err();
    assert_eq!(rt; fault, Some(ArrayFault::TooManyPoints));
    let fault = sized(rt.alloc(), 0, 1_048_577)?.err();
    assert_eq!(rt; fault, Some(ArrayFault::TooManyFaces));
    Ok(())
}

#[test]
fn want_of_memory_prints_as_such(rt: HostRuntime) -> Result<(), Fail> {
    assert_eq!(rt;
        format!(in rt.alloc(); "{}", MeshFault::Memory)?.as_str(),
        "out of memory"
    );
    Ok(())
}

#[test]
fn number_words_are_passed_on(rt: HostRuntime) {
    assert_eq!(rt; grid(b"6.500000", 64), Ok(416));
    assert_eq!(rt; grid(b"6.5.0", 64), Err(NumberFault::NotANumber));
    assert_eq!(rt; whole(b"007"), Ok(7));
}

/// Each height is worked out by hand; the greatest field finds memory, and one of its heights passes the limit.
#[test]
fn a_height_field_is_made_of_squares(rt: HostRuntime) -> Result<(), Fail> {
    let mesh = grid_mesh(rt.alloc(), 2).ok().expect(&rt, "memory");
    let shown = mesh_shown(&rt, rt.alloc(), &mesh)?;
    assert_eq!(rt;
        shown.as_str(),
        "(-65536 -65536 0)(-65280 -65536 73)(-65024 -65536 146)\
         (-65536 -65280 151)(-65280 -65280 253)(-65024 -65280 355)\
         (-65536 -65024 302)(-65280 -65024 433)(-65024 -65024 564) \
         grid[0 1 4] grid[0 4 3] grid[1 2 5] grid[1 5 4] grid[3 4 7] grid[3 7 6] grid[4 5 8] grid[4 8 7]"
    );

    let mesh = grid_mesh(rt.alloc(), MOST_GRID).ok().expect(&rt, "memory");
    assert_eq!(rt; mesh.points().len(), 263_169);
    assert_eq!(rt; mesh.faces().len(), 524_288);
    let point = mesh.points().get(8 * 513 + 8).expect(&rt, "a point");
    assert_eq!(rt; point.z, 576);
    Ok(())
}
