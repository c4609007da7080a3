//! What no clause says: that each answer is written before the next line is answered, that a piece of a script has
//! 4,096 bytes, and that calls succeed where memory is ample.

ghost use Rattle.std.specs.Prelude.{◌≡◌, ◌∷◌, ◌++◌, [], IfOk};

use crate::{Answerer, Ended, LoadFault, Loaded, Stop, answer_lines, fetch_all, write_all};
use outside::{Failed, MemShelf, MemSink, MemSource, Memory, Name, Source};
use std::alloc::Global;
use std::process::Abort;
use std::test::Fail;

/// Answers each line by the line itself and a line feed.
#[derive(Clone, Copy, Debug, PartialEq, Eq)]
struct Echo;

impl Answerer for Echo {
    ghost use Rattle.std.specs.Prelude.{◌∷◌, ◌++◌, []};

    ghost text = { λ _ _ line. line ++ 10 ∷ [] };

    ghost after = { λ echo _. echo };
}

/// The line and a line feed, unless the line is to find no memory.
fn echoed(alloc: Global, line: &[u8]) -> Result<Vec<u8>, Memory>
    ensures text { IfOk result (λ text. text.items ≡ line.now ++ 10 ∷ []) }
{
    if line == b"no memory".as_slice() {
        return Err(Memory);
    }
    let Ok(mut text) = Vec::from_slice(alloc, line) else {
        return Err(Memory);
    };
    match text.push(10) {
        Ok(()) => Ok(text),
        Err(_) => Err(Memory),
    }
}

/// How a script comes and how its answers go: how many bytes at a time, and at which calls they fail.
#[derive(Clone, Copy)]
struct Devices {
    script_piece: usize,
    script_fail: u64,
    out_piece: usize,
    out_fail: u64,
}

/// Devices that move up to so many bytes at a time and do not fail.
fn in_pieces(piece: usize) -> Devices {
    Devices {
        script_piece: piece,
        script_fail: 0,
        out_piece: piece,
        out_fail: 0,
    }
}

/// Answers a script by its own lines, and compares how it ended and what was written.
fn comes_to<R: Abort + AllocGlobal>(
    rt: &R,
    script: &[u8],
    devices: &Devices,
    ended: Result<Ended, Stop>,
    written: &[u8],
    name: &str,
) -> Result<(), Fail> {
    let alloc = rt.alloc();
    let mut source = MemSource::new(
        script.to_vec(alloc)?,
        devices.script_piece.max(1),
        vec![in alloc; devices.script_fail]?,
    );
    let mut sink = MemSink::new(
        alloc,
        16_384,
        devices.out_piece.max(1),
        vec![in alloc; devices.out_fail]?,
    )
    .map_err(|_| "no room for the answers")?;
    let answer = |_echo: &mut Echo, _number: u32, line: &[u8]| -> Result<Vec<u8>, Memory> {
        echoed(alloc, line)
    };
    let got = match answer_lines(alloc, Echo, &answer, &mut source, &mut sink, 100_000) {
        Ok(done) => Ok(done.ended),
        Err(stop) => Err(stop),
    };
    assert!(rt; got == ended, "end of {name}");
    assert!(rt; sink.bytes() == written, "answers of {name}");
    Ok(())
}

// Both lines come in one piece of the script. Were all of them answered before anything is written, three writes of 8
// bytes would be taken, the third with the front of the second answer, and nothing at all where the second finds no
// memory.
#[test]
fn an_answer_is_written_before_the_next_line_is_answered(rt: HostRuntime) -> Result<(), Fail> {
    let fourth_write = Devices {
        script_piece: 4096,
        script_fail: 0,
        out_piece: 8,
        out_fail: 4,
    };
    comes_to(
        &rt,
        b"overlaps 1: 1\noverlaps 1: 1\n",
        &fourth_write,
        Err(Stop::Write),
        b"overlaps 1: 1\noverlaps",
        "a sink whose fourth write fails",
    )?;
    comes_to(
        &rt,
        b"overlaps 1: 1\nno memory\noverlaps 1: 1\n",
        &in_pieces(4096),
        Err(Stop::Memory),
        b"overlaps 1: 1\n",
        "a second line without memory",
    )?;
    Ok(())
}

#[test]
fn a_script_is_answered_whatever_the_piece(rt: HostRuntime) -> Result<(), Fail> {
    for piece in [1, 7, 4096] {
        comes_to(
            &rt,
            b"stat\n\nwork\ngroups",
            &in_pieces(piece),
            Ok(Ended::Whole),
            b"stat\n\nwork\ngroups\n",
            "a script without a last line feed",
        )?;
    }
    Ok(())
}

#[test]
fn a_failed_read_leaves_the_answers_to_ended_lines(rt: HostRuntime) -> Result<(), Fail> {
    // the number of the read that fails, and what was answered before, of pieces of six bytes
    let answered_before = [
        (1, b"".as_slice()),
        (2, b"stat\n".as_slice()),
        (3, b"stat\nwork\n".as_slice()),
        (4, b"stat\nwork\n".as_slice()),
    ];
    for (script_fail, written) in answered_before {
        let devices = Devices {
            script_fail,
            ..in_pieces(6)
        };
        comes_to(
            &rt,
            b"stat\nwork\ngroups",
            &devices,
            Err(Stop::Read),
            written,
            "a source that fails",
        )?;
    }
    Ok(())
}

/// Answers 8,192 empty lines from a source that gives all that is asked for, and compares how it ended, how many answers
/// were written, and how many lines are still in the source.
fn empty_lines_come_to<R: Abort + AllocGlobal>(
    rt: &R,
    script_fail: u64,
    out_fail: u64,
    ended: Result<Ended, Stop>,
    written: usize,
    left: usize,
    name: &str,
) -> Result<(), Fail> {
    let alloc = rt.alloc();
    let mut source = MemSource::new(
        vec![in alloc; b'\n'; 8192]?,
        16_384,
        vec![in alloc; script_fail]?,
    );
    let mut sink = MemSink::new(alloc, 16_384, 8, vec![in alloc; out_fail]?).map_err(
        |_| "no room for the answers",
    )?;
    let answer = |_echo: &mut Echo, _number: u32, line: &[u8]| -> Result<Vec<u8>, Memory> {
        echoed(alloc, line)
    };
    let got = match answer_lines(alloc, Echo, &answer, &mut source, &mut sink, 100_000) {
        Ok(done) => Ok(done.ended),
        Err(stop) => Err(stop),
    };
    assert!(rt; got == ended, "end of {name}");
    assert_eq!(rt; sink.bytes().len(), written, "answers of {name}");
    let mut rest = vec![in alloc; 0u8; 8192]?;
    assert_eq!(rt; source.read(&mut rest), Ok(left), "rest of {name}");
    Ok(())
}

// Whatever the source would give at once, a script is asked for 4,096 bytes at a time.
#[test]
fn a_piece_of_a_script_has_4096_bytes(rt: HostRuntime) -> Result<(), Fail> {
    empty_lines_come_to(
        &rt,
        0,
        1,
        Err(Stop::Write),
        0,
        4096,
        "a sink whose first write fails",
    )?;
    empty_lines_come_to(
        &rt,
        0,
        4097,
        Err(Stop::Write),
        4096,
        0,
        "a sink whose first write of the second piece fails",
    )?;
    empty_lines_come_to(
        &rt,
        2,
        0,
        Err(Stop::Read),
        4096,
        4096,
        "a source whose second read fails",
    )?;
    empty_lines_come_to(
        &rt,
        3,
        0,
        Err(Stop::Read),
        8192,
        0,
        "a source whose third read fails",
    )?;
    Ok(())
}

#[test]
fn a_file_is_fetched_whole_or_its_fault_is_told(rt: HostRuntime) -> Result<(), Fail> {
    let alloc = rt.alloc();
    // the name, the piece, the fetch that fails, the limit, and what comes of it
    let loads = [
        ("mesh.obj", 1, 0, 7, Ok(7)),
        ("mesh.obj", 5, 0, 7, Ok(7)),
        ("mesh.obj", 4096, 0, 100, Ok(7)),
        ("mesh.obj", 5, 0, 6, Ok(0)),
        ("mesh.obj", 5, 1, 7, Err(LoadFault::Read)),
        ("mesh.obj", 5, 2, 7, Err(LoadFault::Read)),
        ("mesh.obj", 5, 3, 7, Err(LoadFault::Read)),
        ("mash.obj", 5, 0, 7, Err(LoadFault::Read)),
    ];
    for (name, piece, fail, limit, want) in loads {
        let held = Name::new(b"mesh.obj".to_vec(alloc)?);
        let mut shelf = MemShelf::new(
            held,
            b"v 1 2 3".to_vec(alloc)?,
            piece,
            vec![in alloc; fail]?,
        );
        let got = match fetch_all(alloc, &mut shelf, name, limit) {
            Ok(Loaded::Whole(bytes)) => {
                assert_eq!(rt; bytes.as_slice(), b"v 1 2 3".as_slice());
                Ok(bytes.len())
            }
            Ok(Loaded::TooLong) => Ok(0),
            Err(fault) => Err(fault),
        };
        assert!(rt;
            got == want,
            "{name} by {piece}, limit {limit}, failing at {fail}"
        );
    }
    Ok(())
}

#[test]
fn a_text_is_written_whole_or_as_far_as_the_sink_took_it(rt: HostRuntime) -> Result<(), Fail> {
    let alloc = rt.alloc();
    let texts = [
        (0, Ok(()), b"overlaps 1: 1\n".as_slice()),
        (2, Err(Failed), b"overl".as_slice()),
    ];
    for (fail, want, written) in texts {
        let mut sink = MemSink::new(alloc, 100, 5, vec![in alloc; fail]?).map_err(
            |_| "no room for the text",
        )?;
        assert_eq!(rt; write_all(&mut sink, b"overlaps 1: 1\n"), want);
        assert_eq!(rt; sink.bytes(), written);
    }
    Ok(())
}
