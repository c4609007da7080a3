//! What no clause says: that a call succeeds where memory is ample, and that the clauses mean what a reader takes them
//! to mean, by cases worked out by hand.

use crate::{
    Failed, Gate, MemShelf, MemSink, MemSource, Name, OpenGate, Shelf, Sink, Source, StdSink,
    StdSource,
};
use std::alloc::Allocator;
use std::fmt::Display;
use std::io;
use std::io::{BufRead, Lines, Print, Read};
use std::test::Fail;

#[test]
fn a_source_gives_every_byte_whatever_the_piece(rt: HostRuntime) -> Result<(), Fail> {
    let counts_by_piece = [
        (1, [1, 1, 1, 1, 1, 1, 1, 1, 1, 0].as_slice()),
        (7, [7, 2, 0].as_slice()),
        (4096, [8, 1, 0].as_slice()),
    ];
    for (piece, counts) in counts_by_piece {
        let bytes = b"cedarjack".to_vec(rt.alloc())?;
        let mut source = MemSource::new(bytes, piece, Vec::new(rt.alloc()));
        let mut all = Vec::new(rt.alloc());
        for &want in counts {
            let mut buf = [0u8; 8];
            let count = source.read(&mut buf)?;
            assert_eq!(rt; count, want, "with piece {piece}");
            all.extend_from_slice(&buf[..count])?;
        }
        assert_eq!(rt;
            all.as_slice(),
            b"cedarjack".as_slice(),
            "with piece {piece}"
        );
    }
    Ok(())
}

#[test]
fn a_source_fails_at_the_calls_named(rt: HostRuntime) -> Result<(), Fail> {
    let bytes = b"abcdef".to_vec(rt.alloc())?;
    let fail = [1, 3, 4].to_vec(rt.alloc())?;
    let mut source = MemSource::new(bytes, 4, fail);
    for want in [Err(Failed), Ok(4), Err(Failed), Err(Failed), Ok(2), Ok(0)] {
        let mut buf = [0u8; 8];
        assert_eq!(rt; source.read(&mut buf), want);
    }
    Ok(())
}

#[test]
fn a_sink_keeps_what_it_takes(rt: HostRuntime) -> Result<(), Fail> {
    let mut sink = MemSink::new(rt.alloc(), 100, 4, Vec::new(rt.alloc())).map_err(|_| "no memory")?;
    assert_eq!(rt; sink.bytes(), b"".as_slice());
    assert_eq!(rt; sink.write(b"overlaps"), Ok(4));
    assert_eq!(rt; sink.write(b"1:"), Ok(2));
    assert_eq!(rt; sink.bytes(), b"over1:".as_slice());
    Ok(())
}

#[test]
fn a_full_sink_fails_and_keeps_what_it_has(rt: HostRuntime) -> Result<(), Fail> {
    let mut sink = MemSink::new(rt.alloc(), 5, 4, Vec::new(rt.alloc())).map_err(|_| "no memory")?;
    assert_eq!(rt; sink.write(b"cedar"), Ok(4));
    assert_eq!(rt; sink.write(b"rjack"), Ok(1));
    assert_eq!(rt; sink.write(b"jack"), Err(Failed));
    assert_eq!(rt; sink.write(b"j"), Err(Failed));
    assert_eq!(rt; sink.bytes(), b"cedar".as_slice());
    Ok(())
}

#[test]
fn a_sink_fails_at_the_calls_named(rt: HostRuntime) -> Result<(), Fail> {
    let fail = [2, 3].to_vec(rt.alloc())?;
    let mut sink = MemSink::new(rt.alloc(), 100, 8, fail).map_err(|_| "no memory")?;
    for want in [Ok(3), Err(Failed), Err(Failed), Ok(3)] {
        assert_eq!(rt; sink.write(b"box"), want);
    }
    assert_eq!(rt; sink.bytes(), b"boxbox".as_slice());
    Ok(())
}

#[test]
fn a_shelf_gives_its_file_from_any_place(rt: HostRuntime) -> Result<(), Fail> {
    let name = Name::new(b"mesh.obj".to_vec(rt.alloc())?);
    let bytes = b"v 1 2 3".to_vec(rt.alloc())?;
    let mut shelf = MemShelf::new(name, bytes, 5, Vec::new(rt.alloc()));
    let from_places = [
        (0, b"v 1 2".as_slice()),
        (4, b"2 3".as_slice()),
        (6, b"3".as_slice()),
        (7, b"".as_slice()),
        (u64::MAX, b"".as_slice()),
        (0, b"v 1 2".as_slice()),
    ];
    for (at, want) in from_places {
        let mut buf = [0u8; 8];
        let count = shelf.fetch("mesh.obj", at, &mut buf)?;
        assert_eq!(rt; &buf[..count], want, "from {at}");
    }
    Ok(())
}

#[test]
fn a_shelf_fails_at_another_name_and_at_the_calls_named(rt: HostRuntime) -> Result<(), Fail> {
    let name = Name::new(b"mesh.obj".to_vec(rt.alloc())?);
    let bytes = b"v 1 2 3".to_vec(rt.alloc())?;
    let fail = [2, 3].to_vec(rt.alloc())?;
    let mut shelf = MemShelf::new(name, bytes, 8, fail);
    let calls = [
        ("mesh.obj", Ok(7)),
        ("mesh.obj", Err(Failed)),
        ("mash.obj", Err(Failed)),
        ("mesh.obj", Ok(7)),
        ("mesh", Err(Failed)),
        ("", Err(Failed)),
        ("mesh.obj", Ok(7)),
    ];
    for (name, want) in calls {
        let mut buf = [0u8; 8];
        assert_eq!(rt; shelf.fetch(name, 0, &mut buf), want, "for {name}");
    }
    Ok(())
}

#[test]
fn names_are_equal_where_their_bytes_are(rt: HostRuntime) -> Result<(), Fail> {
    let wall = Name::new(b"wall\xff".to_vec(rt.alloc())?);
    let twin = wall.copy(rt.alloc()).map_err(|_| "no memory")?;
    let hall = Name::new(b"hall\xff".to_vec(rt.alloc())?);
    assert_eq!(rt; twin.bytes(), b"wall\xff".as_slice());
    assert_eq!(rt; twin, wall);
    assert!(rt; hall != wall);
    Ok(())
}

#[test]
fn nobody_waits_at_an_open_gate() {
    OpenGate.pass(0, 0);
}

// A terminal whose reads fail, and whose writes take so many bytes at most, or fail.
#[derive(Drop)]
struct Terminal {
    takes: Option<usize>,
}

#[derive(Clone, Copy)]
struct Broken;

impl Read for Broken {
    fn read(&mut self, _buf: &mut [u8]) -> io::Result<usize> {
        Err(io::ErrorKind::Other.into())
    }
}

impl BufRead for Broken {
    fn fill_buf(&mut self) -> io::Result<&[u8]> {
        Err(io::ErrorKind::Other.into())
    }

    fn consume(&mut self, _amount: usize) {}
}

impl Input for Terminal {
    type Reader = Broken;

    fn read_line<A: Allocator + Clone>(&self, _line: &mut String<A>) -> io::Result<usize> {
        Err(io::ErrorKind::Other.into())
    }

    fn lines<A: Allocator>(&self, alloc: A) -> Lines<Broken, A> {
        self.reader().lines(alloc)
    }

    fn reader(&self) -> Broken {
        Broken
    }
}

impl Print for Terminal {
    fn print<D: Display + Drop>(&self, _value: D) -> io::Result<()> {
        Err(io::ErrorKind::Other.into())
    }

    fn println<D: Display + Drop>(&self, _value: D) -> io::Result<()> {
        Err(io::ErrorKind::Other.into())
    }

    fn write_all(&self, _bytes: &[u8]) -> io::Result<()> {
        Err(io::ErrorKind::Other.into())
    }

    fn write_some(&self, bytes: &[u8]) -> io::Result<usize> {
        match self.takes {
            Some(most) => Ok(most.min(bytes.len())),
            None => Err(io::ErrorKind::Other.into()),
        }
    }
}

#[test]
fn an_error_of_the_terminal_is_a_failure(rt: HostRuntime) {
    let answers = [
        (None, Err(Failed)),
        (Some(0), Err(Failed)),
        (Some(2), Ok(2)),
        (Some(9), Ok(3)),
    ];
    for (takes, want) in answers {
        let terminal = Terminal { takes };
        let mut buf = [0u8; 8];
        assert_eq!(rt; StdSource::new(&terminal).read(&mut buf), Err(Failed));
        assert_eq!(rt;
            StdSink::new(&terminal).write(b"box"),
            want,
            "where it takes {takes:?}"
        );
    }
}
