//! The real devices, tried: pieces of files from several places, then standard input, all to standard output.
//!
//! No clause says what a file or a stream holds, so the stored run of this program is what shows it.
#![tactic(auto)]

use outside::{Failed, FileShelf, Shelf, Sink, Source, StdSink, StdSource};

fn main(rt: HostRuntime) -> Result<(), Failed> {
    let mut shelf = FileShelf::new(&rt);
    let mut script = StdSource::new(&rt);
    let mut out = StdSink::new(&rt);
    for at in [0, 2, 10, 15, 29, 31, 32, 1 << 40] {
        put_piece(&mut out, &mut shelf, "note.txt", at)?;
    }
    for name in ["empty.txt", "absent.txt", "."] {
        put_piece(&mut out, &mut shelf, name, 0)?;
        put_piece(&mut out, &mut shelf, name, 7)?;
    }
    put_piece(&mut out, &mut shelf, "note.txt", 0)?;
    put_source(&mut out, &mut script)
}

/// Writes a line with the seven bytes of the file from this place on, or those that there are.
fn put_piece<K: Sink, H: Shelf>(
    out: &mut K,
    shelf: &mut H,
    name: &str,
    at: u64,
) -> Result<(), Failed> {
    let mut buf = [0u8; 7];
    let Ok(count) = shelf.fetch(name, at, &mut buf) else {
        return put(out, b"failed\n");
    };
    put(out, b"[")?;
    put(out, &buf[..count])?;
    put(out, b"]\n")
}

/// Writes what the source has left, in pieces of seven bytes.
fn put_source<K: Sink, S: Source>(out: &mut K, source: &mut S) -> Result<(), Failed> {
    for _ in 0..u64::MAX {
        let mut buf = [0u8; 7];
        let count = source.read(&mut buf)?;
        if count == 0 {
            break;
        }
        put(out, &buf[..count])?;
    }
    Ok(())
}

/// Writes all of the bytes, however few of them one call takes.
fn put<K: Sink>(out: &mut K, bytes: &[u8]) -> Result<(), Failed> {
    let mut rest = bytes;
    while !rest.is_empty() {
        let count = out.write(rest)?;
        rest = &rest[count..];
    }
    Ok(())
}
