//! The program `world MESH`: the script on standard input, the replies on standard output.
//!
//! All that it does is one call of `world_engine::run`, over the real devices; that call's contract says what is written
//! and what the exit status means.
#![tactic(auto)]

use outside::{FileShelf, Memory, OpenGate, StdSink, StdSource};
use std::process::ExitCode;
use std::rt::Env;
use std::{env, io};
use world_engine::{Status, run};

/// The words after the program's name. Words that are not all UTF-8 are none that the program accepts, as no word is.
fn words<R: Env + AllocGlobal>(rt: &R) -> Result<Vec<String>, Memory> {
    match env::args(rt) {
        Ok(all) => match all.skip(1).collect(rt.alloc()) {
            Ok(words) => Ok(words),
            Err(_) => Err(Memory),
        },
        Err(fault) if fault.kind() == io::ErrorKind::OutOfMemory => Err(Memory),
        Err(_) => Ok(Vec::new(rt.alloc())),
    }
}

/// glibc learns from lists of less than 32 MB, with what it notes beside them: two pages less is sure to be one.
const ROOM: usize = (1 << 25) - 8192;

/// Drops a list. It stands apart so that no compiler sees the list made and dropped, and makes none.
#[inline(never)]
fn give_back(_room: Vec<u8>) {}

/// Takes room for a long list and gives it back untouched.
///
/// At first glibc asks the system for fresh pages for each list of 128 KB or more and returns them when the list is
/// dropped; once a longer list was dropped it keeps them for the next one. The first touch of fresh pages is a good part
/// of what opening a world takes. No reply depends on this, nor on whether there is room.
fn keep_pages<R: AllocGlobal>(rt: &R) {
    if let Ok(room) = Vec::with_capacity(rt.alloc(), ROOM) {
        give_back(room);
    }
}

fn main(rt: HostRuntime) -> ExitCode {
    keep_pages(&rt);
    let status = match words(&rt) {
        Ok(words) => {
            let mut shelf = FileShelf::new(&rt);
            let mut script = StdSource::new(&rt);
            let mut out = StdSink::new(&rt);
            run(
                &rt,
                rt.alloc(),
                &words,
                &mut shelf,
                &mut script,
                &mut out,
                &OpenGate,
            )
        }
        Err(Memory) => Status::Memory,
    };
    ExitCode::from(status.code())
}
