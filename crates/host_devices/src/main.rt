//! A host that runs the whole program over devices of its own: a shelf with one mesh, a script in memory, and a page that
//! keeps what is written.
//!
//! Each device tells what it holds, so `run` promises of this run what it promises of any: the page has the defined
//! replies, or a front of them where memory ran out.
#![tactic(auto)]

ghost use Rattle.std.specs.Prelude.{Some};
ghost use Rattle.std.specs.FinMap.{empty, insert};

use outside::{Failed, OpenGate, Shelf, Sink, Source};
use std::alloc::{AllocError, Global};
use std::io;
use world_engine::run;

/// A shelf with one mesh, by its name. It never fails but at another name.
#[derive(Drop)]
struct Pack<'a> {
    name: &'a str,
    mesh: &'a [u8],
}

impl Shelf for Pack<'_> {
    ghost holds = { λ s. Some (insert empty s.name.now s.mesh.now) };

    ghost faults = { λ _. 0 };

    fn fetch(&mut self, name: &str, at: u64, buf: &mut [u8]) -> Result<usize, Failed> {
        if name.as_bytes() != self.name.as_bytes() {
            return Err(Failed);
        }
        let start = at.min(self.mesh.len() as u64) as usize;
        let rest = &self.mesh[start..];
        let count = rest.len().min(buf.len());
        buf[..count].copy_from_slice(&rest[..count]);
        Ok(count)
    }
}

/// A script, as what is left of it. It never fails.
#[derive(Drop)]
struct Asks<'a> {
    left: &'a [u8],
}

impl Source for Asks<'_> {
    ghost left = { λ s. Some s.left.now };

    ghost faults = { λ _. 0 };

    fn read(&mut self, buf: &mut [u8]) -> Result<usize, Failed> {
        let count = self.left.len().min(buf.len());
        buf[..count].copy_from_slice(&self.left[..count]);
        self.left = &self.left[count..];
        Ok(count)
    }
}

/// What was written. It fails where memory runs out.
#[derive(Drop)]
struct Page {
    text: Vec<u8>,
    faults: u64,
}

impl Sink for Page {
    ghost written = { λ s. Some s.text.items };

    ghost faults = { λ s. s.faults };

    fn write(&mut self, piece: &[u8]) -> Result<usize, Failed> {
        if self.text.extend_from_slice(piece).is_err() {
            self.faults = self.faults.saturating_add(1);
            return Err(Failed);
        }
        Ok(piece.len())
    }
}

/// The words of a command line.
fn words(alloc: Global) -> Result<Vec<String>, AllocError> {
    let mut words = Vec::new(alloc);
    for word in ["--unit", "1", "triangle.obj"] {
        words.push(String::from_str(alloc, word)?)?;
    }
    Ok(words)
}

fn main(rt: HostRuntime) -> io::Result<()> {
    let mut pack = Pack {
        name: "triangle.obj",
        mesh: b"v 0 0 0\nv 4 0 0\nv 0 4 0\nf 1 2 3\n",
    };
    let mut asks = Asks {
        left: b"box 4 4 0 9 9 0\nseg 1 1 -1 1 1 1\nmove 3 0 9 0\nseg 0 8 -1 0 8 2\njump\n",
    };
    let mut page = Page {
        text: Vec::new(rt.alloc()),
        faults: 0,
    };
    let words = words(rt.alloc())?;
    let status = run(
        &rt,
        rt.alloc(),
        &words,
        &mut pack,
        &mut asks,
        &mut page,
        &OpenGate,
    );
    let Ok(text) = std::str::from_utf8(&page.text) else {
        return Err(io::ErrorKind::InvalidData.into());
    };
    print!(rt; "{text}")?;
    println!(rt; "status {}", status.code())
}
