//! Whole runs of the large workload at a gate that counts passes, and at which workers look out for each other.

use crate::words::words_of;
use outside::{Gate, MemShelf, MemSink, MemSource, Name};
use std::alloc::{AllocError, Global};
use std::process::Abort;
use std::rt::HostRuntime;
use std::sync::atomic::{AtomicU64, Ordering};
use std::test::Fail;
use std::thread::{self, Threads};
use world_engine::{Status, run};

/// How often a worker looks out for another before it goes on alone.
const MOST_LOOKS: u32 = 500_000_000;

/// After how many looks it leaves the processor to others.
const LOOKS_AT_A_TIME: u32 = 4_096;

/// A gate for some workers. Before its first batch of each fitting a worker says that it begins, and looks for a while
/// whether each other one has begun that fitting too. It waits for nobody: who looks in vain says so and goes on.
#[derive(Drop)]
struct MeetingGate {
    /// How many fittings each worker began.
    began: Vec<AtomicU64>,
    /// How many batches each worker went for.
    passes: Vec<AtomicU64>,
    /// How often a worker looked in vain, or was none of these.
    alone: AtomicU64,
}

/// So many counts, each zero.
fn zeros(alloc: Global, count: u32) -> Result<Vec<AtomicU64>, AllocError> {
    let mut all = Vec::new(alloc);
    for _ in 0..count {
        all.push(AtomicU64::new(0))?;
    }
    Ok(all)
}

/// Whether a count is so great, or becomes so while one looks.
fn reaches(count: &AtomicU64, least: u64) -> bool {
    for look in 0..MOST_LOOKS {
        if least <= count.load(Ordering::SeqCst) {
            return true;
        }
        if look % LOOKS_AT_A_TIME == 0 {
            thread::yield_now();
        }
    }
    false
}

impl MeetingGate {
    fn new(alloc: Global, workers: u32) -> Result<MeetingGate, AllocError> {
        Ok(MeetingGate {
            began: zeros(alloc, workers)?,
            passes: zeros(alloc, workers)?,
            alone: AtomicU64::new(0),
        })
    }

    /// Whether each worker has begun so many fittings, or begins them while this one looks.
    fn meets(&self, fittings: u64) -> bool {
        self.began.iter().all(|began| reaches(began, fittings))
    }
}

impl Gate for MeetingGate {
    fn pass(&self, worker: u32, turn: u64) {
        let own = worker as usize;
        let (Some(began), Some(passes)) = (self.began.get(own), self.passes.get(own)) else {
            self.alone.fetch_add(1, Ordering::SeqCst);
            return;
        };
        passes.fetch_add(1, Ordering::SeqCst);
        if turn == 0 {
            let fittings = began.fetch_add(1, Ordering::SeqCst).wrapping_add(1);
            if !self.meets(fittings) {
                self.alone.fetch_add(1, Ordering::SeqCst);
            }
        }
    }
}

/// What a run of these words writes, over an empty mesh and an empty script.
fn written<R: Threads + Sync + Abort + AllocGlobal, G: Gate>(
    rt: &R,
    line: &str,
    gate: &G,
) -> Result<Vec<u8>, Fail> {
    let alloc = rt.alloc();
    let words = words_of(alloc, line)?;
    let name = Name::new(b"level.obj".to_vec(alloc)?);
    let mut shelf = MemShelf::new(name, Vec::new(alloc), 4096, Vec::new(alloc));
    let mut script = MemSource::new(Vec::new(alloc), 4096, Vec::new(alloc));
    let mut out = MemSink::new(alloc, 4096, 4096, Vec::new(alloc)).map_err(
        |_| "no room for the output",
    )?;
    let status = run(rt, alloc, &words, &mut shelf, &mut script, &mut out, gate);
    assert!(rt; status == Status::Done, "status of {line}");
    Ok(out.bytes().to_vec(alloc)?)
}

/// Some workers at the meeting gate, over 131,072 triangles: 2,048 batches at the opening and at the rebuild, and one
/// between them, when the 23 triangles that eight moves touch are fitted.
fn all_meet<R: Threads + Sync + Abort + AllocGlobal>(
    rt: &R,
    workers: u32,
    build: &str,
) -> Result<Vec<u8>, Fail> {
    let alloc = rt.alloc();
    let line = format!(in alloc; "--grid 256 --workers {workers} --build {build}")?;
    let gate = MeetingGate::new(alloc, workers)?;
    let text = written(rt, &line, &gate)?;
    assert_eq!(rt;
        gate.alone.load(Ordering::SeqCst),
        0,
        "a worker went on alone: {line}"
    );
    for began in &gate.began {
        assert_eq!(rt; began.load(Ordering::SeqCst), 3, "fittings of {line}");
    }
    for passes in &gate.passes {
        assert_eq!(rt; passes.load(Ordering::SeqCst), 4097, "passes of {line}");
    }
    Ok(text)
}

/// The same by both builds, which write the same.
fn all_meet_by_both<R: Threads + Sync + Abort + AllocGlobal>(
    rt: &R,
    workers: u32,
) -> Result<(), Fail> {
    let alone = all_meet(rt, workers, "karras")?;
    let upward = all_meet(rt, workers, "apetrei")?;
    assert!(rt; alone == upward);
    let starts: [&[u8]; 5] = [
        b"triangles 131072 nodes 131071 height ",
        b"hits 8 misses 0 ",
        b"hits 8 misses 0 ",
        b"triangles 131072 nodes 131071 height ",
        b"hits 8 misses 0 ",
    ];
    let mut lines = alone.as_slice().split(|byte| *byte == b'\n');
    for start in starts {
        let line = lines.next().unwrap_or(b"");
        assert!(rt; line.starts_with(start));
    }
    Ok(())
}

#[test]
fn two_workers_work_at_the_same_time_in_each_fitting_of_a_run(rt: HostRuntime) -> Result<(), Fail> {
    all_meet_by_both(&rt, 2)
}

#[test]
fn four_workers_work_at_the_same_time_in_each_fitting_of_a_run(
    rt: HostRuntime,
) -> Result<(), Fail> {
    all_meet_by_both(&rt, 4)
}

#[test]
fn sixty_four_workers_work_at_the_same_time_in_each_fitting_of_a_run(
    rt: HostRuntime,
) -> Result<(), Fail> {
    all_meet_by_both(&rt, 64)
}
