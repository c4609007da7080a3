//! The report of the large workload: five lines, which its world answers.

ghost use Rattle.std.specs.Prelude.{◌≡◌, ◌≤◌, ◌++◌, length, map, IfOk, OnOk, All};
ghost use Rattle.query_script.specs.Asks.{IsAskable};
ghost use Rattle.world_engine.specs.Sums.{sums_of, sums_text};
ghost use Rattle.world_engine.specs.Reports.{replies_to, world_after, text_of, stat_stage, report_of};
ghost use Rattle.world_engine.specs.Steps.{stage_of};

use crate::passes::{MOST_REPLIES, sums_of, sums_text};
use crate::steps::Step;
use crate::workload::{move_asks, pass_asks};
use command_line::{Build, MOST_WORKERS};
use obj_text::{LEAST_GRID, MOST_GRID, grid_mesh};
use outside::{Gate, Memory};
use query_script::{Ask, Reply, reply_text};
use std::alloc::Global;
use std::thread::Threads;
use world_index::World;

/// The replies to asks, each in the world that those before it left.
fn replies_to<R: Threads + Sync, G: Gate>(
    rt: &R,
    alloc: Global,
    gate: &G,
    world: &mut World,
    asks: &[Ask],
) -> Result<Vec<Reply>, Memory>
    requires { All IsAskable asks.now }
    ensures replies { IfOk result (λ replies. replies.items ≡ replies_to world.old asks.now) }
    ensures world { OnOk result (world.new ≡ world_after world.old asks.now) }
{
    let mut replies = Vec::new(alloc);
    for ask in asks {
        let reply = world.answer(rt, alloc, gate, ask)?;
        let Ok(()) = replies.push(reply) else {
            return Err(Memory);
        };
    }
    Ok(replies)
}

/// Adds the counts of the world, told as to a script.
fn add_stat<R: Threads + Sync, G: Gate>(
    rt: &R,
    alloc: Global,
    gate: &G,
    world: &mut World,
    text: &mut Vec<u8>,
) -> Result<(), Memory>
    ensures text { OnOk result (text.new.items ≡ text.old.items ++ stat_stage.text (replies_to world.old stat_stage.asks)) }
    ensures world { OnOk result (world.new ≡ world_after world.old stat_stage.asks) }
{
    let reply = world.answer(rt, alloc, gate, &Ask::Stat)?;
    add(text, &reply_text(alloc, 1, &reply)?)
}

/// Adds the line of one pass.
fn add_pass<R: Threads + Sync, G: Gate>(
    rt: &R,
    alloc: Global,
    gate: &G,
    world: &mut World,
    asks: &[Ask],
    text: &mut Vec<u8>,
) -> Result<(), Memory>
    requires askable { All IsAskable asks.now }
    requires few { length asks.now ≤ MOST_REPLIES }
    ensures text { OnOk result (text.new.items ≡ text.old.items ++ sums_text (sums_of (replies_to world.old asks.now))) }
    ensures world { OnOk result (world.new ≡ world_after world.old asks.now) }
{
    let replies = replies_to(rt, alloc, gate, world, asks)?;
    let Ok(line) = sums_text(alloc, &sums_of(&replies)) else {
        return Err(Memory);
    };
    add(text, &line)
}

/// Adds bytes to a text.
fn add(text: &mut Vec<u8>, bytes: &[u8]) -> Result<(), Memory>
    ensures { OnOk result (text.new.items ≡ text.old.items ++ bytes.now) }
{
    match text.extend_from_slice(bytes) {
        Ok(()) => Ok(()),
        Err(_) => Err(Memory),
    }
}

/// The steps of the report, one after another.
const STEPS: [Step; 7] = [
    Step::Counts,
    Step::Pass,
    Step::Moves,
    Step::Pass,
    Step::Rebuild,
    Step::Counts,
    Step::Pass,
];

/// Asks a step, with these asks for a pass and for the moves, and adds what is told of it.
fn add_step<R: Threads + Sync, G: Gate>(
    rt: &R,
    alloc: Global,
    gate: &G,
    world: &mut World,
    pass: &[Ask],
    moves: &[Ask],
    step: &Step,
    text: &mut Vec<u8>,
) -> Result<(), Memory>
    requires pass { All IsAskable pass.now }
    requires few { length pass.now ≤ MOST_REPLIES }
    requires moves { All IsAskable moves.now }
    ensures text { let stage = stage_of pass.now moves.now step.now in
        OnOk result (text.new.items ≡ text.old.items ++ stage.text (replies_to world.old stage.asks)) }
    ensures world { OnOk result (world.new ≡ world_after world.old (stage_of pass.now moves.now step.now).asks) }
{
    match step {
        Step::Counts => add_stat(rt, alloc, gate, world, text),
        Step::Pass => add_pass(rt, alloc, gate, world, pass, text),
        Step::Moves => {
            replies_to(rt, alloc, gate, world, moves)?;
            Ok(())
        }
        Step::Rebuild => {
            replies_to(rt, alloc, gate, world, &[Ask::Rebuild])?;
            Ok(())
        }
    }
}

/// What is told of steps, one after another, with these asks for a pass and for the moves.
fn told<R: Threads + Sync, G: Gate>(
    rt: &R,
    alloc: Global,
    gate: &G,
    world: &mut World,
    pass: &[Ask],
    moves: &[Ask],
    steps: &[Step],
) -> Result<Vec<u8>, Memory>
    requires pass { All IsAskable pass.now }
    requires few { length pass.now ≤ MOST_REPLIES }
    requires moves { All IsAskable moves.now }
    ensures { IfOk result (λ text. text.items ≡ text_of world.old (map (stage_of pass.now moves.now) steps.now)) }
{
    let mut text = Vec::new(alloc);
    for step in steps {
        add_step(rt, alloc, gate, world, pass, moves, step, &mut text)?;
    }
    Ok(text)
}

/// What the large workload of so many squares along each side writes: the counts of its world, then one pass of
/// queries; then eight vertices are moved, and there is one more pass; then the tree is built anew, and counts and pass
/// come again. All is asked through `World::answer`.
///
/// A pass asks eight segments straight down and eight boxes, and tells in one line how many segments struck a triangle
/// and how many none, the sum of the numbers of the triangles struck, how many triangles' boxes met the boxes, and the
/// sum of the boxes' works. The same bytes come at each run, whatever the build and the number of workers.
pub fn grid_report<R: Threads + Sync, G: Gate>(
    rt: &R,
    alloc: Global,
    side: u32,
    build: Build,
    workers: u32,
    gate: &G,
) -> Result<Vec<u8>, Memory>
    requires least { LEAST_GRID ≤ side }
    requires most { side ≤ MOST_GRID }
    requires some_workers { 1 ≤ workers }
    requires few_workers { workers ≤ MOST_WORKERS }
    ensures report { IfOk result (λ text. text.items ≡ report_of side) }
{
    let mesh = grid_mesh(alloc, side)?;
    let Ok(moves) = move_asks(alloc, side, mesh.points()) else {
        return Err(Memory);
    };
    let Ok(pass) = pass_asks(alloc, side) else {
        return Err(Memory);
    };
    let mut world = World::new(rt, alloc, mesh, build, workers, gate)?;
    told(rt, alloc, gate, &mut world, &pass, &moves, &STEPS)
}
