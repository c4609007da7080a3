//! The stages of a run behind its words: the mesh is opened, or word is written that it is refused, and the script is
//! answered. Each says of its part what a run says of the whole.

ghost use Rattle.std.specs.Prelude.{◌≡◌, ◌⊎◌, ◌≤◌, ◌≢◌, Ok, Some, IfOk, IfErr, length};
ghost use Rattle.std.specs.Option.{option_map};
ghost use Rattle.outside.specs.Causes.{Rose};
ghost use Rattle.obj_text.specs.Texts.{mesh_of, IsRefusalOf};
ghost use Rattle.world_engine.specs.Refusals.{refusal_text};
ghost use Rattle.world_engine.specs.Outputs.{script_output, mesh_output, says, status_of};
ghost use Rattle.world_engine.specs.Runs.{Fulfils, IsFaulty, world_in, asked};
ghost use Rattle.world_engine.specs.StageEnds.{Ends};

use crate::desk::Desk;
use crate::limits::SCRIPT_MOST;
use crate::refusals::refusal_text;
use crate::status::Status;
use command_line::{MOST_WORKERS, Plan};
use fixed_box::UNIT_MAX;
use obj_text::{MOST_BYTES, Mesh, MeshFault, Why, read_mesh_by_threads};
use outside::{Gate, Memory, Sink, Source};
use std::alloc::Global;
use std::thread::Threads;
use streams::{Ended, Stop, answer_lines, write_all};
use world_index::World;

/// Writes a text, and answers the status, or that the sink failed.
pub fn say<K: Sink>(out: &mut K, text: &[u8], status: Status) -> Status
    ensures output { Fulfils (says text.now status) result (K.written out.old) (K.written out.new) }
    ensures answers { (result ≡ status) ⊎ ((result ≡ Status.WriteFault) × Rose (K.faults out.old) (K.faults out.new)) }
    ensures sink { K.faults out.old ≤ K.faults out.new }
    ensures sink_kept { result ≢ Status.WriteFault → K.faults out.new ≡ K.faults out.old }
{
    match write_all(out, text) {
        Ok(()) => status,
        Err(_) => Status::WriteFault,
    }
}

/// The status of a script that was answered.
fn status_of(refused: bool) -> Status
    ensures { result ≡ status_of refused }
{
    if refused {
        Status::LinesRefused
    } else {
        Status::Done
    }
}

/// Answers the script of a world.
fn answer_script<R: Threads + Sync, S: Source, K: Sink, G: Gate>(
    rt: &R,
    gate: &G,
    alloc: Global,
    world: World,
    unit: u32,
    script: &mut S,
    out: &mut K,
) -> Status
    ensures { Ends (option_map (script_output unit world) (S.left script.old)) (Some (asked unit world)) ⊥ ⊥ ⊥ result
        (S.left script.old) (S.left script.new) (S.faults script.old) (S.faults script.new)
        (K.written out.old) (K.written out.new) (K.faults out.old) (K.faults out.new) }
{
    let desk = Desk {
        world,
        unit,
        refused: false,
    };
    let answer = |desk: &mut Desk, number: u32, line: &[u8]| -> Result<Vec<u8>, Memory> {
        desk.answer(rt, alloc, gate, number, line)
    };
    match answer_lines(alloc, desk, &answer, script, out, SCRIPT_MOST) {
        Ok(done) => match done.ended {
            Ended::Whole => status_of(done.answerer.has_refused()),
            Ended::TooLong => say(out, b"script too long\n", Status::LinesRefused),
        },
        Err(Stop::Read) => Status::ReadFault,
        Err(Stop::Write) => Status::WriteFault,
        Err(Stop::Memory) => Status::Memory,
    }
}

/// Reads the text of a mesh, and lets the text go.
fn open_mesh<R: Threads + Sync>(
    rt: &R,
    alloc: Global,
    text: Vec<u8>,
    unit: u32,
) -> Result<Mesh, MeshFault>
    requires few { length text.items ≤ MOST_BYTES }
    requires some_unit { 1 ≤ unit }
    requires small_unit { unit ≤ UNIT_MAX }
    ensures mesh { IfOk result (λ mesh. mesh_of unit text.items ≡ Ok mesh) }
    ensures refusal { IfErr result (IsRefusalOf (mesh_of unit text.items)) }
{
    read_mesh_by_threads(rt, alloc, &text, unit)
}

/// Opens the world of a mesh text and answers the script in it.
pub fn answer_mesh<R: Threads + Sync, S: Source, K: Sink, G: Gate>(
    rt: &R,
    gate: &G,
    alloc: Global,
    text: Vec<u8>,
    plan: Plan,
    script: &mut S,
    out: &mut K,
) -> Status
    requires few { length text.items ≤ MOST_BYTES }
    requires some_workers { 1 ≤ plan.workers }
    requires few_workers { plan.workers ≤ MOST_WORKERS }
    requires some_unit { 1 ≤ plan.unit }
    requires small_unit { plan.unit ≤ UNIT_MAX }
    ensures { Ends (mesh_output plan.unit (mesh_of plan.unit text.items) (S.left script.old))
        (world_in plan.unit (mesh_of plan.unit text.items)) (IsFaulty (mesh_of plan.unit text.items))
        (IsFaulty (mesh_of plan.unit text.items)) ⊥ result
        (S.left script.old) (S.left script.new) (S.faults script.old) (S.faults script.new)
        (K.written out.old) (K.written out.new) (K.faults out.old) (K.faults out.new) }
{
    let mesh = match open_mesh(rt, alloc, text, plan.unit) {
        Ok(mesh) => mesh,
        Err(MeshFault::Line { line, why }) => return refuse_mesh(alloc, line, why, out),
        Err(MeshFault::Memory) => return Status::Memory,
    };
    let Ok(world) = World::new(rt, alloc, mesh, plan.build, plan.workers, gate) else {
        return Status::Memory;
    };
    answer_script(rt, gate, alloc, world, plan.unit, script, out)
}

/// Writes word that the mesh is refused at a line.
fn refuse_mesh<K: Sink>(alloc: Global, line: u32, why: Why, out: &mut K) -> Status
    ensures output { Fulfils (says (refusal_text (record { line = line; why = why })) Status.MeshRefused) result (K.written out.old) (K.written out.new) }
    ensures answers { (result ≡ Status.MeshRefused) ⊎ (result ≡ Status.Memory) ⊎ ((result ≡ Status.WriteFault) × Rose (K.faults out.old) (K.faults out.new)) }
    ensures sink { K.faults out.old ≤ K.faults out.new }
    ensures sink_kept { result ≢ Status.WriteFault → K.faults out.new ≡ K.faults out.old }
{
    let Ok(text) = refusal_text(alloc, line, why) else {
        return Status::Memory;
    };
    say(out, &text, Status::MeshRefused)
}
