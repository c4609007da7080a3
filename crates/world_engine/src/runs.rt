//! A run: all that the program does, from its words to its status.

ghost use Rattle.std.specs.Prelude.{◌≡◌, ◌⊎◌, ◌≤◌, ◌<◌, ◌+◌, ◌≢◌, Some, None, IfSome, IfOk, length};
ghost use Rattle.std.specs.Io.KnownBytes.{Appends};
ghost use Rattle.outside.specs.Causes.{Rose};
ghost use Rattle.streams.specs.Taken.{Taken, Loses, LosesAtMost, IsPrompt};
ghost use Rattle.command_line.specs.Items.{texts_of};
ghost use Rattle.command_line.specs.Plans.{plan_of};
ghost use Rattle.command_line.specs.declared.plan.Input.TheVariants.{File};
ghost use Rattle.world_engine.specs.Words.{opening, opening_of, grid_of};
ghost use Rattle.world_engine.specs.Reports.{report_of};
ghost use Rattle.world_engine.specs.Outputs.{output_of, says};
ghost use Rattle.world_engine.specs.Runs.{Fulfils, IsComplete, IsAbsentMesh, MeshIs, IsRefusedFile, IsRefusedMesh, world_of_opening, replies_to_ended, IsAnswered, IsUntouched};
ghost use Rattle.world_engine.specs.StageEnds.{EndsFile};

use crate::limits::SCRIPT_MOST;
use crate::report::grid_report;
use crate::stages::{answer_mesh, say};
use crate::status::Status;
use command_line::{Input, MOST_WORKERS, Plan, WordsFault, read_words};
use fixed_box::UNIT_MAX;
use obj_text::{LEAST_GRID, MOST_BYTES, MOST_GRID};
use outside::{Gate, Shelf, Sink, Source};
use std::alloc::Global;
use std::thread::Threads;
use streams::{LoadFault, Loaded, fetch_all};

/// Does all that the program does: reads the words, fetches the mesh that they name, and answers the script line by
/// line, each reply written before the next line is answered. Where the words ask for the large workload it writes that
/// report (`grid_report`), and touches neither shelf nor script.
///
/// The words are those after the program's name, and are read by `command_line::read_words`. A mesh file of more than
/// 268,435,456 bytes and a script of more than 16,777,216 bytes are refused, the script after the replies to the lines
/// that ended within its first 16,777,216 bytes.
///
/// What is written is a function of words, files and script alone (`specs/Outputs`). A device that fails, or want of
/// memory, ends the run at once; what was written is then a front of that text.
pub fn run<R: Threads + Sync, H: Shelf, S: Source, K: Sink, G: Gate>(
    rt: &R,
    alloc: Global,
    words: &[String],
    shelf: &mut H,
    script: &mut S,
    out: &mut K,
    gate: &G,
) -> Status
    // The headline: as far as the devices tell what the output depends on, the run writes exactly the defined output,
    // with its status; or it stops with another status after a front of it.
    ensures output { IfSome (output_of (texts_of words.now) (H.holds shelf.old) (S.left script.old)) (λ output.
        Fulfils output result (K.written out.old) (K.written out.new)) }

    // Where no device failed, it writes the whole, unless memory ran out.
    ensures complete { ¬ Rose (H.faults shelf.old) (H.faults shelf.new) → ¬ Rose (S.faults script.old) (S.faults script.new) → ¬ Rose (K.faults out.old) (K.faults out.new)
        → IfSome (output_of (texts_of words.now) (H.holds shelf.old) (S.left script.old)) (λ output. IsComplete output result) }

    // Each status comes only with its cause.
    ensures usage { result ≡ Status.Usage → plan_of (texts_of words.now) ≡ None }
    ensures mesh { result ≡ Status.MeshRefused → MeshIs (H.holds shelf.old) (opening_of (texts_of words.now)) IsRefusedFile }
    ensures read { result ≡ Status.ReadFault → Rose (H.faults shelf.old) (H.faults shelf.new) ⊎ Rose (S.faults script.old) (S.faults script.new)
        ⊎ IsAbsentMesh (H.holds shelf.old) (opening_of (texts_of words.now)) }
    ensures write { result ≡ Status.WriteFault → Rose (K.faults out.old) (K.faults out.new) }
    ensures absent { IsAbsentMesh (H.holds shelf.old) (opening_of (texts_of words.now)) → (result ≡ Status.ReadFault) ⊎ (result ≡ Status.Memory) }

    // After a failed fetch nothing was written; after a failed read of the script, exactly the replies to the lines that
    // ended in what was taken of it. After a failed write, less than a piece was taken behind the line feed of the first
    // line whose reply was not wholly written.
    ensures silent { result ≡ Status.ReadFault → Rose (S.faults script.old) (S.faults script.new) ⊎ (K.written out.new ≡ K.written out.old) }
    ensures partial { result ≡ Status.ReadFault → IfSome (world_of_opening (H.holds shelf.old) (opening_of (texts_of words.now))) (λ world.
        Taken (S.left script.old) (S.left script.new) (λ front. Appends (K.written out.old) (K.written out.new) (replies_to_ended world front))) }
    ensures prompt { result ≡ Status.WriteFault → IfSome (world_of_opening (H.holds shelf.old) (opening_of (texts_of words.now))) (λ world.
        IsPrompt (replies_to_ended world) (S.left script.old) (S.left script.new) (K.written out.old) (K.written out.new)) }

    // A script that was answered was read to its end, or to the first byte past its limit, and no run takes more of it
    // than that. Neither shelf nor script is touched where the words are refused or ask for the large workload, nor the
    // script where the mesh is refused.
    ensures taken { grid_of (texts_of words.now) ≡ None → IsAnswered result → Loses (SCRIPT_MOST + 1) (S.left script.old) (S.left script.new) }
    ensures most { LosesAtMost (SCRIPT_MOST + 1) (S.left script.old) (S.left script.new) }
    ensures untouched { opening_of (texts_of words.now) ≡ None → IsUntouched (H.holds shelf.old) (H.holds shelf.new) (H.faults shelf.old) (H.faults shelf.new) }
    ensures unread { (opening_of (texts_of words.now) ≡ None) ⊎ (result ≡ Status.MeshRefused) ⊎ IsRefusedMesh (H.holds shelf.old) (opening_of (texts_of words.now))
        → IsUntouched (S.left script.old) (S.left script.new) (S.faults script.old) (S.faults script.new) }

    // No count of faults falls.
    ensures shelf { H.faults shelf.old ≤ H.faults shelf.new }
    ensures source { S.faults script.old ≤ S.faults script.new }
    ensures sink { K.faults out.old ≤ K.faults out.new }

    // No failure is passed over: a count that rose is told by the status, also where memory ran out.
    ensures shelf_kept { result ≢ Status.ReadFault → H.faults shelf.new ≡ H.faults shelf.old }
    ensures source_kept { result ≢ Status.ReadFault → S.faults script.new ≡ S.faults script.old }
    ensures sink_kept { result ≢ Status.WriteFault → K.faults out.new ≡ K.faults out.old }
{
    let plan = match read_words(alloc, words) {
        Ok(plan) => plan,
        Err(WordsFault::Usage) => return say(out, b"bad command line\n", Status::Usage),
        Err(WordsFault::Memory) => return Status::Memory,
    };
    match plan.input {
        Input::File(place) => {
            let name = named(words, &plan, place);
            answer_file(rt, gate, alloc, name, plan, shelf, script, out)
        }
        Input::Grid(side) => answer_grid(rt, gate, alloc, side, plan, out),
    }
}

/// The word at a place, which names the mesh file of a plan.
#[tactic(auto, using(crate::proofs::OpenedWords::file_opens, crate::proofs::OpenedWords::file_is_no_grid))]
fn named<'a>(words: &'a [String], plan: &Plan, place: u32) -> &'a str
    requires place { place < length words.now }
    requires plan { plan_of (texts_of words.now) ≡ Some plan.now }
    requires file { plan.now.input ≡ File place }
    ensures opens { opening_of (texts_of words.now) ≡ Some (opening result.now plan.now.unit) }
    ensures no_grid { grid_of (texts_of words.now) ≡ None }
{
    words[place as usize].as_str()
}

/// Writes the report of the large workload.
fn answer_grid<R: Threads + Sync, K: Sink, G: Gate>(
    rt: &R,
    gate: &G,
    alloc: Global,
    side: u32,
    plan: Plan,
    out: &mut K,
) -> Status
    requires least { LEAST_GRID ≤ side }
    requires most { side ≤ MOST_GRID }
    requires some_workers { 1 ≤ plan.workers }
    requires few_workers { plan.workers ≤ MOST_WORKERS }
    ensures output { Fulfils (says (report_of side) Status.Done) result (K.written out.old) (K.written out.new) }
    ensures answers { (result ≡ Status.Done) ⊎ (result ≡ Status.Memory) ⊎ ((result ≡ Status.WriteFault) × Rose (K.faults out.old) (K.faults out.new)) }
    ensures sink { K.faults out.old ≤ K.faults out.new }
    ensures sink_kept { result ≢ Status.WriteFault → K.faults out.new ≡ K.faults out.old }
{
    let Ok(text) = grid_report(rt, alloc, side, plan.build, plan.workers, gate) else {
        return Status::Memory;
    };
    say(out, &text, Status::Done)
}

/// Fetches a mesh file and answers the script over it; `run` says what follows from it.
fn answer_file<R: Threads + Sync, H: Shelf, S: Source, K: Sink, G: Gate>(
    rt: &R,
    gate: &G,
    alloc: Global,
    name: &str,
    plan: Plan,
    shelf: &mut H,
    script: &mut S,
    out: &mut K,
) -> Status
    requires some_workers { 1 ≤ plan.workers }
    requires few_workers { plan.workers ≤ MOST_WORKERS }
    requires some_unit { 1 ≤ plan.unit }
    requires small_unit { plan.unit ≤ UNIT_MAX }
    ensures { EndsFile (Some (opening name.now plan.unit)) (H.holds shelf.old) (H.faults shelf.old) (H.faults shelf.new) result
        (S.left script.old) (S.left script.new) (S.faults script.old) (S.faults script.new)
        (K.written out.old) (K.written out.new) (K.faults out.old) (K.faults out.new) }
{
    match fetch_all(alloc, shelf, name, MOST_BYTES) {
        Ok(Loaded::Whole(text)) => answer_mesh(rt, gate, alloc, text, plan, script, out),
        Ok(Loaded::TooLong) => say(out, b"mesh too long\n", Status::MeshRefused),
        Err(LoadFault::Read) => Status::ReadFault,
        Err(LoadFault::Memory) => Status::Memory,
    }
}
