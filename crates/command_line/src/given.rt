//! The plan of what a parse finds.

ghost use Rattle.std.specs.Prelude.{◌≡◌, option_map, if◌then◌else◌, None};
ghost use Rattle.clap.specs.Words.{found_of, rows_of};
ghost use Rattle.command_line.specs.Values.{number_in, build_of};
ghost use Rattle.command_line.specs.Uses.{input_from, is_mesh, plan_from, read_or, row_plan};
ghost use Rattle.command_line.specs.declared.plan.Input.TheVariants.{File, Grid};

use crate::limits::{MOST_WORKERS, UNIT, WORKERS};
use crate::plan::{Build, Input, Plan};
use crate::values::{build_of, number_in};
use clap::ArgMatches;
use fixed_box::UNIT_MAX;
use obj_text::{LEAST_GRID, MOST_GRID};

/// The plan of what a parse finds, with the MESH word at a place.
pub fn row_plan(place: Option<u32>, matches: &ArgMatches) -> Option<Plan>
    ensures { result ≡ row_plan place (rows_of (found_of matches.now)) }
{
    plan_from(
        place,
        matches.get_str("mesh"),
        matches.get_str("grid"),
        matches.get_str("workers"),
        matches.get_str("build"),
        matches.get_str("unit"),
    )
}

fn plan_from(
    place: Option<u32>,
    mesh: Option<&str>,
    grid: Option<&str>,
    workers: Option<&str>,
    build: Option<&str>,
    unit: Option<&str>,
) -> Option<Plan>
    ensures { result ≡ plan_from place (option_map (λ s. s.now) mesh.entry) (option_map (λ s. s.now) grid.entry) (option_map (λ s. s.now) workers.entry)
        (option_map (λ s. s.now) build.entry) (option_map (λ s. s.now) unit.entry) }
{
    Some(Plan {
        input: input_from(mesh, grid, unit, place)?,
        workers: number_or(WORKERS, workers, MOST_WORKERS)?,
        build: build_or(Build::Karras, build)?,
        unit: number_or(UNIT, unit, UNIT_MAX)?,
    })
}

/// The input of a MESH word at a place, or of a text of `grid` that no text of `unit` stands beside.
fn input_from(
    mesh: Option<&str>,
    grid: Option<&str>,
    unit: Option<&str>,
    place: Option<u32>,
) -> Option<Input>
    ensures { result ≡ input_from (option_map (λ s. s.now) mesh.entry) (option_map (λ s. s.now) grid.entry) (option_map (λ s. s.now) unit.entry) place }
{
    match (mesh, grid, unit) {
        (Some(mesh), None, _) => file_at(mesh.as_bytes(), place),
        (None, Some(squares), None) => grid_of(squares.as_bytes()),
        _ => None,
    }
}

/// The file that a word names.
fn file_at(word: &[u8], place: Option<u32>) -> Option<Input>
    ensures { result ≡ (if is_mesh word.now then option_map File place else None) }
{
    if is_mesh(word) {
        Some(Input::File(place?))
    } else {
        None
    }
}

/// The large workload of so many squares.
fn grid_of(squares: &[u8]) -> Option<Input>
    ensures { result ≡ option_map Grid (number_in LEAST_GRID MOST_GRID squares.now) }
{
    Some(Input::Grid(number_in(squares, LEAST_GRID, MOST_GRID)?))
}

/// Whether a word names a mesh.
fn is_mesh(word: &[u8]) -> bool
    ensures { result ≡ is_mesh word.now }
{
    !matches!(word, [] | [b'-', ..])
}

fn number_or(default: u32, text: Option<&str>, most: u32) -> Option<u32>
    ensures { result ≡ read_or default (number_in 1 most) (option_map (λ s. s.now) text.entry) }
{
    match text {
        Some(text) => number_in(text.as_bytes(), 1, most),
        None => Some(default),
    }
}

fn build_or(default: Build, text: Option<&str>) -> Option<Build>
    ensures { result ≡ read_or default build_of (option_map (λ s. s.now) text.entry) }
{
    match text {
        Some(text) => build_of(text.as_bytes()),
        None => Some(default),
    }
}
