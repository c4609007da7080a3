//! The words of the command line, read.

ghost use Rattle.std.specs.Prelude.{◌≡◌, Some, None, IfOk, IfErr, length};
ghost use Rattle.command_line.specs.Items.{texts_of};
ghost use Rattle.command_line.specs.Plans.{plan_of, IsInBounds};

use crate::command::parsed;
use crate::fault::WordsFault;
use crate::given::row_plan;
use crate::limits::MOST_WORDS;
use crate::place::{has_dashes, mesh_place};
use crate::plan::Plan;
use std::alloc::Global;

/// The plan that the words behind the program's name make.
///
/// From left to right each word, or two, is an item: the MESH word, which is not empty and does not begin with `-`;
/// `--name=value`; or `--name` and a value, which does not begin with `-`. A word `--name` always takes the next word as
/// its value. Items may stand in any order, each name at most once. Exactly one of a MESH word and `grid` stands, and
/// `unit` only beside a MESH word.
///
/// | name | value | default |
/// |---|---|---|
/// | `grid` | 1 to 6 digits, `obj_text::LEAST_GRID` to `obj_text::MOST_GRID` | |
/// | `workers` | 1 to 6 digits, 1 to 64 | 4 |
/// | `unit` | 1 to 6 digits, 1 to `fixed_box::UNIT_MAX` | 64 |
/// | `build` | `karras` or `apetrei` | `karras` |
///
/// Every other list is refused as `Usage`. The plan holds the place of the MESH word, counted from 0, or the number of
/// `grid`. It takes memory for one command of `clap` and what that finds in at most eight words.
pub fn read_words(alloc: Global, words: &[String]) -> Result<Plan, WordsFault>
    ensures plan { IfOk result (λ plan. plan_of (texts_of words.now) ≡ Some plan) }
    ensures usage { IfErr result (λ fault. fault ≡ WordsFault.Usage → plan_of (texts_of words.now) ≡ None) }
    // the MESH word is one of the words, and the numbers are in their ranges
    ensures bounds { IfOk result (IsInBounds (length words.now)) }
{
    if MOST_WORDS < words.len() {
        return Err(WordsFault::Usage);
    }
    if has_dashes(words) {
        return Err(WordsFault::Usage);
    }
    let matches = parsed(alloc, words)?;
    match row_plan(mesh_place(words), &matches) {
        Some(plan) => Ok(plan),
        None => Err(WordsFault::Usage),
    }
}
