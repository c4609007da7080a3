//! The one command that the words go through.

ghost use Rattle.std.specs.Prelude.{◌≡◌, None, false, IfOk, IfErr};
ghost use Rattle.clap.specs.Words.{app_of, found_of, rows_of, rule_of};
ghost use Rattle.command_line.specs.Command.{one_command, named_given};
ghost use Rattle.command_line.specs.Items.{texts_of};
ghost use Rattle.command_line.specs.Plans.{plan_of};
ghost use Rattle.command_line.specs.Uses.{has_dashes, mesh_from, row_plan};

use crate::fault::WordsFault;
use clap::error::ErrorKind;
use clap::{Arg, ArgAction, ArgMatches, Command};
use std::alloc::{AllocError, Global};

/// What the command finds in the words; `row_plan` makes the plan of it.
pub fn parsed<'a>(alloc: Global, words: &'a [String]) -> Result<ArgMatches<'a>, WordsFault>
    requires { has_dashes (texts_of words.now) ≡ false }
    ensures plan { IfOk result (λ matches. plan_of (texts_of words.now) ≡ row_plan (mesh_from false 0 (texts_of words.now)) (rows_of (found_of matches))) }
    ensures usage { IfErr result (λ fault. fault ≡ WordsFault.Usage → plan_of (texts_of words.now) ≡ None) }
{
    let command = one_command(alloc)?;
    match command.try_get_matches_from(words) {
        Ok(matches) => Ok(matches),
        Err(error) => {
            let kind = error.kind();
            match kind {
                ErrorKind::OutOfMemory => Err(WordsFault::Memory),
                _ => Err(WordsFault::Usage),
            }
        }
    }
}

fn one_command<'a>(alloc: Global) -> Result<Command<'a>, AllocError>
    ensures { IfOk result (λ command. app_of command ≡ one_command) }
{
    let mesh = Arg::new(alloc, "mesh").action(ArgAction::Set);
    Command::new(alloc, "cedarjack")
        .no_binary_name(true)
        .disable_help_flag(true)
        .disable_version_flag(true)
        .arg(mesh)?
        .arg(option(alloc, "grid"))?
        .arg(option(alloc, "workers"))?
        .arg(option(alloc, "build"))?
        .arg(option(alloc, "unit"))
}

/// An option that takes one value.
fn option<'a>(alloc: Global, name: &'a str) -> Arg<'a>
    ensures rule { rule_of result ≡ named_given name.entry.now }
    ensures local { result.global ≡ false }
{
    Arg::new(alloc, name).long(name).action(ArgAction::Set)
}
