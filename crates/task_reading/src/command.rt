//! The command that takes the words.
ghost use Rattle.std.specs.Prelude.{◌≡◌, IfOk, Some, false};
ghost use Rattle.clap.specs.Simple.{new_rule};
ghost use Rattle.clap.specs.Words.{app_of, rule_of};
ghost use Rattle.clap.specs.declared.builder.action.ArgAction.TheVariants.{Set};
ghost use Rattle.task_reading.specs.Command.{asprop_command};

use clap::{Arg, ArgAction, Command};
use std::alloc::{AllocError, Global};

// An option with one value, which stands at most once.
fn option<'a>(alloc: Global, name: &'a str) -> Arg<'a>
    ensures rule { rule_of result ≡ record (new_rule name.entry.now) { action = Some Set; long = Some name.entry.now } }
    ensures local { result.global ≡ false }
{
    Arg::new(alloc, name).long(name).action(ArgAction::Set)
}

// A word that belongs to no option, which stands at most once.
fn word<'a>(alloc: Global, name: &'a str) -> Arg<'a>
    ensures rule { rule_of result ≡ record (new_rule name.entry.now) { action = Some Set } }
    ensures local { result.global ≡ false }
{
    Arg::new(alloc, name).action(ArgAction::Set)
}

/// The command with its nine options and its one word.
#[tactic(auto, unfolding(crate::specs::Command::asprop_command))]
pub fn new_command<'a>(alloc: Global) -> Result<Command<'a>, AllocError>
    ensures { IfOk result (λ command. app_of command ≡ asprop_command) }
{
    let bare = Command::new(alloc, "asprop")
        .disable_help_flag(true)
        .disable_version_flag(true);
    bare.arg(option(alloc, "vrps"))?
        .arg(option(alloc, "scenario"))?
        .arg(option(alloc, "origin"))?
        .arg(option(alloc, "demo"))?
        .arg(option(alloc, "script"))?
        .arg(option(alloc, "activations"))?
        .arg(option(alloc, "messages"))?
        .arg(option(alloc, "sweep"))?
        .arg(option(alloc, "check"))?
        .arg(word(alloc, "rel"))
}
