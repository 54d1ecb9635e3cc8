// The command line as `clap` has it.
ghost use Rattle.std.specs.Prelude.{◌≡◌, IfOk, false};
ghost use Rattle.clap.specs.Words.{app_of, new_app, rule_of};
ghost use Rattle.clap.specs.declared.builder.command.Command.TheViews.{out-Command};
ghost use Rattle.ken_words.specs.Parser.{bare, drawing, four, judging, ken, one, value};

use clap::{Arg, Command};
use std::alloc::{AllocError, Global};

/// The program's command line: `run`, `check` with a length, `torment` with a seed, `soak` with four numbers, `save` with a prefix,
/// and `dump` with a prefix and three numbers.
pub(crate) fn parser<'a>(alloc: Global) -> Result<Command<'a>, AllocError>
    ensures { IfOk result (λ command. app_of command ≡ ken) }
{
    drawing(alloc)?
        .subcommand(one(alloc, "save", "PREFIX")?)?
        .subcommand(four(alloc, "dump", "PREFIX", "NODE", "NODES", "PAGES")?)
}

/// The command line as far as `torment` and `soak`.
fn drawing<'a>(alloc: Global) -> Result<Command<'a>, AllocError>
    ensures app { IfOk result (λ command. app_of command ≡ drawing) }
    ensures local { IfOk result (λ command. (out-Command command).has_globals ≡ false) }
{
    judging(alloc)?
        .subcommand(one(alloc, "torment", "SEED")?)?
        .subcommand(four(alloc, "soak", "SEED", "NODES", "INPUTS", "ROUNDS")?)
}

/// The command line as far as `run` and `check`.
fn judging<'a>(alloc: Global) -> Result<Command<'a>, AllocError>
    ensures app { IfOk result (λ command. app_of command ≡ judging) }
    ensures local { IfOk result (λ command. (out-Command command).has_globals ≡ false) }
{
    bare(alloc, "ken")
        .subcommand(Command::new(alloc, "run"))?
        .subcommand(one(alloc, "check", "LENGTH")?)
}

/// A command with no help and no version.
fn bare<'a>(alloc: Global, name: &'a str) -> Command<'a>
    ensures app { app_of result ≡ bare (new_app name.now) }
    ensures local { (out-Command result).has_globals ≡ false }
{
    Command::new(alloc, name)
        .disable_help_flag(true)
        .disable_help_subcommand(true)
        .disable_version_flag(true)
}

/// A subcommand with one value.
fn one<'a>(alloc: Global, name: &'a str, id: &'a str) -> Result<Command<'a>, AllocError>
    ensures app { IfOk result (λ command. app_of command ≡ one name.now id.now) }
    ensures local { IfOk result (λ command. (out-Command command).has_globals ≡ false) }
{
    Command::new(alloc, name).arg(value(alloc, id))
}

/// A subcommand with four values.
fn four<'a>(
    alloc: Global,
    name: &'a str,
    a: &'a str,
    b: &'a str,
    c: &'a str,
    d: &'a str,
) -> Result<Command<'a>, AllocError>
    ensures app { IfOk result (λ command. app_of command ≡ four name.now a.now b.now c.now d.now) }
    ensures local { IfOk result (λ command. (out-Command command).has_globals ≡ false) }
{
    one(alloc, name, a)?
        .arg(value(alloc, b))?
        .arg(value(alloc, c))?
        .arg(value(alloc, d))
}

/// A value that has to be given.
fn value<'a>(alloc: Global, id: &'a str) -> Arg<'a>
    ensures rule { rule_of result ≡ value id.now }
    ensures local { result.global ≡ false }
{
    Arg::new(alloc, id).required(true)
}
