//! The options of each command as `clap` knows them. It assigns the values of words that are lawful.
ghost use Rattle.std.specs.Prelude.{◌≡◌, [], ◌∷◌, IfOk, codes};
ghost use Rattle.clap.specs.Simple.{app_of, with_rule};
ghost use Rattle.words.specs.Assigned.{AreMatchesOf, base, raw};
ghost use Rattle.words.specs.Settings.{texts_of};

use clap::{Arg, ArgMatches, Command, Error};
use std::alloc::{AllocError, Global};

/// A command that takes its words alone, and has no help.
fn begun<'a>(alloc: Global) -> Command<'a>
    ensures { app_of result ≡ base }
{
    Command::new(alloc, "kube_emu")
        .no_binary_name(true)
        .disable_help_flag(true)
}

/// The command with one more option, by its name with the dashes and without.
fn and<'a>(
    alloc: Global,
    command: Command<'a>,
    name: &'a str,
    long: &'a str,
) -> Result<Command<'a>, AllocError>
    ensures { IfOk result (λ r.
        app_of r ≡ with_rule (app_of command.entry) (raw name.entry.now long.entry.now)) }
{
    command.arg(Arg::new(alloc, name).long(long))
}

pub fn discover_matches<'a>(alloc: Global, words: &'a [&'a str]) -> Result<ArgMatches<'a>, Error>
    ensures { IfOk result (AreMatchesOf (codes "--emulated-version"
        ∷ codes "--runtime-config" ∷ [])
        (texts_of words.now)) }
{
    let command = begun(alloc);
    let command = and(alloc, command, "--emulated-version", "emulated-version")?;
    let command = and(alloc, command, "--runtime-config", "runtime-config")?;
    command.try_get_matches_from(words)
}

pub fn gates_matches<'a>(alloc: Global, words: &'a [&'a str]) -> Result<ArgMatches<'a>, Error>
    ensures { IfOk result (AreMatchesOf (codes "--emulated-version"
        ∷ codes "--feature-gates" ∷ [])
        (texts_of words.now)) }
{
    let command = begun(alloc);
    let command = and(alloc, command, "--emulated-version", "emulated-version")?;
    let command = and(alloc, command, "--feature-gates", "feature-gates")?;
    command.try_get_matches_from(words)
}

pub fn cut_matches<'a>(alloc: Global, words: &'a [&'a str]) -> Result<ArgMatches<'a>, Error>
    ensures { IfOk result (AreMatchesOf (codes "--at" ∷ [])
        (texts_of words.now)) }
{
    let command = begun(alloc);
    let command = and(alloc, command, "--at", "at")?;
    command.try_get_matches_from(words)
}

pub fn convert_matches<'a>(alloc: Global, words: &'a [&'a str]) -> Result<ArgMatches<'a>, Error>
    ensures { IfOk result (AreMatchesOf (codes "--emulated-version"
        ∷ codes "--object"
        ∷ codes "--to" ∷ [])
        (texts_of words.now)) }
{
    let command = begun(alloc);
    let command = and(alloc, command, "--emulated-version", "emulated-version")?;
    let command = and(alloc, command, "--object", "object")?;
    let command = and(alloc, command, "--to", "to")?;
    command.try_get_matches_from(words)
}

pub fn twin_matches<'a>(alloc: Global, words: &'a [&'a str]) -> Result<ArgMatches<'a>, Error>
    ensures { IfOk result (AreMatchesOf (codes "--emulated-version"
        ∷ codes "--min-compatibility-version"
        ∷ codes "--feature-gates"
        ∷ codes "--runtime-config"
        ∷ codes "--seed"
        ∷ codes "--size" ∷ [])
        (texts_of words.now)) }
{
    let command = begun(alloc);
    let command = and(alloc, command, "--emulated-version", "emulated-version")?;
    let command = and(
        alloc,
        command,
        "--min-compatibility-version",
        "min-compatibility-version",
    )?;
    let command = and(alloc, command, "--feature-gates", "feature-gates")?;
    let command = and(alloc, command, "--runtime-config", "runtime-config")?;
    let command = and(alloc, command, "--seed", "seed")?;
    let command = and(alloc, command, "--size", "size")?;
    command.try_get_matches_from(words)
}

pub fn serve_matches<'a>(alloc: Global, words: &'a [&'a str]) -> Result<ArgMatches<'a>, Error>
    ensures { IfOk result (AreMatchesOf (codes "--emulated-version"
        ∷ codes "--min-compatibility-version"
        ∷ codes "--feature-gates"
        ∷ codes "--runtime-config"
        ∷ codes "--store"
        ∷ codes "--port"
        ∷ codes "--connections" ∷ [])
        (texts_of words.now)) }
{
    let command = begun(alloc);
    let command = and(alloc, command, "--emulated-version", "emulated-version")?;
    let command = and(
        alloc,
        command,
        "--min-compatibility-version",
        "min-compatibility-version",
    )?;
    let command = and(alloc, command, "--feature-gates", "feature-gates")?;
    let command = and(alloc, command, "--runtime-config", "runtime-config")?;
    let command = and(alloc, command, "--store", "store")?;
    let command = and(alloc, command, "--port", "port")?;
    let command = and(alloc, command, "--connections", "connections")?;
    command.try_get_matches_from(words)
}

pub fn replay_matches<'a>(alloc: Global, words: &'a [&'a str]) -> Result<ArgMatches<'a>, Error>
    ensures { IfOk result (AreMatchesOf (codes "--emulated-version"
        ∷ codes "--min-compatibility-version"
        ∷ codes "--feature-gates"
        ∷ codes "--runtime-config"
        ∷ codes "--store"
        ∷ codes "--script" ∷ [])
        (texts_of words.now)) }
{
    let command = begun(alloc);
    let command = and(alloc, command, "--emulated-version", "emulated-version")?;
    let command = and(
        alloc,
        command,
        "--min-compatibility-version",
        "min-compatibility-version",
    )?;
    let command = and(alloc, command, "--feature-gates", "feature-gates")?;
    let command = and(alloc, command, "--runtime-config", "runtime-config")?;
    let command = and(alloc, command, "--store", "store")?;
    let command = and(alloc, command, "--script", "script")?;
    command.try_get_matches_from(words)
}
