//! The rows of the table: each command from its settings.
ghost use Rattle.std.specs.Prelude.{◌≡◌, ℕ, List, [], ◌∷◌, IfOk, IfErr, Some, codes};
ghost use Rattle.std.specs.List.{AllByRecursion};
ghost use Rattle.std.specs.declared.option.Option.{Option as TheOption};
ghost use Rattle.words.specs.Assigned.{AreAssigned};
ghost use Rattle.words.specs.Settings.{settings_in, settings_of, texts_of};
ghost use Rattle.words.specs.Table.{Fits, IsGiven, with_flags};
ghost use Rattle.words.specs.declared.command.Command.{Command as TheCommand};
ghost use Rattle.words.specs.declared.command.FlagTexts.{FlagTexts as TheFlagTexts};

use crate::command::{Command, FlagTexts, WordsFault};
use crate::parsing::{
    convert_matches, cut_matches, discover_matches, gates_matches, replay_matches, serve_matches,
    twin_matches,
};
use crate::settings::Given;
use crate::values::{are_named, are_once, number, optional, required};
use clap::ArgMatches;
use std::alloc::Global;

const EMULATED_VERSION: &str = "--emulated-version";

const MIN_COMPATIBILITY_VERSION: &str = "--min-compatibility-version";

const FEATURE_GATES: &str = "--feature-gates";

const RUNTIME_CONFIG: &str = "--runtime-config";

const STORE: &str = "--store";

fn discover(alloc: Global, words: &[&str], settings: &[Given<'_>]) -> Result<Command, WordsFault>
    requires { settings_of (texts_of words.now) ≡ Some (settings_in settings.now) }
    ensures ok { IfOk result (Fits (codes "discover") (settings_in settings.now)) }
    ensures usage { IfErr result (λ e. e ≡ WordsFault.Usage → (c : TheCommand) →
        ¬ Fits (codes "discover") (settings_in settings.now) c) }
{
    if !are_named(settings, &[EMULATED_VERSION, RUNTIME_CONFIG]) {
        return Err(WordsFault::Usage);
    }
    if !are_once(settings, &[EMULATED_VERSION, RUNTIME_CONFIG]) {
        return Err(WordsFault::Usage);
    }
    let Ok(matches) = discover_matches(alloc, words) else {
        return Err(WordsFault::Memory);
    };
    Ok(Command::Discover {
        emulated: optional(alloc, settings, &matches, EMULATED_VERSION)?,
        runtime: optional(alloc, settings, &matches, RUNTIME_CONFIG)?,
    })
}

fn gates(alloc: Global, words: &[&str], settings: &[Given<'_>]) -> Result<Command, WordsFault>
    requires { settings_of (texts_of words.now) ≡ Some (settings_in settings.now) }
    ensures ok { IfOk result (Fits (codes "gates") (settings_in settings.now)) }
    ensures usage { IfErr result (λ e. e ≡ WordsFault.Usage → (c : TheCommand) →
        ¬ Fits (codes "gates") (settings_in settings.now) c) }
{
    if !are_named(settings, &[EMULATED_VERSION, FEATURE_GATES]) {
        return Err(WordsFault::Usage);
    }
    if !are_once(settings, &[EMULATED_VERSION, FEATURE_GATES]) {
        return Err(WordsFault::Usage);
    }
    let Ok(matches) = gates_matches(alloc, words) else {
        return Err(WordsFault::Memory);
    };
    Ok(Command::Gates {
        emulated: optional(alloc, settings, &matches, EMULATED_VERSION)?,
        features: optional(alloc, settings, &matches, FEATURE_GATES)?,
    })
}

fn check(settings: &[Given<'_>]) -> Result<Command, WordsFault>
    ensures ok { IfOk result (Fits (codes "check") (settings_in settings.now)) }
    ensures usage { IfErr result (λ e. e ≡ WordsFault.Usage → (c : TheCommand) →
        ¬ Fits (codes "check") (settings_in settings.now) c) }
{
    if are_named(settings, &[]) {
        Ok(Command::Check)
    } else {
        Err(WordsFault::Usage)
    }
}

fn fold(settings: &[Given<'_>]) -> Result<Command, WordsFault>
    ensures ok { IfOk result (Fits (codes "fold") (settings_in settings.now)) }
    ensures usage { IfErr result (λ e. e ≡ WordsFault.Usage → (c : TheCommand) →
        ¬ Fits (codes "fold") (settings_in settings.now) c) }
{
    if are_named(settings, &[]) {
        Ok(Command::Fold)
    } else {
        Err(WordsFault::Usage)
    }
}

fn cut(alloc: Global, words: &[&str], settings: &[Given<'_>]) -> Result<Command, WordsFault>
    requires { settings_of (texts_of words.now) ≡ Some (settings_in settings.now) }
    ensures ok { IfOk result (Fits (codes "cut") (settings_in settings.now)) }
    ensures usage { IfErr result (λ e. e ≡ WordsFault.Usage → (c : TheCommand) →
        ¬ Fits (codes "cut") (settings_in settings.now) c) }
{
    if !are_named(settings, &["--at"]) {
        return Err(WordsFault::Usage);
    }
    if !are_once(settings, &["--at"]) {
        return Err(WordsFault::Usage);
    }
    let Ok(matches) = cut_matches(alloc, words) else {
        return Err(WordsFault::Memory);
    };
    Ok(Command::Cut {
        at: required(alloc, settings, &matches, "--at")?,
    })
}

fn convert(alloc: Global, words: &[&str], settings: &[Given<'_>]) -> Result<Command, WordsFault>
    requires { settings_of (texts_of words.now) ≡ Some (settings_in settings.now) }
    ensures ok { IfOk result (Fits (codes "convert") (settings_in settings.now)) }
    ensures usage { IfErr result (λ e. e ≡ WordsFault.Usage → (c : TheCommand) →
        ¬ Fits (codes "convert") (settings_in settings.now) c) }
{
    if !are_named(settings, &[EMULATED_VERSION, "--object", "--to"]) {
        return Err(WordsFault::Usage);
    }
    if !are_once(settings, &[EMULATED_VERSION, "--object", "--to"]) {
        return Err(WordsFault::Usage);
    }
    let Ok(matches) = convert_matches(alloc, words) else {
        return Err(WordsFault::Memory);
    };
    Ok(Command::Convert {
        emulated: optional(alloc, settings, &matches, EMULATED_VERSION)?,
        object: required(alloc, settings, &matches, "--object")?,
        to: required(alloc, settings, &matches, "--to")?,
    })
}

fn flag_texts(
    alloc: Global,
    settings: &[Given<'_>],
    matches: &ArgMatches<'_>,
) -> Result<FlagTexts, WordsFault>
    requires { AreAssigned (settings_in settings.now) matches.now }
    ensures ok { IfOk result
        (λ f. AllByRecursion (IsGiven (settings_in settings.now)) (with_flags f [])) }
    ensures usage { IfErr result (λ e. e ≡ WordsFault.Usage → (f : TheFlagTexts) →
        ¬ AllByRecursion (IsGiven (settings_in settings.now)) (with_flags f [])) }
{
    Ok(FlagTexts {
        emulated: optional(alloc, settings, matches, EMULATED_VERSION)?,
        min_compatibility: optional(alloc, settings, matches, MIN_COMPATIBILITY_VERSION)?,
        features: optional(alloc, settings, matches, FEATURE_GATES)?,
        runtime: optional(alloc, settings, matches, RUNTIME_CONFIG)?,
    })
}

fn twin(alloc: Global, words: &[&str], settings: &[Given<'_>]) -> Result<Command, WordsFault>
    requires { settings_of (texts_of words.now) ≡ Some (settings_in settings.now) }
    ensures ok { IfOk result (Fits (codes "twin") (settings_in settings.now)) }
    ensures usage { IfErr result (λ e. e ≡ WordsFault.Usage → (c : TheCommand) →
        ¬ Fits (codes "twin") (settings_in settings.now) c) }
{
    let names = [
        EMULATED_VERSION,
        MIN_COMPATIBILITY_VERSION,
        FEATURE_GATES,
        RUNTIME_CONFIG,
        "--seed",
        "--size",
    ];
    if !are_named(settings, &names) {
        return Err(WordsFault::Usage);
    }
    if !are_once(settings, &names) {
        return Err(WordsFault::Usage);
    }
    let Ok(matches) = twin_matches(alloc, words) else {
        return Err(WordsFault::Memory);
    };
    let flags = flag_texts(alloc, settings, &matches)?;
    let seed = number(settings, &matches, "--seed", 0, u64::MAX)?;
    let size = number(settings, &matches, "--size", 1, 10_000)? as u32;
    Ok(Command::Twin { flags, seed, size })
}

fn serve(alloc: Global, words: &[&str], settings: &[Given<'_>]) -> Result<Command, WordsFault>
    requires { settings_of (texts_of words.now) ≡ Some (settings_in settings.now) }
    ensures ok { IfOk result (Fits (codes "serve") (settings_in settings.now)) }
    ensures usage { IfErr result (λ e. e ≡ WordsFault.Usage → (c : TheCommand) →
        ¬ Fits (codes "serve") (settings_in settings.now) c) }
{
    let names = [
        EMULATED_VERSION,
        MIN_COMPATIBILITY_VERSION,
        FEATURE_GATES,
        RUNTIME_CONFIG,
        STORE,
        "--port",
        "--connections",
    ];
    if !are_named(settings, &names) {
        return Err(WordsFault::Usage);
    }
    if !are_once(settings, &names) {
        return Err(WordsFault::Usage);
    }
    let Ok(matches) = serve_matches(alloc, words) else {
        return Err(WordsFault::Memory);
    };
    let flags = flag_texts(alloc, settings, &matches)?;
    let store = required(alloc, settings, &matches, STORE)?;
    let port = number(settings, &matches, "--port", 1, 65_535)? as u16;
    let connections = number(settings, &matches, "--connections", 1, 1_000_000)? as u32;
    Ok(Command::Serve {
        flags,
        store,
        port,
        connections,
    })
}

fn replay(alloc: Global, words: &[&str], settings: &[Given<'_>]) -> Result<Command, WordsFault>
    requires { settings_of (texts_of words.now) ≡ Some (settings_in settings.now) }
    ensures ok { IfOk result (Fits (codes "replay") (settings_in settings.now)) }
    ensures usage { IfErr result (λ e. e ≡ WordsFault.Usage → (c : TheCommand) →
        ¬ Fits (codes "replay") (settings_in settings.now) c) }
{
    let names = [
        EMULATED_VERSION,
        MIN_COMPATIBILITY_VERSION,
        FEATURE_GATES,
        RUNTIME_CONFIG,
        STORE,
        "--script",
    ];
    if !are_named(settings, &names) {
        return Err(WordsFault::Usage);
    }
    if !are_once(settings, &names) {
        return Err(WordsFault::Usage);
    }
    let Ok(matches) = replay_matches(alloc, words) else {
        return Err(WordsFault::Memory);
    };
    let flags = flag_texts(alloc, settings, &matches)?;
    let store = required(alloc, settings, &matches, STORE)?;
    match required(alloc, settings, &matches, "--script") {
        Ok(script) => Ok(Command::Replay {
            flags,
            store,
            script,
        }),
        Err(fault) => Err(fault),
    }
}

/// The command of this name whose options the settings give.
pub fn command_of(
    alloc: Global,
    name: &str,
    words: &[&str],
    settings: &[Given<'_>],
) -> Result<Command, WordsFault>
    requires { settings_of (texts_of words.now) ≡ Some (settings_in settings.now) }
    ensures ok { IfOk result (Fits name.now (settings_in settings.now)) }
    ensures usage { IfErr result (λ e. e ≡ WordsFault.Usage → (c : TheCommand) →
        ¬ Fits name.now (settings_in settings.now) c) }
{
    match name {
        "discover" => discover(alloc, words, settings),
        "gates" => gates(alloc, words, settings),
        "check" => check(settings),
        "fold" => fold(settings),
        "cut" => cut(alloc, words, settings),
        "convert" => convert(alloc, words, settings),
        "twin" => twin(alloc, words, settings),
        "serve" => serve(alloc, words, settings),
        "replay" => replay(alloc, words, settings),
        _ => Err(WordsFault::Usage),
    }
}
