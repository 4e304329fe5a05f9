//! The values that settings give to options.
ghost use Rattle.std.specs.Prelude.{◌≡◌, ◌≢◌, ◌↔◌, ◌≤◌, IsTrue, ℕ, List, [], ◌∷◌, IfOk, IfErr, IfSome, IfNone};
ghost use Rattle.std.specs.List.{list_any, list_all};
ghost use Rattle.std.specs.Option.{option_to_list};
ghost use Rattle.std.specs.Str.{bytes_eq};
ghost use Rattle.std.specs.declared.option.Option.{Option as TheOption};
ghost use Rattle.words.specs.Assigned.{AreAssigned};
ghost use Rattle.words.specs.Settings.{texts_of, setting_of, settings_in};
ghost use Rattle.words.specs.Table.{is_named, is_once, IsGiven, may, must, number, text_of, value_for, values_of};

use crate::command::WordsFault;
use crate::decimal::decimal_number;
use crate::settings::Given;
use clap::ArgMatches;
use minor_version::Text;
use std::alloc::Global;

fn is_named(setting: &Given<'_>, names: &[&str]) -> bool
    ensures { result ≡ list_any (λ name. bytes_eq setting.now.name.now name.now) names.now }
{
    names.iter().any(|name| setting.name == *name)
}

/// Whether each of the settings is of one of these options.
pub fn are_named(settings: &[Given<'_>], names: &[&str]) -> bool
    ensures { result ≡ list_all (is_named (texts_of names.now)) (settings_in settings.now) }
{
    settings.iter().all(|setting| is_named(setting, names))
}

fn value_for<'a>(setting: &Given<'a>, name: &str) -> Option<&'a str>
    ensures { text_of result ≡ value_for name.now (setting_of setting.now) }
{
    if setting.name == name {
        Some(setting.value)
    } else {
        None
    }
}

/// The value of an option that the settings give at most once. None where they give it more often.
fn only_value<'a>(settings: &[Given<'a>], name: &str) -> Option<Option<&'a str>>
    ensures some { IfSome result
        (λ o. values_of name.now (settings_in settings.now) ≡ option_to_list (text_of o)) }
    ensures none { IfNone result ((x : TheOption (List ℕ)) →
        values_of name.now (settings_in settings.now) ≢ option_to_list x) }
{
    let mut found = None;
    for setting in settings {
        let Some(value) = value_for(setting, name) else {
            continue;
        };
        if found.is_some() {
            return None;
        }
        found = Some(value);
    }
    Some(found)
}

/// Whether the settings give each of these options at most once.
pub fn are_once(settings: &[Given<'_>], names: &[&str]) -> bool
    ensures { result ≡ list_all (λ name. is_once name.now (settings_in settings.now)) names.now }
{
    names.iter().all(|name| is_once(settings, name))
}

fn is_once(settings: &[Given<'_>], name: &str) -> bool
    ensures { result ≡ is_once name.now (settings_in settings.now) }
{
    only_value(settings, name).is_some()
}

/// The value that `clap` assigns to an option which the settings give at most once.
fn assigned_value<'a>(
    settings: &[Given<'_>],
    matches: &ArgMatches<'a>,
    name: &str,
) -> Option<Option<&'a str>>
    requires { AreAssigned (settings_in settings.now) matches.now }
    ensures some { IfSome result
        (λ o. values_of name.now (settings_in settings.now) ≡ option_to_list (text_of o)) }
    ensures none { IfNone result ((x : TheOption (List ℕ)) →
        values_of name.now (settings_in settings.now) ≢ option_to_list x) }
{
    match only_value(settings, name) {
        Some(_) => Some(matches.get_str(name)),
        None => None,
    }
}

fn copy_of(alloc: Global, text: &str) -> Result<Text, WordsFault>
    ensures ok { IfOk result (λ t. t ≡ text.now) }
    ensures memory { IfErr result (λ e. e ≡ WordsFault.Memory) }
{
    match Text::from_str(alloc, text) {
        Ok(text) => Ok(text),
        Err(_) => Err(WordsFault::Memory),
    }
}

/// The text of an option that may be left out.
pub fn optional(
    alloc: Global,
    settings: &[Given<'_>],
    matches: &ArgMatches<'_>,
    name: &str,
) -> Result<Option<Text>, WordsFault>
    requires { AreAssigned (settings_in settings.now) matches.now }
    ensures ok { IfOk result (λ o. IsGiven (settings_in settings.now) (may name.now o)) }
    ensures usage { IfErr result (λ e. e ≡ WordsFault.Usage → (x : TheOption (List ℕ)) →
        ¬ IsGiven (settings_in settings.now) (may name.now x)) }
{
    match assigned_value(settings, matches, name) {
        Some(Some(value)) => match copy_of(alloc, value) {
            Ok(text) => Ok(Some(text)),
            Err(fault) => Err(fault),
        },
        Some(None) => Ok(None),
        None => Err(WordsFault::Usage),
    }
}

/// The value of an option that the settings give once.
fn one_value<'a>(settings: &[Given<'_>], matches: &ArgMatches<'a>, name: &str) -> Option<&'a str>
    requires { AreAssigned (settings_in settings.now) matches.now }
    ensures some { IfSome result
        (λ v. values_of name.now (settings_in settings.now) ≡ v.now ∷ []) }
    ensures none { IfNone result ((t : List ℕ) →
        values_of name.now (settings_in settings.now) ≢ t ∷ []) }
{
    let Some(found) = assigned_value(settings, matches, name) else {
        return None;
    };
    found
}

/// The text of an option that is required.
pub fn required(
    alloc: Global,
    settings: &[Given<'_>],
    matches: &ArgMatches<'_>,
    name: &str,
) -> Result<Text, WordsFault>
    requires { AreAssigned (settings_in settings.now) matches.now }
    ensures ok { IfOk result (λ t. IsGiven (settings_in settings.now) (must name.now t)) }
    ensures usage { IfErr result (λ e. e ≡ WordsFault.Usage → (t : List ℕ) →
        ¬ IsGiven (settings_in settings.now) (must name.now t)) }
{
    match one_value(settings, matches, name) {
        Some(value) => copy_of(alloc, value),
        None => Err(WordsFault::Usage),
    }
}

fn is_between(n: u64, low: u64, high: u64) -> bool
    ensures { IsTrue result ↔ ((low ≤ n) × (n ≤ high)) }
{
    low <= n && n <= high
}

/// The number of an option that is required, from the one to the other.
pub fn number(
    settings: &[Given<'_>],
    matches: &ArgMatches<'_>,
    name: &str,
    low: u64,
    high: u64,
) -> Result<u64, WordsFault>
    requires { AreAssigned (settings_in settings.now) matches.now }
    ensures ok { IfOk result
        (λ n. IsGiven (settings_in settings.now) (number name.now low high n)) }
    ensures usage { IfErr result (λ e. (n : ℕ) →
        ¬ IsGiven (settings_in settings.now) (number name.now low high n)) }
{
    let Some(text) = one_value(settings, matches, name) else {
        return Err(WordsFault::Usage);
    };
    let Some(n) = decimal_number(text) else {
        return Err(WordsFault::Usage);
    };
    if is_between(n, low, high) {
        Ok(n)
    } else {
        Err(WordsFault::Usage)
    }
}
