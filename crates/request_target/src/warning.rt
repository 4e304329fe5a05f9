//! What a client is told that uses a deprecated version: the text of a `Warning` line (RFC 7234),
//! in the manner of Kubernetes.
ghost use Rattle.std.specs.Prelude.{◌≡◌, ◌++◌, All, IfOk, IsUtf8, option_map, string_bytes};
ghost use Rattle.lifecycle.specs.Warnings.{told};
ghost use Rattle.request_target.specs.Plain.{HasPlainNames, WarnsPlainly};
ghost use Rattle.request_target.specs.Targets.{asked, resource_seen};
ghost use Rattle.request_target.specs.Warnings.{deprecated_text, instead_text, warning, warning_line, warning_on};

use crate::target::{Resource, Target};
use basis::Memory;
use discovery::group_version;
use lifecycle::Warning;
use minor_version::{Text, TextFault};
use release_view::{ServedVersion, View};
use std::alloc::{AllocError, Global};

fn deprecated_text(
    alloc: Global,
    version: &str,
    kind: &str,
    since: &str,
) -> Result<String, AllocError>
    ensures { IfOk result (λ s. string_bytes s ≡ deprecated_text version.now kind.now since.now) }
{
    format!(in alloc; "299 - \"{version} {kind} is deprecated in v{since}+")
}

fn instead_text(alloc: Global, removal: &str, other: &str, kind: &str) -> Result<String, AllocError>
    ensures { IfOk result (λ s. string_bytes s ≡ instead_text removal.now other.now kind.now) }
{
    format!(in alloc; ", unavailable in v{removal}+; use {other} {kind}\"")
}

fn joined(alloc: Global, front: &str, back: &str) -> Result<String, AllocError>
    ensures { IfOk result (λ s. string_bytes s ≡ front.now ++ back.now) }
{
    format!(in alloc; "{front}{back}")
}

// The version to use.
fn replacement(alloc: Global, warning: &Warning<'_>) -> Result<Text, Memory>
    requires { IsUtf8 warning.now.replacement.now }
    ensures { IfOk result (λ t. t ≡ warning.now.replacement.now) }
{
    match Text::copy(alloc, warning.replacement) {
        Ok(text) => Ok(text),
        Err(TextFault::NotUtf8) => unreachable!(),
        Err(TextFault::Memory) => Err(Memory),
    }
}

fn warning_line(
    alloc: Global,
    served: &ServedVersion,
    warning: &Warning<'_>,
) -> Result<Text, Memory>
    requires { IsUtf8 warning.now.replacement.now }
    ensures { IfOk result (λ t. t ≡ warning_line served.now (told warning.now)) }
{
    let version = group_version(alloc, &served.group, &served.version)?;
    let other = replacement(alloc, warning)?;
    let other = group_version(alloc, &served.group, &other)?;
    let since = warning.since.text(alloc)?;
    let removal = warning.removal.text(alloc)?;
    let kind = served.kind.as_str();
    let front = deprecated_text(alloc, version.as_str(), kind, since.as_str())?;
    let back = instead_text(alloc, removal.as_str(), other.as_str(), kind)?;
    let text = joined(alloc, front.as_str(), back.as_str())?;
    Text::from_str(alloc, text.as_str())
}

fn warning_on(alloc: Global, view: &View, of: Resource<'_>) -> Result<Option<Text>, Memory>
    ensures { IfOk result (λ w. w ≡ warning_on view.now (resource_seen of.entry)) }
{
    match view.warning(of.name()) {
        Some(warning) => Ok(Some(warning_line(alloc, of.served, &warning)?)),
        None => Ok(None),
    }
}

/// What a client is told that asks for this: the warning on the version of a resource, where that is
/// deprecated. None of pages, and where nothing is asked for.
pub fn warning_of(
    alloc: Global,
    view: &View,
    target: Option<Target<'_>>,
) -> Result<Option<Text>, Memory>
    ensures { IfOk result (λ w. w ≡ warning view.now (option_map asked target.entry)) }
{
    let Some(target) = target else {
        return Ok(None);
    };
    match target.resource() {
        Some(of) => warning_on(alloc, view, of),
        None => Ok(None),
    }
}

/// Where the names of a view's versions have no line breaks, its warnings have none, so that they can
/// stand in a reply's head. Nothing is computed here; the law is the contract.
pub fn plain_names_warn_plainly(view: &View)
    requires { All HasPlainNames view.now.versions }
    ensures { WarnsPlainly view.now }
{
    let _view = view;
}
