//! What a release knows of a version, found by going over the entries.
ghost use Rattle.std.specs.Prelude.{◌≡◌, ◌↔◌, ◌&&◌, IsTrue, IfSome, IsUtf8, nat_le, find, option_copied, option_map};
ghost use Rattle.std.specs.List.{list_any};
ghost use Rattle.lifecycle.specs.Entry.{named, IsLive};
ghost use Rattle.lifecycle.specs.Tables.{cutoff, is_of, is_change_by, is_introduction, is_deprecation, is_removal, is_forgetting, has_change, first_change, live, decodable, deprecation_of, warning};
ghost use Rattle.lifecycle.specs.Warnings.{told};

use crate::entry::{ApiChange, ApiEntry, ApiName};
use minor_version::{Minor, text_is_utf8};

/// What a client is told that uses a deprecated version.
#[derive(Clone, Copy, Debug)]
pub struct Warning<'a> {
    /// The release since which the version is deprecated.
    pub since: Minor,
    /// The release for which its removal is planned.
    pub removal: Minor,
    /// The version of the same resource to use in its place, a text.
    pub replacement: &'a [u8],
}

impl ApiChange {
    /// Whether the version appears.
    pub fn is_introduction(&self) -> bool
        ensures { result ≡ is_introduction self.now }
    {
        matches!(self, ApiChange::Introduced { .. })
    }

    /// Whether the version's removal is planned.
    pub fn is_deprecation(&self) -> bool
        ensures { result ≡ is_deprecation self.now }
    {
        matches!(self, ApiChange::Deprecated { .. })
    }

    /// Whether the version is served no more.
    pub fn is_removal(&self) -> bool
        ensures { result ≡ is_removal self.now }
    {
        matches!(self, ApiChange::Removed)
    }

    /// Whether objects in the version aren't read any more.
    pub fn is_forgetting(&self) -> bool
        ensures { result ≡ is_forgetting self.now }
    {
        matches!(self, ApiChange::Forgotten)
    }
}

impl ApiEntry {
    /// What a client is told of the deprecation, where the entry is one.
    pub fn warning(&self) -> Option<Warning<'_>>
        ensures told { option_map told result ≡ deprecation_of self.now.since self.now.change }
        ensures text { IfSome result (λ w. IsUtf8 w.replacement.now) }
    {
        match &self.change {
            ApiChange::Deprecated {
                removal,
                replacement,
            } => {
                text_is_utf8(replacement);
                Some(Warning {
                    since: self.since,
                    removal: *removal,
                    replacement: replacement.bytes(),
                })
            }
            _ => None,
        }
    }
}

fn is_of(entry: &ApiEntry, name: ApiName<'_>) -> bool
    ensures { result ≡ is_of (named name.entry) entry.now }
{
    entry.group.bytes() == name.group
        && entry.version.bytes() == name.version
        && entry.resource.bytes() == name.resource
}

fn is_introduced(entries: &[ApiEntry], name: ApiName<'_>, e: Minor) -> bool
    ensures { result ≡ list_any (is_change_by is_introduction (named name.entry) e) entries.now }
{
    entries.iter().any(|x| x.since <= e && (is_of(x, name) && x.change.is_introduction()))
}

fn is_removed(entries: &[ApiEntry], name: ApiName<'_>, e: Minor) -> bool
    ensures { result ≡ list_any (is_change_by is_removal (named name.entry) e) entries.now }
{
    entries.iter().any(|x| x.since <= e && (is_of(x, name) && x.change.is_removal()))
}

fn is_forgotten(entries: &[ApiEntry], name: ApiName<'_>, e: Minor) -> bool
    ensures { result ≡ list_any (is_change_by is_forgetting (named name.entry) e) entries.now }
{
    entries.iter().any(|x| x.since <= e && (is_of(x, name) && x.change.is_forgetting()))
}

fn deprecation<'a>(entries: &'a [ApiEntry], name: ApiName<'_>, e: Minor) -> Option<&'a ApiEntry>
    ensures { option_copied result
        ≡ find (is_change_by is_deprecation (named name.entry) e) entries.now }
{
    entries.iter().find(|x| x.since <= e && (is_of(x, name) && x.change.is_deprecation()))
}

/// Whether the version is there at the release: introduced at or before it, and not removed.
pub fn live_at(entries: &[ApiEntry], name: ApiName<'_>, e: Minor) -> bool
    ensures tables { result ≡ live (cutoff entries.now e) (named name.entry) }
    ensures dated { IsTrue result ↔ IsLive entries.now (named name.entry) e }
{
    is_introduced(entries, name, e) && !is_removed(entries, name, e)
}

/// Whether stored objects in the version are read at the release: introduced at or before it, and not forgotten.
pub fn decodable_at(entries: &[ApiEntry], name: ApiName<'_>, e: Minor) -> bool
    ensures { result ≡ decodable (cutoff entries.now e) (named name.entry) }
{
    is_introduced(entries, name, e) && !is_forgotten(entries, name, e)
}

/// What a client is told that uses the version at the release: where the version is live and a deprecation of it is
/// dated at or before the release. Of several the first in the list counts.
pub fn warning_at<'a>(entries: &'a [ApiEntry], name: ApiName<'_>, e: Minor) -> Option<Warning<'a>>
    ensures told { option_map told result ≡ warning (cutoff entries.now e) (named name.entry) }
    ensures text { IfSome result (λ w. IsUtf8 w.replacement.now) }
{
    if !live_at(entries, name, e) {
        return None;
    }
    match deprecation(entries, name, e) {
        Some(entry) => entry.warning(),
        None => None,
    }
}
