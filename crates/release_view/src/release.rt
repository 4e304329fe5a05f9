ghost use Rattle.std.specs.Prelude.{◌≡◌, ◌≢◌, ◌↔◌, ◌++◌, ℕ, List, IsTrue, IsUtf8, IfSome, IfNone, codes, find, option_copied, option_map, is_some};
ghost use Rattle.fields.specs.Table.{AreLawful};
ghost use Rattle.lifecycle.specs.Entry.{named};
ghost use Rattle.lifecycle.specs.Warnings.{told};
ghost use Rattle.release_view.specs.Kept.{IsKept};
ghost use Rattle.release_view.specs.Known.{AreInPlace, deprecation, table_name};
ghost use Rattle.release_view.specs.Laws.{FindsEach, TellsTables};
ghost use Rattle.release_view.specs.Served.{served_of, shown_name};
ghost use Rattle.release_view.specs.Spelling.{SpellAlike};
ghost use Rattle.release_view.specs.Views.{has_name, is_shown_as, version_in, table_in, has_version_text, is_of_kind, is_of_resource, kind_table_in, version_table_in, served_in, warning_in, is_live_of, has_live, best_table_in, IsBestTable, IsOfKind, IsOfResource};

use crate::known::{KnownVersion, Planned};
use crate::served::ServedVersion;
use fields::VersionTable;
use gate_flags::GateValues;
use lifecycle::{ApiName, Warning};
use minor_version::{Minor, text_is_utf8};
use std::marker::Model;

/// What a release knows and serves: its tables, with the values of its gates and the versions that are switched on.
#[derive(Debug, Drop)]
pub struct View {
    minor: Minor,
    gates: GateValues,
    versions: Vec<KnownVersion>,
    served: Vec<ServedVersion>,
}

impl Model for View {
    ghost use Rattle.release_view.specs.Views.{Viewed};
    ghost use Rattle.release_view.specs.Fields.{viewed, IsSound};

    ghost Value = { Viewed };

    ghost view = { viewed };

    ghost invariant = { IsSound };
}

impl Planned {
    fn warning(&self) -> Warning<'_>
        ensures told { told result ≡ deprecation self.now }
        ensures text { IsUtf8 result.replacement.now }
    {
        text_is_utf8(&self.replacement);
        Warning {
            since: self.since,
            removal: self.removal,
            replacement: self.replacement.bytes(),
        }
    }
}

fn has_name(version: &KnownVersion, name: ApiName<'_>) -> bool
    ensures { result ≡ has_name (named name.entry) version.now }
{
    version.table.group.bytes() == name.group
        && version.table.version.bytes() == name.version
        && version.table.resource.bytes() == name.resource
}

fn is_shown_as(version: &ServedVersion, name: ApiName<'_>) -> bool
    ensures { result ≡ is_shown_as (named name.entry) version.now }
{
    version.group.bytes() == name.group
        && version.version.bytes() == name.version
        && version.resource.bytes() == name.resource
}

fn is_live_of(version: &KnownVersion, group: &[u8], resource: &[u8]) -> bool
    ensures { result ≡ is_live_of group.now resource.now version.now }
{
    version.live
        && version.table.group.bytes() == group
        && version.table.resource.bytes() == resource
}

fn behind<'a>(text: &'a str, front: &str) -> Option<&'a str>
    ensures some { IfSome result (λ rest. text.now ≡ front.now ++ rest.now) }
    ensures none { IfNone result ((rest : List ℕ) → text.now ≢ front.now ++ rest) }
{
    text.strip_prefix(front)
}

fn is_joined(text: &str, group: &str, version: &str) -> bool
    ensures { IsTrue result ↔ (text.now ≡ group.now ++ codes "/" ++ version.now) }
{
    let Some(rest) = behind(text, group) else {
        return false;
    };
    match behind(rest, "/") {
        Some(rest) => rest == version,
        None => false,
    }
}

fn has_version_text(version: &KnownVersion, text: &str) -> bool
    ensures { result ≡ has_version_text text.now version.now }
{
    let group = version.table.group.as_str();
    let version = version.table.version.as_str();
    if group.is_empty() {
        version == text
    } else {
        is_joined(text, group, version)
    }
}

fn is_of_kind(version: &KnownVersion, text: &str, kind: &str) -> bool
    ensures { result ≡ is_of_kind text.now kind.now version.now }
{
    has_version_text(version, text) && version.table.kind.as_str() == kind
}

fn is_of_resource(version: &KnownVersion, text: &str, group: &[u8], resource: &[u8]) -> bool
    ensures { result ≡ is_of_resource text.now group.now resource.now version.now }
{
    has_version_text(version, text)
        && version.table.group.bytes() == group
        && version.table.resource.bytes() == resource
}

fn version_in<'a>(versions: &'a [KnownVersion], name: ApiName<'_>) -> Option<&'a KnownVersion>
    ensures { option_copied result ≡ version_in versions.now (named name.entry) }
{
    versions.iter().find(|version| has_name(version, name))
}

fn of_kind_in<'a>(versions: &'a [KnownVersion], text: &str, kind: &str) -> Option<&'a KnownVersion>
    ensures { option_copied result ≡ find (is_of_kind text.now kind.now) versions.now }
{
    versions
        .iter()
        .find(|version| is_of_kind(version, text, kind))
}

fn of_resource_in<'a>(
    versions: &'a [KnownVersion],
    text: &str,
    group: &[u8],
    resource: &[u8],
) -> Option<&'a KnownVersion>
    ensures { option_copied result
        ≡ find (is_of_resource text.now group.now resource.now) versions.now }
{
    versions
        .iter()
        .find(|version| is_of_resource(version, text, group, resource))
}

// The first of the resource's live versions, which is the most stable one.
fn first_live<'a>(
    versions: &'a [KnownVersion],
    group: &[u8],
    resource: &[u8],
) -> Option<&'a KnownVersion>
    ensures { option_copied result ≡ find (is_live_of group.now resource.now) versions.now }
{
    versions
        .iter()
        .find(|version| is_live_of(version, group, resource))
}

impl View {
    pub(crate) fn new(
        minor: Minor,
        gates: GateValues,
        versions: Vec<KnownVersion>,
        served: Vec<ServedVersion>,
    ) -> View
        requires kept { IsKept
            (record { minor = minor; gates = gates; versions = versions.items }) }
        requires listed { served.items ≡ served_of versions.items }
        ensures minor { result.minor ≡ minor }
        ensures gates { result.gates ≡ gates }
        ensures versions { result.versions ≡ versions.items }
    {
        View {
            minor,
            gates,
            versions,
            served,
        }
    }

    /// The release.
    pub fn minor(&self) -> Minor
        ensures { result ≡ self.now.minor }
    {
        self.minor
    }

    /// The served versions, by group, then from the most stable on, then by resource.
    pub fn served(&self) -> &[ServedVersion]
        ensures value { result.now ≡ served_of self.now.versions }
        ensures order { AreInPlace self.now.versions }
    {
        self.served.as_slice()
    }

    /// The version as it is served. None where it isn't.
    pub fn find(&self, name: ApiName<'_>) -> Option<&ServedVersion>
        ensures value { option_copied result ≡ served_in self.now.versions (named name.entry) }
        ensures name { IfSome result (λ s. shown_name s.now ≡ named name.entry) }
    {
        self.served
            .iter()
            .find(|version| is_shown_as(version, name))
    }

    /// The version's table. None where objects in the version aren't read at the release.
    pub fn table(&self, name: ApiName<'_>) -> Option<&VersionTable>
        ensures value { option_copied result ≡ table_in self.now.versions (named name.entry) }
        ensures name { IfSome result (λ t. table_name t.now ≡ named name.entry) }
        ensures lawful { IfSome result (λ t. AreLawful t.now.rows) }
    {
        match version_in(self.versions.as_slice(), name) {
            Some(version) => Some(&version.table),
            None => None,
        }
    }

    /// The table of the version that objects with this `apiVersion` and `kind` are in. None where there is none that is
    /// read at the release.
    pub fn table_of_kind(&self, api_version: &str, kind: &str) -> Option<&VersionTable>
        ensures value { option_copied result
            ≡ kind_table_in self.now.versions api_version.now kind.now }
        ensures kind { IfSome result (λ t. IsOfKind api_version.now kind.now t.now) }
        ensures lawful { IfSome result (λ t. AreLawful t.now.rows) }
    {
        match of_kind_in(self.versions.as_slice(), api_version, kind) {
            Some(version) => Some(&version.table),
            None => None,
        }
    }

    /// The table of the resource's version with this `apiVersion`. None where there is none that is read at the
    /// release.
    pub fn table_of_version(
        &self,
        api_version: &str,
        group: &[u8],
        resource: &[u8],
    ) -> Option<&VersionTable>
        ensures value { option_copied result
            ≡ version_table_in self.now.versions api_version.now group.now resource.now }
        ensures name { IfSome result
            (λ t. IsOfResource api_version.now group.now resource.now t.now) }
        ensures lawful { IfSome result (λ t. AreLawful t.now.rows) }
    {
        match of_resource_in(self.versions.as_slice(), api_version, group, resource) {
            Some(version) => Some(&version.table),
            None => None,
        }
    }

    /// Whether some version of the resource is live.
    pub fn kind_live(&self, group: &[u8], resource: &[u8]) -> bool
        ensures { result ≡ has_live self.now.versions group.now resource.now }
    {
        self.versions
            .iter()
            .any(|version| is_live_of(version, group, resource))
    }

    /// The table of the most stable live version of the resource. None where none is live.
    pub fn live_best(&self, group: &[u8], resource: &[u8]) -> Option<&VersionTable>
        ensures value { option_copied result
            ≡ best_table_in self.now.versions group.now resource.now }
        ensures best { IfSome result
            (λ t. IsBestTable self.now.versions group.now resource.now t.now) }
        ensures there { is_some result ≡ has_live self.now.versions group.now resource.now }
        ensures lawful { IfSome result (λ t. AreLawful t.now.rows) }
    {
        match first_live(self.versions.as_slice(), group, resource) {
            Some(version) => Some(&version.table),
            None => None,
        }
    }

    /// What a client is told that uses the version: its first deprecation, while it is live.
    pub fn warning(&self, name: ApiName<'_>) -> Option<Warning<'_>>
        ensures told { option_map told result ≡ warning_in self.now.versions (named name.entry) }
        ensures text { IfSome result (λ w. IsUtf8 w.replacement.now) }
    {
        match version_in(self.versions.as_slice(), name) {
            Some(
                KnownVersion {
                    warning: Some(planned),
                    ..
                },
            ) => Some(planned.warning()),
            _ => None,
        }
    }

    /// The values of the gates.
    pub fn gates(&self) -> &GateValues
        ensures { result.now ≡ self.now.gates }
    {
        &self.gates
    }
}

// The laws of a view, each as the contract of a function that does nothing.

/// What the type of a view keeps: its versions are in order, each with the word of its text, and what is served is
/// live. Their tables are lawful, and those of a resource spell the same fields. The gates are in order of their
/// names.
pub fn view_is_kept(view: &View)
    ensures { IsKept view.now }
{
    let _versions = &view.versions;
}

/// The versions of one resource in a view spell the same fields.
pub fn versions_spell_alike(view: &View)
    ensures { SpellAlike view.now.versions }
{
    let _versions = &view.versions;
}

/// Of a view's versions each is the one that is found: by its name, by its texts, and as the best of its resource,
/// which so is one.
pub fn view_finds_each(view: &View)
    ensures { FindsEach view.now.versions }
{
    let _versions = &view.versions;
}

/// What is looked up in a view is what the tables of its release say, and what is served.
pub fn view_tells_tables(view: &View)
    ensures { TellsTables view.now }
{
    let _versions = &view.versions;
}
