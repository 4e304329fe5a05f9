//! Versions of resources, as a view holds them.
use fields::VersionTable;
use lifecycle::VersionWord;
use minor_version::{Minor, Text};

/// A deprecation of a version: the release since which it holds, the planned removal and the version to use.
#[derive(Debug, Drop)]
pub struct Planned {
    pub since: Minor,
    pub removal: Minor,
    pub replacement: Text,
}

/// A version of a resource whose stored objects a release reads, and what the release knows of it.
#[derive(Debug, Drop)]
pub struct KnownVersion {
    pub table: VersionTable,
    pub word: VersionWord,
    pub singular: Text,
    pub namespaced: bool,
    pub live: bool,
    pub served: bool,
    /// What a client is told that uses the version.
    pub warning: Option<Planned>,
}
