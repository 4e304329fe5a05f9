//! How serving ended, and why a store isn't served.
ghost use Rattle.std.specs.Prelude.{◌≡◌, ◌++◌, IfOk, codes, string_bytes, decimal};
ghost use Rattle.answer_lines.specs.Serving.{file_name, not_a_store_line, served_line, unreadable_line};

use basis::Memory;
use disk::File;
use minor_version::Minor;
use object_journal::Key;
use std::alloc::{AllocError, Global};

/// How many requests were answered, and the revision of the state then.
pub fn served(alloc: Global, requests: u64, revision: u64) -> Result<String, AllocError>
    ensures { IfOk result (λ s. string_bytes s ≡ served_line requests revision) }
{
    format!(in alloc; "served {requests} requests, revision {revision}\n")
}

fn name_of(file: File) -> &'static str
    ensures { result.now ≡ file_name file }
{
    match file {
        File::Choice => "choice",
        File::Left => "left",
        File::Right => "right",
    }
}

/// In which file of the store, and at which byte, the journal's grammar is broken.
pub fn not_a_store(alloc: Global, file: File, at: u64) -> Result<String, AllocError>
    ensures { IfOk result (λ s. string_bytes s ≡ not_a_store_line file at) }
{
    let file = name_of(file);
    format!(in alloc; "store: not a store: {file} at {at}\n")
}

fn key_of(
    alloc: Global,
    group: &str,
    resource: &str,
    namespace: &str,
    name: &str,
) -> Result<String, AllocError>
    ensures { IfOk result (λ s. string_bytes s ≡ group.now ++ (codes "/" ++ (resource.now
        ++ (codes " " ++ (namespace.now ++ (codes "/" ++ name.now)))))) }
{
    format!(in alloc; "{group}/{resource} {namespace}/{name}")
}

fn unread(alloc: Global, key: &str, version: &str, minor: &str) -> Result<String, AllocError>
    ensures { IfOk result (λ s. string_bytes s ≡ codes "store: " ++ (key.now ++ (codes " in "
        ++ (version.now ++ (codes ": not readable in " ++ (minor.now ++ codes "\n")))))) }
{
    format!(in alloc; "store: {key} in {version}: not readable in {minor}\n")
}

/// Which record isn't readable: its key, the version that its body tells, and the release that doesn't read it.
pub fn unreadable(alloc: Global, key: &Key, version: &str, minor: Minor) -> Result<String, Memory>
    ensures { IfOk result (λ s. string_bytes s ≡ unreadable_line key.now version.now minor) }
{
    let of_key = key_of(
        alloc,
        key.group.as_str(),
        key.resource.as_str(),
        key.namespace.as_str(),
        key.name.as_str(),
    )?;
    let minor = minor.text(alloc)?;
    let text = unread(alloc, of_key.as_str(), version, minor.as_str())?;
    Ok(text)
}
