//! Requests as text (HTTP/1.1, RFC 9112).
ghost use Rattle.std.specs.Prelude.{◌≡◌, ◌++◌, IfOk, IfSome, codes, string_bytes};
ghost use Rattle.fields.specs.Fits.{Fits};
ghost use Rattle.fields.specs.Table.{AreLawful};
ghost use Rattle.lifecycle.specs.Names.{group_version};
ghost use Rattle.workload.specs.Requests.{HasBytes, bare_text, collection_path, length_line, method_of, object_path, path_of, request_line, root_of, scope_of, text_with};

use crate::body::body;
use crate::choice::{Action, Choice};
use basis::Memory;
use fields::VersionTable;
use release_view::ServedVersion;
use std::alloc::{AllocError, Global};

fn method_of(action: Action) -> &'static str
    ensures { result.now ≡ method_of action }
{
    match action {
        Action::Create => "POST",
        Action::Replace => "PUT",
        Action::ReadOne | Action::ReadAll => "GET",
        Action::Remove => "DELETE",
    }
}

fn core_root(alloc: Global, version: &str) -> Result<String, AllocError>
    ensures { IfOk result (λ s. string_bytes s ≡ codes "/api/" ++ version.now) }
{
    format!(in alloc; "/api/{version}")
}

fn group_root(alloc: Global, group: &str, version: &str) -> Result<String, AllocError>
    ensures { IfOk result (λ s. string_bytes s ≡ codes "/apis/" ++ (group.now ++ codes "/" ++ version.now)) }
{
    format!(in alloc; "/apis/{group}/{version}")
}

// Where the paths of a version begin.
fn root(alloc: Global, group: &str, version: &str) -> Result<String, AllocError>
    ensures { IfOk result (λ s. string_bytes s ≡ root_of group.now ++ group_version group.now version.now) }
{
    if group.is_empty() {
        core_root(alloc, version)
    } else {
        group_root(alloc, group, version)
    }
}

fn scope_of(namespaced: bool) -> &'static str
    ensures { result.now ≡ scope_of namespaced }
{
    if namespaced {
        "/namespaces/default/"
    } else {
        "/"
    }
}

fn collection_path(alloc: Global, served: &ServedVersion) -> Result<String, AllocError>
    ensures { IfOk result (λ s. string_bytes s ≡ collection_path served.now) }
{
    let mut path = root(alloc, served.group.as_str(), served.version.as_str())?;
    path.push_str(scope_of(served.namespaced))?;
    path.push_str(served.resource.as_str())?;
    Ok(path)
}

fn object_path(alloc: Global, served: &ServedVersion, name: &str) -> Result<String, AllocError>
    ensures { IfOk result (λ s. string_bytes s ≡ object_path served.now name.now) }
{
    let mut path = collection_path(alloc, served)?;
    path.push_str("/")?;
    path.push_str(name)?;
    Ok(path)
}

fn path(
    alloc: Global,
    served: &ServedVersion,
    action: Action,
    name: &str,
) -> Result<String, AllocError>
    ensures { IfOk result (λ s. string_bytes s ≡ path_of served.now action name.now) }
{
    match action {
        Action::Create | Action::ReadAll => collection_path(alloc, served),
        Action::Replace | Action::ReadOne | Action::Remove => object_path(alloc, served, name),
    }
}

// The first line of a request.
fn request_line(alloc: Global, method: &str, path: &str) -> Result<String, AllocError>
    ensures { IfOk result (λ s. string_bytes s ≡ request_line method.now path.now) }
{
    format!(in alloc; "{method} {path} HTTP/1.1\r\n")
}

// The line that tells how many bytes the body has.
fn length_line(alloc: Global, length: usize) -> Result<String, AllocError>
    ensures { IfOk result (λ s. string_bytes s ≡ length_line length) }
{
    format!(in alloc; "Content-Length: {length}\r\n")
}

/// A request without a body.
pub(crate) fn bare_text(alloc: Global, method: &str, path: &str) -> Result<String, AllocError>
    ensures { IfOk result (λ s. string_bytes s ≡ bare_text method.now path.now) }
{
    let mut text = request_line(alloc, method, path)?;
    text.push_str("\r\n")?;
    Ok(text)
}

fn text_with(alloc: Global, method: &str, path: &str, body: &str) -> Result<String, AllocError>
    ensures { IfOk result (λ s. string_bytes s ≡ text_with method.now path.now body.now) }
{
    let mut text = request_line(alloc, method, path)?;
    let line = length_line(alloc, body.len())?;
    text.push_str(line.as_str())?;
    text.push_str("\r\n")?;
    text.push_str(body)?;
    Ok(text)
}

/// The text of the request that is chosen, for objects in the served version of the table.
pub(crate) fn text(
    alloc: Global,
    served: &ServedVersion,
    table: &VersionTable,
    choice: &Choice,
) -> Result<String, Memory>
    requires lawful { AreLawful table.now.rows }
    requires fits { IfSome choice.now.fields (Fits table.now.rows) }
    ensures { IfOk result (λ s. HasBytes served.now table.now choice.now.action choice.now.name
        choice.now.fields (string_bytes s)) }
{
    let method = method_of(choice.action);
    let name = choice.name.as_str();
    let path = path(alloc, served, choice.action, name)?;
    match &choice.fields {
        Some(fields) => {
            let body = body(alloc, table, fields, name)?;
            Ok(text_with(alloc, method, path.as_str(), body.as_str())?)
        }
        None => Ok(bare_text(alloc, method, path.as_str())?),
    }
}
