//! Answers to requests, one function each, and the replies that carry them.
ghost use Rattle.std.specs.Prelude.{◌≡◌, ◌++◌, ℕ, List, codes, IfOk, option_copied, string_bytes, false};
ghost use Rattle.conversion.specs.Paths.{dotted, fault_text};
ghost use Rattle.discovery.specs.Metrics.{metrics_page};
ghost use Rattle.object_pages.specs.Documents.{deleted_tree, document_text};
ghost use Rattle.request_body.specs.Members.{member_text};
ghost use Rattle.request_target.specs.Methods.{allow_text};
ghost use Rattle.request_target.specs.Targets.{resource_seen};
ghost use Rattle.plain_machine.specs.Answers.{document, is_head, metrics_answer, refusal, reply_to};
ghost use Rattle.plain_machine.specs.Refusals.{bad_body_answer, bad_field_answer, bad_member_answer, bad_query_answer, conflict_answer, conflict_text, ended_answer, exists_answer, full_answer, kind_text, missing_answer, no_length_answer, no_object_answer, not_allowed_answer, not_served_answer, object_text, too_large_answer, with_group};
ghost use Rattle.serde_json.specs.View.{view as tree_of};
ghost use Rattle.serde_json.specs.Written.{has_float};

use basis::Memory;
use conversion::{ReadCause, dotted, fault_text};
use discovery::metrics;
use http_front::{Page, Reply, Request, Verb, refusal_body};
use minor_version::{Blob, Text};
use object_pages::{deletion_page, document_body};
use release_view::View;
use request_body::Member;
use request_target::{Methods, Resource};
use serde_json::Value;
use std::alloc::{AllocError, Global};

/// The answer to a request, which its reply carries.
#[derive(Debug, Drop)]
pub(crate) struct Answer {
    pub code: u16,
    pub page: Page,
    /// The methods that the `Allow` line names; empty where there is no such line.
    pub allow: Text,
    pub body: Blob,
}

// ---- documents

/// The answer with this code that carries the document.
pub(crate) fn document(alloc: Global, code: u16, json: &Value) -> Result<Answer, Memory>
    requires { has_float (tree_of json.now) ≡ false }
    ensures { IfOk result (λ a. a ≡ document code (tree_of json.now)) }
{
    let body = document_body(alloc, json)?;
    Ok(Answer {
        code,
        page: Page::Json,
        allow: Text::from_str(alloc, "")?,
        body,
    })
}

/// The page of the gates' values.
pub(crate) fn gates_page(alloc: Global, view: &View) -> Result<Answer, Memory>
    ensures { IfOk result (λ a. a ≡ metrics_answer (metrics_page view.now)) }
{
    let body = metrics(alloc, view)?;
    Ok(Answer {
        code: 200,
        page: Page::Metrics,
        allow: Text::from_str(alloc, "")?,
        body,
    })
}

/// The answer to a deletion.
pub(crate) fn deleted(alloc: Global) -> Result<Answer, Memory>
    ensures { IfOk result (λ a. a ≡ document 200 deleted_tree) }
{
    let page = deletion_page(alloc)?;
    document(alloc, 200, &page)
}

// ---- refusals

fn refusal(alloc: Global, code: u16, reason: &str, message: &str) -> Result<Answer, Memory>
    ensures { IfOk result (λ a. a ≡ refusal code reason.now message.now) }
{
    let body = refusal_body(alloc, code, message, reason)?;
    Ok(Answer {
        code,
        page: Page::Json,
        allow: Text::from_str(alloc, "")?,
        body,
    })
}

/// The path names nothing that is served.
pub(crate) fn not_served(alloc: Global) -> Result<Answer, Memory>
    ensures { IfOk result (λ a. a ≡ not_served_answer) }
{
    refusal(
        alloc,
        404,
        "NotFound",
        "the server could not find the requested resource",
    )
}

/// What is asked for hasn't the method. The answer tells those that it has.
pub(crate) fn not_allowed(alloc: Global, methods: Methods) -> Result<Answer, Memory>
    ensures { IfOk result (λ a. a ≡ not_allowed_answer methods) }
{
    let message = "the server does not allow this method on the requested resource";
    let body = refusal_body(alloc, 405, message, "MethodNotAllowed")?;
    Ok(Answer {
        code: 405,
        page: Page::Json,
        allow: Text::from_str(alloc, methods.text())?,
        body,
    })
}

fn query_message(alloc: Global, name: &str) -> Result<String, AllocError>
    ensures { IfOk result (λ s. string_bytes s
        ≡ codes "query " ++ (name.now ++ codes " is not supported")) }
{
    format!(in alloc; "query {name} is not supported")
}

/// The query asks for something that isn't supported.
pub(crate) fn bad_query(alloc: Global, name: &str) -> Result<Answer, Memory>
    ensures { IfOk result (λ a. a ≡ bad_query_answer name.now) }
{
    let message = query_message(alloc, name)?;
    refusal(alloc, 400, "BadRequest", message.as_str())
}

/// The length of the body isn't told in advance.
pub(crate) fn no_length(alloc: Global) -> Result<Answer, Memory>
    ensures { IfOk result (λ a. a ≡ no_length_answer) }
{
    refusal(
        alloc,
        411,
        "LengthRequired",
        "a body needs a Content-Length",
    )
}

/// The body is too long.
pub(crate) fn too_large(alloc: Global) -> Result<Answer, Memory>
    ensures { IfOk result (λ a. a ≡ too_large_answer) }
{
    let message = "Request entity too large: limit is 65536";
    refusal(alloc, 413, "RequestEntityTooLarge", message)
}

/// The body is no JSON object.
pub(crate) fn bad_body(alloc: Global) -> Result<Answer, Memory>
    ensures { IfOk result (λ a. a ≡ bad_body_answer) }
{
    refusal(alloc, 400, "BadRequest", "the body is not a JSON object")
}

fn member_message(alloc: Global, member: &str) -> Result<String, AllocError>
    ensures { IfOk result (λ s. string_bytes s
        ≡ codes "the body's " ++ (member.now ++ codes " does not fit")) }
{
    format!(in alloc; "the body's {member} does not fit")
}

/// A member of the body doesn't fit what the path asks for.
pub(crate) fn bad_member(alloc: Global, member: Member) -> Result<Answer, Memory>
    ensures { IfOk result (λ a. a ≡ bad_member_answer member) }
{
    let message = member_message(alloc, member.text())?;
    refusal(alloc, 400, "BadRequest", message.as_str())
}

/// A field of the body can't be read.
pub(crate) fn bad_field(alloc: Global, path: &[Text], cause: ReadCause) -> Result<Answer, Memory>
    ensures { IfOk result (λ a. a ≡ bad_field_answer path.now cause) }
{
    let message = fault_text(alloc, path, cause)?;
    refusal(alloc, 400, "BadRequest", message.as_str())
}

fn joined(alloc: Global, word: &str, group: &str) -> Result<String, AllocError>
    ensures { IfOk result (λ s. string_bytes s ≡ word.now ++ (codes "." ++ group.now)) }
{
    format!(in alloc; "{word}.{group}")
}

fn with_group(alloc: Global, word: &str, group: &str) -> Result<String, AllocError>
    ensures { IfOk result (λ s. string_bytes s ≡ with_group word.now group.now) }
{
    if group.is_empty() {
        String::from_str(alloc, word)
    } else {
        joined(alloc, word, group)
    }
}

fn quoted(alloc: Global, word: &str, name: &str) -> Result<String, AllocError>
    ensures { IfOk result (λ s. string_bytes s
        ≡ word.now ++ (codes " \"" ++ (name.now ++ codes "\""))) }
{
    format!(in alloc; "{word} \"{name}\"")
}

// The object, by its resource and its name.
fn object_text(alloc: Global, of: Resource<'_>, name: &str) -> Result<String, AllocError>
    ensures { IfOk result (λ s. string_bytes s ≡ object_text (resource_seen of.entry) name.now) }
{
    let resource = with_group(alloc, of.served.resource.as_str(), of.served.group.as_str())?;
    quoted(alloc, resource.as_str(), name)
}

// The object, by its kind and its name.
fn kind_text(alloc: Global, of: Resource<'_>, name: &str) -> Result<String, AllocError>
    ensures { IfOk result (λ s. string_bytes s ≡ kind_text (resource_seen of.entry) name.now) }
{
    let kind = with_group(alloc, of.served.kind.as_str(), of.served.group.as_str())?;
    quoted(alloc, kind.as_str(), name)
}

fn no_object_message(alloc: Global, object: &str) -> Result<String, AllocError>
    ensures { IfOk result (λ s. string_bytes s ≡ object.now ++ codes " not found") }
{
    format!(in alloc; "{object} not found")
}

/// There is no such object.
pub(crate) fn no_object(alloc: Global, of: Resource<'_>, name: &str) -> Result<Answer, Memory>
    ensures { IfOk result (λ a. a ≡ no_object_answer (resource_seen of.entry) name.now) }
{
    let object = object_text(alloc, of, name)?;
    let message = no_object_message(alloc, object.as_str())?;
    refusal(alloc, 404, "NotFound", message.as_str())
}

fn exists_message(alloc: Global, object: &str) -> Result<String, AllocError>
    ensures { IfOk result (λ s. string_bytes s ≡ object.now ++ codes " already exists") }
{
    format!(in alloc; "{object} already exists")
}

/// The object that is to be made is there.
pub(crate) fn exists(alloc: Global, of: Resource<'_>, name: &str) -> Result<Answer, Memory>
    ensures { IfOk result (λ a. a ≡ exists_answer (resource_seen of.entry) name.now) }
{
    let object = object_text(alloc, of, name)?;
    let message = exists_message(alloc, object.as_str())?;
    refusal(alloc, 409, "AlreadyExists", message.as_str())
}

fn conflict_message(alloc: Global, object: &str) -> Result<String, AllocError>
    ensures { IfOk result (λ s. string_bytes s
        ≡ codes "Operation cannot be fulfilled on " ++ (object.now ++ conflict_text)) }
{
    format!(in alloc;
        "Operation cannot be fulfilled on {object}: the object has been modified; please apply your changes to the latest version and try again"
    )
}

/// The request is meant for another revision of the object, or for another object of its name.
pub(crate) fn conflict(alloc: Global, of: Resource<'_>, name: &str) -> Result<Answer, Memory>
    ensures { IfOk result (λ a. a ≡ conflict_answer (resource_seen of.entry) name.now) }
{
    let object = object_text(alloc, of, name)?;
    let message = conflict_message(alloc, object.as_str())?;
    refusal(alloc, 409, "Conflict", message.as_str())
}

fn missing_message(alloc: Global, object: &str, path: &str) -> Result<String, AllocError>
    ensures { IfOk result (λ s. string_bytes s
        ≡ object.now ++ (codes " is invalid: " ++ (path.now ++ codes ": Required value"))) }
{
    format!(in alloc; "{object} is invalid: {path}: Required value")
}

/// The object lacks the required field with this path.
pub(crate) fn missing(
    alloc: Global,
    of: Resource<'_>,
    name: &str,
    path: &[Text],
) -> Result<Answer, Memory>
    ensures { IfOk result (λ a. a ≡ missing_answer (resource_seen of.entry) name.now path.now) }
{
    let object = kind_text(alloc, of, name)?;
    let path = dotted(alloc, path)?;
    let message = missing_message(alloc, object.as_str(), path.as_str())?;
    refusal(alloc, 422, "Invalid", message.as_str())
}

/// The store has as many records as it can.
pub(crate) fn full(alloc: Global) -> Result<Answer, Memory>
    ensures { IfOk result (λ a. a ≡ full_answer) }
{
    refusal(alloc, 507, "StoreFull", "the store holds 4096 records")
}

/// The store is at its last revision.
pub(crate) fn ended(alloc: Global) -> Result<Answer, Memory>
    ensures { IfOk result (λ a. a ≡ ended_answer) }
{
    refusal(alloc, 507, "StoreFull", "the store is at revision 1000000")
}

// ---- replies

/// The reply to the request that carries the answer, with what it warns of.
pub(crate) fn reply_to(request: &Request, warning: Option<Text>, answer: Answer) -> Reply
    ensures { result ≡ reply_to request.now warning answer }
{
    Reply {
        code: answer.code,
        page: answer.page,
        allow: answer.allow,
        warning,
        body: answer.body,
        bare: request.verb == Verb::Head,
        last: request.last,
    }
}
