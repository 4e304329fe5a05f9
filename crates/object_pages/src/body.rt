//! What answers a deletion, and documents as bodies.
ghost use Rattle.std.specs.Prelude.{◌≡◌, false, IfOk};
ghost use Rattle.object_pages.specs.Documents.{deleted_tree, document_text};
ghost use Rattle.serde_json.specs.View.{view as tree_of};
ghost use Rattle.serde_json.specs.Written.{has_float};

use basis::Memory;
use minor_version::Blob;
use serde_json::{Value, json};
use std::alloc::{AllocError, Global};

fn deleted_value(alloc: Global) -> Result<Value, AllocError>
    ensures { IfOk result (λ v. tree_of v ≡ deleted_tree) }
{
    json!(in alloc; {"apiVersion": "v1", "kind": "Status", "metadata": {}, "status": "Success"})
}

/// What answers a deletion (Kubernetes' `Status`, in this project's profile).
pub fn deletion_page(alloc: Global) -> Result<Value, Memory>
    ensures page { IfOk result (λ v. tree_of v ≡ deleted_tree) }
    ensures no_float { IfOk result (λ v. has_float (tree_of v) ≡ false) }
{
    Ok(deleted_value(alloc)?)
}

/// A document as the body of a reply: its compact text, and one line feed.
pub fn document_body(alloc: Global, page: &Value) -> Result<Blob, Memory>
    requires { has_float (tree_of page.now) ≡ false }
    ensures { IfOk result (λ b. b ≡ document_text (tree_of page.now)) }
{
    let mut text = page.to_string(alloc)?;
    text.push_str("\n")?;
    Blob::copy(alloc, text.as_bytes())
}
