ghost use Rattle.std.specs.Prelude.{◌≡◌, ◌++◌, ◌∷◌, [], IfOk, string_bytes};
ghost use Rattle.serde_json.specs.View.{view as tree_of};
ghost use Rattle.http_front.specs.Refusals.{refusal_text, refusal_tree};

use basis::Memory;
use minor_version::Blob;
use serde_json::{Value, json};
use std::alloc::{AllocError, Global};

fn refusal_value(alloc: Global, code: u16, message: &str, reason: &str) -> Result<Value, AllocError>
    ensures { IfOk result (λ v. tree_of v ≡ refusal_tree code message.now reason.now) }
{
    json!(in alloc; {
        "apiVersion": "v1",
        "code": code,
        "kind": "Status",
        "message": message,
        "metadata": {},
        "reason": reason,
        "status": "Failure"
    })
}

/// The body of a refusal: its document in compact JSON, and one line feed.
pub fn refusal_body(alloc: Global, code: u16, message: &str, reason: &str) -> Result<Blob, Memory>
    ensures { IfOk result (λ b. b ≡ refusal_text code message.now reason.now) }
{
    let value = refusal_value(alloc, code, message, reason)?;
    let mut text = value.to_string(alloc)?;
    text.push_str("\n")?;
    Blob::copy(alloc, text.as_bytes())
}
