//! Bytes as a JSON string.
ghost use Rattle.std.specs.Prelude.{◌≡◌, ℕ, List, IfOk, IfSome, IfNone};
ghost use Rattle.serde_json.specs.Data.{string};
ghost use Rattle.serde_json.specs.View.{view};
ghost use Rattle.scripts.specs.Writing.{IsJsonString};

use basis::Memory;
use minor_version::Blob;
use serde_json::Value;
use std::alloc::Global;

// The bytes of the value, if it is a string.
fn text_in(alloc: Global, json: &Value) -> Result<Option<Blob>, Memory>
    ensures some { IfOk result (λ o. IfSome o (λ bytes. view json.now ≡ string bytes)) }
    ensures none { IfOk result (λ o. IfNone o ((bytes : List ℕ) → ¬ (view json.now ≡ string bytes))) }
{
    match json.as_str() {
        Some(text) => Ok(Some(Blob::copy(alloc, text.as_bytes())?)),
        None => Ok(None),
    }
}

/// The bytes of the text that the JSON string writes.
pub fn string_of(alloc: Global, json: &[u8]) -> Result<Option<Blob>, Memory>
    ensures some { IfOk result (λ o. IfSome o (λ bytes. IsJsonString json.now bytes)) }
    ensures none { IfOk result (λ o. IfNone o ((bytes : List ℕ) → ¬ IsJsonString json.now bytes)) }
{
    if json.is_empty() || json[0] != b'"' || json[json.len() - 1] != b'"' {
        return Ok(None);
    }
    let Ok(text) = str::from_utf8(json) else {
        return Ok(None);
    };
    match Value::from_str(alloc, text) {
        Ok(value) => text_in(alloc, &value),
        Err(error) => if error.is_memory() {
            Err(Memory)
        } else {
            Ok(None)
        },
    }
}
