//! Objects, from the bytes of their texts and as their members.
ghost use Rattle.std.specs.Prelude.{◌≡◌, IfOk, IfSome, IfNone, option_map};
ghost use Rattle.conversion.specs.Whole.{IsTextOf, text_at};
ghost use Rattle.serde_json.specs.Data.{Data};
ghost use Rattle.serde_json.specs.Find.{get};
ghost use Rattle.serde_json.specs.View.{view};

use crate::show::members_of;
use basis::Memory;
use serde_json::Value;
use std::alloc::Global;

/// The object that the bytes are the text of, if they are that of one.
pub fn object_of(alloc: Global, bytes: &[u8]) -> Result<Option<Value>, Memory>
    ensures some { IfOk result (λ o. IfSome o (λ v. IsTextOf bytes.now (view v))) }
    ensures none { IfOk result (λ o. IfNone o ((tree : Data) → ¬ IsTextOf bytes.now tree)) }
{
    let Ok(text) = str::from_utf8(bytes) else {
        return Ok(None);
    };
    match Value::from_str(alloc, text) {
        Ok(json) => if json.is_object() {
            Ok(Some(json))
        } else {
            Ok(None)
        },
        Err(error) => if error.is_memory() {
            Err(Memory)
        } else {
            Ok(None)
        },
    }
}

/// The text at a member, if there is one.
pub fn text_at<'a>(json: &'a Value, name: &str) -> Option<&'a str>
    ensures { option_map (λ s. s.now) result ≡ text_at name.now (view json.now) }
{
    json.get(name).and_then(Value::as_str)
}

/// What stands at a member, taken out of the object.
pub fn taken(alloc: Global, json: Value, name: &str) -> Option<Value>
    ensures { option_map view result ≡ get name.now (view json) }
{
    let mut members = members_of(alloc, Some(json));
    members.remove(name)
}
