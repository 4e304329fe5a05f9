//! What stands at a path.
ghost use Rattle.std.specs.Prelude.{◌<◌, ◌≤◌, length, take, option_map, IfOk, IfErr};
ghost use Rattle.serde_json.specs.View.{view};
ghost use Rattle.conversion.specs.Code.{IsThere};
ghost use Rattle.conversion.specs.Trees.{IsBlocked};

use minor_version::Text;
use serde_json::Value;

/// What stands at the path, if anything does. Where the path can't be followed, how many of its names lead to what
/// blocks it.
pub(crate) fn reach<'a>(json: &'a Value, path: &[Text]) -> Result<Option<&'a Value>, usize>
    requires { 0 < length path.now }
    ensures there { IfOk result (λ o. IsThere (view json.now) path.now (option_map (λ v. view v.now) o)) }
    ensures within { IfErr result (λ n. n ≤ length path.now) }
    ensures blocked { IfErr result (λ n. IsBlocked (view json.now) path.now (take n path.now)) }
{
    let mut current = json;
    for (i, name) in path.iter().enumerate() {
        if i > 0 && !current.is_object() {
            return Err(i);
        }
        let Some(inner) = current.get(name.as_str()) else {
            return Ok(None);
        };
        if inner.is_null() {
            return Ok(None);
        }
        current = inner;
    }
    Ok(Some(current))
}
