ghost use Rattle.std.specs.Prelude.{◌≡◌, IfOk, false};
ghost use Rattle.serde_json.specs.View.{view as tree_of};
ghost use Rattle.serde_json.specs.Written.{has_float};
ghost use Rattle.discovery.specs.Releases.{releases_tree, releases_page};

use basis::Memory;
use minor_version::Minor;
use serde_json::{Value, json};
use std::alloc::{AllocError, Global};

fn releases_value(
    alloc: Global,
    release: &str,
    emulated: &str,
    minimum: &str,
) -> Result<Value, AllocError>
    ensures { IfOk result (λ v. tree_of v ≡ releases_tree release.now emulated.now minimum.now) }
{
    json!(in alloc; {"emulation": emulated, "minCompatibility": minimum, "release": release})
}

/// The document of a server's releases: that of its binary, the emulated one, and the minimum compatibility.
pub fn version_info(alloc: Global, n: Minor, e: Minor, m: Minor) -> Result<Value, Memory>
    ensures page { IfOk result (λ v. tree_of v ≡ releases_page n e m) }
    ensures no_float { IfOk result (λ v. has_float (tree_of v) ≡ false) }
{
    let release = n.text(alloc)?;
    let emulated = e.text(alloc)?;
    let minimum = m.text(alloc)?;
    let value = releases_value(alloc, release.as_str(), emulated.as_str(), minimum.as_str())?;
    Ok(value)
}
