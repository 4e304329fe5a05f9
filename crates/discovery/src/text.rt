ghost use Rattle.std.specs.Prelude.{◌≡◌, ◌++◌, IfOk, codes, string_bytes};
ghost use Rattle.lifecycle.specs.Names.{group_version};

use minor_version::Text;
use std::alloc::{AllocError, Global};

fn joined(alloc: Global, group: &str, version: &str) -> Result<String, AllocError>
    ensures { IfOk result (λ s. string_bytes s ≡ group.now ++ codes "/" ++ version.now) }
{
    format!(in alloc; "{group}/{version}")
}

/// The text by which clients name the version: group and version, or the version alone in the core group.
pub fn group_version(alloc: Global, group: &Text, version: &Text) -> Result<String, AllocError>
    ensures { IfOk result (λ s. string_bytes s ≡ group_version group.now version.now) }
{
    let version = version.as_str();
    let group = group.as_str();
    if group.is_empty() {
        return String::from_str(alloc, version);
    }
    joined(alloc, group, version)
}
