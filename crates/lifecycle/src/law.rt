ghost use Rattle.std.specs.Prelude.{◌≡◌, ◌≤◌, ℕ};
ghost use Rattle.lifecycle.specs.Laws.{IsSameAt};
ghost use Rattle.lifecycle.specs.Tables.{cutoff};

use crate::entry::ApiEntry;
use minor_version::Minor;

/// The law of emulation for versions: where a history is cut at the release o, each release e up to o has the same tables,
/// so that the same versions are live and decodable at e, with the same warnings. Nothing is computed here; the law is
/// the contract.
pub fn emulation_of_versions(entries: &[ApiEntry], cut: &[ApiEntry], o: Minor)
    requires { cut.now ≡ cutoff entries.now o }
    ensures { (e : ℕ) → e ≤ o → IsSameAt entries.now cut.now e }
{}
