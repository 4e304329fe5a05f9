ghost use Rattle.std.specs.Prelude.{◌≡◌, ◌≢◌, OnOk, IfOk, IfErr};
ghost use Rattle.lifecycle.specs.Tables.{cutoff};
ghost use Rattle.flag_text.specs.Pieces.{pieces};
ghost use Rattle.runtime_config.specs.Config.{IsRuntimeText, IsTextFault, AreServed};
ghost use Rattle.runtime_config.specs.Rows.{AreRowsOf};

use crate::enabled::Enabled;
use crate::fault::ConfigFault;
use crate::keys::{Row, rows};
use crate::passes::{first_fault, first_refusal, is_only_all_false};
use crate::served::names_on;
use crate::standing::standings;
use flag_text::{Vocabulary, last_pieces, pieces};
use lifecycle::ApiEntry;
use minor_version::Minor;
use std::alloc::Global;
use version_index::VersionIndex;

// Both passes, and what they leave served. The keys of the entries live as long as the text.
fn read_config<'k, 'a>(
    alloc: Global,
    entries: &'a [ApiEntry],
    rows: &'k [Row<'a>],
    e: Minor,
    text: &'k [u8],
) -> Result<Enabled, ConfigFault>
    requires { AreRowsOf entries.now rows.now }
    ensures accepted { OnOk result (IsRuntimeText (cutoff entries.now e) text.now) }
    ensures served { IfOk result (AreServed (cutoff entries.now e) (pieces text.now)) }
    ensures fault { IfErr result (IsTextFault entries.now e text.now) }
{
    let pieces = pieces(alloc, text)?;
    if let Some(fault) = first_fault(&pieces) {
        return Err(fault);
    }
    let last = last_pieces(alloc, Vocabulary::Plain, pieces)?;
    let index = VersionIndex::at(alloc, entries, e)?;
    let known = standings(alloc, &index, rows, e)?;
    if let Some(fault) = first_refusal(&known, &last.pieces) {
        return Err(fault);
    }
    if is_only_all_false(&last.pieces) {
        return Err(ConfigFault::OnlyAllFalse);
    }
    let names = names_on(alloc, &index, &last.booleans, rows)?;
    Ok(Enabled::new(names))
}

/// The versions that the release e serves by this history and this text, as `api/all=false,demo.example/v1=true`: those
/// that are live at e and that the most specific given key switches on, or their introduction where none is given. The
/// text is refused exactly where the release e would refuse it, for the first fault of the two passes or, last, as
/// `OnlyAllFalse`.
pub fn enabled_at(
    alloc: Global,
    entries: &[ApiEntry],
    e: Minor,
    text: &[u8],
) -> Result<Enabled, ConfigFault>
    ensures accepted { OnOk result (IsRuntimeText (cutoff entries.now e) text.now) }
    ensures served { IfOk result (AreServed (cutoff entries.now e) (pieces text.now)) }

    // Only want of memory refuses a valid text.
    ensures fault { IfErr result (IsTextFault entries.now e text.now) }
    ensures refused { IfErr result
        (λ fault. fault ≢ ConfigFault.Memory → ¬ IsRuntimeText (cutoff entries.now e) text.now) }
{
    let rows = rows(alloc, entries)?;
    read_config(alloc, entries, &rows, e, text)
}
