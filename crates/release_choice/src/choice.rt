//! The releases that texts choose of an accepted history, or the defaults of KEP-4330.
ghost use Rattle.std.specs.Prelude.{◌↔◌, IsTrue, None, IfOk, IfErr};
ghost use Rattle.minor_version.specs.Ranges.{IsEmulable, IsMinimum};
ghost use Rattle.release_choice.specs.Choice.{IsEmulated, IsLeast, IsRefusedLeast, IsRefusedVersion, text_of};
ghost use Rattle.schemas.specs.Rules.{first_of, last_of};

use crate::fault::VersionFault;
use minor_version::{Minor, parse};
use schemas::Accepted;

fn is_emulable(accepted: &Accepted, e: Minor) -> bool
    ensures { IsTrue result ↔ IsEmulable (first_of accepted.now) (last_of accepted.now) e }
{
    accepted.floor() <= e && e <= accepted.last()
}

/// The release that a binary of this history is to emulate: the one that the text names, from the floor to the last; the last
/// where there is no text.
pub fn emulated_release(emulated: Option<&str>, accepted: &Accepted) -> Result<Minor, VersionFault>
    ensures ok { IfOk result
        (IsEmulated (first_of accepted.now) (last_of accepted.now) (text_of emulated.entry)) }
    ensures emulable { IfOk result (IsEmulable (first_of accepted.now) (last_of accepted.now)) }
    ensures refused { IfErr result
        (IsRefusedVersion (first_of accepted.now) (last_of accepted.now) (text_of emulated.entry)) }
{
    let Some(text) = emulated else {
        return Ok(accepted.last());
    };
    let Ok(e) = parse(text.as_bytes()) else {
        return Err(VersionFault::NotAVersion);
    };
    if is_emulable(accepted, e) {
        Ok(e)
    } else {
        Err(VersionFault::OutOfRange)
    }
}

fn is_minimum(accepted: &Accepted, e: Minor, m: Minor) -> bool
    ensures { IsTrue result ↔ IsMinimum (first_of accepted.now) (last_of accepted.now) e m }
{
    accepted.floor() <= m && m <= e
}

fn default_least(accepted: &Accepted, e: Minor) -> Minor
    ensures { IsLeast (first_of accepted.now) (last_of accepted.now) e None result }
{
    let before = e.back(1);
    let floor = accepted.floor();
    if floor <= before { before } else { floor }
}

/// The earliest release that may open the store of a server emulating e: the one that the text names, from the floor to e; the
/// one before e, but not below the floor, where there is no text.
pub fn least_release(
    least: Option<&str>,
    accepted: &Accepted,
    e: Minor,
) -> Result<Minor, VersionFault>
    requires emulable { IsEmulable (first_of accepted.now) (last_of accepted.now) e }
    ensures ok { IfOk result
        (IsLeast (first_of accepted.now) (last_of accepted.now) e (text_of least.entry)) }
    ensures minimum { IfOk result (IsMinimum (first_of accepted.now) (last_of accepted.now) e) }
    ensures refused { IfErr result
        (IsRefusedLeast (first_of accepted.now) (last_of accepted.now) e (text_of least.entry)) }
{
    let Some(text) = least else {
        return Ok(default_least(accepted, e));
    };
    let Ok(m) = parse(text.as_bytes()) else {
        return Err(VersionFault::NotAVersion);
    };
    if is_minimum(accepted, e, m) {
        Ok(m)
    } else {
        Err(VersionFault::OutOfRange)
    }
}
