//! What a server is made of: the releases that texts choose of a history, and the views of them.
ghost use Rattle.std.specs.Prelude.{◌≡◌, IfErr, IfOk};
ghost use Rattle.minor_version.specs.Ranges.{IsEmulable, IsMinimum};
ghost use Rattle.release_choice.specs.Choice.{text_of};
ghost use Rattle.release_view.specs.Later.{AreOfOneHistory};
ghost use Rattle.schemas.specs.Rules.{first_of, last_of};
ghost use Rattle.served_history.specs.Refusals.{IsTextsFault};
ghost use Rattle.served_history.specs.Releases.{AreReleases, IsFor, flag_texts, given};

use crate::fault::ServeFault;
use crate::texts::Texts;
use flagged_view::view_by_texts;
use minor_version::Minor;
use release_choice::{emulated_release, least_release};
use release_view::{View, default_view};
use schemas::Accepted;
use std::alloc::Global;
use storage_version::views_are_of_one_history;

/// The releases that a server is for.
#[derive(Clone, Copy)]
struct Releases {
    /// The one that is emulated.
    emulated: Minor,
    /// The earliest that may open the store.
    least: Minor,
}

fn releases_of(accepted: &Accepted, texts: Texts<'_>) -> Result<Releases, ServeFault>
    ensures releases { IfOk result
        (λ r. AreReleases accepted.now (flag_texts texts.entry) r.emulated r.least) }
    ensures emulable { IfOk result
        (λ r. IsEmulable (first_of accepted.now) (last_of accepted.now) r.emulated) }
    ensures minimum { IfOk result
        (λ r. IsMinimum (first_of accepted.now) (last_of accepted.now) r.emulated r.least) }
    ensures refused { IfErr result (IsTextsFault accepted.now (flag_texts texts.entry)) }
{
    let emulated = match emulated_release(texts.emulated, accepted) {
        Ok(emulated) => emulated,
        Err(cause) => return Err(ServeFault::Emulated(cause)),
    };
    match least_release(texts.least, accepted, emulated) {
        Ok(least) => Ok(Releases { emulated, least }),
        Err(cause) => Err(ServeFault::Least { emulated, cause }),
    }
}

/// The text's bytes, none where no text is given.
pub fn bytes_of<'a>(text: Option<&'a str>) -> &'a [u8]
    ensures { result.now ≡ given (text_of text.entry) }
{
    match text {
        Some(text) => text.as_bytes(),
        None => b"",
    }
}

/// The views that a server is made of.
#[derive(Debug, Drop)]
pub struct Views {
    /// Of the release that is emulated.
    pub view: View,
    /// Of the earliest release that may open the store.
    pub back: View,
}

/// The views of the releases that the texts choose: that of the emulated one as the texts make it, that of the earlier one as
/// it is by default.
pub fn views_of(alloc: Global, accepted: &Accepted, texts: Texts<'_>) -> Result<Views, ServeFault>
    ensures server { IfOk result (λ views. IsFor accepted.now (flag_texts texts.entry)
        (record { view = views.view; release = last_of accepted.now; back = views.back.minor }) views.back) }
    ensures one { IfOk result (λ views. AreOfOneHistory accepted.now views.back views.view) }
    ensures emulable { IfOk result
        (λ views. IsEmulable (first_of accepted.now) (last_of accepted.now) views.view.minor) }
    ensures minimum { IfOk result
        (λ views. IsMinimum (first_of accepted.now) (last_of accepted.now) views.view.minor views.back.minor) }
    ensures refused { IfErr result (IsTextsFault accepted.now (flag_texts texts.entry)) }
{
    let releases = releases_of(accepted, texts)?;
    let features = bytes_of(texts.features);
    let runtime = bytes_of(texts.runtime);
    let view = view_by_texts(alloc, accepted, releases.emulated, features, runtime)?;
    let back = default_view(alloc, accepted, releases.least)?;
    views_are_of_one_history(accepted, &back, &view);
    Ok(Views { view, back })
}
