//! A workload on both sides.
ghost use Rattle.std.specs.Prelude.{◌≡◌, ◌↔◌, ◌≤◌, IsTrue, IfErr, IfOk};
ghost use Rattle.history_fold.specs.Folded.{folded};
ghost use Rattle.minor_version.specs.Ranges.{IsEmulable, IsMinimum};
ghost use Rattle.schemas.specs.Cutoff.{cutoff};
ghost use Rattle.schemas.specs.Rules.{first_of, last_of};
ghost use Rattle.served_history.specs.Refusals.{IsTextsFault};
ghost use Rattle.served_history.specs.Releases.{Accepts, flag_texts};
ghost use Rattle.twin.specs.Runs.{IsRunOf, IsTwin};

use crate::count::TwinCount;
use crate::running::{Drawing, Outcome, Releases, run_script};
use crate::sends::are_same;
use basis::Memory;
use history_cut::cutoff;
use history_fold::fold;
use schemas::Accepted;
use served_history::{ServeFault, Texts, bytes_of, views_of};
use std::alloc::Global;

/// The releases that the texts choose, which take the texts.
fn chosen_releases(
    alloc: Global,
    accepted: &Accepted,
    texts: Texts<'_>,
) -> Result<Releases, ServeFault>
    ensures accepts { IfOk result (λ r. Accepts accepted.now (flag_texts texts.entry) r.e r.m) }
    ensures emulable { IfOk result (λ r. IsEmulable (first_of accepted.now) (last_of accepted.now) r.e) }
    ensures minimum { IfOk result (λ r. IsMinimum (first_of accepted.now) (last_of accepted.now) r.e r.m) }
    ensures refused { IfErr result (IsTextsFault accepted.now (flag_texts texts.entry)) }
{
    let views = views_of(alloc, accepted, texts)?;
    let e = views.view.minor();
    let m = views.back.minor();
    Ok(Releases { e, m })
}

/// The run by the history that is cut at the emulated release.
fn run_cut(
    alloc: Global,
    accepted: &Accepted,
    releases: Releases,
    features: &[u8],
    runtime: &[u8],
    drawing: Drawing,
) -> Result<Outcome, Memory>
    requires emulable { IsEmulable (first_of accepted.now) (last_of accepted.now) releases.e }
    requires minimum { IsMinimum (first_of accepted.now) (last_of accepted.now) releases.e releases.m }
    requires few { drawing.size ≤ 10000 }
    ensures { IfOk result (λ r. IsRunOf (cutoff accepted.now releases.e) releases.e releases.m
        features.now runtime.now drawing.seed drawing.size r.count) }
{
    let Ok(cut) = cutoff(alloc, accepted, releases.e) else {
        return Err(Memory);
    };
    run_script(alloc, &cut, releases, features, runtime, drawing)
}

/// The run by the folded history.
fn run_folded(
    alloc: Global,
    accepted: &Accepted,
    releases: Releases,
    features: &[u8],
    runtime: &[u8],
    drawing: Drawing,
) -> Result<Outcome, Memory>
    requires emulable { IsEmulable (first_of accepted.now) (last_of accepted.now) releases.e }
    requires minimum { IsMinimum (first_of accepted.now) (last_of accepted.now) releases.e releases.m }
    requires few { drawing.size ≤ 10000 }
    ensures { IfOk result (λ r. IsRunOf (folded accepted.now) releases.e releases.m
        features.now runtime.now drawing.seed drawing.size r.count) }
{
    let folded = fold(alloc, accepted)?;
    run_script(alloc, &folded, releases, features, runtime, drawing)
}

/// Whether both came to the same numbers.
fn is_same_count(a: &TwinCount, b: &TwinCount) -> bool
    ensures { IsTrue result ↔ ((a.now.requests ≡ b.now.requests) × (a.now.bytes ≡ b.now.bytes)
        × (a.now.revision ≡ b.now.revision)) }
{
    a.requests == b.requests && a.bytes == b.bytes && a.revision == b.revision
}

/// Runs the script of `size` requests that `seed` makes for the release that the texts choose, each time over an empty store:
/// by the folded history that emulates the release, and by the history that is cut at it, both with the minimum compatibility
/// that the texts choose of the whole history. Tells what it came to.
pub fn twin(
    alloc: Global,
    accepted: &Accepted,
    texts: Texts<'_>,
    seed: u64,
    size: u32,
) -> Result<TwinCount, ServeFault>
    requires { size ≤ 10000 }
    ensures numbers { IfOk result (IsTwin accepted.now (flag_texts texts.entry) seed size) }
    ensures refused { IfErr result (IsTextsFault accepted.now (flag_texts texts.entry)) }
{
    let releases = chosen_releases(alloc, accepted, texts)?;
    let features = bytes_of(texts.features);
    let runtime = bytes_of(texts.runtime);
    let (e, m) = (releases.e, releases.m);
    let own = run_cut(
        alloc,
        accepted,
        Releases { e, m },
        features,
        runtime,
        Drawing { seed, size },
    )?;
    let other = run_folded(
        alloc,
        accepted,
        Releases { e, m },
        features,
        runtime,
        Drawing { seed, size },
    )?;
    // That both sides send the same follows from the laws of a history that is cut or folded; it is looked at all the same.
    if !is_same_count(&own.count, &other.count)
        || !are_same(own.world.sends(), other.world.sends())
    {
        return Err(ServeFault::Memory);
    }
    Ok(own.count)
}
