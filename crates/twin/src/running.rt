//! A script that is run by a server over an empty store.
ghost use Rattle.std.specs.Prelude.{◌≡◌, ◌≤◌, [], IfOk, IfErr};
ghost use Rattle.minor_version.specs.Ranges.{IsEmulable, IsMinimum};
ghost use Rattle.object_journal.specs.Standing.{chosen};
ghost use Rattle.release_view.specs.Later.{AreOfOneHistory};
ghost use Rattle.release_view.specs.Views.{IsViewByTexts};
ghost use Rattle.disk.specs.MemDisk.{mem_held};
ghost use Rattle.schemas.specs.Dated.{Dated};
ghost use Rattle.schemas.specs.Rules.{first_of, last_of};
ghost use Rattle.twin.specs.Runs.{IsServedWhole, IsRunOf};
ghost use Rattle.world.specs.Fronts.{IsAtStart};
ghost use Rattle.world.specs.Tapes.{told};

use crate::count::TwinCount;
use crate::sends::{all_went, bytes_in};
use basis::Memory;
use disk::{FailList, MemDisk};
use flagged_view::view_by_texts;
use minor_version::{Blob, Minor};
use release_view::{View, default_view};
use schemas::Accepted;
use scripts::Script;
use served_history::Views;
use session_ends::{Served, ended_fronts_are_taken};
use std::alloc::Global;
use storage_version::views_are_of_one_history;
use store_session::serve_store;
use workload::generate;
use world::{Front, MemWorld};

/// The release that is emulated, and the minimum compatibility.
#[derive(Clone, Copy)]
pub(crate) struct Releases {
    pub e: Minor,
    pub m: Minor,
}

/// Of what a script is made: so many requests, of this seed.
#[derive(Clone, Copy)]
pub(crate) struct Drawing {
    pub seed: u64,
    pub size: u32,
}

/// What a run of a script came to: its numbers, and the world with what was sent.
#[derive(Debug, Drop)]
pub(crate) struct Outcome {
    pub count: TwinCount,
    pub world: MemWorld,
}

/// A world over an empty disk, whose connections bring the events of the script; none of its calls fails.
fn world_of(alloc: Global, script: Script) -> Result<MemWorld, Memory>
    ensures start { IfOk result (λ w. IsAtStart w.beside) }
    ensures coming { IfOk result (λ w. w.beside.coming ≡ told script) }
    ensures empty { IfOk result (λ w. mem_held w.disk chosen ≡ []) }
{
    let choice = Blob::copy(alloc, b"")?;
    let left = Blob::copy(alloc, b"")?;
    let right = Blob::copy(alloc, b"")?;
    let disk = MemDisk::new(alloc, choice, left, right, FailList::new(alloc, &[])?);
    Ok(MemWorld::new(alloc, disk, script, FailList::new(alloc, &[])?))
}

/// Serves a front up to its end.
fn serve_whole<W: Front>(
    alloc: Global,
    views: Views,
    release: Minor,
    world: &mut W,
) -> Result<Served, Memory>
    requires one { (history : Dated) × AreOfOneHistory history views.back views.view }
    requires start { IsAtStart (W.beside world.old) }
    ensures { W.tells → IfOk result (IsServedWhole
        (record { view = views.view; release = release; back = views.back.minor })
        (W.held world.old chosen) (W.beside world.old) (W.beside world.new)) }
{
    match serve_store(alloc, views.view, views.back, release, world) {
        Ok(served) => Ok(served),
        Err(_fault) => Err(Memory),
    }
}

/// The views of the releases by this history.
fn views_at(
    alloc: Global,
    history: &Accepted,
    releases: Releases,
    features: &[u8],
    runtime: &[u8],
) -> Result<Views, Memory>
    requires emulable { IsEmulable (first_of history.now) (last_of history.now) releases.e }
    requires minimum { IsMinimum (first_of history.now) (last_of history.now) releases.e releases.m }
    ensures one { IfOk result (λ views. AreOfOneHistory history.now views.back views.view) }
    ensures view { IfOk result (λ views. IsViewByTexts history.now releases.e features.now runtime.now views.view) }
    ensures back { IfOk result (λ views. views.back.minor ≡ releases.m) }
{
    let Ok(view) = view_by_texts(alloc, history, releases.e, features, runtime) else {
        return Err(Memory);
    };
    let back = default_view(alloc, history, releases.m)?;
    views_are_of_one_history(history, &back, &view);
    Ok(Views { view, back })
}

/// Runs the script that the seed makes, by a binary of the history that emulates a release, over an empty store.
pub(crate) fn run_script(
    alloc: Global,
    history: &Accepted,
    releases: Releases,
    features: &[u8],
    runtime: &[u8],
    drawing: Drawing,
) -> Result<Outcome, Memory>
    requires emulable { IsEmulable (first_of history.now) (last_of history.now) releases.e }
    requires minimum { IsMinimum (first_of history.now) (last_of history.now) releases.e releases.m }
    requires few { drawing.size ≤ 10000 }
    ensures { IfOk result (λ r. IsRunOf history.now releases.e releases.m features.now runtime.now
        drawing.seed drawing.size r.count) }
{
    let views = views_at(alloc, history, releases, features, runtime)?;
    let script = generate(alloc, &views.view, drawing.seed, drawing.size)?;
    let _events = script.events();
    ended_fronts_are_taken();
    let mut world = world_of(alloc, script)?;
    let served = serve_whole(alloc, views, history.last(), &mut world)?;
    let sends = world.sends();
    if !all_went(sends) {
        return Err(Memory);
    }
    let bytes = bytes_in(sends)?;
    let count = TwinCount {
        requests: served.requests,
        bytes,
        revision: served.revision,
    };
    Ok(Outcome { count, world })
}
