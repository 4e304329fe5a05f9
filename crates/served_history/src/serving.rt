//! Serving a history.
ghost use Rattle.std.specs.Prelude.{◌≡◌, IsErrOf};
ghost use Rattle.served_history.specs.Ends.{IsServeEnd};
ghost use Rattle.served_history.specs.Releases.{flag_texts};
ghost use Rattle.session_step.specs.Taken.{CountsFailure};
ghost use Rattle.world.specs.Fronts.{IsAboveMark, IsAtStart};

use crate::fault::ServeFault;
use crate::texts::Texts;
use crate::views::views_of;
use schemas::Accepted;
use session_ends::Served;
use std::alloc::Global;
use store_session::serve_store;
use world::Front;

/// Serves the connections of a front as the release that the texts choose, by a binary of the history's last release, over the
/// store of the front's disk, until the front ends.
pub fn serve_history<W: Front>(
    alloc: Global,
    accepted: &Accepted,
    texts: Texts<'_>,
    world: &mut W,
) -> Result<Served, ServeFault>
    requires start { IsAtStart (W.beside world.old) }
    ensures ends { IsServeEnd W.tells W.clock W.may_leave W.held W.pending W.beside accepted.now
        (flag_texts texts.entry) world.old world.new result }
    ensures faults { CountsFailure (W.faults world.old) (W.faults world.new) (IsErrOf result ServeFault.Disk) }
    ensures front { IsErrOf result ServeFault.Front → IsAboveMark (W.beside world.new) }
{
    let views = views_of(alloc, accepted, texts)?;
    let release = accepted.last();
    let served = serve_store(alloc, views.view, views.back, release, world)?;
    Ok(served)
}
