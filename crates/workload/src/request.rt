//! Requests that are drawn.
ghost use Rattle.std.specs.Prelude.{◌≡◌, ◌<◌, ◌≤◌, Contains, IfOk, Some, codes, length};
ghost use Rattle.fields.specs.Table.{AreLawful};
ghost use Rattle.release_view.specs.Served.{served_of, shown_name};
ghost use Rattle.release_view.specs.Views.{table_in};
ghost use Rattle.workload.specs.Groups.{back_of, front_of};
ghost use Rattle.workload.specs.Requests.{IsCut, IsDrawn, IsOfVersion, bare_text};

use crate::choice::choose;
use crate::draws::Draws;
use crate::text::{bare_text, text};
use basis::Memory;
use fields::VersionTable;
use lifecycle::ApiName;
use minor_version::Blob;
use release_view::{ServedVersion, View, view_finds_each};
use std::alloc::Global;

/// A request, and the place in its bytes at which it is cut.
#[derive(Debug, Drop)]
pub struct Request {
    pub bytes: Blob,
    pub cut: usize,
}

impl Request {
    /// What comes before the cut: all where that is at the begin.
    pub(crate) fn front(&self) -> &[u8]
        requires { self.now.cut ≤ length self.now.bytes }
        ensures { result.now ≡ front_of self.now }
    {
        let bytes = self.bytes.bytes();
        if self.cut == 0 {
            bytes
        } else {
            bytes.split_at(self.cut).0
        }
    }

    /// What comes behind the cut: nothing where that is at the begin.
    pub(crate) fn back(&self) -> &[u8]
        requires { self.now.cut ≤ length self.now.bytes }
        ensures { result.now ≡ back_of self.now }
    {
        if self.cut == 0 {
            &[]
        } else {
            self.bytes.bytes().split_at(self.cut).1
        }
    }
}

// The request of this text, cut where a draw says.
fn cut(alloc: Global, text: &str, draws: &mut Draws) -> Result<Request, Memory>
    requires { 0 < length text.now }
    ensures is_cut { IfOk result (λ r. IsCut text.now draws.old.x r draws.new.x) }
    ensures within { IfOk result (λ r. r.cut ≤ length r.bytes) }
{
    Ok(Request {
        bytes: Blob::copy(alloc, text.as_bytes())?,
        cut: draws.draw(text.len()),
    })
}

// The table of a served version.
fn table_of<'a>(view: &'a View, served: &ServedVersion) -> &'a VersionTable
    requires { Contains (served_of view.now.versions) served.now }
    ensures value { table_in view.now.versions (shown_name served.now) ≡ Some result.now }
    ensures lawful { AreLawful result.now.rows }
{
    view_finds_each(view);
    let name = ApiName {
        group: served.group.bytes(),
        version: served.version.bytes(),
        resource: served.resource.bytes(),
    };
    match view.table(name) {
        Some(table) => table,
        None => unreachable!(),
    }
}

// A request for one of the served versions.
fn request_of(
    alloc: Global,
    view: &View,
    served: &[ServedVersion],
    draws: &mut Draws,
) -> Result<Request, Memory>
    requires some { 0 < length served.now }
    requires all { served.now ≡ served_of view.now.versions }
    ensures drawn { IfOk result (λ r. IsOfVersion view.now served.now draws.old.x r draws.new.x) }
    ensures within { IfOk result (λ r. r.cut ≤ length r.bytes) }
{
    let version = &served[draws.draw(served.len())];
    let table = table_of(view, version);
    let choice = choose(alloc, table.rows.items(), draws)?;
    let text = text(alloc, version, table, &choice)?;
    cut(alloc, text.as_str(), draws)
}

// A request where nothing is served: for the list of groups.
fn request_of_groups(alloc: Global, draws: &mut Draws) -> Result<Request, Memory>
    ensures drawn { IfOk result (λ r. IsCut (bare_text (codes "GET") (codes "/apis"))
        draws.old.x r draws.new.x) }
    ensures within { IfOk result (λ r. r.cut ≤ length r.bytes) }
{
    let text = bare_text(alloc, "GET", "/apis")?;
    cut(alloc, text.as_str(), draws)
}

/// The request that the next draws make.
pub(crate) fn drawn_request(
    alloc: Global,
    view: &View,
    draws: &mut Draws,
) -> Result<Request, Memory>
    ensures drawn { IfOk result (λ r. IsDrawn view.now draws.old.x r draws.new.x) }
    ensures within { IfOk result (λ r. r.cut ≤ length r.bytes) }
{
    let served = view.served();
    if served.is_empty() {
        request_of_groups(alloc, draws)
    } else {
        request_of(alloc, view, served, draws)
    }
}
