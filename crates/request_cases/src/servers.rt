//! Servers over disks in memory, of releases of a history.
ghost use Rattle.std.specs.Prelude.{◌≤◌, ◌+◌, IfOk, IsTrue};
ghost use Rattle.release_view.specs.Later.{AreOfOneHistory};
ghost use Rattle.release_view.specs.Views.{IsViewByTexts};
ghost use Rattle.schemas.specs.Dated.{Dated};
ghost use Rattle.schemas.specs.Rules.{first_of, last_of};

use api_requests::{HandleFault, Service, StartFault, start};
use basis::Memory;
use disk::{FailList, MemDisk};
use example::WIDGETS;
use flagged_view::{FlagsFault, view_by_texts};
use gate_flags::GateFault;
use history_reader::read_history;
use history_rules::check;
use http_front::{Reply, Request};
use minor_version::{Blob, Minor, from_number};
use object_store::open_store;
use release_view::View;
use runtime_config::ConfigFault;
use schemas::Accepted;
use std::alloc::Global;
use std::marker::Model;
use storage_version::views_are_of_one_history;

/// Pods, whose image is required, and nodes, which are in no namespace.
const CORE_APIS: &str = r#"api = [
 {group="", version="v1", resource="pods", since="1.28", event="introduced", kind="Pod", singular="pod", namespaced=true, enabled=true},
 {group="", version="v1", resource="nodes", since="1.28", event="introduced", kind="Node", singular="node", namespaced=false, enabled=true},"#;

const CORE_FIELDS: &str = r#"field = [
 {group="", resource="pods", id="image", since="1.28", type="Text", required=true},"#;

const CORE_SPELLS: &str = r#"spell = [
 {group="", resource="pods", version="v1", field="image", since="1.28", path="spec.image"},"#;

/// The example with pods and nodes in the core group.
fn history_text(alloc: Global) -> Result<String, Memory> {
    let text = WIDGETS.replace(alloc, "api = [", CORE_APIS)?;
    let text = text.replace(alloc, "field = [", CORE_FIELDS)?;
    Ok(text.replace(alloc, "spell = [", CORE_SPELLS)?)
}

fn accepted_text(alloc: Global, text: &str) -> Option<Accepted> {
    let history = read_history(alloc, text.as_bytes()).ok()?;
    check(alloc, history).ok()
}

/// The history, where it is accepted.
pub fn accepted(alloc: Global) -> Result<Option<Accepted>, Memory> {
    let text = history_text(alloc)?;
    Ok(accepted_text(alloc, text.as_str()))
}

/// A server, on whose disk the records of its store stand.
#[derive(Debug, Drop)]
pub struct Server {
    service: Service,
    disk: MemDisk,
}

impl Model for Server {
    ghost use Rattle.api_requests.specs.Finishing.{StandsOnDisk};
    ghost use Rattle.api_requests.specs.Serving.{Serving};
    ghost use Rattle.disk.specs.MemDisk.{MemRecord, mem_held, mem_pending};

    ghost Value = { Serving × MemRecord };

    ghost view = { λ s. (s.service, s.disk) };

    ghost invariant = { λ s. StandsOnDisk (Unit {0}) (mem_held s.disk) (mem_pending s.disk) s.service };
}

impl Server {
    /// The reply to the request. A server whose disk failed is gone.
    pub fn replied(self, alloc: Global, request: &Request) -> Result<(Server, Reply), HandleFault> {
        let Server {
            mut service,
            mut disk,
        } = self;
        let reply = service.handle(alloc, request, &mut disk)?;
        Ok((Server { service, disk }, reply))
    }

    /// The disk, as a stop after all that was done leaves it.
    pub fn disk(&self, alloc: Global) -> Result<MemDisk, Memory> {
        self.disk.after_stop(self.disk.moment(), 0)
    }
}

/// What a server is started as: the release that it emulates, its minimum compatibility, and its flag texts.
#[derive(Clone, Copy, Debug)]
struct Flags<'a> {
    emulated: Minor,
    back: Minor,
    config: &'a str,
    features: &'a str,
}

/// Why there is no server.
#[derive(Debug, Drop)]
pub enum NoServer {
    /// The words are no flags that the history takes.
    Flags,
    /// A release doesn't read what is stored.
    Store(StartFault),
    /// Memory ran out, or the disk failed.
    Memory,
}

/// What stands before the next space, and what stands behind it; a hyphen is an empty text.
fn word(text: &str) -> (&str, &str) {
    let (word, rest) = text.split_once(' ').unwrap_or((text, ""));
    if word == "-" {
        ("", rest)
    } else {
        (word, rest)
    }
}

/// The release with this number in decimal.
fn release(word: &str) -> Option<Minor> {
    from_number(word.parse::<u16>().ok()?)
}

fn flags_in(words: &str) -> Option<Flags<'_>> {
    let (emulated, rest) = word(words);
    let (back, rest) = word(rest);
    let (config, rest) = word(rest);
    let (features, _) = word(rest);
    Some(Flags {
        emulated: release(emulated)?,
        back: release(back)?,
        config,
        features,
    })
}

/// Whether a binary of the history's last release may emulate the one, with the other as its minimum compatibility.
fn may_serve(accepted: &Accepted, emulated: Minor, back: Minor) -> bool
    ensures { IsTrue result → (first_of accepted.now ≤ back) × (back ≤ emulated)
        × (emulated ≤ last_of accepted.now) × (emulated ≤ back + 3) }
{
    accepted.first() <= back
        && back <= emulated
        && emulated <= accepted.last()
        && emulated.back(3) <= back
}

fn view_of(
    alloc: Global,
    accepted: &Accepted,
    e: Minor,
    features: &str,
    config: &str,
) -> Result<View, NoServer>
    requires from { first_of accepted.now ≤ e }
    requires to { e ≤ last_of accepted.now }
    ensures { IfOk result (IsViewByTexts accepted.now e features.now config.now) }
{
    match view_by_texts(alloc, accepted, e, features.as_bytes(), config.as_bytes()) {
        Ok(view) => Ok(view),
        Err(FlagsFault::Features(GateFault::Memory) | FlagsFault::Runtime(ConfigFault::Memory)) => {
            Err(NoServer::Memory)
        }
        Err(_) => Err(NoServer::Flags),
    }
}

/// A server over what the disk holds.
fn opened(
    alloc: Global,
    mut disk: MemDisk,
    view: View,
    back: View,
    release: Minor,
) -> Result<Server, NoServer>
    requires { (history : Dated) × AreOfOneHistory history back view }
{
    let Ok(store) = open_store(alloc, &mut disk) else {
        return Err(NoServer::Memory);
    };
    match start(alloc, view, back, release, store) {
        Ok(service) => Ok(Server { service, disk }),
        Err(StartFault::Memory) => Err(NoServer::Memory),
        Err(fault) => Err(NoServer::Store(fault)),
    }
}

/// A server over what the disk holds: one that emulates the release of the first number, with that of the second one as its
/// minimum compatibility, a runtime configuration and a feature gate text, parted by spaces.
pub fn started(
    alloc: Global,
    accepted: &Accepted,
    disk: MemDisk,
    words: &str,
) -> Result<Server, NoServer> {
    let Some(flags) = flags_in(words) else {
        return Err(NoServer::Flags);
    };
    if !may_serve(accepted, flags.emulated, flags.back) {
        return Err(NoServer::Flags);
    }
    let view = view_of(
        alloc,
        accepted,
        flags.emulated,
        flags.features,
        flags.config,
    )?;
    let back = view_of(alloc, accepted, flags.back, "", "")?;
    views_are_of_one_history(accepted, &back, &view);
    opened(alloc, disk, view, back, accepted.last())
}

/// A disk of empty files.
pub fn empty_disk(alloc: Global) -> Result<MemDisk, Memory> {
    let choice = Blob::copy(alloc, b"")?;
    let left = Blob::copy(alloc, b"")?;
    let right = Blob::copy(alloc, b"")?;
    let fail = FailList::new(alloc, &[])?;
    Ok(MemDisk::new(alloc, choice, left, right, fail))
}
