//! The pages of a view, and what is looked up in it.
use crate::views::{release, view_of, widgets};
use basis::Memory;
use discovery::{group, group_list, metrics, resource_list, version_info};
use minor_version::Minor;
use release_view::View;
use schemas::Accepted;
use serde_json::Value;
use std::alloc::Global;

fn page_text(alloc: Global, page: Option<Value>) -> Result<String, Memory> {
    match page {
        Some(page) => Ok(page.to_string(alloc)?),
        None => Ok(String::from_str(alloc, "none")?),
    }
}

fn found(there: bool) -> &'static str {
    if there { "found" } else { "none" }
}

fn yes(is_so: bool) -> &'static str {
    if is_so { "yes" } else { "no" }
}

/// The metrics page, with a bar for each end of a line.
fn metrics_text(alloc: Global, view: &View) -> Result<String, Memory> {
    let page = metrics(alloc, view)?;
    match str::from_utf8(page.bytes()) {
        Ok(text) => Ok(text.replace(alloc, "\n", "|")?),
        Err(_) => Ok(String::from_str(alloc, "no text")?),
    }
}

fn best<'a>(view: &'a View, resource: &str) -> &'a str {
    match view.live_best(b"demo.example", resource.as_bytes()) {
        Some(best) => best.version.as_str(),
        None => "none",
    }
}

fn warning(alloc: Global, view: &View, version: &str) -> Result<String, Memory> {
    match view.warning(widgets(version)) {
        Some(warning) => {
            let since = warning.since.number();
            let removal = warning.removal.number();
            let replacement = str::from_utf8(warning.replacement).unwrap_or("no text");
            Ok(format!(in alloc; "{since} {removal} {replacement}")?)
        }
        None => Ok(String::from_str(alloc, "none")?),
    }
}

fn gate(view: &View, name: &str) -> &'static str {
    match view.gates().value(name.as_bytes()) {
        Some(is_on) => yes(is_on),
        None => "none",
    }
}

fn looked_up(alloc: Global, view: &View, what: &str, of: &str) -> Result<String, Memory> {
    let answer = match what {
        "release" => return Ok(format!(in alloc; "{}", view.minor().number())?),
        "served" => return Ok(format!(in alloc; "{}", view.served().len())?),
        "best" => best(view, of),
        "find" => found(view.find(widgets(of)).is_some()),
        "table" => found(view.table(widgets(of)).is_some()),
        "live" => yes(view.kind_live(b"demo.example", of.as_bytes())),
        "gate" => gate(view, of),
        _ => "no question",
    };
    Ok(String::from_str(alloc, answer)?)
}

/// The page of releases, where the server's own is this one; the minimum is the emulated release too.
fn releases(alloc: Global, n: &str, e: Minor) -> Result<String, Memory> {
    match release(n) {
        Some(n) => page_text(alloc, Some(version_info(alloc, n, e, e)?)),
        None => Ok(String::from_str(alloc, "no release")?),
    }
}

/// What is asked of the view: a page, with the words behind it as its group and version, or what is looked up.
pub fn answer(alloc: Global, view: &View, what: &str, of: &str) -> Result<String, Memory> {
    let (first, second) = of.split_once(' ').unwrap_or((of, ""));
    let name = first.as_bytes();
    match what {
        "groups" => page_text(alloc, Some(group_list(alloc, view)?)),
        "group" => page_text(alloc, group(alloc, view, name)?),
        "resources" => page_text(alloc, resource_list(alloc, view, name, second.as_bytes())?),
        "metrics" => metrics_text(alloc, view),
        "releases" => releases(alloc, first, view.minor()),
        "warning" => warning(alloc, view, of),
        _ => looked_up(alloc, view, what, of),
    }
}

/// The group list under a runtime configuration, or why that is refused.
pub fn served_by(
    alloc: Global,
    accepted: &Accepted,
    e: Minor,
    config: &str,
) -> Result<String, Memory> {
    match view_of(alloc, accepted, e, config)? {
        Ok(view) => page_text(alloc, Some(group_list(alloc, &view)?)),
        Err(refused) => Ok(refused),
    }
}
