//! A history that is accepted, and the views of its releases.
use basis::Memory;
use gate_flags::gate_values;
use history_reader::read_history;
use history_rules::check;
use lifecycle::ApiName;
use minor_version::{Minor, from_number};
use release_view::{View, texts_make_view, view_at};
use runtime_config::{ConfigFault, enabled_at};
use schemas::{Accepted, gates_rise_in_date};
use std::alloc::Global;

/// The history that the text means, where it is accepted.
pub fn accepted(alloc: Global, text: &str) -> Option<Accepted> {
    let history = read_history(alloc, text.as_bytes()).ok()?;
    check(alloc, history).ok()
}

/// The release with this number in decimal.
pub fn release(word: &str) -> Option<Minor> {
    from_number(word.parse::<u16>().ok()?)
}

/// Why a runtime configuration was refused.
fn refusal(alloc: Global, fault: &ConfigFault) -> Result<String, Memory> {
    match fault {
        ConfigFault::OnlyAllFalse => Ok(String::from_str(alloc, "only api/all=false")?),
        ConfigFault::At { place, cause } => {
            Ok(format!(in alloc; "piece {place}: {}", cause.name())?)
        }
        ConfigFault::Memory => Err(Memory),
    }
}

/// The view of the release under a runtime configuration, or why there is none.
pub fn view_of(
    alloc: Global,
    accepted: &Accepted,
    e: Minor,
    config: &str,
) -> Result<Result<View, String>, Memory> {
    if e < accepted.first() || accepted.last() < e {
        return Ok(Err(String::from_str(alloc, "out of range")?));
    }
    let history = accepted.history();
    gates_rise_in_date(history);
    let Ok(gates) = gate_values(alloc, history.gates.items(), e, b"") else {
        return Err(Memory);
    };
    let on = match enabled_at(alloc, history.apis.items(), e, config.as_bytes()) {
        Ok(on) => on,
        Err(fault) => return Ok(Err(refusal(alloc, &fault)?)),
    };
    texts_make_view(accepted, e, b"", &gates, config.as_bytes(), &on);
    Ok(Ok(view_at(alloc, accepted, e, gates, on)?))
}

/// The name of a version of the example's widgets.
pub fn widgets<'a>(version: &'a str) -> ApiName<'a> {
    ApiName {
        group: b"demo.example",
        version: version.as_bytes(),
        resource: b"widgets",
    }
}
