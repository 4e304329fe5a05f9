//! What is said of serving at its end.
ghost use Rattle.std.specs.Prelude.{◌≡◌, ◌≢◌, Err, IfOk, OnOk, string_bytes};
ghost use Rattle.commands.specs.Endings.{end_line, end_status, fault_line};

use crate::status::Status;
use answer_lines::{
    config_refusal, gate_refusal, not_a_store, served as served_text, unreadable, version_refusal,
};
use basis::Memory;
use runtime_config::ConfigFault;
use schemas::Accepted;
use served_history::{ServeFault, Served};
use std::alloc::Global;

/// The status of an end.
pub fn status_of(end: &Result<Served, ServeFault>) -> Status
    ensures { result ≡ end_status end.now }
{
    match end {
        Ok(_) => Status::Ok,
        Err(fault) => match fault {
            ServeFault::Emulated(_)
            | ServeFault::Least { .. }
            | ServeFault::Features { .. }
            | ServeFault::Runtime { .. }
            | ServeFault::OnlyAllFalse => Status::Flags,
            ServeFault::NotAStore { .. } | ServeFault::Undecodable { .. } => Status::Store,
            ServeFault::Disk => Status::DiskFault,
            ServeFault::Front => Status::FrontFault,
            ServeFault::Spent => Status::Spent,
            ServeFault::Memory => Status::Memory,
        },
    }
}

/// The line that is written with a refusal or a fault. Of want of memory nothing is said.
pub fn fault_line(alloc: Global, accepted: &Accepted, fault: &ServeFault) -> Result<String, Memory>
    ensures line { IfOk result (λ s. string_bytes s ≡ fault_line accepted.now fault.now) }
    ensures said { OnOk result (fault.now ≢ ServeFault.Memory) }
{
    let line = match fault {
        ServeFault::Emulated(cause) => {
            let (low, high) = (accepted.floor(), accepted.last());
            version_refusal(alloc, "emulated-version", low, high, *cause)?
        }
        ServeFault::Least { emulated, cause } => {
            let low = accepted.floor();
            version_refusal(alloc, "min-compatibility-version", low, *emulated, *cause)?
        }
        ServeFault::Features { place, cause } => gate_refusal(alloc, *place, *cause)?,
        ServeFault::Runtime { place, cause } => {
            let (place, cause) = (*place, *cause);
            config_refusal(alloc, ConfigFault::At { place, cause })?
        }
        ServeFault::OnlyAllFalse => config_refusal(alloc, ConfigFault::OnlyAllFalse)?,
        ServeFault::NotAStore { file, at } => not_a_store(alloc, *file, *at)?,
        ServeFault::Undecodable {
            key,
            version,
            minor,
        } => unreadable(alloc, key, version.as_str(), *minor)?,
        ServeFault::Disk => String::from_str(alloc, "disk fault\n")?,
        ServeFault::Front => String::from_str(alloc, "front fault\n")?,
        ServeFault::Spent => String::from_str(alloc, "too many events\n")?,
        ServeFault::Memory => return Err(Memory),
    };
    Ok(line)
}

/// The line that is written at an end. Of want of memory nothing is said.
pub fn line_of(
    alloc: Global,
    accepted: &Accepted,
    end: &Result<Served, ServeFault>,
) -> Result<String, Memory>
    ensures line { IfOk result (λ s. string_bytes s ≡ end_line accepted.now end.now) }
    ensures said { OnOk result (end.now ≢ Err ServeFault.Memory) }
{
    match end {
        Ok(served) => {
            let line = served_text(alloc, served.requests, served.revision)?;
            Ok(line)
        }
        Err(fault) => fault_line(alloc, accepted, fault),
    }
}
