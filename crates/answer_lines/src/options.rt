//! Why the text of an option is refused.
ghost use Rattle.std.specs.Prelude.{◌≡◌, ◌++◌, IfOk, codes, string_bytes};
ghost use Rattle.answer_lines.specs.Options.{config_line, gate_line, version_line};

use basis::Memory;
use gate_flags::GateCause;
use minor_version::Minor;
use release_choice::VersionFault;
use runtime_config::{ConfigCause, ConfigFault};
use std::alloc::{AllocError, Global};

fn not_a_version(alloc: Global, option: &str) -> Result<String, AllocError>
    ensures { IfOk result (λ s. string_bytes s ≡ option.now ++ codes ": not a version\n") }
{
    format!(in alloc; "{option}: not a version\n")
}

fn out_of_range(alloc: Global, option: &str, low: &str, high: &str) -> Result<String, AllocError>
    ensures { IfOk result (λ s. string_bytes s ≡ option.now ++ (codes ": out of range "
        ++ (low.now ++ (codes " to " ++ (high.now ++ codes "\n"))))) }
{
    format!(in alloc; "{option}: out of range {low} to {high}\n")
}

/// Why the text of a release option is refused, which names one from `low` to `high`.
pub fn version_refusal(
    alloc: Global,
    option: &str,
    low: Minor,
    high: Minor,
    fault: VersionFault,
) -> Result<String, Memory>
    ensures { IfOk result (λ s. string_bytes s ≡ version_line option.now low high fault) }
{
    match fault {
        VersionFault::NotAVersion => {
            let text = not_a_version(alloc, option)?;
            Ok(text)
        }
        VersionFault::OutOfRange => {
            let low = low.text(alloc)?;
            let high = high.text(alloc)?;
            let text = out_of_range(alloc, option, low.as_str(), high.as_str())?;
            Ok(text)
        }
    }
}

/// Which piece of a feature gate text is refused, counted from 1, and why.
pub fn gate_refusal(alloc: Global, place: u64, cause: GateCause) -> Result<String, AllocError>
    ensures { IfOk result (λ s. string_bytes s ≡ gate_line place cause) }
{
    let cause = cause.name();
    format!(in alloc; "feature-gates: piece {place}: {cause}\n")
}

fn refused_piece(alloc: Global, place: u64, cause: ConfigCause) -> Result<String, AllocError>
    ensures { IfOk result (λ s. string_bytes s ≡ config_line (ConfigFault.At place cause)) }
{
    let cause = cause.name();
    format!(in alloc; "runtime-config: piece {place}: {cause}\n")
}

/// Why a runtime configuration is refused. Of want of memory nothing is said.
pub fn config_refusal(alloc: Global, fault: ConfigFault) -> Result<String, AllocError>
    ensures { IfOk result (λ s. string_bytes s ≡ config_line fault) }
{
    match fault {
        ConfigFault::Memory => String::from_str(alloc, ""),
        ConfigFault::At { place, cause } => refused_piece(alloc, place, cause),
        ConfigFault::OnlyAllFalse => {
            String::from_str(alloc, "runtime-config: only api/all=false\n")
        }
    }
}
