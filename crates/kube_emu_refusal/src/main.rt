//! The program `kube_emu` once more, for a stored run that ends with a status.
#![tactic(auto)]

use std::process::ExitCode;

fn main(rt: HostRuntime) -> ExitCode {
    ExitCode::from(host_run::run(&rt).number())
}
