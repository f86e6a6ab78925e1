// sendai: does what its arguments say, and ends with the status that tells how that went.
#![tactic(auto)]

use std::process::ExitCode;

fn main(rt: HostRuntime) -> ExitCode {
    ExitCode::from(program::run_arguments(&rt))
}
