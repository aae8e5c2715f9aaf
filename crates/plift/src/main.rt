// The program plift.
#![tactic(auto)]

use plift_top::launch;
use std::process::ExitCode;

fn main(rt: HostRuntime) -> ExitCode {
    launch(rt)
}
