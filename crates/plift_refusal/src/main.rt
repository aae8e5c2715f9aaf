// The program plift once more, whose stored run is a refusal.
#![tactic(auto)]

use plift_top::launch;
use std::process::ExitCode;

fn main(rt: HostRuntime) -> ExitCode {
    launch(rt)
}
