// The program plift_view.
#![tactic(auto)]

use std::process::ExitCode;
use view_top::launch;

fn main(rt: HostRuntime) -> ExitCode {
    launch(rt)
}
