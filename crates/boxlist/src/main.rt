// Reads a screen from standard input and prints the list of its boxes, or one line for a refusal. A read or a write that fails is told on
// standard error.
#![tactic(auto)]

use boxlist_print::Listing;
use std::process::ExitCode;

// The call that `boxreach` makes with its own name and listing: a program is a crate, and what they share is `run_named`.
fn main(rt: HostRuntime) -> ExitCode {
    screen_program::run_named(
        "boxlist",
        Listing::Boxes,
        &mut rt.stdin(),
        &mut rt.stdout(),
        &mut rt.stderr(),
    )
}
