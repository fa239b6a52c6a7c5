// Reads a screen from standard input and prints for each of its boxes whether scrolling brings it up, or one line for a refusal. A read or a
// write that fails is told on standard error.
#![tactic(auto)]

use boxlist_print::Listing;
use std::process::ExitCode;

// The call that `boxlist` makes with its own name and listing: a program is a crate, and what they share is `run_named`.
fn main(rt: HostRuntime) -> ExitCode {
    screen_program::run_named(
        "boxreach",
        Listing::Verdicts,
        &mut rt.stdin(),
        &mut rt.stdout(),
        &mut rt.stderr(),
    )
}
