// Prints the card of the record on standard input, or `REFUSED` and its number. Its stored input is panel G, which no byte means too.
#![tactic(auto)]

use std::process::ExitCode;

fn main(rt: HostRuntime) -> ExitCode {
    card_run::run(&rt)
}
