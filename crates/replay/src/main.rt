// Reads an event list from standard input, runs it, and prints the answers and the accepted writes.
#![tactic(auto)]

use files::Stop;
use std::process::ExitCode;

fn run(rt: &HostRuntime) -> Result<(), Stop> {
    // One byte more than the longest list, so that a longer one is seen.
    let mut list = [0u8; run_lists::LONGEST + 1];
    let n = files::read_input(rt, &mut list)?;
    let mut text = [0u8; run_text::LONGEST_TEXT];
    let length = run_text::transcript(&list[..n], &mut text);
    files::print(rt, &text[..length])
}

fn main(rt: HostRuntime) -> ExitCode {
    files::status(run(&rt))
}
