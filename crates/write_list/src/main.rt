// Reads steps in text from standard input, and writes their event list to standard output; a refusal goes to standard error.
#![tactic(auto)]

use files::Stop;
use std::process::ExitCode;

// One byte more than the longest text, so that a longer one is seen.
fn room() -> [u8; list_source::LONGEST + 1] {
    [0u8; list_source::LONGEST + 1]
}

fn run(rt: &HostRuntime) -> Result<(), Stop> {
    let mut text = room();
    let n = files::read_source(rt, &mut text)?;
    let mut list = [0u8; run_lists::LONGEST];
    let mut line = [0u8; list_source::LONGEST_LINE];
    match list_source::list_from(&text[..n], &mut list, &mut line) {
        Ok(length) => files::print(rt, &list[..length])?,
        Err(length) => files::warn(rt, &line[..length]),
    }
    Ok(())
}

fn main(rt: HostRuntime) -> ExitCode {
    files::status(run(&rt))
}
