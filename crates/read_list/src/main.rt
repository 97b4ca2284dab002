// Reads an event list from standard input, and prints its steps as text; a refusal goes to standard error.
#![tactic(auto)]

use files::Stop;
use std::process::ExitCode;

fn room() -> [u8; list_text::LONGEST_TEXT] {
    [0u8; list_text::LONGEST_TEXT]
}

fn run(rt: &HostRuntime) -> Result<(), Stop> {
    // One byte more than the longest list, so that a longer one is seen.
    let mut list = [0u8; run_lists::LONGEST + 1];
    let n = files::read_source(rt, &mut list)?;
    let mut text = room();
    let mut line = [0u8; list_text::LONGEST_LINE];
    match list_text::text_of(&list[..n], &mut text, &mut line) {
        Ok(length) => files::print(rt, &text[..length])?,
        Err(length) => files::warn(rt, &line[..length]),
    }
    Ok(())
}

fn main(rt: HostRuntime) -> ExitCode {
    files::status(run(&rt))
}
