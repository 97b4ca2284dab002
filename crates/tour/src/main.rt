// Plays the situations that standard input has. Its text is printed as it stands, but for each `=` and the two bytes behind it: a letter that says
// what is done with the state, and a digit. The number that this gives is printed in their place.
//
//     =F2           the fresh state of two nodes: the code
//     =a1 .. =m0    a step. The letter is its kind, a for 1 to m for 13, and the digit its node: the code
//     =O0  =C0      the open streams: their word, and how many there are
//     =W0  =T0      the accepted write at place 0: its node, and its term
//     =I0           the election id that the switch holds at place 0: node 1's
//     =M0  =L0      the switch's master, and the largest id
#![tactic(auto)]

use files::Stop;
use std::fmt::InlineText;
use std::process::ExitCode;
use step::Open;
use step_state::{Claims, History, State};

// A number, and the state from then on.
#[derive(Clone, Copy)]
struct Shown {
    number: u64,
    state: State,
}

// The open streams.
fn open_streams(open: Open, what: u8) -> u64 {
    if what == b'O' {
        return open.word as u64;
    }
    open.number as u64
}

// The accepted write at a place.
fn accepted(history: History, what: u8, place: u8) -> u64 {
    let at = place as usize;
    let write = history.items[at];
    if what == b'W' {
        return write.node as u64;
    }
    write.term.0 as u64
}

// What the switch holds.
fn held(claims: Claims, what: u8, place: u8) -> u64 {
    let elected = claims.elected;
    if what == b'M' {
        return elected.master as u64;
    }
    if what == b'L' {
        return elected.largest.0 as u64;
    }
    if 7 < place {
        return 0;
    }
    let at = place as usize;
    let id = claims.ids[at];
    id.0 as u64
}

fn looked(state: State, what: u8, n: u8) -> u64 {
    if (what == b'O') | (what == b'C') {
        return match step::open_streams(state) {
            Ok(open) => open_streams(open, what),
            Err(_) => 0,
        };
    }
    if (what == b'W') | (what == b'T') {
        let history = state.history;
        return accepted(history, what, n);
    }
    let core = state.core;
    let claims = core.claims;
    held(claims, what, n)
}

fn answer(state: State, what: u8, n: u8) -> Shown {
    if what == b'F' {
        let made = step::fresh(n);
        return Shown {
            number: step_parts::code(made.answer) as u64,
            state: made.state,
        };
    }
    if what < b'a' {
        return Shown {
            number: looked(state, what, n),
            state,
        };
    }
    let stepped = step::step(state, what & 31, n);
    Shown {
        number: step_parts::code(stepped.answer) as u64,
        state: stepped.state,
    }
}

// Prints a text, and the number behind it.
fn print_answer(rt: &HostRuntime, text: &[u8], number: u64) -> Result<(), Stop> {
    let digits = InlineText::<20>::of(number);
    files::print(rt, text)?;
    files::print(rt, digits.as_str().as_bytes())
}

// The place is moved by hand: a step of it is one byte or three, and no iterator goes so.
fn play(rt: &HostRuntime, script: &[u8]) -> Result<(), Stop> {
    let mut state = step::fresh(1).state;
    let mut from: usize = 0;
    let mut i: usize = 0;
    while i + 2 < script.len() {
        if script[i] == b'=' {
            let given = answer(state, script[i + 1], script[i + 2] & 15);
            print_answer(rt, &script[from..i], given.number)?;
            state = given.state;
            i += 3;
            from = i;
        } else {
            i += 1;
        }
    }
    files::print(rt, &script[from..])
}

fn run(rt: &HostRuntime) -> Result<(), Stop> {
    let mut script = [0u8; 4096];
    let n = files::read_input(rt, &mut script)?;
    play(rt, &script[..n])
}

fn main(rt: HostRuntime) -> ExitCode {
    files::status(run(&rt))
}
