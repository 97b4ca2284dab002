// The public functions on a whole state: a step, the fresh state, the open streams.
#![tactic(auto)]

ghost use Rattle.std.specs.Prelude.{◌≡◌, ◌<◌, OnSome};
ghost use Rattle.rules.specs.Limits.{history_length};
ghost use Rattle.step.specs.Public.{numbered, stepped, freshened, told, reported};
ghost use Rattle.step.specs.Settling.{appended, settled_as, blank_state};

use step_parts::{Refusal, Term, Write};
use step_state::{Body, History, State};

// A state with the answer that led to it.
#[derive(Clone, Copy)]
pub struct Stepped {
    pub answer: Result<(), Refusal>,
    pub state: State,
}

// The open streams: bit n - 1 of the word is set for an open stream of node n, and the number is how many are.
#[derive(Clone, Copy)]
pub struct Open {
    pub word: u32,
    pub number: u32,
}

fn append(history: History, write: Write) -> History
    requires { history.len < history_length }
    ensures { result ≡ appended write history }
{
    let mut next = history;
    next.items[history.len as usize] = write;
    next.len = history.len + 1;
    next
}

// What a step left, put together with the history.
fn settled(body: Body, history: History, accepted: Option<Write>) -> State
    requires { OnSome accepted (history.len < history_length) }
    ensures { result ≡ settled_as body history accepted }
{
    let history = match accepted {
        Some(write) => append(history, write),
        None => history,
    };
    State {
        count: body.count,
        running: body.running,
        core: body.core,
        history,
    }
}

// One step of a state: the answer, and the state that it leaves. A refusal leaves the state given.
pub fn step(state: State, kind: u8, node: u8) -> Stepped
    ensures { numbered result ≡ stepped state kind node }
{
    if !step_range::in_range(state) {
        return Stepped {
            answer: Err(Refusal::OutOfRange),
            state,
        };
    }
    let mut body = Body {
        count: state.count,
        running: state.running,
        core: state.core,
    };
    match step_body::advance(&mut body, state.history.len, kind, node) {
        Ok(accepted) => Stepped {
            answer: Ok(()),
            state: settled(body, state.history, accepted),
        },
        Err(refusal) => Stepped {
            answer: Err(refusal),
            state,
        },
    }
}

fn blank_state(count: u8, running: bool) -> State
    ensures { result ≡ blank_state count running }
{
    let none = Write {
        node: 0,
        term: Term(0),
    };
    State {
        count,
        running,
        core: step_state::blank_core(),
        history: History {
            items: [none; 1024],
            len: 0,
        },
    }
}

// The fresh state of 1 to 8 nodes; for any other number code 10 and a state that is all zero.
pub fn fresh(nodes: u8) -> Stepped
    ensures { numbered result ≡ freshened nodes }
{
    if step_parts::is_node(step_parts::MOST_NODES, nodes) {
        return Stepped {
            answer: Ok(()),
            state: blank_state(nodes, true),
        };
    }
    Stepped {
        answer: Err(Refusal::BadNodeCount),
        state: blank_state(0, false),
    }
}

// The open streams of a state in range; code 1 for any other.
pub fn open_streams(state: State) -> Result<Open, Refusal>
    ensures { told result ≡ reported state }
{
    if !step_range::in_range(state) {
        return Err(Refusal::OutOfRange);
    }
    Ok(Open {
        word: step_streams::open_word(state.count, state.core.streams),
        number: step_streams::open_number(state.count, state.core.streams),
    })
}
