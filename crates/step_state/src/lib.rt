// The state as the code holds it: rows in arrays of eight, of which the first `count` are in use.
#![tactic(auto)]

ghost use Rattle.std.specs.Prelude.{◌≡◌, ℕ, ◌≤◌};
ghost use Rattle.rules.specs.Limits.{most_nodes};
ghost use Rattle.rules.specs.Queues.{before};
ghost use Rattle.rules.specs.Election.{elected};
ghost use Rattle.rules.specs.Step.{fresh};
ghost use Rattle.any_list.specs.Arrays.{column};
ghost use Rattle.step_state.specs.Hold.{id_at, pack_elected, pack_core};
ghost use Rattle.step_state.specs.Stores.{pack_board, closed_stream, bare};

use step_parts::{
    Blank, ElectionId, EventQueue, Mastership, RequestQueue, ResponseQueue, Term, Write,
};

// A controller node. `says` is the flag "device says master".
#[derive(Clone, Copy)]
pub struct Controller {
    pub events: EventQueue,
    pub learned: Mastership,
    pub says: bool,
}

// A stream between a node and the switch; `sent` is the term last sent on it. That its queues are in order is no part of the type, nor of a controller's: the
// test of the range is given states in which they are not (`row-above-n`).
#[derive(Clone, Copy)]
pub struct Stream {
    pub opened: bool,
    pub sent: Term,
    pub requests: RequestQueue,
    pub responses: ResponseQueue,
}

// Whom ids elect: the switch's master, 0 for none, and the largest id. The number may be any in a state that is tested for its range.
#[derive(Clone, Copy, PartialEq, Eq)]
pub struct Elected {
    pub master: u8,
    pub largest: ElectionId,
}

// What the switch holds: an election id and a term for each node, whom the ids elect, and the last accepted term. The rules read ids and terms as columns.
#[derive(Clone, Copy)]
pub struct Claims {
    pub ids: [ElectionId; 8],
    pub terms: [Term; 8],
    pub elected: Elected,
    pub last: Term,
}

// What one role owns.
#[derive(Clone, Copy)]
pub struct Core {
    pub service: Mastership,
    pub controllers: [Controller; 8],
    pub streams: [Stream; 8],
    pub claims: Claims,
}

#[derive(Clone, Copy)]
pub struct History {
    pub items: [Write; 1024],
    pub len: u16,
}

#[derive(Clone, Copy)]
pub struct State {
    pub count: u8,
    pub running: bool,
    pub core: Core,
    pub history: History,
}

// The switch's board, the streams and what it holds of their nodes: what Close, Handle update and Shutdown write.
#[derive(Clone, Copy)]
pub struct Board {
    pub streams: [Stream; 8],
    pub claims: Claims,
}

// The state without its history: what a step carries about.
#[derive(Clone, Copy)]
pub struct Body {
    pub count: u8,
    pub running: bool,
    pub core: Core,
}

// How many nodes stand before the first that holds the id; all of them where none does. At most eight nodes is asked for here and by others, and is no type: a
// state's count may be any byte until its range is tested.
pub fn id_place(count: u8, id: ElectionId, ids: [ElectionId; 8]) -> u8
    requires { count ≤ most_nodes }
    ensures { result ≡ before id.0 (column id_at count ids) }
{
    match ids[..count as usize].iter().position(|held| id == *held) {
        Some(place) => place as u8,
        None => count,
    }
}

// The election: one pass over the ids.
pub fn elect(count: u8, ids: [ElectionId; 8]) -> Elected
    requires { count ≤ most_nodes }
    ensures { result ≡ pack_elected (elected (column id_at count ids)) }
{
    let mut master: u8 = 0;
    let mut largest = ElectionId(0);
    for (i, id) in ids[..count as usize].iter().enumerate() {
        if largest < *id {
            largest = *id;
            master = (i + 1) as u8;
        }
    }
    Elected { master, largest }
}

// A closed stream.
pub fn closed_stream() -> Stream
    ensures { result ≡ closed_stream }
{
    Stream {
        opened: false,
        sent: Term(0),
        requests: RequestQueue::empty(),
        responses: ResponseQueue::empty(),
    }
}

// A board with nothing on it, but the last accepted term: what 12 Shutdown leaves, however many nodes there are.
pub fn blank_board(last: Term) -> Board
    ensures { result ≡ pack_board (bare last.0) }
{
    let nobody = Elected {
        master: 0,
        largest: ElectionId(0),
    };
    let claims = Claims {
        ids: [ElectionId(0); 8],
        terms: [Term(0); 8],
        elected: nobody,
        last,
    };
    Board {
        streams: [closed_stream(); 8],
        claims,
    }
}

// What a role owns before any step: nothing in any row, however many nodes there are.
pub fn blank_core() -> Core
    ensures { (count : ℕ) → result ≡ pack_core (fresh count).core }
{
    let blank = Mastership::blank();
    let controller = Controller {
        events: EventQueue::empty(),
        learned: blank,
        says: false,
    };
    let Board { streams, claims } = blank_board(Term(0));
    Core {
        service: blank,
        controllers: [controller; 8],
        streams,
        claims,
    }
}
