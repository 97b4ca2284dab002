// What the state is made of: terms, election ids, accepted writes, masterships, messages and their queues.
#![tactic(auto)]

ghost use Rattle.std.specs.Prelude.{◌≡◌, ℕ, ◌≤◌, leb};
ghost use Rattle.rules.specs.Limits.{top_id, queue_length};
ghost use Rattle.rules.specs.Range.{within};
ghost use Rattle.rules.specs.Ids.{election_id, term_of, named, place_of};
ghost use Rattle.step_parts.specs.Hold.{hold_mastership, no_mastership, no_request, no_response};
ghost use Rattle.step_parts.specs.Answers.{code_of};
ghost use Rattle.step_parts.specs.Kinds.{IsKindOf};
ghost use Rattle.step_parts.specs.Queues.{empty_queue, with_last, without_first};

// The limits of a state.
pub const MOST_NODES: u8 = 8;

pub const MOST_BACKUPS: u8 = 7;

pub const TOP_TERM: u16 = 10000;

pub const TOP_ID: u32 = 10008;

pub const HISTORY_LENGTH: u16 = 1024;

// The kinds of steps, with their numbers.
#[derive(Clone, Copy, PartialEq, Eq)]
pub enum Kind {
    Join = 1,
    Leave,
    Learn,
    SendUpdate,
    ReceiveUpdate,
    SendWrite,
    ReceiveWrite,
    Connect,
    Close,
    HandleUpdate,
    HandleWrite,
    Shutdown,
    Startup,
}

impl TryFrom<u8> for Kind {
    type Error = Refusal;

    ghost try_from_gives = { IsKindOf };

    fn try_from(number: u8) -> Result<Kind, Refusal> {
        match number {
            1 => Ok(Kind::Join),
            2 => Ok(Kind::Leave),
            3 => Ok(Kind::Learn),
            4 => Ok(Kind::SendUpdate),
            5 => Ok(Kind::ReceiveUpdate),
            6 => Ok(Kind::SendWrite),
            7 => Ok(Kind::ReceiveWrite),
            8 => Ok(Kind::Connect),
            9 => Ok(Kind::Close),
            10 => Ok(Kind::HandleUpdate),
            11 => Ok(Kind::HandleWrite),
            12 => Ok(Kind::Shutdown),
            13 => Ok(Kind::Startup),
            _ => Err(Refusal::UnknownKind),
        }
    }
}

// Why a step is refused, or an event list: the numbers are those of the answer codes.
#[derive(Clone, Copy, PartialEq, Eq)]
pub enum Refusal {
    OutOfRange = 1,
    UnknownKind,
    WrongNode,
    NotAllowed,
    TermLimit,
    HistoryFull,
    QueueFull,
    BadLength,
    BadMark,
    BadNodeCount,
    BadExtent,
    OutTooShort,
}

// The number of an answer: 0 for one that is done.
pub fn code(answer: Result<(), Refusal>) -> u8
    ensures { result ≡ code_of answer }
{
    match answer {
        Ok(()) => 0,
        Err(refusal) => refusal as u8,
    }
}

// Whether there is such a node, among `count` of them.
pub fn is_node(count: u8, node: u8) -> bool
    ensures { result ≡ within 1 count node }
{
    1 <= node && node <= count
}

// A term of the election service.
#[derive(Clone, Copy, PartialEq, Eq, PartialOrd, Ord)]
pub struct Term(pub u16);

// An election id, as the switch compares them.
#[derive(Clone, Copy, PartialEq, Eq, PartialOrd, Ord)]
pub struct ElectionId(pub u32);

// An accepted write.
#[derive(Clone, Copy, PartialEq, Eq)]
pub struct Write {
    pub node: u8,
    pub term: Term,
}

// The id rule: place 0 is the master's, place i that of the i-th backup.
pub fn election_id(count: u8, term: Term, place: u8) -> ElectionId
    ensures { result.0 ≡ election_id count term.0 place }
{
    let top = term.0 as u32 + count as u32;
    let back = place as u32;
    if top < back {
        return ElectionId(0);
    }
    ElectionId(top - back)
}

// The inverse of the id rule: the term whose master has the id.
pub fn term_of(count: u8, id: ElectionId) -> Term
    requires { id.0 ≤ top_id }
    ensures { result.0 ≡ term_of count id.0 }
{
    let back = count as u32;
    if id.0 < back {
        return Term(0);
    }
    Term((id.0 - back) as u16)
}

// What stands at an unused place.
pub trait Blank {
    ghost blank: { Self };

    fn blank() -> Self
        ensures { result ≡ blank };
}

// A mastership: what the service holds, what an event says, what a node learned. Master 0 is none.
// It is a number, since a state that is tested for its range may have any, and `hold_mastership` hands it to the rules.
#[derive(Clone, Copy)]
pub struct Mastership {
    pub term: Term,
    pub master: u8,
    pub backups: [u8; MOST_BACKUPS as usize],
    pub len: u8,
}

impl Blank for Mastership {
    ghost blank = { no_mastership };

    fn blank() -> Self {
        Mastership {
            term: Term(0),
            master: 0,
            backups: [0u8; MOST_BACKUPS as usize],
            len: 0,
        }
    }
}

impl Mastership {
    // The place of the node: 0 for the master, i for the i-th backup, one past the last for any other.
    pub fn place_of(self, node: u8) -> u8
        ensures { result ≡ place_of node (hold_mastership self) }
    {
        if self.master == node {
            return 0;
        }
        for (i, backup) in self.backups.iter().enumerate() {
            if self.len as usize <= i || *backup == node {
                return (i + 1) as u8;
            }
        }
        MOST_NODES
    }

    // Whether the node is the master or a backup.
    pub fn names(self, node: u8) -> bool
        ensures { result ≡ named node (hold_mastership self) }
    {
        let place = self.place_of(node);
        place <= MOST_BACKUPS && place <= self.len
    }
}

// What a message on a stream is about. Nothing stands at an unused place: memory is fixed, and a queue has eight places.
#[derive(Clone, Copy, PartialEq, Eq)]
pub enum Message {
    Nothing,
    Update,
    Write,
}

#[derive(Clone, Copy, PartialEq, Eq)]
pub enum Status {
    Nothing,
    Ok,
    AlreadyExists,
    NotFound,
    PermissionDenied,
}

#[derive(Clone, Copy)]
pub struct Request {
    pub message: Message,
    pub id: ElectionId,
    pub term: Term,
}

impl Blank for Request {
    ghost blank = { no_request };

    fn blank() -> Self {
        Request {
            message: Message::Nothing,
            id: ElectionId(0),
            term: Term(0),
        }
    }
}

#[derive(Clone, Copy)]
pub struct Response {
    pub message: Message,
    pub status: Status,
    pub id: ElectionId,
}

impl Blank for Response {
    ghost blank = { no_response };

    fn blank() -> Self {
        Response {
            message: Message::Nothing,
            status: Status::Nothing,
            id: ElectionId(0),
        }
    }
}

// The most that something holds. A trait has it since the check does not look into a constant of a generic type alone.
pub trait Bounded {
    ghost CAPACITY: { ℕ };

    const CAPACITY: u8;
}

// A queue of at most eight, with blanks behind those that wait in it.
#[derive(Clone, Copy)]
pub struct Queue<T> {
    pub items: [T; 8],
    pub len: u8,
}

// The events that a node has yet to learn.
pub type EventQueue = Queue<Mastership>;

// The requests that the switch has yet to handle.
pub type RequestQueue = Queue<Request>;

// The responses that a node has yet to receive.
pub type ResponseQueue = Queue<Response>;

impl<T> Bounded for Queue<T> {
    ghost CAPACITY = { queue_length };

    const CAPACITY: u8 = 8;
}

impl<T: Blank + Copy> Queue<T> {
    pub fn empty() -> Self
        ensures { result ≡ empty_queue T.blank }
    {
        Queue {
            items: [T::blank(); 8],
            len: 0,
        }
    }

    pub fn full(self) -> bool
        ensures { result ≡ leb queue_length self.len }
    {
        Self::CAPACITY <= self.len
    }

    // One more at the end; a full queue stays as it is.
    pub fn push(self, x: T) -> Self
        ensures { result ≡ with_last self x }
    {
        if self.full() {
            return self;
        }
        let mut next = self;
        next.items[self.len as usize] = x;
        next.len += 1;
        next
    }

    // The head taken off; an empty queue stays as it is.
    pub fn pop(self) -> Self
        ensures { result ≡ without_first T.blank self }
    {
        if self.len == 0 {
            return self;
        }
        let at = self.items;
        Queue {
            items: [at[1], at[2], at[3], at[4], at[5], at[6], at[7], T::blank()],
            len: self.len - 1,
        }
    }
}
