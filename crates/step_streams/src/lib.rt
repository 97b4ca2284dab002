// Whom a changed id elects, and the switch's streams: which are open, what they are told, and what waits on them.
#![tactic(auto)]

ghost use Rattle.std.specs.Prelude.{◌≡◌, ◌≤◌};
ghost use Rattle.rules.specs.Limits.{most_nodes};
ghost use Rattle.rules.specs.Queues.{first};
ghost use Rattle.rules.specs.Election.{elected, holding, taken, status_for, room_open};
ghost use Rattle.rules.specs.Open.{word_of, open_number};
ghost use Rattle.rules.specs.Rules.{no_request};
ghost use Rattle.any_list.specs.Arrays.{column, table};
ghost use Rattle.step_parts.specs.Hold.{pack_status, pack_request, pack_response, hold_requests};
ghost use Rattle.step_state.specs.Hold.{id_at, open_at, responses_at, pack_elected};
ghost use Rattle.step_state.specs.Order.{OrderedStream};
ghost use Rattle.step_streams.specs.Asks.{IsNode, OrderedRows, HasHead};
ghost use Rattle.step_streams.specs.Does.{news_of, responded, without_head, tell_row, waiting};

use step_parts::{ElectionId, Message, Request, Response, Status};
use step_state::{Elected, Stream};

// Whom the ids elect once the node's is this one. A higher id than all wins; the master that asks for the id it has, or another node for a lower one,
// changes nothing. So the ids are passed over only where the master's own falls, and where nobody has one.
pub fn elected_with(
    count: u8,
    node: u8,
    id: ElectionId,
    ids: [ElectionId; 8],
    now: Elected,
) -> Elected
    requires { IsNode count node × (now ≡ pack_elected (elected (column id_at count ids))) }
    ensures { result ≡ pack_elected (holding node id.0 (elected (column id_at count ids))) }
{
    if now.largest.0 < id.0 {
        return Elected {
            master: node,
            largest: id,
        };
    }
    if now.master == node {
        if id == now.largest {
            return now;
        }
    } else if id.0 < now.largest.0 {
        return now;
    }
    let mut next = ids;
    next[(node - 1) as usize] = id;
    step_state::elect(count, next)
}

// Whether another node holds the id.
pub fn is_taken(count: u8, node: u8, id: ElectionId, ids: [ElectionId; 8]) -> bool
    requires { IsNode count node }
    ensures { result ≡ taken node id.0 (column id_at count ids) }
{
    let mut others = ids;
    others[(node - 1) as usize] = ElectionId(0);
    step_state::id_place(count, id, others) < count
}

// The open streams as a word: bit n - 1 is set for an open stream of node n.
pub fn open_word(count: u8, streams: [Stream; 8]) -> u32
    requires { count ≤ most_nodes }
    ensures { result ≡ word_of (column open_at count streams) }
{
    let mut word = 0;
    let mut bit = 1;
    for stream in &streams[..count as usize] {
        if stream.opened {
            word += bit;
        }
        bit *= 2;
    }
    word
}

// How many streams are open.
pub fn open_number(count: u8, streams: [Stream; 8]) -> u32
    requires { count ≤ most_nodes }
    ensures { result ≡ open_number (column open_at count streams) }
{
    u32::count_ones(open_word(count, streams))
}

// The status of an update response: every such response gets it here.
fn status_for(master: u8, node: u8) -> Status
    ensures { result ≡ pack_status (status_for master node) }
{
    if master == 0 {
        return Status::NotFound;
    }
    if master == node {
        return Status::Ok;
    }
    Status::AlreadyExists
}

// What a node is told of whom the ids elect.
fn news_for(node: u8, elected: Elected) -> Response
    ensures { result ≡ pack_response (news_of elected node) }
{
    Response {
        message: Message::Update,
        status: status_for(elected.master, node),
        id: elected.largest,
    }
}

// The response goes last.
pub fn respond(stream: Stream, response: Response) -> Stream
    ensures { result ≡ responded response stream }
{
    Stream {
        responses: stream.responses.push(response),
        ..stream
    }
}

// The node alone is told.
pub fn tell_one(node: u8, elected: Elected, stream: Stream) -> Stream
    ensures { result ≡ responded (pack_response (news_of elected node)) stream }
{
    respond(stream, news_for(node, elected))
}

// Whether every open stream has room to be told.
pub fn tell_room(count: u8, streams: &[Stream; 8]) -> bool
    requires { OrderedRows count streams.now }
    ensures { result ≡ room_open (column open_at count streams.now) (column responses_at count streams.now) }
{
    streams[..count as usize]
        .iter()
        .all(|stream| !stream.opened || !stream.responses.full())
}

// Every open stream is told, from the lowest node on. A rule of the project: the open ones are walked by the bits of their word. The rows are lent: a copy of all
// of them would stand on the stack once more.
pub fn tell_all(count: u8, elected: Elected, streams: &mut [Stream; 8])
    requires { count ≤ most_nodes }
    ensures { streams.new ≡ table most_nodes (tell_row (column open_at count streams.old) (news_of elected) streams.old) }
{
    let mut left = open_word(count, *streams);
    while left != 0 {
        let i = u32::trailing_zeros(left) as usize;
        streams[i] = respond(streams[i], news_for((i + 1) as u8, elected));
        left = left & (left - 1);
    }
}

// The request at the head of the stream's queue.
pub fn head(stream: Stream) -> Request
    requires { HasHead stream }
    ensures { result ≡ pack_request (first no_request (hold_requests stream.requests)) }
{
    stream.requests.items[0]
}

// The request at the head is taken off.
pub fn without_head(stream: Stream) -> Stream
    ensures { result ≡ without_head stream }
{
    Stream {
        requests: stream.requests.pop(),
        ..stream
    }
}

// What the head request of the stream is about; nothing where the switch would not handle it.
pub fn waits(running: bool, stream: Stream) -> Message
    requires { OrderedStream stream }
    ensures { result ≡ waiting running stream }
{
    if running && stream.opened && stream.requests.len != 0 {
        return head(stream).message;
    }
    Message::Nothing
}
