// What a controller node does: kinds 3 to 7. Each kind has a test, which only reads, and an effect.
#![tactic(auto)]

ghost use Rattle.std.specs.Prelude.{◌≡◌, false, leb};
ghost use Rattle.rules.specs.Limits.{queue_length};
ghost use Rattle.rules.specs.Rules.{learn_rule, send_update_rule, receive_update_rule, send_write_rule};
ghost use Rattle.step_parts.specs.Answers.{code_of};
ghost use Rattle.step_state.specs.Order.{OrderedController, OrderedStream};
ghost use Rattle.step_state.specs.Reads.{inbox_of, sender_of, receiver_of};
ghost use Rattle.step_state.specs.Stores.{store_inbox, store_sent};
ghost use Rattle.step_nodes.specs.Waiting.{send_answer, Waits, update_waits, write_waits, received};

use step_parts::{Message, Refusal, Request, Status, election_id, term_of};
use step_state::{Controller, Stream};

// 3 Learn: whether the rule allows it. A bool, here and for the kinds below: the clauses name the rules' `allowed`, which is one.
pub fn may_learn(controller: &Controller) -> bool
    requires { OrderedController controller.now }
    ensures { result ≡ learn_rule.allowed (inbox_of controller.now) }
{
    if controller.events.len == 0 {
        return false;
    }
    controller.learned.term.0 <= controller.events.items[0].term.0
}

// 3 Learn: the head of the events becomes the learned mastership.
pub fn learn(controller: Controller) -> Controller
    requires { OrderedController controller }
    ensures { result ≡ store_inbox (learn_rule.effect (inbox_of controller)) controller }
{
    Controller {
        events: controller.events.pop(),
        learned: controller.events.items[0],
        ..controller
    }
}

// Whether a step that sends may be done: it is allowed, and there is room for one request more.
pub fn check_send(allowed: bool, stream: &Stream) -> Result<(), Refusal>
    ensures { code_of result ≡ send_answer allowed (leb queue_length stream.now.requests.len) }
{
    if !allowed {
        return Err(Refusal::NotAllowed);
    }
    if stream.requests.full() {
        return Err(Refusal::QueueFull);
    }
    Ok(())
}

// 4 Send update: whether the rule allows it.
#[tactic(auto, using(std::proofs::lemmas::Bool::Decides::nat_tests), unfolding(rules::specs::Rules::send_update_rule))]
pub fn may_send_update(count: u8, node: u8, controller: &Controller, stream: &Stream) -> bool
    ensures { result ≡ (send_update_rule node).allowed (sender_of count controller.now stream.now) }
{
    let learned = controller.learned;
    if stream.opened && stream.sent.0 < learned.term.0 {
        return learned.names(node);
    }
    false
}

// 4 Send update: the request goes last, and its term is the one last sent.
pub fn send_update(count: u8, node: u8, controller: Controller, stream: Stream) -> Stream
    requires { OrderedStream stream × (leb queue_length stream.requests.len ≡ false) }
    ensures { result ≡ store_sent ((send_update_rule node).effect (sender_of count controller stream)) stream }
{
    let learned = controller.learned;
    let place = learned.place_of(node);
    let request = Request {
        message: Message::Update,
        id: election_id(count, learned.term, place),
        term: learned.term,
    };
    Stream {
        sent: learned.term,
        requests: stream.requests.push(request),
        ..stream
    }
}

// 6 Send write: whether the rule allows it.
#[tactic(auto, using(std::proofs::lemmas::Bool::Decides::nat_tests), unfolding(rules::specs::Rules::send_write_rule))]
pub fn may_send_write(count: u8, node: u8, controller: &Controller, stream: &Stream) -> bool
    ensures { result ≡ (send_write_rule node).allowed (sender_of count controller.now stream.now) }
{
    let learned = controller.learned;
    stream.opened && 0 < learned.term.0 && learned.master == node && controller.says
}

// 6 Send write: the request goes last. A rule of its own beside 4 Send update: the id is the master's, and `sent` stays.
pub fn send_write(count: u8, node: u8, controller: Controller, stream: Stream) -> Stream
    requires { OrderedStream stream × (leb queue_length stream.requests.len ≡ false) }
    ensures { result ≡ store_sent ((send_write_rule node).effect (sender_of count controller stream)) stream }
{
    let term = controller.learned.term;
    let request = Request {
        message: Message::Write,
        id: election_id(count, term, 0),
        term,
    };
    Stream {
        requests: stream.requests.push(request),
        ..stream
    }
}

// 5 Receive update: whether the rule allows it.
pub fn may_receive_update(stream: &Stream) -> bool
    requires { OrderedStream stream.now }
    ensures { result ≡ update_waits stream.now }
{
    if stream.opened && stream.responses.len != 0 {
        return stream.responses.items[0].message != Message::Write;
    }
    false
}

// 5 Receive update: the flag that the head of the responses leaves.
pub fn confirmed(count: u8, node: u8, controller: Controller, stream: Stream) -> bool
    requires { Waits stream }
    ensures { result ≡ ((receive_update_rule node).effect (receiver_of count controller stream)).says }
{
    let head = stream.responses.items[0];
    let learned = controller.learned;
    if learned.master == node
        && stream.sent == learned.term
        && term_of(count, head.id) == learned.term
    {
        return head.status == Status::Ok;
    }
    false
}

// 7 Receive write: whether the rule allows it. A rule of its own beside 5 Receive update.
pub fn may_receive_write(stream: &Stream) -> bool
    requires { OrderedStream stream.now }
    ensures { result ≡ write_waits stream.now }
{
    if stream.opened && stream.responses.len != 0 {
        return stream.responses.items[0].message == Message::Write;
    }
    false
}

// 5, 7: the head of the responses is taken off.
pub fn receive(stream: Stream) -> Stream
    requires { OrderedStream stream }
    ensures { result ≡ received stream }
{
    Stream {
        responses: stream.responses.pop(),
        ..stream
    }
}
