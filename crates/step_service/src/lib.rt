// The election service: kinds 1 and 2. Each has a check, which only reads, and its effects: the service's mastership and the post.
#![tactic(auto)]

ghost use Rattle.std.specs.Prelude.{◌≡◌, true, cond, map, ◌+◌, ◌≤◌};
ghost use Rattle.rules.specs.Codes.{step_done, queue_full};
ghost use Rattle.rules.specs.Limits.{most_nodes};
ghost use Rattle.rules.specs.Queues.{push, room_all};
ghost use Rattle.rules.specs.Part.{decide};
ghost use Rattle.rules.specs.Rules.{join_rule, leave_rule, joined, left, hands_over};
ghost use Rattle.any_list.specs.Arrays.{column};
ghost use Rattle.step_parts.specs.Answers.{code_of};
ghost use Rattle.step_parts.specs.Hold.{hold_mastership, pack_mastership};
ghost use Rattle.step_parts.specs.Ordered.{OrderedMastership};
ghost use Rattle.step_state.specs.Hold.{events_at, hold_desk};
ghost use Rattle.step_state.specs.Order.{OrderedControllers};
ghost use Rattle.step_state.specs.Reads.{answer_of};
ghost use Rattle.step_state.specs.Stores.{store_events};
ghost use Rattle.step_service.specs.Asks.{Joins, Leaves, Leaving, Promotes, hears, skipping, without_backup, handed_over};

use step_parts::{Mastership, Refusal, Term};
use step_state::Controller;

// Whether every node has room for one event more.
pub fn post_room(count: u8, controllers: &[Controller; 8]) -> bool
    requires { OrderedControllers count controllers.now }
    ensures { result ≡ room_all (column events_at count controllers.now) }
{
    controllers[..count as usize]
        .iter()
        .all(|controller| !controller.events.full())
}

// The mastership goes last in the node's event queue.
pub fn hear(controller: Controller, m: Mastership) -> Controller
    ensures { result ≡ hears m controller }
{
    Controller {
        events: controller.events.push(m),
        ..controller
    }
}

// The mastership goes last in every event queue.
pub fn post(count: u8, controllers: &mut [Controller; 8], m: Mastership)
    requires { OrderedControllers count controllers.old × OrderedMastership m × (room_all (column events_at count controllers.old) ≡ true) }
    ensures { controllers.new ≡ store_events (map (push (hold_mastership m)) (column events_at count controllers.old)) count controllers.old }
{
    for controller in &mut controllers[..count as usize] {
        *controller = hear(*controller, m);
    }
}

fn check_post(count: u8, controllers: &[Controller; 8]) -> Result<(), Refusal>
    requires { OrderedControllers count controllers.now }
    ensures { code_of result ≡ cond (room_all (column events_at count controllers.now)) step_done queue_full }
{
    if !post_room(count, controllers) {
        return Err(Refusal::QueueFull);
    }
    Ok(())
}

// 1 Join: whether it may be done, or why not.
pub fn check_join(
    count: u8,
    node: u8,
    service: Mastership,
    controllers: &[Controller; 8],
) -> Result<(), Refusal>
    requires { OrderedControllers count controllers.now }
    ensures { code_of result ≡ answer_of (decide (join_rule node) (hold_desk count service controllers.now)) }
{
    if service.master == 0 {
        if step_parts::TOP_TERM <= service.term.0 {
            return Err(Refusal::TermLimit);
        }
    } else if service.names(node) {
        return Err(Refusal::NotAllowed);
    }
    check_post(count, controllers)
}

// The mastership after the node joined it.
pub fn joined(service: Mastership, node: u8) -> Mastership
    requires { Joins service }
    ensures { result ≡ pack_mastership (joined node (hold_mastership service)) }
{
    if service.master == 0 {
        return Mastership {
            term: Term(service.term.0 + 1),
            master: node,
            backups: [0u8; step_parts::MOST_BACKUPS as usize],
            len: 0,
        };
    }
    let at = service.len as usize;
    let mut next = service;
    next.backups[at] = node;
    next.len = service.len + 1;
    next
}

// Whether the first backup takes over when the node leaves.
pub fn hands_over(service: Mastership, node: u8) -> bool
    ensures { result ≡ hands_over node (hold_mastership service) }
{
    if service.master == node {
        return 0 < service.len;
    }
    false
}

// 2 Leave: whether it may be done, or why not.
pub fn check_leave(
    count: u8,
    node: u8,
    service: Mastership,
    controllers: &[Controller; 8],
) -> Result<(), Refusal>
    requires { OrderedControllers count controllers.now }
    ensures { code_of result ≡ answer_of (decide (leave_rule node) (hold_desk count service controllers.now)) }
{
    if !service.names(node) {
        return Err(Refusal::NotAllowed);
    }
    if !hands_over(service, node) {
        return Ok(());
    }
    if step_parts::TOP_TERM <= service.term.0 {
        return Err(Refusal::TermLimit);
    }
    check_post(count, controllers)
}

// The mastership without a backup: those behind it move up, and a 0 stands at the last place.
fn without(m: Mastership, node: u8) -> Mastership
    requires { Leaves m node }
    ensures { result ≡ pack_mastership (without_backup node (hold_mastership m)) }
{
    let gone = m.place_of(node) as usize - 1;
    let last = step_parts::MOST_BACKUPS as usize - 1;
    let mut backups = m.backups;
    // Not by `copy_within`: for it the archive for C hosts would need `memmove` from outside.
    for i in gone..last {
        backups[i] = m.backups[i + 1];
    }
    backups[last] = 0;
    Mastership {
        backups,
        len: m.len - 1,
        ..m
    }
}

// The first backup becomes the master of a new term.
fn promoted(m: Mastership) -> Mastership
    requires { Promotes m }
    ensures { result ≡ pack_mastership (handed_over (hold_mastership m)) }
{
    let at = m.backups;
    Mastership {
        term: Term(m.term.0 + 1),
        master: at[0],
        backups: [at[1], at[2], at[3], at[4], at[5], at[6], 0],
        len: m.len - 1,
    }
}

// The mastership after the node left it.
pub fn left(service: Mastership, node: u8) -> Mastership
    requires { Leaving service node }
    ensures { result ≡ pack_mastership (left node (hold_mastership service)) }
{
    if service.master == node {
        if service.len == 0 {
            return Mastership {
                master: 0,
                ..service
            };
        }
        return promoted(service);
    }
    without(service, node)
}
