// Whether two steps are independent: the written list, (a) to (f), as a function.
#![tactic(auto)]

ghost use Rattle.std.specs.Prelude.{◌≡◌, [], ◌∷◌};
ghost use Rattle.rules.specs.Queues.{has};
ghost use Rattle.rules_exchange.specs.Independent as L;
ghost use Rattle.merge_independence.specs.Asks.{event};

use step_parts::Kind;

// ---- the groups of kinds that the list speaks of

// Whether the kind is one of two.
fn one_of(kind: u8, one: u8, other: u8) -> bool
    ensures { result ≡ has kind (one ∷ other ∷ []) }
{
    (kind == one) | (kind == other)
}

fn is_service(kind: u8) -> bool
    ensures { result ≡ has kind L.service_kinds }
{
    one_of(kind, Kind::Join as u8, Kind::Leave as u8)
}

fn is_learn(kind: u8) -> bool
    ensures { result ≡ has kind L.learn_kinds }
{
    kind == Kind::Learn as u8
}

fn is_send(kind: u8) -> bool
    ensures { result ≡ has kind L.send_kinds }
{
    one_of(kind, Kind::SendUpdate as u8, Kind::SendWrite as u8)
}

fn is_receive(kind: u8) -> bool
    ensures { result ≡ has kind L.receive_kinds }
{
    one_of(kind, Kind::ReceiveUpdate as u8, Kind::ReceiveWrite as u8)
}

fn is_message(kind: u8) -> bool
    ensures { result ≡ has kind L.message_kinds }
{
    is_send(kind) | is_receive(kind)
}

fn is_node_kind(kind: u8) -> bool
    ensures { result ≡ has kind L.node_kinds }
{
    is_learn(kind) | is_message(kind)
}

// The steps of the switch on one stream that tell no other.
fn is_quiet(kind: u8) -> bool
    ensures { result ≡ has kind L.quiet_kinds }
{
    one_of(kind, Kind::Connect as u8, Kind::HandleWrite as u8)
}

// The steps of the switch on one stream.
fn is_stream(kind: u8) -> bool
    ensures { result ≡ has kind L.stream_kinds }
{
    (kind == Kind::Connect as u8)
        | (kind == Kind::Close as u8)
        | (kind == Kind::HandleUpdate as u8)
        | (kind == Kind::HandleWrite as u8)
}

fn is_switch(kind: u8) -> bool
    ensures { result ≡ has kind L.switch_kinds }
{
    is_stream(kind) | (kind == Kind::Shutdown as u8) | (kind == Kind::Startup as u8)
}

// ---- the list

// The kind is known, and it calls for the node.
fn exists(nodes: u8, kind: u8, node: u8) -> bool
    ensures { result ≡ L.exists nodes (event kind node) }
{
    let Ok(kind) = Kind::try_from(kind) else {
        return false;
    };
    match kind {
        Kind::Shutdown | Kind::Startup => node == 0,
        _ => step_parts::is_node(nodes, node),
    }
}

// One of the lines (a) to (f) names the two steps, in this order.
fn listed(kind_a: u8, node_a: u8, kind_b: u8, node_b: u8) -> bool
    ensures { result ≡ L.listed L.lines (event kind_a node_a) (event kind_b node_b) }
{
    let differ = node_a != node_b;
    let service = is_service(kind_a);
    let switch = is_switch(kind_b);
    let a = is_node_kind(kind_a) & is_node_kind(kind_b) & differ;
    let b = service & is_message(kind_b);
    let c = service & switch;
    let d = is_learn(kind_a) & switch;
    let e = is_send(kind_a) & is_stream(kind_b) & differ;
    let f = is_receive(kind_a) & is_quiet(kind_b) & differ;
    a | b | c | d | e | f
}

// Whether two steps are independent among `nodes` nodes: both exist, and a line names them, in either order.
pub fn independent(nodes: u8, kind_a: u8, node_a: u8, kind_b: u8, node_b: u8) -> bool
    ensures { result ≡ L.independent nodes (event kind_a node_a) (event kind_b node_b) }
{
    let both = exists(nodes, kind_a, node_a) & exists(nodes, kind_b, node_b);
    let named = listed(kind_a, node_a, kind_b, node_b) | listed(kind_b, node_b, kind_a, node_a);
    both & named
}
