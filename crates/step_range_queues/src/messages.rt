// Requests and responses.
#![tactic(auto, using(std::proofs::lemmas::Bool::Decides::nat_tests), unfolding(rules::specs::Range::within, rules::specs::Range::request_fits, rules::specs::Range::answer_fits, step_state::specs::Tidy::no_message, step_state::specs::Tidy::no_status, step_state::specs::Tidy::tidy_request, step_state::specs::Tidy::blank_request, step_state::specs::Tidy::blank_response, crate::specs::Tests::carries_test, crate::specs::Tests::request_test, crate::specs::Tests::status_test, crate::specs::Tests::response_test))]

ghost use Rattle.std.specs.Prelude.{◌≡◌, cond};
ghost use Rattle.step_state.specs.Tidy.{blank_request, blank_response};
ghost use Rattle.step_range_queues.specs.Tests.{carries_test, request_test, response_test};

use crate::masterships;
use crate::queues::Fits;
use step_parts::{ElectionId, Message, Request, Response, Status, Term};

// What a request carries, at a place in use.
fn carries(used: bool, id: ElectionId, term: Term) -> bool
    ensures { result ≡ carries_test used id.0 term.0 }
{
    used && 1 <= id.0 && id.0 <= step_parts::TOP_ID && masterships::is_term(term)
}

// A place for a request: in use, it has an id and a term; else it is blank.
fn request_fits(used: bool, x: Request) -> bool
    ensures { result ≡ cond used (request_test x) (blank_request x) }
{
    match x.message {
        Message::Nothing => !used && x.id.0 == 0 && x.term.0 == 0,
        Message::Update | Message::Write => carries(used, x.id, x.term),
    }
}

impl Fits for Request {
    ghost in_use = { λ count. request_test };

    ghost behind = { blank_request };

    fn fits(self, used: bool, _count: u8) -> bool {
        request_fits(used, self)
    }
}

// A place for a response: in use, its status answers the message, and an update's id is in range; else it is blank.
fn response_fits(used: bool, x: Response) -> bool
    ensures { result ≡ cond used (response_test x) (blank_response x) }
{
    match (x.message, x.status) {
        (Message::Nothing, Status::Nothing) => !used && x.id.0 == 0,
        (Message::Update, Status::Ok | Status::AlreadyExists | Status::NotFound) => {
            used && x.id.0 <= step_parts::TOP_ID
        }
        (Message::Write, Status::Ok | Status::PermissionDenied) => used && x.id.0 == 0,
        _ => false,
    }
}

impl Fits for Response {
    ghost in_use = { λ count. response_test };

    ghost behind = { blank_response };

    fn fits(self, used: bool, _count: u8) -> bool {
        response_fits(used, self)
    }
}
