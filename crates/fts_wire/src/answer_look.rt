//! What bytes are the beginning of to a client: less than a response, none, or a whole one.
//! Each head that a response may have is made as it is written (`response_head`), and compared with the bytes. A look takes no memory.
//! Order of a look: the statuses, one after another; for each the length of the body, by the digits that stand in its place, and then its lines.
ghost use Rattle.std.specs.Prelude.{◌≡◌, ◌≤◌, IsTrue, Some};
ghost use Rattle.fts_wire.specs.Response.{has_phrase, has_methods, head_of};
ghost use Rattle.fts_wire.specs.NextAnswers.{BeginsResponse};
ghost use Rattle.fts_wire.specs.AnswerLook.{SeesAnswer, SeesWhole, IsNoneOf, IsNoneHeaded, IsNoneNamed, Follows, IsLengthIn, IsLeading, first_found};

use crate::response::{phrase, response_head};
use crate::{Allow, statuses};

/// At most this many bytes of the body of a response, as a client reads it.
pub const MAX_ANSWER_BYTES: usize = 8_389_632;

/// How many bytes stand before the length of the body, without the phrase of the status.
const BEFORE_LENGTH_BYTES: usize = 63;

/// The head of a response, `size` bytes long, with a body of `body` bytes behind it.
#[derive(Clone, Copy)]
pub struct AnswerHead {
    pub status: u16,
    pub size: usize,
    pub body: usize,
}

/// What bytes are the beginning of.
#[derive(Clone, Copy)]
pub enum AnswerLook {
    Short,
    Refused,
    Found(AnswerHead),
}

impl AnswerLook {
    /// The first of two looks that is no refusal.
    fn or(self, other: AnswerLook) -> AnswerLook
        ensures { result ≡ first_found self other }
    {
        match self {
            AnswerLook::Refused => other,
            AnswerLook::Short => AnswerLook::Short,
            AnswerLook::Found(head) => AnswerLook::Found(head),
        }
    }
}

/// What these bytes are the beginning of. A response is found where its body is there too.
#[tactic(auto, using(crate::proofs::AnswerHeads::stands_within))]
pub fn look_at_answer(bytes: &[u8]) -> AnswerLook
    ensures { SeesWhole bytes.now result }
{
    match look_at_heads(bytes) {
        AnswerLook::Short => AnswerLook::Short,
        AnswerLook::Refused => AnswerLook::Refused,
        AnswerLook::Found(head) => {
            if head.body <= bytes.len() - head.size {
                AnswerLook::Found(head)
            } else {
                AnswerLook::Short
            }
        }
    }
}

/// Whether the bytes begin with the head of a response, or begin one.
fn look_at_heads(bytes: &[u8]) -> AnswerLook
    ensures { SeesAnswer bytes.now (BeginsResponse bytes.now → ⊥) result }
{
    for status in statuses::ALL.iter() {
        match look_for_status(bytes, *status) {
            AnswerLook::Refused => {}
            AnswerLook::Short => return AnswerLook::Short,
            AnswerLook::Found(head) => return AnswerLook::Found(head),
        }
    }
    AnswerLook::Refused
}

/// The same of a response of this status.
fn look_for_status(bytes: &[u8], status: u16) -> AnswerLook
    requires phrase { IsTrue (has_phrase status) }
    ensures { SeesAnswer bytes.now (IsNoneOf bytes.now status) result }
{
    match length_in(bytes, status) {
        None => AnswerLook::Refused,
        Some(body) => look_for_lines(bytes, status, body),
    }
}

/// The same of a response of this status, whose length these bytes give.
fn look_for_lines(bytes: &[u8], status: u16, body: usize) -> AnswerLook
    requires phrase { IsTrue (has_phrase status) }
    requires length { IsLengthIn bytes.now status (Some body) }
    ensures { SeesAnswer bytes.now (IsNoneOf bytes.now status) result }
{
    if status == statuses::METHOD_NOT_ALLOWED {
        look_for_named(bytes, body)
    } else {
        look_for_either(bytes, status, body, Allow::None)
    }
}

/// The same of a refusal of a method, which names those that are allowed.
fn look_for_named(bytes: &[u8], body: usize) -> AnswerLook
    requires few { body ≤ MAX_ANSWER_BYTES }
    ensures { SeesAnswer bytes.now (IsNoneNamed bytes.now body) result }
{
    let status = statuses::METHOD_NOT_ALLOWED;
    let jobs = look_for_either(bytes, status, body, Allow::Jobs);
    let job = look_for_either(bytes, status, body, Allow::Job);
    let get = look_for_either(bytes, status, body, Allow::Get);
    let file = look_for_either(bytes, status, body, Allow::File);
    jobs.or(job).or(get).or(file)
}

/// The same of a head with this length of the body and these methods, whether or not the connection ends.
fn look_for_either(bytes: &[u8], status: u16, body: usize, allow: Allow) -> AnswerLook
    requires phrase { IsTrue (has_phrase status) }
    requires methods { IsTrue (has_methods status allow) }
    requires few { body ≤ MAX_ANSWER_BYTES }
    ensures { SeesAnswer bytes.now (IsNoneHeaded bytes.now status body allow) result }
{
    let stays = look_for_head(bytes, status, body, allow, false);
    let ends = look_for_head(bytes, status, body, allow, true);
    stays.or(ends)
}

/// The same of one head.
fn look_for_head(bytes: &[u8], status: u16, body: usize, allow: Allow, close: bool) -> AnswerLook
    requires phrase { IsTrue (has_phrase status) }
    requires methods { IsTrue (has_methods status allow) }
    requires few { body ≤ MAX_ANSWER_BYTES }
    ensures { SeesAnswer bytes.now (Follows bytes.now (head_of status body allow close) → ⊥) result }
{
    let made = response_head(status, body, allow, close);
    let head = made.as_str().as_bytes();
    if bytes.starts_with(head) {
        let size = head.len();
        return AnswerLook::Found(AnswerHead { status, size, body });
    }
    if head.starts_with(bytes) {
        AnswerLook::Short
    } else {
        AnswerLook::Refused
    }
}

/// The length of the body of the response of this status that the bytes may begin: what the digits in its place say, or 0 where there are none.
/// None where it is past the limit.
fn length_in(bytes: &[u8], status: u16) -> Option<usize>
    requires phrase { IsTrue (has_phrase status) }
    ensures { IsLengthIn bytes.now status result }
{
    let before = BEFORE_LENGTH_BYTES + phrase(status).len();
    if bytes.len() < before {
        return Some(0);
    }
    leading_number(&bytes[before..])
}

/// The number that the digits at the front of these bytes write; 0 where there are none. None where it is past the limit.
fn leading_number(bytes: &[u8]) -> Option<usize>
    ensures { IsLeading bytes.now result }
{
    let mut number: usize = 0;
    for b in bytes {
        if *b < b'0' || *b > b'9' {
            return Some(number);
        }
        number = number * 10 + (*b - b'0') as usize;
        if number > MAX_ANSWER_BYTES {
            return None;
        }
    }
    Some(number)
}
