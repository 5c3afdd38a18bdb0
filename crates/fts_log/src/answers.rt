//! Which refusals of the system's calls are answers, and what is told of the others (`specs/Answers.antt`): a look that finds nothing is no news.
ghost use Rattle.std.specs.Prelude.{◌≡◌, ◌↔◌, true, IsNone, IfSome};
ghost use Rattle.fts_log.specs.Answers.{opening_call, is_answer};
ghost use Rattle.fts_log.specs.EventLines.{call_fields, event_fields};

use crate::events::{Event, FileCall};
use fts_files::{Refused, Way};

impl FileCall {
    /// The call that opens a file so.
    pub fn of_way(way: Way) -> FileCall
        ensures { result ≡ opening_call way }
    {
        match way {
            Way::Read | Way::Write => FileCall::Open,
            Way::New => FileCall::Make,
        }
    }

    /// Whether a refusal answers this call: nothing has the name that was asked for, something has one that was to be free, or the folders above one
    /// that is to be made have to be made first.
    pub fn is_answer(self, refused: Refused) -> bool
        ensures { result ≡ is_answer self refused.errno }
    {
        match self {
            FileCall::Open
            | FileCall::Look
            | FileCall::LookAtName
            | FileCall::Unlink
            | FileCall::Names => refused.is_missing(),
            FileCall::Make => refused.is_taken(),
            FileCall::Link => refused.is_taken() || refused.lacks_links(),
            FileCall::MakeFolder => refused.is_taken() || refused.is_missing(),
            _ => false,
        }
    }
}

/// What is told of a refusal of this call on a path: the call, the path and the system's number; nothing where it is an answer.
#[tactic(auto, unfolding(crate::specs::EventLines::event_fields))]
pub(crate) fn failure<'a>(call: FileCall, path: &'a str, refused: Refused) -> Option<Event<'a>>
    ensures answer { IsNone result ↔ (is_answer call refused.errno ≡ true) }
    ensures told { IfSome result (λ event. event_fields event ≡ call_fields call path.now refused.errno) }
{
    if call.is_answer(refused) {
        return None;
    }
    Some(Event::CallFailed {
        call,
        path,
        errno: refused.errno,
    })
}
