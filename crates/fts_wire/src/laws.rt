//! What holds of responses, for the crates above to cite. Each law is a function that does nothing: its clause speaks of all bytes.
ghost use Rattle.std.specs.Prelude.{◌≡◌, ℕ, ◌≤◌, Bool, false, IsTrue, List, ◌++◌, length};
ghost use Rattle.fts_wire.specs.Response.{has_phrase, has_methods, response_of};
ghost use Rattle.fts_wire.specs.NextAnswers.{AnswerData, BeginsWith, IsInside, answer_of};
ghost use Rattle.fts_wire.specs.declared.response.Reply.{Reply};

/// A response is read in one way: bytes begin with one response at most, and bytes that begin with one are not the inside of another.
pub fn responses_are_read_one_way()
    ensures one { (bytes : List ℕ) (one other : AnswerData) → BeginsWith bytes one → BeginsWith bytes other → one ≡ other }
    ensures apart { (bytes : List ℕ) (answer : AnswerData) → BeginsWith bytes answer → IsInside bytes → ⊥ }

    // What is written for a reply is read as that reply's status and body, whatever stands behind it.
    ensures written { (reply : Reply) (close : Bool) (rest : List ℕ) → IsTrue (has_phrase reply.status) → IsTrue (has_methods reply.status reply.allow)
        → length reply.body ≤ 8389632 → BeginsWith (response_of reply false close ++ rest) (answer_of reply) }
{}
