//! One try of a client: it dials a port, writes its request whole, reads one response, and hands the line back, whatever came.
//! Keeps: nothing is read before the whole request is written, and the line comes back in any case (`try_once`, clause `tried`: `IsTried`).
//! Nothing here knows what a request asks for, or what a response says.
ghost use Rattle.std.specs.Prelude.{◌≡◌, ℕ, List, ◌∷◌, [], map, length};
ghost use Rattle.std.specs.List.{concat};
ghost use Rattle.fts_wire.specs.Outside.{Side, raised};
ghost use Rattle.fts_client.specs.Links.{LinkData, read_side, written_side};
ghost use Rattle.fts_client.specs.Tries.{Try, IsTried, AreTried, port_behind, given_behind, try_of};
ghost use Rattle.fts_client.specs.Ends.{room_behind};

use crate::link::{Link, LinkFailed};
use fts_wire::{AnswerFault, AnswerRoom, SinkFailed, send_parts};

/// How a try went.
#[derive(Clone, Copy, Debug, PartialEq, Eq)]
pub enum Tried {
    /// No line was to be had.
    NoLine,
    /// A write failed.
    NotSent,
    /// The request was written whole, and reading gave this: a status, with the body in the room, or a fault.
    Sent(Result<u16, AnswerFault>),
}

/// One try at a port of this machine, with a request that is handed over in parts.
pub fn try_once<L: Link>(link: &mut L, port: u16, request: &[&[u8]], room: &mut AnswerRoom) -> Tried
    ensures tried { IsTried (read_side L.Line.Source) (written_side L.Line.Sink)
        port (concat (map (λ part. part.now) request.now)) (L.link link.old) (L.link link.new) (L.faults link.old) (L.faults link.new)
        (try_of result room.new.body) }
    ensures room { room.new ≡ room_behind room.old (try_of result room.new.body ∷ []) }
{
    let mut line = match link.dial(port) {
        Ok(line) => line,
        Err(LinkFailed) => return Tried::NoLine,
    };
    let tried = match send_parts(&mut line, request) {
        Ok(()) => Tried::Sent(room.load(&mut line)),
        Err(SinkFailed) => Tried::NotSent,
    };
    link.done(line);
    tried
}

/// Tries are as many dials, up to the end of the count, and leave as many lines out as there were; the port that was dialed last is theirs,
/// and the link notes whether the last of them had a line.
pub fn each_try_is_a_dial<L>()
    ensures dials { (read written : Side L) (port : ℕ) (request : List ℕ) (old new : LinkData L) (faults_old faults_new : ℕ) (tries : List Try)
        → AreTried read written port request old new faults_old faults_new tries → new.dials ≡ raised old.dials (length tries) }
    ensures back { (read written : Side L) (port : ℕ) (request : List ℕ) (old new : LinkData L) (faults_old faults_new : ℕ) (tries : List Try)
        → AreTried read written port request old new faults_old faults_new tries → new.out ≡ old.out }
    ensures port { (read written : Side L) (port : ℕ) (request : List ℕ) (old new : LinkData L) (faults_old faults_new : ℕ) (tries : List Try)
        → AreTried read written port request old new faults_old faults_new tries → new.port ≡ port_behind port old.port tries }
    ensures given { (read written : Side L) (port : ℕ) (request : List ℕ) (old new : LinkData L) (faults_old faults_new : ℕ) (tries : List Try)
        → AreTried read written port request old new faults_old faults_new tries → new.is_given ≡ given_behind old.is_given tries }
{}
