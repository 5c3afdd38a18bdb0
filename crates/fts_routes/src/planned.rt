//! What a request is planned to come to: its reply, or a command and the reply for where the machine takes it.
ghost use Rattle.std.specs.Prelude.{◌≡◌, IfOk};
ghost use Rattle.fts_routes.specs.Refusals.{no_method};
ghost use Rattle.fts_routes.specs.declared.planned.Planned.TheVariants.{Replies as PlannedReply};

use crate::replies::no_method;
use fts_tables::{Command, Memory};
use fts_wire::{Allow, Reply};
use std::alloc::Global;

/// What a request comes to before any command is applied.
#[derive(Drop)]
pub enum Planned {
    /// A reply that needs no command.
    Replies { reply: Reply },
    /// A look at the journal's entry of this number, where a text spells one.
    Looks { number: Option<u64> },
    /// A command, and the reply that shows what it leaves, or what it doesn't change.
    Tries { command: Command, reply: Reply },
}

/// The route has no such method, but these.
pub fn refuse_method(alloc: Global, allow: Allow) -> Result<Planned, Memory>
    ensures { IfOk result (λ planned. planned ≡ PlannedReply (no_method allow)) }
{
    let reply = no_method(alloc, allow)?;
    Ok(Planned::Replies { reply })
}
