//! The client's own id that a document has, for a client that will send it: its job then has one id, however often the document comes.
//! No settings are asked for, and of the rules only 1, 2, 16 and 24. A document whose job would get its id from the service breaks rule 24 too.
//! So what passes here may still be refused by `read_job`. `specs/Sids.antt` is the whole definition.
ghost use Rattle.std.specs.Prelude.{◌≡◌, ◌⊎◌, Err};
ghost use Rattle.serde_json.specs.View.{view};
ghost use Rattle.fts_jobdoc.specs.Checks.{Gives};
ghost use Rattle.fts_jobdoc.specs.Sids.{sid_given, sid_of};

use crate::DocFault;
use crate::json::read_value;
use crate::params::sid_of;
use crate::rules::check_sid_document;
use fts_tables::Label;
use serde_json::Value;
use std::alloc::Global;

/// Reads the client's own id, a text of 1 to 255 bytes under `sid` of the parameters, of a document that asks for an id made of it.
/// The error is the least of the rules 1, 2, 16 and 24 that is broken, where rule 24 also wants `id_generator` to be `deterministic`, or `Memory`.
pub fn read_sid(alloc: Global, body: &[u8]) -> Result<Label, DocFault>
    ensures { (result ≡ sid_of body.now) ⊎ (result ≡ Err DocFault.Memory) }
{
    match read_value(alloc, body)? {
        Some(document) => sid_given(alloc, &document),
        None => Err(DocFault::NotJson),
    }
}

/// The own id in a document, or the least rule that it breaks.
fn sid_given(alloc: Global, document: &Value) -> Result<Label, DocFault>
    ensures { Gives result (sid_given (view document.now)) }
{
    check_sid_document(document)?;
    match sid_of(document) {
        Some(sid) => Ok(Label::new(alloc, sid)?),
        None => Err(DocFault::BadSid),
    }
}
