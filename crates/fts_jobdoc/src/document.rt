//! A document that was read as far as no settings are asked for: it has a JSON value, and its shape and its URLs break no rule.
//! That is most of the work, and needs nothing that changes: so it can be done before anybody waits for the settings. `job.rt` has the rest.
//! Keeps: rules 2 to 8 are kept, and each file's ends are those of its URLs (`IsDocument` of `specs/Document.antt`).
ghost use Rattle.std.specs.Prelude.{◌≡◌, map};
ghost use Rattle.serde_json.specs.View.{view};
ghost use Rattle.fts_tables.specs.FirstFault.{first_fault, unless};
ghost use Rattle.fts_jobdoc.specs.Json.{files_of};
ghost use Rattle.fts_jobdoc.specs.Checks.{Gives};
ghost use Rattle.fts_jobdoc.specs.Ends.{ends_of};
ghost use Rattle.fts_jobdoc.specs.Documents.{early_rules};
ghost use Rattle.fts_jobdoc.specs.Document.{IsReadAs, IsCheckedAs};

use crate::DocFault;
use crate::ends::{FileEnds, read_all_ends};
use crate::json::{list_under, read_value};
use crate::rules::check_shape;
use fts_tables::Items;
use serde_json::Value;
use std::alloc::Global;

/// The document of a submission, as far as no settings are asked for: its JSON value, and where its files come from and go to.
#[derive(Drop)]
pub struct Document {
    pub value: Value,
    pub ends: Items<FileEnds>,
}

/// Reads the body of a submission, as `serde_json` reads JSON (RFC 8259), as far as no settings are asked for.
/// The error is the first rule that is broken, of 1 to 8, or `Memory` where there was none to tell.
pub fn read_document(alloc: Global, body: &[u8]) -> Result<Document, DocFault>
    ensures { IsReadAs body.now result }
{
    match read_value(alloc, body)? {
        Some(value) => checked(alloc, value),
        None => Err(DocFault::NotJson),
    }
}

/// The document of a JSON value, or the least of the rules 2 to 8 that it breaks.
fn checked(alloc: Global, value: Value) -> Result<Document, DocFault>
    ensures { IsCheckedAs (view value) result }
{
    let ends = check_early(alloc, &value, list_under(&value, "files"))?;
    Ok(Document { value, ends })
}

/// Where the files of a document come from and go to, or the least of the rules 2 to 8 that it breaks.
fn check_early(
    alloc: Global,
    document: &Value,
    files: &[Value],
) -> Result<Items<FileEnds>, DocFault>
    requires { map view files.now ≡ files_of (view document.now) }
    ensures { Gives result (unless (first_fault (early_rules (view document.now))) (map ends_of (files_of (view document.now)))) }
{
    check_shape(document, files)?;
    read_all_ends(alloc, files)
}
