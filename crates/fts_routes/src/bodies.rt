//! Bodies of requests, read before the tables are asked: whoever waits for the tables waits for no document then, however long it is.
//! `read_body` reads the document that a request's route and method ask for. What it gives is handed on with the request, and each of the other
//! functions takes it where its document is needed, or reads the body where nothing was read.
ghost use Rattle.std.specs.Prelude.{◌≡◌, ◌⊎◌};
ghost use Rattle.fts_jobdoc.specs.Checks.{Gives};
ghost use Rattle.fts_jobdoc.specs.Documents.{job_of, priority_of};
ghost use Rattle.fts_jobdoc.specs.Bans.{ban_of};
ghost use Rattle.fts_wire.specs.Answered.{request_data};
ghost use Rattle.fts_routes.specs.Bodies.{IsReadOf, asked_by, document_of};

use crate::methods::has_method;
use crate::paths::{Route, Routes};
use fts_jobdoc::{
    BanAsk, BanFault, DocFault, Document, job_under, read_ban, read_document, read_job,
    read_priority,
};
use fts_tables::{NewJob, Settings};
use fts_wire::Request;
use http::Method;
use std::alloc::Global;

/// What was read of a request's body.
#[derive(Drop)]
pub enum ReadBody {
    /// Nothing yet.
    Nothing,
    /// The document of a submission, as far as no settings are asked for.
    Submission {
        document: Result<Document, DocFault>,
    },
    /// Another priority for a job.
    Priority {
        priority: Result<u32, DocFault>,
    },
    /// A ban of a storage.
    Ban {
        ban: Result<BanAsk, BanFault>,
    },
}

/// Reads the document that a request asks for by its route and method, and nothing exactly where it asks for none.
pub fn read_body(alloc: Global, routes: &Routes, request: &Request<'_>) -> ReadBody
    ensures of { IsReadOf request.now.body.now result }
    ensures asked { document_of result ≡ asked_by (request_data request.now) }
{
    let body = request.body;
    let posts = has_method(request, &Method::POST);
    match routes.find(request.path) {
        Some(Route::Jobs) if posts || has_method(request, &Method::PUT) => ReadBody::Submission {
            document: read_document(alloc, body),
        },
        Some(Route::Job { .. }) if posts => ReadBody::Priority {
            priority: read_priority(alloc, body),
        },
        Some(Route::Bans) if posts => ReadBody::Ban {
            ban: read_ban(alloc, body),
        },
        _ => ReadBody::Nothing,
    }
}

/// The job of a submission's body under these settings.
pub fn job_read(
    alloc: Global,
    body: &[u8],
    read: ReadBody,
    settings: &Settings,
) -> Result<NewJob, DocFault>
    requires { IsReadOf body.now read }
    ensures { Gives result (job_of body.now settings.now) }
{
    match read {
        ReadBody::Submission { document } => job_under(alloc, document, settings),
        ReadBody::Nothing | ReadBody::Priority { .. } | ReadBody::Ban { .. } => {
            read_job(alloc, body, settings)
        }
    }
}

/// The priority that a body asks for.
pub fn priority_read(alloc: Global, body: &[u8], read: ReadBody) -> Result<u32, DocFault>
    requires { IsReadOf body.now read }
    ensures { Gives result (priority_of body.now) }
{
    match read {
        ReadBody::Priority { priority } => priority,
        ReadBody::Nothing | ReadBody::Submission { .. } | ReadBody::Ban { .. } => {
            read_priority(alloc, body)
        }
    }
}

/// The ban that a body asks for.
pub fn ban_read(alloc: Global, body: &[u8], read: ReadBody) -> Result<BanAsk, BanFault>
    requires { IsReadOf body.now read }
    ensures { (result ≡ ban_of body.now) ⊎ (result ≡ Err BanFault.Memory) }
{
    match read {
        ReadBody::Ban { ban } => ban,
        ReadBody::Nothing | ReadBody::Submission { .. } | ReadBody::Priority { .. } => {
            read_ban(alloc, body)
        }
    }
}
