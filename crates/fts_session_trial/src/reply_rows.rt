//! Rows of a request and its reply, as they stand in the files `data/*.rows`. A row is lines, one behind the other, and an empty line stands between
//! two rows:
//!     > POST /jobs?limit=1               what is sent: the method, and behind a blank the target, whose query is what is behind its first `?`
//!     > {"files":[]}                     its body, where it has one
//!     < 405 GET, POST, PUT               what is wanted: the status and, of a refusal of a method, the methods that it names
//!     < {"message":"no such method"}     the body of the reply; where this line is left out it may be any
//! Nothing is escaped, and a target is sent as it stands: it may have blanks, and may have no slash. A body is one line. In place of a row a line may
//! begin with `#`, a remark. Where what is wanted begins anew, a line `---` stands between two rows.
use fts_wire::Request;

/// A remark begins so.
pub const REMARK: char = '#';

/// What stands between two rows.
pub const BETWEEN: &str = "\n\n";

/// What stands between two rows of which the second begins anew.
pub const ANEW: &str = "\n---\n\n";

/// A request, and what is wanted of its reply.
#[derive(Clone, Copy)]
pub struct Row<'a> {
    pub request: Request<'a>,
    pub status: u16,
    /// The methods that a refusal of a method names, as a response spells them.
    pub methods: &'a str,
    /// None where any body will do.
    pub body: Option<&'a str>,
}

/// A request of this target, and of this body.
fn request_of<'a>(method: &'a str, target: &'a str, body: &'a str) -> Request<'a> {
    let (path, query) = match target.split_once('?') {
        Some((path, query)) => (path, Some(query)),
        None => (target, None),
    };
    Request {
        method,
        path,
        query,
        body: body.as_bytes(),
        close: false,
    }
}

/// Reads the lines of a row. None where they are no row.
pub fn read_row(text: &str) -> Option<Row<'_>> {
    let mut lines = text.lines();
    let (method, target) = lines.next()?.strip_prefix("> ")?.split_once(' ')?;
    let second = lines.next()?;
    let (sent, third) = match second.strip_prefix("> ") {
        Some(sent) => (sent, lines.next()?),
        None => ("", second),
    };
    let wanted = third.strip_prefix("< ")?;
    let (status, methods) = wanted.split_once(' ').unwrap_or((wanted, ""));
    let Ok(status) = status.parse::<u16>() else {
        return None;
    };
    let body = match lines.next() {
        Some(last) => Some(last.strip_prefix("< ")?),
        None => None,
    };
    if lines.next().is_some() {
        return None;
    }
    Some(Row {
        request: request_of(method, target, sent),
        status,
        methods,
        body,
    })
}
