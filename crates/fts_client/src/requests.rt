//! The heads of the two requests that a client writes, in a room of their own: they take no memory. `specs/RequestBytes.antt` has their bytes.
//! Each says close, since a line is for one try (HTTP/1.1, RFC 9112, sections 3.2 and 9.6).
ghost use Rattle.std.specs.Prelude.{◌≡◌, ◌≤◌, length};
ghost use Rattle.fts_client.specs.RequestBytes.{submission_head, id_text, query_bytes};

use arrayvec::ArrayString;
use itoa::Buffer;
use uuid::Uuid;

/// More than the longest head, in bytes.
const HEAD_BYTES: usize = 256;

/// The head of a request, or all of a request without a body.
pub type Head = ArrayString<HEAD_BYTES>;

/// The head of the request that submits a document of `size` bytes.
pub fn submission_head(port: u16, size: usize) -> Head
    ensures { result.bytes ≡ submission_head port size }
{
    let mut head = ArrayString::new();
    let mut digits = Buffer::new();
    head.push_str("POST /jobs HTTP/1.1\r\nHost: 127.0.0.1:");
    head.push_str(digits.format(port));
    head.push_str("\r\nContent-Length: ");
    head.push_str(digits.format(size));
    head.push_str("\r\nConnection: close\r\n\r\n");
    head
}

/// The request that asks for a job by its id.
pub fn query_head(port: u16, job: u128) -> Head
    ensures { result.bytes ≡ query_bytes port job }
{
    let mut head = ArrayString::new();
    let mut digits = Buffer::new();
    let mut buffer = Uuid::encode_buffer();
    head.push_str("GET /jobs/");
    head.push_str(id_text(job, &mut buffer));
    head.push_str(" HTTP/1.1\r\nHost: 127.0.0.1:");
    head.push_str(digits.format(port));
    head.push_str("\r\nConnection: close\r\n\r\n");
    head
}

/// The text of an id, in 36 bytes of a buffer.
fn id_text(job: u128, buffer: &mut [u8]) -> &str
    requires room { 36 ≤ length buffer.old }
    ensures text { result.now ≡ id_text job }
    ensures short { length result.now ≤ 40 }
{
    Uuid::from_u128(job).hyphenated().encode_lower(buffer)
}
