//! Where a head ends: the lines of bytes, up to the first empty one.
//! Format: a line ends with a line feed, and the empty one has at most a carriage return before it (RFC 9112, section 2.2).
ghost use Rattle.std.specs.Prelude.{◌≡◌, ◌≤◌, length};
ghost use Rattle.fts_wire.specs.Head.{is_empty_line};
ghost use Rattle.fts_wire.specs.Lines.{IsFirstLine, IsHeadEnd};
ghost use Rattle.fts_wire.specs.Look.{blanks};

/// Where a head ends: its length with the empty line, and how many lines it has.
#[derive(Clone, Copy)]
pub struct HeadEnd {
    pub size: usize,
    pub lines: usize,
}

/// How many bytes of CR and LF stand before a head.
pub fn count_blanks(bytes: &[u8]) -> usize
    ensures count { result ≡ blanks bytes.now }
    ensures within { result ≤ length bytes.now }
{
    for (i, b) in bytes.iter().enumerate() {
        if *b != b'\r' && *b != b'\n' {
            return i;
        }
    }
    bytes.len()
}

/// Where the head ends that begins these bytes, where its empty line is there.
pub fn find_head_end(bytes: &[u8]) -> Option<HeadEnd>
    ensures { IsHeadEnd bytes.now result }
{
    let mut size = 0;
    let mut lines = 0;
    'lines: loop {
        let line = match line_length(&bytes[size..]) {
            Some(line) => line,
            None => return None,
        };
        let empty = is_empty(&bytes[size..size + line]);
        size += line;
        lines += 1;
        if empty {
            return Some(HeadEnd { size, lines });
        }
    }
}

/// The length of the line that begins these bytes, with its line feed, where that is there.
fn line_length(bytes: &[u8]) -> Option<usize>
    ensures { IsFirstLine bytes.now result }
{
    for (i, b) in bytes.iter().enumerate() {
        if *b == b'\n' {
            return Some(i + 1);
        }
    }
    None
}

/// Whether a line is empty.
fn is_empty(line: &[u8]) -> bool
    ensures { result ≡ is_empty_line line.now }
{
    line == b"\n".as_slice() || line == b"\r\n".as_slice()
}
