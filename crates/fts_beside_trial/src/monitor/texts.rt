//! Journals, and the responses that are wanted, written by hand.

/// A header alone.
pub const EMPTY: &[u8] = b"FTS3JRN1\0";

/// A start with the storages `a://a"q`, of limits 3 and 4, and `b://b\c`, of 5 and 6, and a link from the first to the second, of 9.
pub const STARTED: &[u8] =
    b"FTS3JRN1\x01A\0\0\0\0\x01\x80\xe2\xcf\xaa\x06\x04demo\x02\x07\x02\x07a://a\"q\x03\x04\x07b://b\\c\x05\x06\x01\x01l\x07a://a\"q\x07b://b\\c\x09\x01\x07default\x01\0";

/// The same of another VO.
pub const OTHER: &[u8] =
    b"FTS3JRN1\x01A\0\0\0\0\x01\x80\xe2\xcf\xaa\x06\x04echo\x02\x07\x02\x07a://a\"q\x03\x04\x07b://b\\c\x05\x06\x01\x01l\x07a://a\"q\x07b://b\\c\x09\x01\x07default\x01\0";

/// Behind the start a job of one file of that link, which is then claimed.
pub const CLAIMED: &[u8] =
    b"FTS3JRN1\x01A\0\0\0\0\x01\x80\xe2\xcf\xaa\x06\x04demo\x02\x07\x02\x07a://a\"q\x03\x04\x07b://b\\c\x05\
     \x06\x01\x01l\x07a://a\"q\x07b://b\\c\x09\x01\x07default\x01\x010\0\0\0\x01\x02\x80\xe2\xcf\xaa\x06\0\
     \0\0\x03\0\0\0\x01\0\x07a://a\"q\x02f1\x07b://b\\c\x02f1\0\0\x07default\x01\x0f\0\0\0\0\x06\x80\xe2\xcf\
     \xaa\x06\0\0\0\0\0\0\0\0\0";

/// Behind the claim the report of its copy, a minute later: verified, with 12,345 bytes.
pub const REPORTED: &[u8] =
    b"FTS3JRN1\x01A\0\0\0\0\x01\x80\xe2\xcf\xaa\x06\x04demo\x02\x07\x02\x07a://a\"q\x03\x04\x07b://b\\c\x05\
     \x06\x01\x01l\x07a://a\"q\x07b://b\\c\x09\x01\x07default\x01\x010\0\0\0\x01\x02\x80\xe2\xcf\xaa\x06\0\
     \0\0\x03\0\0\0\x01\0\x07a://a\"q\x02f1\x07b://b\\c\x02f1\0\0\x07default\x01\x0f\0\0\0\0\x06\x80\xe2\xcf\
     \xaa\x06\0\0\0\0\0\0\0\0\x01\x1c\x00\x00\x00\x00\x07\xbc\xe2\xcf\xaa\x06\x01\x01\x00\xb9`0123456789abcdef\0";

/// Behind the start a job of two files with one retry: the second is cancelled, the copy of the first fails twice, ten seconds each from one to the next.
pub const FAILED: &[u8] =
    b"FTS3JRN1\x01A\0\0\0\0\x01\x80\xe2\xcf\xaa\x06\x04demo\x02\x07\x02\x07a://a\"q\x03\x04\x07b://b\\c\x05\x06\x01\x01l\x07a://a\"q\x07b://b\\c\x09\x01\x07default\x01\
     \x01Q\0\0\0\x01\x02\x80\xe2\xcf\xaa\x06\0\0\0\x03\x01\0\0\x02\0\x07a://a\"q\x02f1\x07b://b\\c\x02f1\0\0\x07default\x01\x07a://a\"q\x02f2\x07b://b\\c\x02f2\0\0\x07default\
     \x01\x09\0\0\0\x01\x04\x8a\xe2\xcf\xaa\x06\x01\x02\
     \x01\x0f\0\0\0\0\x06\x94\xe2\xcf\xaa\x06\0\0\0\0\0\0\0\0\
     \x01\x0a\0\0\0\0\x07\x9e\xe2\xcf\xaa\x06\x01\x01\x06\
     \x01\x0f\0\0\0\0\x06\xa8\xe2\xcf\xaa\x06\0\0\0\0\0\0\0\0\
     \x01\x0a\0\0\0\0\x07\xb2\xe2\xcf\xaa\x06\x01\x02\x06\0";

/// Behind the start two jobs of one file, of which the first has one hour, and an expiry behind that hour.
pub const EXPIRED: &[u8] =
    b"FTS3JRN1\x01A\0\0\0\0\x01\x80\xe2\xcf\xaa\x06\x04demo\x02\x07\x02\x07a://a\"q\x03\x04\x07b://b\\c\x05\x06\x01\x01l\x07a://a\"q\x07b://b\\c\x09\x01\x07default\x01\
     \x011\0\0\0\x01\x0b\x80\xe2\xcf\xaa\x06\x01\0\0\0\x03\0\0\0\x01\0\x07a://a\"q\x02f1\x07b://b\\c\x02f1\0\0\x07default\
     \x010\0\0\0\x01\x02\x80\xe2\xcf\xaa\x06\0\0\0\x03\0\0\0\x01\0\x07a://a\"q\x02f2\x07b://b\\c\x02f2\0\0\x07default\
     \x01\x07\0\0\0\0\x0a\xf4\xfe\xcf\xaa\x06\0";

/// Behind the start a body that is no entry.
pub const DAMAGED: &[u8] =
    b"FTS3JRN1\x01A\0\0\0\0\x01\x80\xe2\xcf\xaa\x06\x04demo\x02\x07\x02\x07a://a\"q\x03\x04\x07b://b\\c\x05\x06\x01\x01l\x07a://a\"q\x07b://b\\c\x09\x01\x07default\x01\x01\x01\0\0\0\x07\0";

/// The metrics of no entry.
pub const NOTHING: &str = "HTTP/1.1 200 OK\r\n\
     Content-Type: text/plain; version=0.0.4\r\n\
     Content-Length: 1548\r\n\
     Connection: close\r\n\r\n\
     # HELP fts_jobs Jobs by state.\n\
     # TYPE fts_jobs gauge\n\
     fts_jobs{state=\"SUBMITTED\"} 0\n\
     fts_jobs{state=\"ACTIVE\"} 0\n\
     fts_jobs{state=\"FINISHED\"} 0\n\
     fts_jobs{state=\"FINISHEDDIRTY\"} 0\n\
     fts_jobs{state=\"FAILED\"} 0\n\
     fts_jobs{state=\"CANCELED\"} 0\n\
     # HELP fts_files Files of each link by state.\n\
     # TYPE fts_files gauge\n\
     # HELP fts_copied_bytes_total Bytes of verified copies over each link.\n\
     # TYPE fts_copied_bytes_total counter\n\
     # HELP fts_reports_total Reports of copies over each link by outcome.\n\
     # TYPE fts_reports_total counter\n\
     # HELP fts_link_active Files that are being copied over a listed link.\n\
     # TYPE fts_link_active gauge\n\
     # HELP fts_link_limit How many files may be copied at once over a listed link.\n\
     # TYPE fts_link_limit gauge\n\
     # HELP fts_endpoint_active Files that are being copied to or from a storage.\n\
     # TYPE fts_endpoint_active gauge\n\
     # HELP fts_endpoint_limit How many files may be copied at once to or from a storage.\n\
     # TYPE fts_endpoint_limit gauge\n\
     # HELP fts_rows File rows.\n\
     # TYPE fts_rows gauge\n\
     fts_rows 0\n\
     # HELP fts_journal_bytes Bytes of the journal.\n\
     # TYPE fts_journal_bytes gauge\n\
     fts_journal_bytes 8\n\
     # HELP fts_journal_limit_bytes How many bytes the journal may have.\n\
     # TYPE fts_journal_limit_bytes gauge\n\
     fts_journal_limit_bytes 1073741824\n\
     # HELP fts_last_entry_timestamp_seconds Moment of the last entry in seconds since 1970.\n\
     # TYPE fts_last_entry_timestamp_seconds gauge\n\
     fts_last_entry_timestamp_seconds 0\n\
     # HELP fts_journal_damaged Whether the journal is damaged behind what is counted.\n\
     # TYPE fts_journal_damaged gauge\n\
     fts_journal_damaged 0\n";

/// Those of the start.
pub const AFTER_THE_START: &str = "HTTP/1.1 200 OK\r\n\
     Content-Type: text/plain; version=0.0.4\r\n\
     Content-Length: 2181\r\n\
     Connection: close\r\n\r\n\
     # HELP fts_jobs Jobs by state.\n\
     # TYPE fts_jobs gauge\n\
     fts_jobs{state=\"SUBMITTED\"} 0\n\
     fts_jobs{state=\"ACTIVE\"} 0\n\
     fts_jobs{state=\"FINISHED\"} 0\n\
     fts_jobs{state=\"FINISHEDDIRTY\"} 0\n\
     fts_jobs{state=\"FAILED\"} 0\n\
     fts_jobs{state=\"CANCELED\"} 0\n\
     # HELP fts_files Files of each link by state.\n\
     # TYPE fts_files gauge\n\
     # HELP fts_copied_bytes_total Bytes of verified copies over each link.\n\
     # TYPE fts_copied_bytes_total counter\n\
     # HELP fts_reports_total Reports of copies over each link by outcome.\n\
     # TYPE fts_reports_total counter\n\
     # HELP fts_link_active Files that are being copied over a listed link.\n\
     # TYPE fts_link_active gauge\n\
     fts_link_active{source=\"a://a\\\"q\",destination=\"b://b\\\\c\"} 0\n\
     # HELP fts_link_limit How many files may be copied at once over a listed link.\n\
     # TYPE fts_link_limit gauge\n\
     fts_link_limit{source=\"a://a\\\"q\",destination=\"b://b\\\\c\"} 9\n\
     # HELP fts_endpoint_active Files that are being copied to or from a storage.\n\
     # TYPE fts_endpoint_active gauge\n\
     fts_endpoint_active{endpoint=\"a://a\\\"q\",direction=\"inbound\"} 0\n\
     fts_endpoint_active{endpoint=\"a://a\\\"q\",direction=\"outbound\"} 0\n\
     fts_endpoint_active{endpoint=\"b://b\\\\c\",direction=\"inbound\"} 0\n\
     fts_endpoint_active{endpoint=\"b://b\\\\c\",direction=\"outbound\"} 0\n\
     # HELP fts_endpoint_limit How many files may be copied at once to or from a storage.\n\
     # TYPE fts_endpoint_limit gauge\n\
     fts_endpoint_limit{endpoint=\"a://a\\\"q\",direction=\"inbound\"} 3\n\
     fts_endpoint_limit{endpoint=\"a://a\\\"q\",direction=\"outbound\"} 4\n\
     fts_endpoint_limit{endpoint=\"b://b\\\\c\",direction=\"inbound\"} 5\n\
     fts_endpoint_limit{endpoint=\"b://b\\\\c\",direction=\"outbound\"} 6\n\
     # HELP fts_rows File rows.\n\
     # TYPE fts_rows gauge\n\
     fts_rows 0\n\
     # HELP fts_journal_bytes Bytes of the journal.\n\
     # TYPE fts_journal_bytes gauge\n\
     fts_journal_bytes 78\n\
     # HELP fts_journal_limit_bytes How many bytes the journal may have.\n\
     # TYPE fts_journal_limit_bytes gauge\n\
     fts_journal_limit_bytes 1073741824\n\
     # HELP fts_last_entry_timestamp_seconds Moment of the last entry in seconds since 1970.\n\
     # TYPE fts_last_entry_timestamp_seconds gauge\n\
     fts_last_entry_timestamp_seconds 1700000000\n\
     # HELP fts_journal_damaged Whether the journal is damaged behind what is counted.\n\
     # TYPE fts_journal_damaged gauge\n\
     fts_journal_damaged 0\n";

/// Those behind the claim.
pub const AFTER_THE_CLAIM: &str = "HTTP/1.1 200 OK\r\n\
     Content-Type: text/plain; version=0.0.4\r\n\
     Content-Length: 3356\r\n\
     Connection: close\r\n\r\n\
     # HELP fts_jobs Jobs by state.\n\
     # TYPE fts_jobs gauge\n\
     fts_jobs{state=\"SUBMITTED\"} 0\n\
     fts_jobs{state=\"ACTIVE\"} 1\n\
     fts_jobs{state=\"FINISHED\"} 0\n\
     fts_jobs{state=\"FINISHEDDIRTY\"} 0\n\
     fts_jobs{state=\"FAILED\"} 0\n\
     fts_jobs{state=\"CANCELED\"} 0\n\
     # HELP fts_files Files of each link by state.\n\
     # TYPE fts_files gauge\n\
     fts_files{source=\"a://a\\\"q\",destination=\"b://b\\\\c\",state=\"SUBMITTED\"} 0\n\
     fts_files{source=\"a://a\\\"q\",destination=\"b://b\\\\c\",state=\"ACTIVE\"} 1\n\
     fts_files{source=\"a://a\\\"q\",destination=\"b://b\\\\c\",state=\"FINISHED\"} 0\n\
     fts_files{source=\"a://a\\\"q\",destination=\"b://b\\\\c\",state=\"FAILED\"} 0\n\
     fts_files{source=\"a://a\\\"q\",destination=\"b://b\\\\c\",state=\"CANCELED\"} 0\n\
     fts_files{source=\"a://a\\\"q\",destination=\"b://b\\\\c\",state=\"NOT_USED\"} 0\n\
     # HELP fts_copied_bytes_total Bytes of verified copies over each link.\n\
     # TYPE fts_copied_bytes_total counter\n\
     fts_copied_bytes_total{source=\"a://a\\\"q\",destination=\"b://b\\\\c\"} 0\n\
     # HELP fts_reports_total Reports of copies over each link by outcome.\n\
     # TYPE fts_reports_total counter\n\
     fts_reports_total{source=\"a://a\\\"q\",destination=\"b://b\\\\c\",outcome=\"verified\"} 0\n\
     fts_reports_total{source=\"a://a\\\"q\",destination=\"b://b\\\\c\",outcome=\"source_missing\"} 0\n\
     fts_reports_total{source=\"a://a\\\"q\",destination=\"b://b\\\\c\",outcome=\"destination_exists\"} 0\n\
     fts_reports_total{source=\"a://a\\\"q\",destination=\"b://b\\\\c\",outcome=\"source_size\"} 0\n\
     fts_reports_total{source=\"a://a\\\"q\",destination=\"b://b\\\\c\",outcome=\"source_digest\"} 0\n\
     fts_reports_total{source=\"a://a\\\"q\",destination=\"b://b\\\\c\",outcome=\"read_back_differs\"} 0\n\
     fts_reports_total{source=\"a://a\\\"q\",destination=\"b://b\\\\c\",outcome=\"store_failed\"} 0\n\
     fts_reports_total{source=\"a://a\\\"q\",destination=\"b://b\\\\c\",outcome=\"stopped\"} 0\n\
     # HELP fts_link_active Files that are being copied over a listed link.\n\
     # TYPE fts_link_active gauge\n\
     fts_link_active{source=\"a://a\\\"q\",destination=\"b://b\\\\c\"} 1\n\
     # HELP fts_link_limit How many files may be copied at once over a listed link.\n\
     # TYPE fts_link_limit gauge\n\
     fts_link_limit{source=\"a://a\\\"q\",destination=\"b://b\\\\c\"} 9\n\
     # HELP fts_endpoint_active Files that are being copied to or from a storage.\n\
     # TYPE fts_endpoint_active gauge\n\
     fts_endpoint_active{endpoint=\"a://a\\\"q\",direction=\"inbound\"} 0\n\
     fts_endpoint_active{endpoint=\"a://a\\\"q\",direction=\"outbound\"} 1\n\
     fts_endpoint_active{endpoint=\"b://b\\\\c\",direction=\"inbound\"} 1\n\
     fts_endpoint_active{endpoint=\"b://b\\\\c\",direction=\"outbound\"} 0\n\
     # HELP fts_endpoint_limit How many files may be copied at once to or from a storage.\n\
     # TYPE fts_endpoint_limit gauge\n\
     fts_endpoint_limit{endpoint=\"a://a\\\"q\",direction=\"inbound\"} 3\n\
     fts_endpoint_limit{endpoint=\"a://a\\\"q\",direction=\"outbound\"} 4\n\
     fts_endpoint_limit{endpoint=\"b://b\\\\c\",direction=\"inbound\"} 5\n\
     fts_endpoint_limit{endpoint=\"b://b\\\\c\",direction=\"outbound\"} 6\n\
     # HELP fts_rows File rows.\n\
     # TYPE fts_rows gauge\n\
     fts_rows 1\n\
     # HELP fts_journal_bytes Bytes of the journal.\n\
     # TYPE fts_journal_bytes gauge\n\
     fts_journal_bytes 151\n\
     # HELP fts_journal_limit_bytes How many bytes the journal may have.\n\
     # TYPE fts_journal_limit_bytes gauge\n\
     fts_journal_limit_bytes 1073741824\n\
     # HELP fts_last_entry_timestamp_seconds Moment of the last entry in seconds since 1970.\n\
     # TYPE fts_last_entry_timestamp_seconds gauge\n\
     fts_last_entry_timestamp_seconds 1700000000\n\
     # HELP fts_journal_damaged Whether the journal is damaged behind what is counted.\n\
     # TYPE fts_journal_damaged gauge\n\
     fts_journal_damaged 0\n";

/// Those behind the report.
pub const AFTER_THE_REPORT: &str = "HTTP/1.1 200 OK\r\n\
     Content-Type: text/plain; version=0.0.4\r\n\
     Content-Length: 3360\r\n\
     Connection: close\r\n\r\n\
     # HELP fts_jobs Jobs by state.\n\
     # TYPE fts_jobs gauge\n\
     fts_jobs{state=\"SUBMITTED\"} 0\n\
     fts_jobs{state=\"ACTIVE\"} 0\n\
     fts_jobs{state=\"FINISHED\"} 1\n\
     fts_jobs{state=\"FINISHEDDIRTY\"} 0\n\
     fts_jobs{state=\"FAILED\"} 0\n\
     fts_jobs{state=\"CANCELED\"} 0\n\
     # HELP fts_files Files of each link by state.\n\
     # TYPE fts_files gauge\n\
     fts_files{source=\"a://a\\\"q\",destination=\"b://b\\\\c\",state=\"SUBMITTED\"} 0\n\
     fts_files{source=\"a://a\\\"q\",destination=\"b://b\\\\c\",state=\"ACTIVE\"} 0\n\
     fts_files{source=\"a://a\\\"q\",destination=\"b://b\\\\c\",state=\"FINISHED\"} 1\n\
     fts_files{source=\"a://a\\\"q\",destination=\"b://b\\\\c\",state=\"FAILED\"} 0\n\
     fts_files{source=\"a://a\\\"q\",destination=\"b://b\\\\c\",state=\"CANCELED\"} 0\n\
     fts_files{source=\"a://a\\\"q\",destination=\"b://b\\\\c\",state=\"NOT_USED\"} 0\n\
     # HELP fts_copied_bytes_total Bytes of verified copies over each link.\n\
     # TYPE fts_copied_bytes_total counter\n\
     fts_copied_bytes_total{source=\"a://a\\\"q\",destination=\"b://b\\\\c\"} 12345\n\
     # HELP fts_reports_total Reports of copies over each link by outcome.\n\
     # TYPE fts_reports_total counter\n\
     fts_reports_total{source=\"a://a\\\"q\",destination=\"b://b\\\\c\",outcome=\"verified\"} 1\n\
     fts_reports_total{source=\"a://a\\\"q\",destination=\"b://b\\\\c\",outcome=\"source_missing\"} 0\n\
     fts_reports_total{source=\"a://a\\\"q\",destination=\"b://b\\\\c\",outcome=\"destination_exists\"} 0\n\
     fts_reports_total{source=\"a://a\\\"q\",destination=\"b://b\\\\c\",outcome=\"source_size\"} 0\n\
     fts_reports_total{source=\"a://a\\\"q\",destination=\"b://b\\\\c\",outcome=\"source_digest\"} 0\n\
     fts_reports_total{source=\"a://a\\\"q\",destination=\"b://b\\\\c\",outcome=\"read_back_differs\"} 0\n\
     fts_reports_total{source=\"a://a\\\"q\",destination=\"b://b\\\\c\",outcome=\"store_failed\"} 0\n\
     fts_reports_total{source=\"a://a\\\"q\",destination=\"b://b\\\\c\",outcome=\"stopped\"} 0\n\
     # HELP fts_link_active Files that are being copied over a listed link.\n\
     # TYPE fts_link_active gauge\n\
     fts_link_active{source=\"a://a\\\"q\",destination=\"b://b\\\\c\"} 0\n\
     # HELP fts_link_limit How many files may be copied at once over a listed link.\n\
     # TYPE fts_link_limit gauge\n\
     fts_link_limit{source=\"a://a\\\"q\",destination=\"b://b\\\\c\"} 9\n\
     # HELP fts_endpoint_active Files that are being copied to or from a storage.\n\
     # TYPE fts_endpoint_active gauge\n\
     fts_endpoint_active{endpoint=\"a://a\\\"q\",direction=\"inbound\"} 0\n\
     fts_endpoint_active{endpoint=\"a://a\\\"q\",direction=\"outbound\"} 0\n\
     fts_endpoint_active{endpoint=\"b://b\\\\c\",direction=\"inbound\"} 0\n\
     fts_endpoint_active{endpoint=\"b://b\\\\c\",direction=\"outbound\"} 0\n\
     # HELP fts_endpoint_limit How many files may be copied at once to or from a storage.\n\
     # TYPE fts_endpoint_limit gauge\n\
     fts_endpoint_limit{endpoint=\"a://a\\\"q\",direction=\"inbound\"} 3\n\
     fts_endpoint_limit{endpoint=\"a://a\\\"q\",direction=\"outbound\"} 4\n\
     fts_endpoint_limit{endpoint=\"b://b\\\\c\",direction=\"inbound\"} 5\n\
     fts_endpoint_limit{endpoint=\"b://b\\\\c\",direction=\"outbound\"} 6\n\
     # HELP fts_rows File rows.\n\
     # TYPE fts_rows gauge\n\
     fts_rows 1\n\
     # HELP fts_journal_bytes Bytes of the journal.\n\
     # TYPE fts_journal_bytes gauge\n\
     fts_journal_bytes 184\n\
     # HELP fts_journal_limit_bytes How many bytes the journal may have.\n\
     # TYPE fts_journal_limit_bytes gauge\n\
     fts_journal_limit_bytes 1073741824\n\
     # HELP fts_last_entry_timestamp_seconds Moment of the last entry in seconds since 1970.\n\
     # TYPE fts_last_entry_timestamp_seconds gauge\n\
     fts_last_entry_timestamp_seconds 1700000060\n\
     # HELP fts_journal_damaged Whether the journal is damaged behind what is counted.\n\
     # TYPE fts_journal_damaged gauge\n\
     fts_journal_damaged 0\n";

/// Those of the start, behind which there is damage.
pub const BEFORE_DAMAGE: &str = "HTTP/1.1 200 OK\r\n\
     Content-Type: text/plain; version=0.0.4\r\n\
     Content-Length: 2181\r\n\
     Connection: close\r\n\r\n\
     # HELP fts_jobs Jobs by state.\n\
     # TYPE fts_jobs gauge\n\
     fts_jobs{state=\"SUBMITTED\"} 0\n\
     fts_jobs{state=\"ACTIVE\"} 0\n\
     fts_jobs{state=\"FINISHED\"} 0\n\
     fts_jobs{state=\"FINISHEDDIRTY\"} 0\n\
     fts_jobs{state=\"FAILED\"} 0\n\
     fts_jobs{state=\"CANCELED\"} 0\n\
     # HELP fts_files Files of each link by state.\n\
     # TYPE fts_files gauge\n\
     # HELP fts_copied_bytes_total Bytes of verified copies over each link.\n\
     # TYPE fts_copied_bytes_total counter\n\
     # HELP fts_reports_total Reports of copies over each link by outcome.\n\
     # TYPE fts_reports_total counter\n\
     # HELP fts_link_active Files that are being copied over a listed link.\n\
     # TYPE fts_link_active gauge\n\
     fts_link_active{source=\"a://a\\\"q\",destination=\"b://b\\\\c\"} 0\n\
     # HELP fts_link_limit How many files may be copied at once over a listed link.\n\
     # TYPE fts_link_limit gauge\n\
     fts_link_limit{source=\"a://a\\\"q\",destination=\"b://b\\\\c\"} 9\n\
     # HELP fts_endpoint_active Files that are being copied to or from a storage.\n\
     # TYPE fts_endpoint_active gauge\n\
     fts_endpoint_active{endpoint=\"a://a\\\"q\",direction=\"inbound\"} 0\n\
     fts_endpoint_active{endpoint=\"a://a\\\"q\",direction=\"outbound\"} 0\n\
     fts_endpoint_active{endpoint=\"b://b\\\\c\",direction=\"inbound\"} 0\n\
     fts_endpoint_active{endpoint=\"b://b\\\\c\",direction=\"outbound\"} 0\n\
     # HELP fts_endpoint_limit How many files may be copied at once to or from a storage.\n\
     # TYPE fts_endpoint_limit gauge\n\
     fts_endpoint_limit{endpoint=\"a://a\\\"q\",direction=\"inbound\"} 3\n\
     fts_endpoint_limit{endpoint=\"a://a\\\"q\",direction=\"outbound\"} 4\n\
     fts_endpoint_limit{endpoint=\"b://b\\\\c\",direction=\"inbound\"} 5\n\
     fts_endpoint_limit{endpoint=\"b://b\\\\c\",direction=\"outbound\"} 6\n\
     # HELP fts_rows File rows.\n\
     # TYPE fts_rows gauge\n\
     fts_rows 0\n\
     # HELP fts_journal_bytes Bytes of the journal.\n\
     # TYPE fts_journal_bytes gauge\n\
     fts_journal_bytes 78\n\
     # HELP fts_journal_limit_bytes How many bytes the journal may have.\n\
     # TYPE fts_journal_limit_bytes gauge\n\
     fts_journal_limit_bytes 1073741824\n\
     # HELP fts_last_entry_timestamp_seconds Moment of the last entry in seconds since 1970.\n\
     # TYPE fts_last_entry_timestamp_seconds gauge\n\
     fts_last_entry_timestamp_seconds 1700000000\n\
     # HELP fts_journal_damaged Whether the journal is damaged behind what is counted.\n\
     # TYPE fts_journal_damaged gauge\n\
     fts_journal_damaged 1\n";

pub const NO_ROUTE: &str =
    "HTTP/1.1 404 Not Found\r\nContent-Type: application/json\r\nContent-Length: 45\r\nConnection: close\r\n\r\n{\"message\":\"no route\",\"rule\":30,\"status\":404}";

pub const NO_METHOD: &str = "HTTP/1.1 405 Method Not Allowed\r\n\
     Content-Type: application/json\r\n\
     Content-Length: 51\r\n\
     Allow: GET\r\n\
     Connection: close\r\n\r\n\
     {\"message\":\"no such method\",\"rule\":33,\"status\":405}";

pub const NO_METHOD_TO_HEAD: &str =
    "HTTP/1.1 405 Method Not Allowed\r\nContent-Type: application/json\r\nContent-Length: 0\r\nAllow: GET\r\nConnection: close\r\n\r\n";

pub const FOREIGN_ORIGIN: &str =
    "HTTP/1.1 403 Forbidden\r\nContent-Type: application/json\r\nContent-Length: 51\r\nConnection: close\r\n\r\n{\"message\":\"foreign origin\",\"rule\":48,\"status\":403}";

pub const DISK_FAILED: &str =
    "HTTP/1.1 503 Service Unavailable\r\nContent-Type: application/json\r\nContent-Length: 48\r\nConnection: close\r\n\r\n{\"message\":\"disk failed\",\"rule\":35,\"status\":503}";

/// What stands behind the report, a minute after the journal was opened.
pub const SNAPSHOT: &str = "HTTP/1.1 200 OK\r\n\
     Content-Type: application/json\r\n\
     Content-Length: 923\r\n\
     Connection: close\r\n\r\n\
     {\"damage\":null,\"entries\":4,\"failures\":[],\"files_by_state\":{\"ACTIVE\":0,\"CANCELED\":0,\"FAILED\":0,\"FINISHED\":1,\
     \"NOT_USED\":0,\"SUBMITTED\":0},\"fold_time\":1700000010,\"jobs\":1,\"jobs_by_state\":{\"ACTIVE\":0,\"CANCELED\":0,\"FAILED\":0,\
     \"FINISHED\":1,\"FINISHEDDIRTY\":0,\"SUBMITTED\":0},\"jobs_limit\":100000,\"journal_bytes\":184,\
     \"journal_limit_bytes\":1073741824,\"last_entry_time\":1700000060,\"links\":[{\"active\":0,\"canceled\":0,\"copied_bytes\":12345,\
     \"destination\":\"b://b\\\\c\",\"failed\":0,\"finished\":1,\"last_report_time\":1700000060,\"max_active\":9,\
     \"source\":\"a://a\\\"q\",\"submitted\":0,\"symbolicname\":\"l\"}],\"links_left_out\":0,\"now\":1700000070,\
     \"restart_time\":1700000000,\"rows\":1,\"rows_limit\":400000,\"storages\":[{\"inbound_active\":0,\"inbound_max_active\":3,\
     \"outbound_active\":0,\"outbound_max_active\":4,\"storage\":\"a://a\\\"q\"},{\"inbound_active\":0,\"inbound_max_active\":5,\
     \"outbound_active\":0,\"outbound_max_active\":6,\"storage\":\"b://b\\\\c\"}],\"vo_name\":\"demo\",\"whole\":true}";

/// The last two minutes, a minute later.
pub const HISTORY: &str = "HTTP/1.1 200 OK\r\n\
     Content-Type: application/json\r\n\
     Content-Length: 79\r\n\
     Connection: close\r\n\r\n\
     {\"bytes\":[12345,0],\"failed\":[0,0],\"finished\":[1,0],\"from\":1700000040,\"step\":60}";

/// The job of that report.
pub const JOBS: &str = "HTTP/1.1 200 OK\r\n\
     Content-Type: application/json\r\n\
     Content-Length: 323\r\n\
     Connection: close\r\n\r\n\
     {\"jobs\":[{\"files_by_state\":{\"ACTIVE\":0,\"CANCELED\":0,\"FAILED\":0,\"FINISHED\":1,\"NOT_USED\":0,\"SUBMITTED\":0},\
     \"finish_time\":1700000060,\"job_id\":\"00000000-0000-4000-8000-000000000001\",\"job_state\":\"FINISHED\",\"kind\":\"plain\",\"priority\":3,\"retry\":0,\
     \"retry_delay\":0,\"submit_time\":1700000000,\"vo_name\":\"demo\"}],\"more\":false,\"next\":null}";

/// No job.
pub const NO_JOBS: &str = "HTTP/1.1 200 OK\r\n\
     Content-Type: application/json\r\n\
     Content-Length: 36\r\n\
     Connection: close\r\n\r\n\
     {\"jobs\":[],\"more\":false,\"next\":null}";

/// The job with its file, and what happened to it.
pub const JOB: &str = "HTTP/1.1 200 OK\r\n\
     Content-Type: application/json\r\n\
     Content-Length: 820\r\n\
     Connection: close\r\n\r\n\
     {\"files\":[{\"activity\":\"default\",\"attempt\":1,\"cancel_asked\":false,\"checksum\":\"\",\
     \"dest_surl\":\"b://b\\\\c/f1\",\"digest\":\"30313233343536373839616263646566\",\"events\":[{\"attempt\":0,\
     \"bytes\":null,\"event\":\"submitted\",\"reason\":\"\",\"time\":1700000000},{\"attempt\":1,\"bytes\":null,\
     \"event\":\"claimed\",\"reason\":\"\",\"time\":1700000000},{\"attempt\":1,\"bytes\":12345,\"event\":\"finished\",\
     \"reason\":\"\",\"time\":1700000060}],\"events_left_out\":0,\"file_id\":1,\"file_index\":0,\"file_state\":\"FINISHED\",\
     \"filesize\":12345,\"not_before\":0,\"reason\":\"\",\"source_surl\":\"a://a\\\"q/f1\"}],\
     \"files_by_state\":{\"ACTIVE\":0,\"CANCELED\":0,\"FAILED\":0,\"FINISHED\":1,\"NOT_USED\":0,\"SUBMITTED\":0},\
     \"finish_time\":1700000060,\"job_id\":\"00000000-0000-4000-8000-000000000001\",\"job_state\":\"FINISHED\",\"kind\":\"plain\",\"priority\":3,\
     \"retry\":0,\"retry_delay\":0,\"submit_time\":1700000000,\"vo_name\":\"demo\"}";

/// A job of which one file failed and the other was cancelled.
pub const FAILED_JOBS: &str = "HTTP/1.1 200 OK\r\n\
     Content-Type: application/json\r\n\
     Content-Length: 323\r\n\
     Connection: close\r\n\r\n\
     {\"jobs\":[{\"files_by_state\":{\"ACTIVE\":0,\"CANCELED\":1,\"FAILED\":1,\"FINISHED\":0,\"NOT_USED\":0,\"SUBMITTED\":0},\
     \"finish_time\":1700000050,\"job_id\":\"00000000-0000-4000-8000-000000000001\",\"job_state\":\"CANCELED\",\"kind\":\"plain\",\"priority\":3,\
     \"retry\":1,\"retry_delay\":0,\"submit_time\":1700000000,\"vo_name\":\"demo\"}],\"more\":false,\"next\":null}";

/// That job with its files: one was tried twice, the other cancelled while it waited.
pub const FAILED_JOB: &str = "HTTP/1.1 200 OK\r\n\
     Content-Type: application/json\r\n\
     Content-Length: 1421\r\n\
     Connection: close\r\n\r\n\
     {\"files\":[{\"activity\":\"default\",\"attempt\":2,\"cancel_asked\":false,\"checksum\":\"\",\
     \"dest_surl\":\"b://b\\\\c/f1\",\"digest\":\"\",\"events\":[{\"attempt\":0,\"bytes\":null,\"event\":\"submitted\",\
     \"reason\":\"\",\"time\":1700000000},{\"attempt\":1,\"bytes\":null,\"event\":\"claimed\",\"reason\":\"\",\
     \"time\":1700000020},{\"attempt\":1,\"bytes\":null,\"event\":\"failed, to be tried again\",\"reason\":\"store failed\",\
     \"time\":1700000030},{\"attempt\":2,\"bytes\":null,\"event\":\"claimed\",\"reason\":\"\",\"time\":1700000040},\
     {\"attempt\":2,\"bytes\":null,\"event\":\"failed\",\"reason\":\"store failed\",\"time\":1700000050}],\
     \"events_left_out\":0,\"file_id\":1,\"file_index\":0,\"file_state\":\"FAILED\",\"filesize\":0,\"not_before\":1700000030,\
     \"reason\":\"store failed\",\"source_surl\":\"a://a\\\"q/f1\"},{\"activity\":\"default\",\"attempt\":0,\
     \"cancel_asked\":false,\"checksum\":\"\",\"dest_surl\":\"b://b\\\\c/f2\",\"digest\":\"\",\"events\":[{\"attempt\":0,\
     \"bytes\":null,\"event\":\"submitted\",\"reason\":\"\",\"time\":1700000000},{\"attempt\":0,\"bytes\":null,\
     \"event\":\"canceled\",\"reason\":\"cancelled\",\"time\":1700000010}],\"events_left_out\":0,\"file_id\":2,\
     \"file_index\":1,\"file_state\":\"CANCELED\",\"filesize\":0,\"not_before\":0,\"reason\":\"cancelled\",\
     \"source_surl\":\"a://a\\\"q/f2\"}],\"files_by_state\":{\"ACTIVE\":0,\"CANCELED\":1,\"FAILED\":1,\"FINISHED\":0,\
     \"NOT_USED\":0,\"SUBMITTED\":0},\"finish_time\":1700000050,\"job_id\":\"00000000-0000-4000-8000-000000000001\",\"job_state\":\"CANCELED\",\
     \"kind\":\"plain\",\"priority\":3,\"retry\":1,\"retry_delay\":0,\"submit_time\":1700000000,\"vo_name\":\"demo\"}";

/// The job that the expiry settled, and the one that waits.
pub const EXPIRED_JOBS: &str = "HTTP/1.1 200 OK\r\n\
     Content-Type: application/json\r\n\
     Content-Length: 603\r\n\
     Connection: close\r\n\r\n\
     {\"jobs\":[{\"files_by_state\":{\"ACTIVE\":0,\"CANCELED\":1,\"FAILED\":0,\"FINISHED\":0,\"NOT_USED\":0,\"SUBMITTED\":0},\
     \"finish_time\":1700003700,\"job_id\":\"00000000-0000-4000-8000-000000000001\",\"job_state\":\"CANCELED\",\"kind\":\"plain\",\
     \"priority\":3,\"retry\":0,\"retry_delay\":0,\"submit_time\":1700000000,\"vo_name\":\"demo\"},\
     {\"files_by_state\":{\"ACTIVE\":0,\"CANCELED\":0,\"FAILED\":0,\"FINISHED\":0,\"NOT_USED\":0,\"SUBMITTED\":1},\
     \"finish_time\":0,\"job_id\":\"00000000-0000-4000-8000-000000000002\",\"job_state\":\"SUBMITTED\",\"kind\":\"plain\",\
     \"priority\":3,\"retry\":0,\"retry_delay\":0,\"submit_time\":1700000000,\"vo_name\":\"demo\"}],\"more\":false,\"next\":null}";

/// The one that waits.
pub const WAITING_JOB: &str = "HTTP/1.1 200 OK\r\n\
     Content-Type: application/json\r\n\
     Content-Length: 315\r\n\
     Connection: close\r\n\r\n\
     {\"jobs\":[{\"files_by_state\":{\"ACTIVE\":0,\"CANCELED\":0,\"FAILED\":0,\"FINISHED\":0,\"NOT_USED\":0,\"SUBMITTED\":1},\
     \"finish_time\":0,\"job_id\":\"00000000-0000-4000-8000-000000000002\",\"job_state\":\"SUBMITTED\",\"kind\":\"plain\",\
     \"priority\":3,\"retry\":0,\"retry_delay\":0,\"submit_time\":1700000000,\"vo_name\":\"demo\"}],\"more\":false,\"next\":null}";

/// No job has the id.
pub const NO_JOB: &str = "HTTP/1.1 404 Not Found\r\n\
     Content-Type: application/json\r\n\
     Content-Length: 43\r\n\
     Connection: close\r\n\r\n\
     {\"message\":\"no job\",\"rule\":31,\"status\":404}";

/// A query that asks for nothing that there is.
pub const BAD_QUERY: &str = "HTTP/1.1 400 Bad Request\r\n\
     Content-Type: application/json\r\n\
     Content-Length: 46\r\n\
     Connection: close\r\n\r\n\
     {\"message\":\"bad query\",\"rule\":50,\"status\":400}";
