//! Why a document is refused: each rule of the table has a variant, a number and a message.
//! `rule` and `message` are the table (`specs/Faults.antt`). Want of memory is no rule: its number is 0, and its text is empty.
ghost use Rattle.std.specs.Prelude.{◌≡◌};
ghost use Rattle.fts_jobdoc.specs.declared.fault.DocFault.TheVariants.{Memory as TheMemory};
ghost use Rattle.fts_jobdoc.specs.Faults.{rule_of, message_of, url_message, unoffered_message};

use fts_joburl::UrlFault;
use fts_tables::Memory;

/// What is known to the field and not offered by this service.
#[derive(Clone, Copy, Debug, PartialEq, Eq)]
pub enum Unoffered {
    Reuse,
    BringOnline,
    CopyPinLifetime,
    ArchiveTimeout,
}

/// Why a document is refused: the rule that it breaks, the least of them.
#[derive(Clone, Copy, Debug, PartialEq, Eq)]
pub enum DocFault {
    NotJson,
    NotObject,
    NoFiles,
    TooManyFiles,
    FileNotObject,
    SourcesWrong,
    DestinationsWrong,
    BadUrl { fault: UrlFault },
    UnknownEndpoint,
    SameUrl,
    BadFilesize,
    BadChecksum,
    OtherAlgorithm,
    BadStrategy,
    BadActivity,
    ParamsNotObject,
    BadRetry,
    BadDelay,
    BadPriority,
    BadVerify,
    NotOffered { field: Unoffered },
    ReplicaManyFiles,
    MultihopShape,
    BadSid,
    BadQueueTime,
    Memory,
}

impl DocFault {
    /// The number of the rule: 1 to 24, or 29; and 0 for want of memory.
    #[tactic(auto, unfolding(crate::specs::Faults::rule_of))]
    pub fn rule(self) -> u32
        ensures { result ≡ rule_of self }
    {
        match self {
            DocFault::NotJson => 1,
            DocFault::NotObject => 2,
            DocFault::NoFiles => 3,
            DocFault::TooManyFiles => 4,
            DocFault::FileNotObject => 5,
            DocFault::SourcesWrong => 6,
            DocFault::DestinationsWrong => 7,
            DocFault::BadUrl { fault: _ } => 8,
            DocFault::UnknownEndpoint => 9,
            DocFault::SameUrl => 10,
            DocFault::BadFilesize => 11,
            DocFault::BadChecksum => 12,
            DocFault::OtherAlgorithm => 13,
            DocFault::BadStrategy => 14,
            DocFault::BadActivity => 15,
            DocFault::ParamsNotObject => 16,
            DocFault::BadRetry => 17,
            DocFault::BadDelay => 18,
            DocFault::BadPriority => 19,
            DocFault::BadVerify => 20,
            DocFault::NotOffered { field: _ } => 21,
            DocFault::ReplicaManyFiles => 22,
            DocFault::MultihopShape => 23,
            DocFault::BadSid => 24,
            DocFault::BadQueueTime => 29,
            DocFault::Memory => 0,
        }
    }

    /// The message of the rule, and the empty text for want of memory.
    #[tactic(auto, unfolding(crate::specs::Faults::message_of))]
    pub fn message(self) -> &'static str
        ensures { result.now ≡ message_of self }
    {
        match self {
            DocFault::NotJson => "not JSON",
            DocFault::NotObject => "not an object",
            DocFault::NoFiles => "no files",
            DocFault::TooManyFiles => "too many files",
            DocFault::FileNotObject => "file is not an object",
            DocFault::SourcesWrong => "bad sources",
            DocFault::DestinationsWrong => "bad destinations",
            DocFault::BadUrl { fault } => url_message(fault),
            DocFault::UnknownEndpoint => "unknown endpoint",
            DocFault::SameUrl => "same URL",
            DocFault::BadFilesize => "bad filesize",
            DocFault::BadChecksum => "bad checksum",
            DocFault::OtherAlgorithm => "other algorithm",
            DocFault::BadStrategy => "bad strategy",
            DocFault::BadActivity => "bad activity",
            DocFault::ParamsNotObject => "params is not an object",
            DocFault::BadRetry => "bad retry",
            DocFault::BadDelay => "bad retry_delay",
            DocFault::BadPriority => "bad priority",
            DocFault::BadVerify => "bad verify_checksum",
            DocFault::NotOffered { field } => unoffered_message(field),
            DocFault::ReplicaManyFiles => "replicas need one file",
            DocFault::MultihopShape => "bad multihop",
            DocFault::BadSid => "bad sid",
            DocFault::BadQueueTime => "bad max_time_in_queue",
            DocFault::Memory => "",
        }
    }
}

fn url_message(fault: UrlFault) -> &'static str
    ensures { result.now ≡ url_message fault }
{
    match fault {
        UrlFault::NotUrl => "bad URL 1",
        UrlFault::NoHost => "bad URL 2",
        UrlFault::HasQuery => "bad URL 3",
        UrlFault::HasFragment => "bad URL 4",
        UrlFault::HasUser => "bad URL 5",
        UrlFault::HasEscape => "bad URL 6",
        UrlFault::NoPath => "bad URL 7",
        UrlFault::TooLong => "bad URL 8",
        UrlFault::Reserved => "bad URL 9",
        UrlFault::HasPath => "bad URL 10",
        UrlFault::Memory => "",
    }
}

fn unoffered_message(field: Unoffered) -> &'static str
    ensures { result.now ≡ unoffered_message field }
{
    match field {
        Unoffered::Reuse => "not offered: reuse",
        Unoffered::BringOnline => "not offered: bring_online",
        Unoffered::CopyPinLifetime => "not offered: copy_pin_lifetime",
        Unoffered::ArchiveTimeout => "not offered: archive_timeout",
    }
}

impl From<Memory> for DocFault {
    ghost from_gives = { λ _ fault. fault ≡ TheMemory };

    fn from(_: Memory) -> Self {
        DocFault::Memory
    }
}
