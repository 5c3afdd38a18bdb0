//! What is wanted of a session of two requests where one of its calls fails: a submission of three files of three bytes from one storage to another,
//! and a look at the job. Two files are copied at a time. The calls are counted from 1 by what is done, with no failure:
//! the disk has seven for the start, and four for each entry behind it, of which the last two are its gate; the store has ten for each file.
//! A line says the status, then how the rows stand, and what a next run finds and does where the gate in doubt was closed, or open.

/// The calls of the disk that one entry has, the second reply, and what is wanted where one of them fails, and where it and all later ones fail.
#[derive(Clone, Copy)]
pub struct Entry {
    pub name: &'static str,
    /// The number of its first call.
    pub first: u32,
    pub replies: [&'static str; 2],
    pub alone: Lines,
    pub onwards: Lines,
}

/// What is wanted with the gate closed, and where it is open: only the last two calls of an entry can leave it so.
#[derive(Clone, Copy)]
pub struct Lines {
    pub closed: &'static str,
    pub open: &'static str,
}

const ACCEPTED: &str =
    "HTTP/1.1 200 OK\r\nContent-Type: application/json\r\nContent-Length: 49\r\n\r\n{\"job_id\":\"00000000-0000-4000-8000-000000000001\"}";

const ACTIVE: &str =
    "HTTP/1.1 200 OK\r\nContent-Type: application/json\r\nContent-Length: 166\r\n\r\n\
     {\"job_id\":\"00000000-0000-4000-8000-000000000001\",\"job_state\":\"ACTIVE\",\"kind\":\"plain\",\"priority\":3,\
     \"retry\":0,\"retry_delay\":0,\"submit_time\":1700000000,\"vo_name\":\"demo\"}";

const RETRIED: &str =
    "HTTP/1.1 200 OK\r\nContent-Type: application/json\r\nContent-Length: 166\r\n\r\n\
     {\"job_id\":\"00000000-0000-4000-8000-000000000001\",\"job_state\":\"ACTIVE\",\"kind\":\"plain\",\"priority\":3,\
     \"retry\":1,\"retry_delay\":0,\"submit_time\":1700000000,\"vo_name\":\"demo\"}";

const SUBMITTED: &str =
    "HTTP/1.1 200 OK\r\nContent-Type: application/json\r\nContent-Length: 169\r\n\r\n\
     {\"job_id\":\"00000000-0000-4000-8000-000000000001\",\"job_state\":\"SUBMITTED\",\"kind\":\"plain\",\"priority\":3,\
     \"retry\":0,\"retry_delay\":0,\"submit_time\":1700000000,\"vo_name\":\"demo\"}";

const DISK_FAILED: &str =
    "HTTP/1.1 503 Service Unavailable\r\nContent-Type: application/json\r\nContent-Length: 48\r\n\r\n\
     {\"message\":\"disk failed\",\"rule\":35,\"status\":503}";

const NO_JOB: &str =
    "HTTP/1.1 404 Not Found\r\nContent-Type: application/json\r\nContent-Length: 43\r\n\r\n{\"message\":\"no job\",\"rule\":31,\"status\":404}";

/// All three are copied, and a next run has nothing to do.
const DONE: &str =
    "status 0, claims 3 finished 3 failed 0 waiting 0, then claims 0 finished 3 failed 0";

/// What is sent: the submission, and the look at its job.
pub const INPUT: &str =
    "POST /jobs HTTP/1.1\r\nContent-Length: 257\r\n\r\n{\"files\":[{\"sources\":[\"https://a.example/data/f1\"],\
     \"destinations\":[\"https://b.example/f1\"]},{\"sources\":[\"https://a.example/data/f2\"],\
     \"destinations\":[\"https://b.example/f2\"]},{\"sources\":[\"https://a.example/data/f3\"],\
     \"destinations\":[\"https://b.example/f3\"]}]}\
     GET /jobs/00000000-0000-4000-8000-000000000001 HTTP/1.1\r\n\r\n";

/// The same with a retry.
pub const INPUT_WITH_RETRY: &str =
    "POST /jobs HTTP/1.1\r\nContent-Length: 278\r\n\r\n{\"files\":[{\"sources\":[\"https://a.example/data/f1\"],\
     \"destinations\":[\"https://b.example/f1\"]},{\"sources\":[\"https://a.example/data/f2\"],\
     \"destinations\":[\"https://b.example/f2\"]},{\"sources\":[\"https://a.example/data/f3\"],\
     \"destinations\":[\"https://b.example/f3\"]}],\"params\":{\"retry\":1}}\
     GET /jobs/00000000-0000-4000-8000-000000000001 HTTP/1.1\r\n\r\n";

/// Where the submission ends in the input, and where the look at its job ends.
pub const ENDS: [usize; 2] = [301, 360];

/// Behind how many bytes a read fails: within each line and at its end, and around the end of each request.
pub const READS: [usize; 12] = [0, 1, 20, 21, 43, 44, 45, 300, 301, 302, 359, 360];

/// What is wanted where the write that makes the journal, or the sync behind it, fails, and nine bytes of 0 are there: a next run finds no journal.
pub const NOT_MADE: &str = "status 4, then status 7";

/// What is wanted of the rest of the start: there is nothing, or a journal with a Restart or without.
pub const START: &str =
    "status 4, claims 0 finished 0 failed 0 waiting 0, then claims 0 finished 0 failed 0";

pub const ENTRIES: [Entry; 7] = [
    // Nothing was accepted. In doubt is the job alone, which a next run then has.
    Entry {
        name: "the submission",
        first: 8,
        replies: [DISK_FAILED, NO_JOB],
        alone: Lines {
            closed: "status 0, claims 0 finished 0 failed 0 waiting 0, then claims 0 finished 0 failed 0",
            open: "status 0, claims 0 finished 0 failed 0 waiting 0, then claims 3 finished 3 failed 0",
        },
        onwards: Lines {
            closed: "status 0, claims 0 finished 0 failed 0 waiting 0, then claims 0 finished 0 failed 0",
            open: "status 0, claims 0 finished 0 failed 0 waiting 0, then claims 3 finished 3 failed 0",
        },
    },
    // The job waits while it is looked at.
    Entry {
        name: "the first claim",
        first: 12,
        replies: [ACCEPTED, SUBMITTED],
        alone: Lines {
            closed: DONE,
            open: DONE,
        },
        onwards: Lines {
            closed: "status 4, claims 0 finished 0 failed 0 waiting 3, then claims 3 finished 3 failed 0",
            open: "status 4, claims 0 finished 0 failed 0 waiting 3, then claims 3 finished 3 failed 0",
        },
    },
    // The first file is copied, and its report is the next to fail: a next run finds its destination.
    Entry {
        name: "the second claim",
        first: 16,
        replies: [ACCEPTED, ACTIVE],
        alone: Lines {
            closed: DONE,
            open: DONE,
        },
        onwards: Lines {
            closed: "status 4, claims 1 finished 0 failed 0 waiting 2, then claims 3 finished 2 failed 1",
            open: "status 4, claims 1 finished 0 failed 0 waiting 2, then claims 3 finished 2 failed 1",
        },
    },
    Entry {
        name: "the first report",
        first: 20,
        replies: [ACCEPTED, ACTIVE],
        alone: Lines {
            closed: DONE,
            open: DONE,
        },
        onwards: Lines {
            closed: "status 4, claims 2 finished 0 failed 0 waiting 1, then claims 3 finished 2 failed 1",
            open: "status 4, claims 2 finished 0 failed 0 waiting 1, then claims 2 finished 3 failed 0",
        },
    },
    Entry {
        name: "the second report",
        first: 24,
        replies: [ACCEPTED, ACTIVE],
        alone: Lines {
            closed: DONE,
            open: DONE,
        },
        onwards: Lines {
            closed: "status 4, claims 2 finished 1 failed 0 waiting 1, then claims 2 finished 2 failed 1",
            open: "status 4, claims 2 finished 1 failed 0 waiting 1, then claims 1 finished 3 failed 0",
        },
    },
    Entry {
        name: "the third claim",
        first: 28,
        replies: [ACCEPTED, ACTIVE],
        alone: Lines {
            closed: DONE,
            open: DONE,
        },
        onwards: Lines {
            closed: "status 4, claims 2 finished 2 failed 0 waiting 1, then claims 1 finished 3 failed 0",
            open: "status 4, claims 2 finished 2 failed 0 waiting 1, then claims 1 finished 3 failed 0",
        },
    },
    // Behind the input a fault ends the run.
    Entry {
        name: "the third report",
        first: 32,
        replies: [ACCEPTED, ACTIVE],
        alone: Lines {
            closed: "status 4, claims 3 finished 2 failed 0 waiting 0, then claims 1 finished 2 failed 1",
            open: "status 4, claims 3 finished 2 failed 0 waiting 0, then claims 0 finished 3 failed 0",
        },
        onwards: Lines {
            closed: "status 4, claims 3 finished 2 failed 0 waiting 0, then claims 1 finished 2 failed 1",
            open: "status 4, claims 3 finished 2 failed 0 waiting 0, then claims 0 finished 3 failed 0",
        },
    },
];

/// How many calls the store has with no failure.
pub const STORE_CALLS: u32 = 30;

/// Each failing call of the store ends its file's one attempt, or is made good by its retry.
pub const REPLIES: [&str; 2] = [ACCEPTED, ACTIVE];

pub const REPLIES_WITH_RETRY: [&str; 2] = [ACCEPTED, RETRIED];

pub const STORE: &str =
    "status 0, claims 3 finished 2 failed 1 waiting 0, then claims 0 finished 2 failed 1";

pub const STORE_WITH_RETRY: &str =
    "status 0, claims 4 finished 3 failed 0 waiting 0, then claims 0 finished 3 failed 0";

/// A read that fails before the submission is whole, and behind it.
pub const NOTHING_READ: &str =
    "status 5, claims 0 finished 0 failed 0 waiting 0, then claims 0 finished 0 failed 0";

pub const READ: &str =
    "status 5, claims 3 finished 3 failed 0 waiting 0, then claims 0 finished 3 failed 0";

/// A response that can't be written: its request was accepted all the same, and the request behind it isn't answered.
pub const NOT_WRITTEN: &str =
    "status 6, claims 3 finished 3 failed 0 waiting 0, then claims 0 finished 3 failed 0";
