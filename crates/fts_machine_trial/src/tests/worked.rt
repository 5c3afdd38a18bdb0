//! Worked rows by hand: scripts of commands with the answers that are wanted, over settings and documents as users write them.
//! A line of a script is a command or a question, ` = `, and its answer. What no clause says is that each call succeeds with ample memory.
use super::must;
use super::scripts::BANS_AND_HOURS;
use fts_config::read_settings;
use fts_desk::{Desk, DeskFault};
use fts_jobdoc::read_job;
use fts_tables::{
    Answer, Command, EndpointName, FileState, JobState, LinkAt, Memory, NewJob, Outcome, Reason,
    Refusal, Settings,
};
use std::alloc::{AllocError, Global};
use std::process::Abort;

/// A storage each; the third takes one file at a time.
const A: &str = "[[storage]]\nurl = \"https://a.example\"\n";

const B: &str = "[[storage]]\nurl = \"https://b.example\"\n";

const C: &str = "[[storage]]\nurl = \"https://c.example\"\ninbound_max_active = 1\n";

/// Three activities.
const ACTIVITIES: &str = "[[activity]]\nname = \"analysis\"\nweight = 70\n\
    [[activity]]\nname = \"production\"\nweight = 20\n\
    [[activity]]\nname = \"default\"\nweight = 10\n";

/// The storages by the name that scripts give their list; all three in order where they give none.
fn storages(name: &str) -> [&'static str; 3] {
    match name {
        "turned" => [C, B, A],
        "without-b" => [A, "", C],
        _ => [A, B, C],
    }
}

/// A job by the name that scripts give it.
fn document(name: &str) -> &'static str {
    match name {
        "one" => {
            "{\"files\":[{\"sources\":[\"https://a.example/f9\"],\"destinations\":[\"https://b.example/f9\"]}],\"params\":{\"retry\":1,\"retry_delay\":60}}"
        }
        "named" => {
            "{\"files\":[{\"sources\":[\"https://a.example/f9\"],\"destinations\":[\"https://b.example/f9\"]}],\"params\":{\"id_generator\":\"deterministic\",\"sid\":\"mine\"}}"
        }
        "five" => {
            "{\"files\":[{\"sources\":[\"https://a.example/f1\"],\"destinations\":[\"https://b.example/f1\"]},\
             {\"sources\":[\"https://a.example/f2\"],\"destinations\":[\"https://b.example/f2\"]},\
             {\"sources\":[\"https://a.example/f3\"],\"destinations\":[\"https://b.example/f3\"]},\
             {\"sources\":[\"https://a.example/f4\"],\"destinations\":[\"https://b.example/f4\"]},\
             {\"sources\":[\"https://a.example/f5\"],\"destinations\":[\"https://b.example/f5\"]}]}"
        }
        "shares" => {
            "{\"files\":[{\"sources\":[\"https://a.example/f1\"],\"destinations\":[\"https://b.example/f1\"],\"activity\":\"analysis\"},\
             {\"sources\":[\"https://a.example/f2\"],\"destinations\":[\"https://b.example/f2\"],\"activity\":\"production\"},\
             {\"sources\":[\"https://a.example/f3\"],\"destinations\":[\"https://b.example/f3\"]}]}"
        }
        "to-c" => {
            "{\"files\":[{\"sources\":[\"https://b.example/f1\"],\"destinations\":[\"https://c.example/f1\"]},{\"sources\":[\"https://a.example/f2\"],\"destinations\":[\"https://c.example/f2\"]}]}"
        }
        "hops" => {
            "{\"files\":[{\"sources\":[\"https://a.example/f\"],\"destinations\":[\"https://b.example/f\"]},\
             {\"sources\":[\"https://b.example/f\"],\"destinations\":[\"https://c.example/f\"]},\
             {\"sources\":[\"https://c.example/f\"],\"destinations\":[\"https://a.example/g\"]}],\"params\":{\"multihop\":true}}"
        }
        "orderly" => {
            "{\"files\":[{\"sources\":[\"https://a.example/f\",\"https://b.example/f\",\"https://c.example/f\"],\"destinations\":[\"https://b.example/g\"],\"selection_strategy\":\"orderly\"}]}"
        }
        "auto" => {
            "{\"files\":[{\"sources\":[\"https://a.example/f\",\"https://b.example/f\",\"https://c.example/f\"],\"destinations\":[\"https://b.example/g\"]}]}"
        }
        "hour" => {
            "{\"files\":[{\"sources\":[\"https://a.example/f9\"],\"destinations\":[\"https://b.example/f9\"]}],\
             \"params\":{\"retry\":1,\"retry_delay\":60,\"max_time_in_queue\":1}}"
        }
        "hour-sources" => {
            "{\"files\":[{\"sources\":[\"https://a.example/f\",\"https://b.example/f\",\"https://c.example/f\"],\
             \"destinations\":[\"https://b.example/g\"],\"selection_strategy\":\"orderly\"}],\
             \"params\":{\"max_time_in_queue\":1}}"
        }
        "hour-hops" => {
            "{\"files\":[{\"sources\":[\"https://a.example/f\"],\"destinations\":[\"https://b.example/f\"]},\
             {\"sources\":[\"https://b.example/f\"],\"destinations\":[\"https://c.example/f\"]},\
             {\"sources\":[\"https://c.example/f\"],\"destinations\":[\"https://a.example/g\"]}],\
             \"params\":{\"multihop\":true,\"max_time_in_queue\":1}}"
        }
        _ => "",
    }
}

/// Settings with links of this limit, and these storages.
fn settings(alloc: Global, limit: &str, list: &str) -> Result<Settings, Memory> {
    let [first, second, third] = storages(list);
    let text = format!(in alloc;
        "vo = \"demo\"\ndefault_max_active = {limit}\n{first}{second}{third}{ACTIVITIES}"
    )?;
    match read_settings(alloc, text.as_bytes()) {
        Ok(settings) => Ok(settings),
        Err(_) => Err(Memory),
    }
}

/// The job of a name.
fn job(alloc: Global, name: &str) -> Result<NewJob, Memory> {
    let settings = settings(alloc, "1", "")?;
    match read_job(alloc, document(name).as_bytes(), &settings) {
        Ok(job) => Ok(job),
        Err(_) => Err(Memory),
    }
}

/// The word at a place of a line, and none past its end.
fn word<'a>(words: &[&'a str], place: usize) -> &'a str {
    match words.get(place) {
        Some(word) => *word,
        None => "",
    }
}

/// The number at a place of a line.
fn number(words: &[&str], place: usize) -> u64 {
    match word(words, place).parse::<u64>() {
        Ok(number) => number,
        Err(_) => 0,
    }
}

/// The number at a place of a line, of 32 bits.
fn small(words: &[&str], place: usize) -> u32 {
    match word(words, place).parse::<u32>() {
        Ok(number) => number,
        Err(_) => 0,
    }
}

/// The number at a place of a line, of 16 bits.
fn number_16(words: &[&str], place: usize) -> u16 {
    match word(words, place).parse::<u16>() {
        Ok(number) => number,
        Err(_) => 0,
    }
}

/// How a copy ended.
fn outcome(name: &str) -> Outcome {
    match name {
        "verified" => Outcome::Verified {
            size: 3,
            digest: [7; 16],
        },
        "missing" => Outcome::SourceMissing,
        "exists" => Outcome::DestinationExists,
        _ => Outcome::StoreFailed,
    }
}

/// The storage at a place of a line.
fn storage(alloc: Global, words: &[&str], place: usize) -> Result<EndpointName, Memory> {
    match EndpointName::read(alloc, word(words, place))? {
        Some(name) => Ok(name),
        None => Err(Memory),
    }
}

/// The command that a line says; a claim where it says no other. Where a line says no moment it is 0.
fn command(alloc: Global, words: &[&str]) -> Result<Command, Memory> {
    let now = 0;
    Ok(match word(words, 0) {
        "restart" => Command::Restart {
            now,
            settings: settings(alloc, word(words, 1), word(words, 2))?,
        },
        "submit" => Command::Submit {
            now: number(words, 2),
            job: job(alloc, word(words, 1))?,
        },
        "cancel" => Command::CancelJob {
            now,
            job: small(words, 1),
        },
        "cancel-file" => Command::CancelFile {
            now,
            job: small(words, 1),
            file: small(words, 2),
        },
        "priority" => Command::SetPriority {
            now,
            job: small(words, 1),
            priority: small(words, 2),
        },
        "report" => Command::Report {
            now: number(words, 1),
            file: small(words, 2),
            attempt: small(words, 3),
            outcome: outcome(word(words, 4)),
        },
        "ban" => Command::Ban {
            now: number(words, 1),
            storage: storage(alloc, words, 2)?,
            cancel: word(words, 3) == "cancel",
        },
        "unban" => Command::Unban {
            now: number(words, 1),
            storage: storage(alloc, words, 2)?,
        },
        "expire" => Command::Expire {
            now: number(words, 1),
        },
        _ => Command::Claim {
            now: number(words, 1),
            word: number(words, 2),
        },
    })
}

fn state_text(state: FileState) -> &'static str {
    match state {
        FileState::Submitted => "SUBMITTED",
        FileState::Active => "ACTIVE",
        FileState::Finished => "FINISHED",
        FileState::Failed => "FAILED",
        FileState::Canceled => "CANCELED",
        FileState::NotUsed => "NOT_USED",
    }
}

fn job_state_text(state: Option<JobState>) -> &'static str {
    match state {
        None => "none",
        Some(JobState::Submitted) => "SUBMITTED",
        Some(JobState::Active) => "ACTIVE",
        Some(JobState::Finished) => "FINISHED",
        Some(JobState::FinishedDirty) => "FINISHEDDIRTY",
        Some(JobState::Failed) => "FAILED",
        Some(JobState::Canceled) => "CANCELED",
    }
}

fn answer_text(alloc: Global, answer: Answer) -> Result<String, AllocError> {
    match answer {
        Answer::Restarted { released } => format!(in alloc; "{released} released"),
        Answer::Submitted { job, id: _ } => format!(in alloc; "job {job}"),
        Answer::Cancelled { job } => format!(in alloc; "job {job} cancelled"),
        Answer::PrioritySet { job } => format!(in alloc; "job {job} set"),
        Answer::Claimed { file, attempt } => format!(in alloc; "file {file} attempt {attempt}"),
        Answer::Reported { file, state } => format!(in alloc; "file {file} {}", state_text(state)),
        Answer::Banned { cancelled } => format!(in alloc; "{cancelled} cancelled"),
        Answer::Unbanned => String::from_str(alloc, "unbanned"),
        Answer::Expired { cancelled } => format!(in alloc; "{cancelled} expired"),
    }
}

fn refusal_text(alloc: Global, refusal: Refusal) -> Result<String, AllocError> {
    match refusal {
        Refusal::NoJob => String::from_str(alloc, "no job"),
        Refusal::NoFile => String::from_str(alloc, "no file"),
        Refusal::Duplicate { job } => format!(in alloc; "duplicate of {job}"),
        Refusal::JobsFull { jobs } => format!(in alloc; "full of {jobs} jobs"),
        Refusal::RowsFull { rows } => format!(in alloc; "full of {rows} rows"),
        Refusal::Idle => String::from_str(alloc, "idle"),
        Refusal::Stale { state, attempt } => format!(in alloc;
            "stale {} {attempt}",
            state_text(state)
        ),
        Refusal::Unchanged { job } => format!(in alloc; "job {job} unchanged"),
        Refusal::NoStorage => String::from_str(alloc, "no storage"),
        Refusal::NotBanned => String::from_str(alloc, "not banned"),
    }
}

/// The states of a job's rows, and its own.
fn states(alloc: Global, desk: &Desk, job: u32) -> Result<String, AllocError> {
    let mut text = String::new(alloc);
    for row in desk.job_rows(job) {
        text.push_str(state_text(row.state))?;
        text.push_str(" ")?;
    }
    text.push_str(job_state_text(desk.state(job)))?;
    Ok(text)
}

fn reason_text(reason: Reason) -> &'static str {
    match reason {
        Reason::None => "none",
        Reason::Cancelled => "cancelled",
        Reason::Ended(_) => "ended",
        Reason::Expired => "expired",
    }
}

/// The reasons of a job's rows.
fn reasons(alloc: Global, desk: &Desk, job: u32) -> Result<String, AllocError> {
    let mut text = String::new(alloc);
    for row in desk.job_rows(job) {
        if !text.is_empty() {
            text.push_str(" ")?;
        }
        text.push_str(reason_text(row.reason))?;
    }
    Ok(text)
}

/// The banned storages in order.
fn banned(alloc: Global, desk: &Desk) -> Result<String, AllocError> {
    if desk.banned().is_empty() {
        return String::from_str(alloc, "none");
    }
    let mut text = String::new(alloc);
    for name in desk.banned() {
        if !text.is_empty() {
            text.push_str(" ")?;
        }
        text.push_str(name.as_str())?;
    }
    Ok(text)
}

/// The cancellation, the retries and the moment of a job's first row.
fn waits(alloc: Global, desk: &Desk, job: u32) -> Result<String, AllocError> {
    match desk.job_rows(job).first() {
        Some(row) => {
            format!(in alloc; "{} {} {}", row.cancel_asked, row.retries, row.not_before)
        }
        None => String::from_str(alloc, "none"),
    }
}

/// How many files run from one endpoint to another, by their places.
fn held(alloc: Global, desk: &Desk, words: &[&str]) -> Result<String, AllocError> {
    let link = LinkAt {
        source: number_16(words, 1),
        dest: number_16(words, 2),
    };
    format!(in alloc; "{}", desk.held(link))
}

/// What a desk answers a command.
fn done(alloc: Global, desk: &mut Desk, words: &[&str]) -> Result<String, Memory> {
    if desk.commands() == u32::MAX {
        return Err(Memory);
    }
    let command = command(alloc, words)?;
    match desk.prepare(&command) {
        Ok(plan) => Ok(answer_text(alloc, desk.commit(plan))?),
        Err(DeskFault::Rule(refusal)) => Ok(refusal_text(alloc, refusal)?),
        Err(DeskFault::Memory) => Err(Memory),
    }
}

/// What a desk answers a line.
fn told(alloc: Global, desk: &mut Desk, said: &str) -> Result<String, Memory> {
    let words: Vec<&str> = said.split(' ').collect(alloc)?;
    match word(words.as_slice(), 0) {
        "states" => Ok(states(alloc, desk, small(words.as_slice(), 1))?),
        "reasons" => Ok(reasons(alloc, desk, small(words.as_slice(), 1))?),
        "banned" => Ok(banned(alloc, desk)?),
        "waits" => Ok(waits(alloc, desk, small(words.as_slice(), 1))?),
        "held" => Ok(held(alloc, desk, words.as_slice())?),
        _ => done(alloc, desk, words.as_slice()),
    }
}

/// Gives a desk the lines of a script, and compares each answer.
fn play(rt: &impl Abort, alloc: Global, case: &str, script: &str) {
    let mut desk = Desk::empty(alloc);
    for line in script.lines() {
        if let Some((said, want)) = line.split_once(" = ") {
            let answer = must(rt, told(alloc, &mut desk, said));
            assert!(rt; answer.as_str() == want, "{case}: {line}: {answer}");
        }
    }
}

const ROWS: [(&str, &str); 10] = [
    (
        "a link carries as many files as its limit",
        "restart 2 = 0 released\nsubmit five = job 1\nclaim 0 0 = file 1 attempt 1\nclaim 0 0 = file 2 attempt 1\nclaim 0 0 = idle\nheld 0 1 = 2\n\
         states 1 = ACTIVE ACTIVE SUBMITTED SUBMITTED SUBMITTED ACTIVE\nreport 0 1 1 verified = file 1 FINISHED\n\
         report 0 2 1 verified = file 2 FINISHED\nclaim 0 0 = file 3 attempt 1\nclaim 0 0 = file 4 attempt 1\n\
         states 1 = FINISHED FINISHED ACTIVE ACTIVE SUBMITTED ACTIVE",
    ),
    (
        "an endpoint takes as many files as its limit",
        "restart 2 = 0 released\nsubmit to-c = job 1\nclaim 0 0 = file 2 attempt 1\nclaim 0 0 = idle\nheld 1 2 = 0\nstates 1 = SUBMITTED ACTIVE ACTIVE",
    ),
    (
        "a word draws the activity",
        "restart 2 = 0 released\nsubmit shares = job 1\nclaim 0 70 = file 2 attempt 1\nreport 0 2 1 verified = file 2 FINISHED\nclaim 0 69 = file 1 attempt 1\nclaim 0 9 = file 3 attempt 1",
    ),
    (
        "the last activity is drawn by the last of the words",
        "restart 2 = 0 released\nsubmit shares = job 1\nclaim 0 90 = file 3 attempt 1",
    ),
    (
        "a missing source is followed by the next",
        "restart 2 = 0 released\nsubmit orderly = job 1\nclaim 0 0 = file 1 attempt 1\nreport 0 1 1 missing = file 1 FAILED\n\
         claim 0 0 = file 2 attempt 1\nreport 0 2 1 verified = file 2 FINISHED\nclaim 0 0 = idle\nstates 1 = FAILED FINISHED NOT_USED FINISHED",
    ),
    (
        "a failed hop is the last",
        "restart 2 = 0 released\nsubmit hops = job 1\nclaim 0 0 = file 1 attempt 1\nreport 0 1 1 verified = file 1 FINISHED\n\
         claim 0 0 = file 2 attempt 1\nreport 0 2 1 exists = file 2 FAILED\nclaim 0 0 = idle\nstates 1 = FINISHED FAILED NOT_USED FAILED",
    ),
    (
        "a cancelled copy ends by its report",
        "restart 1 = 0 released\nsubmit shares = job 1\nclaim 0 0 = file 1 attempt 1\ncancel 1 = job 1 cancelled\n\
         states 1 = ACTIVE CANCELED CANCELED ACTIVE\nwaits 1 = true 0 0\ncancel 1 = job 1 unchanged\nreport 0 1 1 verified = file 1 CANCELED\n\
         states 1 = CANCELED CANCELED CANCELED CANCELED\ncancel 1 = job 1 unchanged\npriority 1 5 = job 1 unchanged",
    ),
    (
        "a failed copy waits for its delay",
        "restart 2 = 0 released\nsubmit one = job 1\nclaim 1000 0 = file 1 attempt 1\nreport 1000 1 1 failed = file 1 SUBMITTED\n\
         waits 1 = false 1 1060\nclaim 1059 0 = idle\nclaim 1060 0 = file 1 attempt 2\nreport 1060 1 1 verified = stale ACTIVE 2",
    ),
    (
        "an id has one job, and a restart releases what was copied",
        "restart 4 = 0 released\nsubmit named = job 1\nsubmit named = duplicate of 1\nsubmit five = job 2\nclaim 0 0 = file 1 attempt 1\n\
         restart 1 = 1 released\nheld 0 1 = 0\npriority 2 5 = job 2 set\nclaim 0 0 = file 2 attempt 1\nclaim 0 0 = idle\n\
         cancel-file 2 3 = job 2 cancelled\ncancel-file 2 1 = no file\ncancel 3 = no job\n\
         states 2 = ACTIVE CANCELED SUBMITTED SUBMITTED SUBMITTED ACTIVE",
    ),
    (
        "the source with the least to do comes first, or the first in order",
        "restart 2 = 0 released\nsubmit one = job 1\nsubmit one = job 2\nsubmit auto = job 3\nstates 3 = NOT_USED SUBMITTED NOT_USED SUBMITTED\n\
         submit orderly = job 4\nstates 4 = SUBMITTED NOT_USED NOT_USED SUBMITTED",
    ),
];

#[test]
fn worked_rows_are_answered_as_wanted(rt: HostRuntime) {
    for (case, script) in ROWS {
        play(&rt, rt.alloc(), case, script);
    }
}

#[test]
fn bans_and_hours_in_the_queue_are_answered_as_wanted(rt: HostRuntime) {
    for (case, script) in BANS_AND_HOURS {
        play(&rt, rt.alloc(), case, script);
    }
}
