//! Of `fts_jobdoc`: documents and their answers, from the tables of `jobdoc_cases`. A row is a sentence, what is given, and the rule and message of
//! the refusal, or 0 and no text. Settings have three endpoints: `https://a.example`, `https://b.example` and `root://a.example:1094`. Rules and
//! texts are those of the rules' table in `docs/API.md`; ids are those of another program.
ghost use Rattle.std.specs.Prelude.{◌≡◌, ◌∷◌, [], ◌++◌, IfOk, OnOk};

use super::checks::{check, check_found, must};
use super::jobdoc_cases::{
    ABC, BANS, BODIES, BodyCase, EXAMPLES, FIELDS, HOURS, KINDS, MULTIHOP, PARAMETERS, PRIORITIES,
    PairCase, REPLICAS_OF_ONE, URLS, WITH_CHECKSUM,
};
use fts_jobdoc::{read_ban, read_job, read_priority, read_storage, sid_id};
use fts_tables::{
    Endpoint, EndpointName, Items, Label, Memory, NewFile, NewJob, Place, Settings, Weight,
};
use std::alloc::{AllocError, Global};
use std::process::Abort;

fn add<T: Drop>(items: &mut Items<T>, item: T) -> Result<(), Memory>
    ensures { OnOk result (items.new ≡ items.old ++ item ∷ []) }
{
    match items.push(item) {
        Ok(()) => Ok(()),
        Err(_) => Err(Memory),
    }
}

fn endpoint(alloc: Global, text: &str) -> Result<Endpoint, Memory>
    ensures { IfOk result (λ e. e ≡ record { name = text.now; inbound = 1; outbound = 2 }) }
{
    match EndpointName::read(alloc, text)? {
        Some(name) => Ok(Endpoint {
            name,
            inbound: 1,
            outbound: 2,
        }),
        None => Err(Memory),
    }
}

fn settings(alloc: Global) -> Result<Settings, Memory> {
    let mut endpoints = Items::new(alloc);
    add(&mut endpoints, endpoint(alloc, "https://a.example")?)?;
    add(&mut endpoints, endpoint(alloc, "https://b.example")?)?;
    add(&mut endpoints, endpoint(alloc, "root://a.example:1094")?)?;
    let mut weights = Items::new(alloc);
    let weight = Weight {
        name: Label::new(alloc, "default")?,
        weight: 1,
    };
    add(&mut weights, weight)?;
    Ok(Settings {
        vo: Label::new(alloc, "demo")?,
        workers: 4,
        default_max_active: 2,
        endpoints,
        links: Items::new(alloc),
        weights,
    })
}

/// The rule that a body breaks, and its message; 0 and the empty text where it breaks none.
fn refusal(alloc: Global, body: &str, settings: &Settings) -> (u32, &'static str) {
    match read_job(alloc, body.as_bytes(), settings) {
        Ok(_) => (0, ""),
        Err(fault) => (fault.rule(), fault.message()),
    }
}

/// Whether a body is answered so.
fn is_answered(alloc: Global, body: &str, rule: u32, message: &str, settings: &Settings) -> bool {
    let found = refusal(alloc, body, settings);
    found.0 == rule && found.1 == message
}

/// The first body that is answered otherwise.
fn first_wrong_body(
    alloc: Global,
    cases: &[BodyCase],
    settings: &Settings,
) -> Option<&'static str> {
    for (case, body, rule, message) in cases {
        if !is_answered(alloc, body, *rule, message, settings) {
            return Some(*case);
        }
    }
    None
}

/// A document of one file with these further fields, and these further keys.
fn document(alloc: Global, fields: &str, keys: &str) -> Result<String, AllocError> {
    format!(in alloc;
        "{{\"files\":[{{\"sources\":[\"https://a.example/f\"],\"destinations\":[\"https://b.example/f\"]{fields}}}]{keys}}}"
    )
}

fn between(alloc: Global, source: &str, dest: &str) -> Result<String, AllocError> {
    format!(in alloc;
        "{{\"files\":[{{\"sources\":[\"{source}\"],\"destinations\":[\"{dest}\"]}}]}}"
    )
}

/// What the two texts of a row are.
#[derive(Clone, Copy)]
enum Pair {
    /// Further fields of the file, and further keys of the document.
    Fields,
    /// The source and the destination of the file.
    Urls,
}

/// The first document of one file, with these pairs in it, that is answered otherwise.
fn first_wrong_pair(
    alloc: Global,
    pair: Pair,
    cases: &[PairCase],
    settings: &Settings,
) -> Result<Option<&'static str>, AllocError> {
    for (case, first, second, rule, message) in cases {
        let body = match pair {
            Pair::Fields => document(alloc, first, second)?,
            Pair::Urls => between(alloc, first, second)?,
        };
        if !is_answered(alloc, body.as_str(), *rule, message, settings) {
            return Ok(Some(*case));
        }
    }
    Ok(None)
}

/// A document of so many equal files.
fn many(alloc: Global, file: &str, count: usize) -> Result<String, AllocError> {
    let mut body = String::from_str(alloc, "{\"files\":[")?;
    for index in 0..count {
        if index > 0 {
            body.push_str(",")?;
        }
        body.push_str(file)?;
    }
    body.push_str("]}")?;
    Ok(body)
}

/// A text so often.
fn many_of(alloc: Global, part: &str, count: usize) -> Result<String, AllocError> {
    let mut text = String::new(alloc);
    for _ in 0..count {
        text.push_str(part)?;
    }
    Ok(text)
}

fn place(alloc: Global, place: &Place) -> Result<String, AllocError> {
    format!(in alloc; "{}/{}", place.endpoint.as_str(), place.path.as_str())
}

/// What a job's file is, in one line.
fn line(alloc: Global, file: &NewFile) -> Result<String, AllocError> {
    let source = place(alloc, &file.source)?;
    let dest = place(alloc, &file.dest)?;
    format!(in alloc;
        "{} {} {} {} {}\n",
        file.index,
        source.as_str(),
        dest.as_str(),
        file.size,
        file.activity.as_str()
    )
}

/// What a job is, but for its files, in one line.
fn head(alloc: Global, job: &NewJob) -> Result<String, AllocError> {
    format!(in alloc;
        "{:?} {:?} {} {} {}\n",
        job.kind, job.strategy, job.priority, job.retry, job.delay
    )
}

/// What a job is, in some lines.
fn lines(alloc: Global, job: &NewJob) -> Result<String, AllocError> {
    let mut text = head(alloc, job)?;
    for file in job.files.as_slice() {
        text.push_str(line(alloc, file)?.as_str())?;
    }
    Ok(text)
}

/// A document's job; an error where it breaks a rule, or memory is wanting.
fn job_of(alloc: Global, body: &str) -> Result<NewJob, Memory> {
    let settings = settings(alloc)?;
    match read_job(alloc, body.as_bytes(), &settings) {
        Ok(job) => Ok(job),
        Err(_) => Err(Memory),
    }
}

/// What a document's job is, in some lines.
fn summary(alloc: Global, body: &str) -> Result<String, Memory> {
    let job = job_of(alloc, body)?;
    Ok(lines(alloc, &job)?)
}

/// The digest that a document's first file wants.
fn wanted(alloc: Global, body: &str) -> Result<Option<[u8; 16]>, Memory> {
    let job = job_of(alloc, body)?;
    match job.files.as_slice() {
        [] => Ok(None),
        [file, ..] => Ok(file.wanted),
    }
}

/// The rule that a body breaks; 0 where it breaks none.
fn rule_of(alloc: Global, body: &str) -> Result<u32, Memory> {
    let settings = settings(alloc)?;
    Ok(refusal(alloc, body, &settings).0)
}

fn wrong_body(alloc: Global, cases: &[BodyCase]) -> Result<Option<&'static str>, Memory> {
    let settings = settings(alloc)?;
    Ok(first_wrong_body(alloc, cases, &settings))
}

fn wrong_pair(
    alloc: Global,
    pair: Pair,
    cases: &[PairCase],
) -> Result<Option<&'static str>, Memory> {
    let settings = settings(alloc)?;
    Ok(first_wrong_pair(alloc, pair, cases, &settings)?)
}

/// No row of a table is answered otherwise; the first that is, is told.
fn is_none(rt: &impl Abort, wrong: Result<Option<&'static str>, Memory>) {
    if let Some(case) = must(rt, wrong, "there is memory") {
        panic!(rt; "{case}");
    }
}

#[test]
fn a_broken_url_has_its_number(rt: HostRuntime) {
    is_none(&rt, wrong_pair(rt.alloc(), Pair::Urls, &URLS));
}

#[test]
fn a_field_or_a_parameter_breaks_its_rule(rt: HostRuntime) {
    for cases in [&FIELDS[..], &PARAMETERS[..], &REPLICAS_OF_ONE[..]] {
        is_none(&rt, wrong_pair(rt.alloc(), Pair::Fields, cases));
    }
}

// Bodies that are no document, and documents of several files, which break the rules on kinds.
#[test]
fn a_body_breaks_the_least_rule(rt: HostRuntime) {
    for cases in [&BODIES[..], &KINDS[..]] {
        is_none(&rt, wrong_body(rt.alloc(), cases));
    }
}

/// The rule that a document of so many equal files breaks; 0 where it breaks none.
fn rule_of_many(alloc: Global, file: &str, count: usize) -> Result<u32, Memory> {
    let body = many(alloc, file, count)?;
    rule_of(alloc, body.as_str())
}

#[test]
fn so_many_files_are_allowed(rt: HostRuntime) {
    let file = "{\"sources\":[\"https://a.example/f\"],\"destinations\":[\"https://b.example/f\"]}";
    for &(case, file, count, rule) in &[
        ("200 files", file, 200, 0),
        ("201 files", file, 201, 4),
        ("201 files that are no objects", "3", 201, 4),
    ] {
        let found = must(&rt, rule_of_many(rt.alloc(), file, count), case);
        check(&rt, found == rule, case);
    }
}

fn of_activity(alloc: Global, length: usize) -> Result<String, AllocError> {
    let name = many_of(alloc, "x", length)?;
    let fields = format!(in alloc; ",\"activity\":\"{}\"", name.as_str())?;
    document(alloc, fields.as_str(), "")
}

fn of_sid(alloc: Global, length: usize) -> Result<String, AllocError> {
    let sid = many_of(alloc, "x", length)?;
    let keys = format!(in alloc;
        ",\"params\":{{\"id_generator\":\"deterministic\",\"sid\":\"{}\"}}",
        sid.as_str()
    )?;
    document(alloc, "", keys.as_str())
}

/// The rules that an activity and a sid of so many bytes break; 0 where they break none.
fn rules_of_length(alloc: Global, length: usize) -> Result<(u32, u32), Memory> {
    let activity = of_activity(alloc, length)?;
    let sid = of_sid(alloc, length)?;
    Ok((
        rule_of(alloc, activity.as_str())?,
        rule_of(alloc, sid.as_str())?,
    ))
}

#[test]
fn so_many_bytes_are_allowed(rt: HostRuntime) {
    for &(case, length, rules) in &[("255 bytes", 255, (0, 0)), ("256 bytes", 256, (15, 24))] {
        let found = must(&rt, rules_of_length(rt.alloc(), length), case);
        check(&rt, found == rules, case);
    }
}

#[test]
fn deep_lists_are_no_json(rt: HostRuntime) {
    let body = must(&rt, many_of(rt.alloc(), "[", 200), "there is memory");
    let rule = must(&rt, rule_of(rt.alloc(), body.as_str()), "there is memory");
    check(&rt, rule == 1, "200 open lists");
}

#[test]
fn the_examples_are_the_jobs_that_they_say(rt: HostRuntime) {
    for &(case, body, want) in &EXAMPLES {
        let found = must(&rt, summary(rt.alloc(), body), case);
        check(&rt, found.as_str() == want, case);
    }
}

#[test]
fn a_digest_is_wanted_only_where_verification_is_asked_for(rt: HostRuntime) {
    let digest = must(&rt, wanted(rt.alloc(), WITH_CHECKSUM), "a job");
    check(&rt, digest == Some(ABC), "a verification");
    let checksum = ",\"checksum\":\"MD5:900150983cd24fb0d6963f7d28e17f72\"";
    let body = must(&rt, document(rt.alloc(), checksum, ""), "there is memory");
    let digest = must(&rt, wanted(rt.alloc(), body.as_str()), "another job");
    check(&rt, digest.is_none(), "no verification");
}

#[test]
fn a_sid_makes_the_id_that_another_program_makes(rt: HostRuntime) {
    // Python: uuid.uuid5(uuid.uuid5(base, vo), sid).int
    let id = sid_id("atlas", "dataset-2026-11-27");
    let is_so = id == 0xb25e_2ead_09fa_59c0_b703_38ca_9d40_b86c;
    check(&rt, is_so, "a sid of its own");
    let id = must(&rt, job_of(rt.alloc(), MULTIHOP), "a job").id;
    let is_so = id == Some(0x8b35_c5cc_fec2_5479_8778_9cbe_6f13_7978);
    check(&rt, is_so, "a document's sid");
}

/// What a body asks for, and the rule and message of its refusal.
fn priority(alloc: Global, body: &str) -> (u32, u32, &'static str) {
    match read_priority(alloc, body.as_bytes()) {
        Ok(priority) => (priority, 0, ""),
        Err(fault) => (0, fault.rule(), fault.message()),
    }
}

#[test]
fn a_priority_is_read(rt: HostRuntime) {
    for &(case, body, want) in &PRIORITIES {
        check(&rt, priority(rt.alloc(), body) == want, case);
    }
}

/// The hours that the job of a document has which gives them so.
fn hours(alloc: Global, given: &str) -> Result<u32, Memory> {
    let keys = format!(in alloc; ",\"params\":{{\"max_time_in_queue\":{given}}}")?;
    let body = document(alloc, "", keys.as_str())?;
    Ok(job_of(alloc, body.as_str())?.queue_hours)
}

#[test]
fn hours_in_the_queue_are_read(rt: HostRuntime) {
    for &(case, given, want) in &HOURS {
        let found = must(&rt, hours(rt.alloc(), given), case);
        check(&rt, found == want, case);
    }
}

/// Whether a body asks for this ban, or is refused by this rule with this message.
fn is_ban(alloc: Global, body: &str, asked: (&str, bool), refused: (u32, &str)) -> bool {
    match read_ban(alloc, body.as_bytes()) {
        Ok(ban) => { refused.0 == 0 && ban.storage.as_str() == asked.0 && ban.cancel == asked.1 }
        Err(fault) => fault.rule() == refused.0 && fault.message() == refused.1,
    }
}

#[test]
fn a_ban_is_read(rt: HostRuntime) {
    for &(case, body, asked, refused) in &BANS {
        check(&rt, is_ban(rt.alloc(), body, asked, refused), case);
    }
}

/// Whether a text names this storage; an empty one is none.
fn is_storage(alloc: Global, text: &str, want: &str) -> Result<bool, Memory> {
    match read_storage(alloc, text)? {
        Some(storage) => Ok(storage.as_str() == want),
        None => Ok(want.is_empty()),
    }
}

#[test]
fn a_storage_is_read(rt: HostRuntime) {
    for &(case, text, want) in &[
        ("a storage", "https://b.example", "https://b.example"),
        ("with a slash", "https://b.example/", "https://b.example"),
        ("with a path", "https://b.example/f", ""),
        ("an empty text", "", ""),
    ] {
        check_found(&rt, is_storage(rt.alloc(), text, want), case);
    }
}
