//! A claim: which file is copied next. First the link, then the activity, then the row, each among the rows that may be copied now.
//! A row may be copied where it waits and its moment has come, where its link, its source and its destination have room and neither end is
//! banned, and where no other copy goes to its destination.
use super::bans::is_banned;
use super::jobs::{job_of, replace, row_of};
use super::plain::{
    DEFAULT_ACTIVITY, PlainEndpoint, PlainJob, PlainPlace, PlainRow, PlainSettings,
};
use fts_tables::{Answer, FileState, Memory, Refusal};
use std::alloc::{AllocError, Global};

/// A link, in the order of choice: the least held, then the names of its ends.
#[derive(Clone, Copy, PartialEq, Eq, PartialOrd, Ord)]
struct LinkRank {
    held: usize,
    source: u8,
    dest: u8,
}

/// A row, in the order of choice: the least urgent last, then the least id.
#[derive(Clone, Copy, PartialEq, Eq, PartialOrd, Ord)]
struct RowRank {
    below_most_urgent: u32,
    id: u32,
}

/// Makes the row that is picked ACTIVE.
pub fn claim(
    alloc: Global,
    settings: &PlainSettings,
    banned: &[u8],
    jobs: &[PlainJob],
    rows: &mut [PlainRow],
    word: u64,
    now: u64,
) -> Result<Result<Answer, Refusal>, Memory> {
    match pick(alloc, settings, banned, jobs, rows, word, now)? {
        Some(file) => Ok(make_active(rows, file)),
        None => Ok(Err(Refusal::Idle)),
    }
}

/// Makes a row ACTIVE, at its next attempt.
fn make_active(rows: &mut [PlainRow], file: u32) -> Result<Answer, Refusal> {
    let Some(row) = row_of(rows, file) else {
        return Err(Refusal::Idle);
    };
    let attempt = row.attempt.saturating_add(1);
    replace(
        rows,
        PlainRow {
            state: FileState::Active,
            attempt,
            ..row
        },
    );
    Ok(Answer::Claimed { file, attempt })
}

/// The id of the row that a claim takes.
fn pick(
    alloc: Global,
    settings: &PlainSettings,
    banned: &[u8],
    jobs: &[PlainJob],
    rows: &[PlainRow],
    word: u64,
    now: u64,
) -> Result<Option<u32>, AllocError> {
    let eligible = eligible_rows(alloc, settings, banned, rows, now)?;
    let Some(link) = pick_link(rows, &eligible) else {
        return Ok(None);
    };
    let on_link = rows_on_link(alloc, &eligible, link)?;
    let Some(activity) = pick_activity(settings, &on_link, word) else {
        return Ok(None);
    };
    Ok(pick_row(settings, jobs, &on_link, activity))
}

/// The rows that may be copied now.
fn eligible_rows(
    alloc: Global,
    settings: &PlainSettings,
    banned: &[u8],
    rows: &[PlainRow],
    now: u64,
) -> Result<Vec<PlainRow>, AllocError> {
    rows.iter()
        .copied()
        .filter(|row| is_eligible(settings, banned, rows, row, now))
        .collect(alloc)
}

/// Whether a row may be copied now.
fn is_eligible(
    settings: &PlainSettings,
    banned: &[u8],
    rows: &[PlainRow],
    row: &PlainRow,
    now: u64,
) -> bool {
    row.state == FileState::Submitted
        && row.not_before <= now
        && !is_banned(banned, row.source.endpoint)
        && !is_banned(banned, row.dest.endpoint)
        && has_room(settings, rows, row)
        && !is_written(rows, row.dest)
}

/// Whether a copy goes to a place.
fn is_written(rows: &[PlainRow], place: PlainPlace) -> bool {
    rows.iter()
        .any(|row| row.state == FileState::Active && row.dest == place)
}

/// Whether a row's link and both its endpoints have room. An endpoint that isn't listed has none.
fn has_room(settings: &PlainSettings, rows: &[PlainRow], row: &PlainRow) -> bool {
    let source = row.source.endpoint;
    let dest = row.dest.endpoint;
    match (endpoint_of(settings, source), endpoint_of(settings, dest)) {
        (Some(from), Some(to)) => {
            held(rows, source, dest) < limit_of(settings, source, dest) as usize
                && active_from(rows, source) < from.outbound as usize
                && active_into(rows, dest) < to.inbound as usize
        }
        (Some(_), None) | (None, Some(_)) | (None, None) => false,
    }
}

/// The endpoint of a name, where it is listed.
fn endpoint_of(settings: &PlainSettings, name: u8) -> Option<PlainEndpoint> {
    settings
        .endpoints
        .iter()
        .copied()
        .find(|endpoint| endpoint.name == name)
}

/// Whether the settings list a storage.
pub fn is_listed(settings: &PlainSettings, storage: u8) -> bool {
    endpoint_of(settings, storage).is_some()
}

/// The limit of a link: its own, or the default.
fn limit_of(settings: &PlainSettings, source: u8, dest: u8) -> u32 {
    let listed = settings
        .links
        .iter()
        .copied()
        .find(|link| link.source == source && link.dest == dest);
    match listed {
        Some(link) => link.max_active,
        None => settings.default_max_active,
    }
}

/// How many copies go from one endpoint to another.
pub fn held(rows: &[PlainRow], source: u8, dest: u8) -> usize {
    rows.iter()
        .filter(|row| row.state == FileState::Active && row.is_on_link(source, dest))
        .count()
}

/// How many copies go out of an endpoint.
fn active_from(rows: &[PlainRow], endpoint: u8) -> usize {
    rows.iter()
        .filter(|row| row.state == FileState::Active && row.source.endpoint == endpoint)
        .count()
}

/// How many copies go into an endpoint.
fn active_into(rows: &[PlainRow], endpoint: u8) -> usize {
    rows.iter()
        .filter(|row| row.state == FileState::Active && row.dest.endpoint == endpoint)
        .count()
}

/// The link of an eligible row that holds the least.
fn pick_link(rows: &[PlainRow], eligible: &[PlainRow]) -> Option<LinkRank> {
    eligible.iter().map(|row| link_rank(rows, row)).min()
}

/// A row's link in the order of choice.
fn link_rank(rows: &[PlainRow], row: &PlainRow) -> LinkRank {
    LinkRank {
        held: held(rows, row.source.endpoint, row.dest.endpoint),
        source: row.source.endpoint,
        dest: row.dest.endpoint,
    }
}

/// The eligible rows on a link.
fn rows_on_link(
    alloc: Global,
    eligible: &[PlainRow],
    link: LinkRank,
) -> Result<Vec<PlainRow>, AllocError> {
    eligible
        .iter()
        .copied()
        .filter(|row| row.is_on_link(link.source, link.dest))
        .collect(alloc)
}

/// The activity under which a row counts: its own where that is listed.
fn counted_under(settings: &PlainSettings, row: &PlainRow) -> u8 {
    let activity = row.activity;
    if settings
        .weights
        .iter()
        .any(|weight| weight.activity == activity)
    {
        activity
    } else {
        DEFAULT_ACTIVITY
    }
}

/// Whether a row on the link counts under an activity.
fn takes_part(settings: &PlainSettings, on_link: &[PlainRow], activity: u8) -> bool {
    on_link
        .iter()
        .any(|row| counted_under(settings, row) == activity)
}

/// The sum of the weights of the activities that take part.
fn whole_weight(settings: &PlainSettings, on_link: &[PlainRow]) -> u64 {
    let mut sum = 0u64;
    for weight in &settings.weights {
        if takes_part(settings, on_link, weight.activity) {
            sum = sum.saturating_add(u64::from(weight.weight));
        }
    }
    sum
}

/// The activity that a word draws: the first that takes part whose running sum exceeds the word's remainder.
fn pick_activity(settings: &PlainSettings, on_link: &[PlainRow], word: u64) -> Option<u8> {
    let drawn = word.checked_rem(whole_weight(settings, on_link))?;
    let mut sum = 0u64;
    for weight in &settings.weights {
        if takes_part(settings, on_link, weight.activity) {
            sum = sum.saturating_add(u64::from(weight.weight));
            if sum > drawn {
                return Some(weight.activity);
            }
        }
    }
    None
}

/// The id of the most urgent row under an activity, the least of several.
fn pick_row(
    settings: &PlainSettings,
    jobs: &[PlainJob],
    on_link: &[PlainRow],
    activity: u8,
) -> Option<u32> {
    let first = on_link
        .iter()
        .filter(|row| counted_under(settings, row) == activity)
        .map(|row| row_rank(jobs, row))
        .min()?;
    Some(first.id)
}

/// A row in the order of choice.
fn row_rank(jobs: &[PlainJob], row: &PlainRow) -> RowRank {
    let priority = match job_of(jobs, row.job) {
        Some(job) => job.terms.priority,
        None => 0,
    };
    RowRank {
        below_most_urgent: u32::MAX - priority,
        id: row.id,
    }
}
