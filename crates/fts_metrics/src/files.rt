//! `fts_files`: the file rows of each link between listed endpoints, by state. A link without rows has no samples.
//! The rows of a link are found by the places of its endpoints (`goings.rt`), and their states are counted.
ghost use Rattle.std.specs.Prelude.{◌≡◌, ℕ, ◌≤◌, ◌++◌, List, true, length, map, OnOk};
ghost use Rattle.fts_tables.specs.declared.limits.TheConstants.{MAX_ENDPOINTS};
ghost use Rattle.fts_tables.specs.SettingsData.{is_listed};
ghost use Rattle.fts_tables.specs.declared.rows.FileRow.{FileRow};
ghost use Rattle.fts_metrics.specs.Goings.{going_of, states_on};
ghost use Rattle.fts_metrics.specs.Metrics.{link_labels, files_sample, files_on, files_where, files_from, files_text};

use crate::goings::{Going, count_in, from_place, place_of, states_to};
use crate::lines::{labels_of, labels_with, put_head, put_sample};
use fts_tables::{Endpoint, FileState, Memory};
use std::alloc::Global;

/// What there is of `fts_files`.
pub fn put_files(
    alloc: Global,
    text: &mut Vec<u8>,
    goings: &[Going],
    endpoints: &[Endpoint],
) -> Result<(), Memory>
    requires few { length endpoints.now ≤ MAX_ENDPOINTS }
    ensures { (rows : List FileRow) → goings.now ≡ map (going_of endpoints.now) rows
        → OnOk result (text.new.items ≡ text.old.items ++ files_text rows endpoints.now) }
{
    put_head(text, "fts_files", "Files of each link by state.", "gauge")?;
    for endpoint in endpoints {
        let source = endpoint.name.as_str();
        put_files_from(alloc, text, goings, endpoints, source)?;
    }
    Ok(())
}

// The samples of the links from an endpoint.
fn put_files_from(
    alloc: Global,
    text: &mut Vec<u8>,
    goings: &[Going],
    endpoints: &[Endpoint],
    source: &str,
) -> Result<(), Memory>
    requires few { length endpoints.now ≤ MAX_ENDPOINTS }
    ensures { (rows : List FileRow) → is_listed endpoints.now source.now ≡ true → goings.now ≡ map (going_of endpoints.now) rows
        → OnOk result (text.new.items ≡ text.old.items ++ files_from rows endpoints.now source.now) }
{
    let from = place_of(endpoints, source);
    let away = from_place(alloc, goings, from)?;
    for endpoint in endpoints {
        let dest = endpoint.name.as_str();
        let states = states_to(alloc, &away, place_of(endpoints, dest))?;
        put_files_where(alloc, text, &states, source, dest)?;
    }
    Ok(())
}

// The samples of a link, where it has a row, by the states of its rows.
fn put_files_where(
    alloc: Global,
    text: &mut Vec<u8>,
    states: &[FileState],
    source: &str,
    dest: &str,
) -> Result<(), Memory>
    ensures { (rows : List FileRow) → states.now ≡ states_on source.now dest.now rows
        → OnOk result (text.new.items ≡ text.old.items ++ files_where rows source.now dest.now) }
{
    if states.is_empty() {
        Ok(())
    } else {
        let labels = labels_of(alloc, "source", source, "destination", dest)?;
        put_files_on(alloc, text, &labels, states)
    }
}

// The samples of a link with these labels, a state each.
fn put_files_on(
    alloc: Global,
    text: &mut Vec<u8>,
    labels: &[u8],
    states: &[FileState],
) -> Result<(), Memory>
    ensures { (rows : List FileRow) (source dest : List ℕ) → labels.now ≡ link_labels source dest → states.now ≡ states_on source dest rows
        → OnOk result (text.new.items ≡ text.old.items ++ files_on rows source dest) }
{
    let submitted = count_in(states, FileState::Submitted);
    put_state(alloc, text, labels, "SUBMITTED", submitted)?;
    let active = count_in(states, FileState::Active);
    put_state(alloc, text, labels, "ACTIVE", active)?;
    let finished = count_in(states, FileState::Finished);
    put_state(alloc, text, labels, "FINISHED", finished)?;
    let failed = count_in(states, FileState::Failed);
    put_state(alloc, text, labels, "FAILED", failed)?;
    let canceled = count_in(states, FileState::Canceled);
    put_state(alloc, text, labels, "CANCELED", canceled)?;
    let not_used = count_in(states, FileState::NotUsed);
    put_state(alloc, text, labels, "NOT_USED", not_used)?;
    Ok(())
}

// A sample of a link's rows in a state.
fn put_state(
    alloc: Global,
    text: &mut Vec<u8>,
    labels: &[u8],
    state: &str,
    count: usize,
) -> Result<(), Memory>
    ensures { OnOk result (text.new.items ≡ text.old.items ++ files_sample labels.now state.now count) }
{
    let labels = labels_with(alloc, labels, "state", state)?;
    put_sample(text, "fts_files", &labels, count as u64)
}
