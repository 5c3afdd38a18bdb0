//! Bans: from a banned storage, and to one, no copy begins; one that runs goes on.
//! No storage is banned twice. Bans stay in the order in which they came, whatever the settings list, until they are ended.
use super::plain::PlainRow;
use fts_tables::FileState;
use std::alloc::{AllocError, Global};

/// Whether a storage is banned.
pub fn is_banned(banned: &[u8], storage: u8) -> bool {
    banned.iter().any(|other| *other == storage)
}

/// Bans a storage, unless it is banned.
pub fn add_ban(banned: &mut Vec<u8>, storage: u8) -> Result<(), AllocError> {
    if !is_banned(banned, storage) {
        banned.push(storage)?;
    }
    Ok(())
}

/// Ends the ban of a storage.
pub fn remove_ban(banned: &mut Vec<u8>, storage: u8) {
    banned.retain(|other| *other != storage);
}

/// The files that wait to be copied from a storage, or to it, in order of id.
pub fn files_at(alloc: Global, rows: &[PlainRow], storage: u8) -> Result<Vec<u32>, AllocError> {
    rows.iter()
        .filter(|row| row.state == FileState::Submitted && row.is_at(storage))
        .map(|row| row.id)
        .collect(alloc)
}
