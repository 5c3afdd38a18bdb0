//! The stop file of a stand's folder: while it stands there, a service is to stop.
//! Keeps: nothing of files but that looks change none, and that `clear` takes away that one alone.
//! The service's gate is closed while the file stands, so workers claim no more; doors and lines look at it between two connections and two requests.
//! A look that fails says that the file doesn't stand.
use std::fs;

/// A stop file, or none that could ever stand.
#[derive(Clone, Copy, Drop)]
pub struct StopFile<'a> {
    place: Option<(&'a HostRuntime, &'a str)>,
}

impl<'a> StopFile<'a> {
    /// No file: nothing is ever to stop.
    pub fn none() -> StopFile<'a> {
        StopFile { place: None }
    }

    /// The file at a path.
    pub fn at(rt: &'a HostRuntime, path: &'a str) -> StopFile<'a> {
        StopFile {
            place: Some((rt, path)),
        }
    }

    /// Whether the file stands there, whatever it is.
    pub fn stands(&self) -> bool {
        match self.place {
            Some((rt, path)) => fs::symlink_metadata(rt, path).is_ok(),
            None => false,
        }
    }

    /// Takes the file away, as a start does. Where that fails, it still stands, and the service stops at once.
    pub fn clear(&self) {
        if let Some((rt, path)) = self.place {
            // Whether it was there, and whether it could be removed, is seen by the next look.
            let _removed = fs::remove_file(rt, path);
        }
    }
}
