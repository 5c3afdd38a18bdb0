//! What is asked of the jobs. Which jobs that takes is `is_asked` and `is_behind` of `specs/Pages.antt`.
use fts_tables::JobState;

/// What is asked of the jobs. Where a field is none, it asks for nothing in particular.
#[derive(Drop)]
pub struct PageAsked {
    /// The jobs in this state.
    pub state: Option<JobState>,
    /// The jobs of which a file comes from this endpoint. Where a destination is asked for too, it is a file that goes there.
    pub source: Option<String>,
    /// The jobs of which a file goes to this endpoint.
    pub destination: Option<String>,
    /// The jobs of which a file stands with a reason of this group. It need not be on the way that is asked for.
    pub reason: Option<String>,
    /// The jobs behind the one of this number, in the order asked for, and without it. It need not match, nor be there.
    pub after: Option<u32>,
    /// Whether the greatest number comes first, and not the least.
    pub newest: bool,
    /// At most this many jobs.
    pub limit: usize,
}
