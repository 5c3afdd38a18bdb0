//! What a visit of a file that is to be deleted came to.
ghost use Rattle.std.specs.Prelude.{◌≡◌};
ghost use Rattle.fts_delete.specs.Visits.{saw_none};

/// What a visit came to.
#[derive(Clone, Copy, Debug, PartialEq, Eq)]
pub enum Visit {
    /// The first look failed.
    Unseen,
    /// The first look found no file.
    Absent,
    /// It found a file of this size; whether the removal was done, and what the second look said, unless it failed.
    Tried {
        size: u64,
        removed: Option<()>,
        seen: Option<Option<u64>>,
    },
}

impl Visit {
    /// Whether the last look found no file.
    pub fn saw_none(&self) -> bool
        ensures { result ≡ saw_none self.now }
    {
        match self {
            Visit::Unseen => false,
            Visit::Absent => true,
            Visit::Tried { seen, .. } => matches!(seen, Some(None)),
        }
    }
}
