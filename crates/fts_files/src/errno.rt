//! Why the system refused a call, by its own number (errno of POSIX, as Linux numbers it).
//! What each number means for a file is decided here and nowhere else, by equations over literals (`specs/Errno.antt`): one that no function
//! names is a failure, and never an absence.
ghost use Rattle.std.specs.Prelude.{◌≡◌};
ghost use Rattle.fts_files.specs.Errno.{are_too_many, is_interrupted, is_missing, is_taken, lacks_links};

/// A call was refused, with the system's number. It is 0 where the system gave none, which no function names.
#[derive(Clone, Copy, Debug, PartialEq, Eq)]
pub struct Refused {
    pub errno: u32,
}

impl Refused {
    /// A signal came first: nothing was done.
    pub fn is_interrupted(self) -> bool
        ensures { result ≡ is_interrupted self.errno }
    {
        self.errno == 4
    }

    /// Nothing has this name, or what should be a folder on the way to it isn't one.
    pub fn is_missing(self) -> bool
        ensures { result ≡ is_missing self.errno }
    {
        self.errno == 2 || self.errno == 20
    }

    /// Too many files are open, by the process or by the system: that says nothing of this one.
    pub fn are_too_many(self) -> bool
        ensures { result ≡ are_too_many self.errno }
    {
        self.errno == 24 || self.errno == 23
    }

    /// Something has this name.
    pub fn is_taken(self) -> bool
        ensures { result ≡ is_taken self.errno }
    {
        self.errno == 17
    }

    /// This file system gives no second name to a file.
    pub fn lacks_links(self) -> bool
        ensures { result ≡ lacks_links self.errno }
    {
        self.errno == 1 || self.errno == 95
    }
}

/// A step failed: a call of it was refused, or answered what the step can't go on with.
#[derive(Clone, Copy, Debug, PartialEq, Eq)]
pub struct Failed;

impl From<Refused> for Failed {
    fn from(_: Refused) -> Self {
        Failed
    }
}
