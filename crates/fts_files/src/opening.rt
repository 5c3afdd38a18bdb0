//! How a file is opened where too many are open: that says nothing of the file, so it is waited out.
//! Keeps: any other answer is the answer at once, and behind a hundred rests the last refusal is (`opens_when_free`).
//! A journal is opened without it.
ghost use Rattle.std.specs.Prelude.{◌≡◌};
ghost use Rattle.fts_files.specs.Calls.{Answer, opened_of};
ghost use Rattle.fts_files.specs.Script.{Script, LeadsTo};
ghost use Rattle.fts_files.specs.Opening.{opens_when_free};

use crate::{FileSystem, Refused, Way};

/// So often an opening is rested behind: ten seconds, with rests of 100 milliseconds.
const MAX_RESTS: u32 = 100;

/// Opens a file, or a folder to be read, through links. Where too many files are open it rests and opens again, a hundred times at most. Gives
/// what the system refuses the opening with.
pub fn open_when_free<F: FileSystem>(
    files: &mut F,
    path: &str,
    way: Way,
) -> Result<F::Handle, Refused>
    ensures { (next : Answer → Script) → LeadsTo (opens_when_free path.now way next) (F.calls files.old) (next (opened_of F.number result)) (F.calls files.new) }
{
    'rests: for i in 0..MAX_RESTS {
        let _rests = i;
        match files.open(path, way) {
            Ok(file) => return Ok(file),
            Err(refused) if refused.are_too_many() => files.rest(),
            Err(refused) => return Err(refused),
        }
    }
    files.open(path, way)
}
