//! What a monitor shows of a desk's tables and of the reports of copies, as JSON texts.
//! `specs/Snapshot.antt` says what each field of a snapshot counts, `specs/History.antt` what a history counts, `specs/Json.antt` how values are written.
#![tactic(auto)]

mod failures;
mod goings;
mod histories;
mod links;
mod settings;
mod snapshots;
mod states;
mod steps;
mod storages;
mod tallies;
mod values;

pub use failures::id_text;
pub use histories::{HistoryAsked, MAX_STEPS, StepLength, history};
pub use snapshots::{MAX_LINKS_SHOWN, Shown, snapshot};
pub use states::files_value;
