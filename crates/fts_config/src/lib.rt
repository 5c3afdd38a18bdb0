//! The settings' text: TOML to `Settings`, or the first rule that it breaks.
//! The definition of every rule is in `specs/`: `Types.antt`, `Reading.antt` and `Rules.antt`; `Settings.antt` has their order.
//! The code reads the document once, and each check answers its rule's definition. Nothing here knows of jobs or of the journal.
#![tactic(auto)]

mod distinct;
mod document;
mod draft;
mod fault;
mod keys;
mod reading;
mod rules;
mod settings;
mod tables;
mod types;

pub use fault::SettingsFault;
pub use keys::SettingKey;
pub use settings::read_settings;
