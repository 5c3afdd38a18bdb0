//! Why settings are refused: the rule that their text breaks.
ghost use Rattle.std.specs.Prelude.{◌≡◌};
ghost use Rattle.fts_config.specs.Faults.{rule_of};

use crate::SettingKey;
use fts_joburl::UrlFault;

/// The rule that a settings' text breaks, or want of memory.
#[derive(Clone, Copy, Debug, PartialEq, Eq)]
pub enum SettingsFault {
    /// Rule 1: the text is no TOML.
    NotToml,
    /// Rule 2: a key has a value of another type.
    WrongType { key: SettingKey },
    /// Rule 3: a key that must be there is absent, or there is no storage.
    Missing { key: SettingKey },
    /// Rule 4: a URL names no endpoint.
    BadUrl { fault: UrlFault },
    /// Rule 5: two storages have one name.
    TwiceEndpoint,
    /// Rule 6: two links join one pair of endpoints.
    TwiceLink,
    /// Rule 7: a link joins an endpoint that is no storage.
    UnknownEndpoint,
    /// Rule 8: a limit is out of its range.
    LimitRange,
    /// Rule 9: a weight is out of its range.
    WeightRange,
    /// Rule 10: activities are listed, and `default` is none of them.
    NoDefaultWeight,
    /// Rule 11: the number of workers is out of its range.
    WorkerRange,
    /// Rule 12: there are too many storages, links or activities.
    TooMany,
    /// Rule 13, which is looked at first: the text is too long.
    TooLong,
    /// Rule 14: the VO's name, a link's or an activity's is empty or too long.
    BadLabel,
    /// Rule 15: two activities have one name.
    TwiceWeight,
    /// There is too little memory; no rule.
    Memory,
}

impl SettingsFault {
    /// The number of the rule, from 1 to 15; 0 for want of memory.
    pub fn rule(self) -> u32
        ensures { result ≡ rule_of self }
    {
        match self {
            SettingsFault::NotToml => 1,
            SettingsFault::WrongType { .. } => 2,
            SettingsFault::Missing { .. } => 3,
            SettingsFault::BadUrl { .. } => 4,
            SettingsFault::TwiceEndpoint => 5,
            SettingsFault::TwiceLink => 6,
            SettingsFault::UnknownEndpoint => 7,
            SettingsFault::LimitRange => 8,
            SettingsFault::WeightRange => 9,
            SettingsFault::NoDefaultWeight => 10,
            SettingsFault::WorkerRange => 11,
            SettingsFault::TooMany => 12,
            SettingsFault::TooLong => 13,
            SettingsFault::BadLabel => 14,
            SettingsFault::TwiceWeight => 15,
            SettingsFault::Memory => 0,
        }
    }
}
