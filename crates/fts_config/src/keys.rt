//! The keys of the settings' text: how each is spelled, in which list of tables it stands, the type of its value, and whether it must be there.
//! `SettingKey::all` has them in the order in which faults of types and of absence are answered.
//! What belongs to a key is one function here, for this crate alone, and one definition in `specs/Keys.antt`.
ghost use Rattle.std.specs.Prelude.{◌≡◌};
ghost use Rattle.fts_config.specs.Keys.{name_of, list_of, kind_of, is_needed, all_keys};

/// A key of the settings' text.
#[derive(Clone, Copy, Debug, PartialEq, Eq)]
pub enum SettingKey {
    Vo,
    Workers,
    DefaultMaxActive,
    Storage,
    Url,
    Inbound,
    Outbound,
    Link,
    SymbolicName,
    LinkSource,
    LinkDestination,
    MaxActive,
    Activity,
    Name,
    Weight,
}

/// The type of a key's value.
#[derive(Clone, Copy)]
pub enum Kind {
    /// A text.
    Text,
    /// A whole number.
    Number,
    /// A list of tables.
    Tables,
}

impl SettingKey {
    /// All keys, in their order.
    pub(crate) fn all() -> [SettingKey; 15]
        ensures { result ≡ all_keys }
    {
        [
            SettingKey::Vo,
            SettingKey::Workers,
            SettingKey::DefaultMaxActive,
            SettingKey::Storage,
            SettingKey::Url,
            SettingKey::Inbound,
            SettingKey::Outbound,
            SettingKey::Link,
            SettingKey::SymbolicName,
            SettingKey::LinkSource,
            SettingKey::LinkDestination,
            SettingKey::MaxActive,
            SettingKey::Activity,
            SettingKey::Name,
            SettingKey::Weight,
        ]
    }

    /// How it is spelled.
    pub(crate) fn name(self) -> &'static str
        ensures { result.now ≡ name_of self }
    {
        match self {
            SettingKey::Vo => "vo",
            SettingKey::Workers => "workers",
            SettingKey::DefaultMaxActive => "default_max_active",
            SettingKey::Storage => "storage",
            SettingKey::Url => "url",
            SettingKey::Inbound => "inbound_max_active",
            SettingKey::Outbound => "outbound_max_active",
            SettingKey::Link => "link",
            SettingKey::SymbolicName => "symbolicname",
            SettingKey::LinkSource => "source",
            SettingKey::LinkDestination => "destination",
            SettingKey::MaxActive => "max_active",
            SettingKey::Activity => "activity",
            SettingKey::Name => "name",
            SettingKey::Weight => "weight",
        }
    }

    /// The list in whose tables it stands, and None where it stands in the document itself.
    pub(crate) fn list(self) -> Option<SettingKey>
        ensures { result ≡ list_of self }
    {
        match self {
            SettingKey::Vo
            | SettingKey::Workers
            | SettingKey::DefaultMaxActive
            | SettingKey::Storage
            | SettingKey::Link
            | SettingKey::Activity => None,
            SettingKey::Url | SettingKey::Inbound | SettingKey::Outbound => {
                Some(SettingKey::Storage)
            }
            SettingKey::SymbolicName
            | SettingKey::LinkSource
            | SettingKey::LinkDestination
            | SettingKey::MaxActive => Some(SettingKey::Link),
            SettingKey::Name | SettingKey::Weight => Some(SettingKey::Activity),
        }
    }

    /// The type of its value.
    pub(crate) fn kind(self) -> Kind
        ensures { result ≡ kind_of self }
    {
        match self {
            SettingKey::Vo
            | SettingKey::Url
            | SettingKey::SymbolicName
            | SettingKey::LinkSource
            | SettingKey::LinkDestination
            | SettingKey::Name => Kind::Text,
            SettingKey::Workers
            | SettingKey::DefaultMaxActive
            | SettingKey::Inbound
            | SettingKey::Outbound
            | SettingKey::MaxActive
            | SettingKey::Weight => Kind::Number,
            SettingKey::Storage | SettingKey::Link | SettingKey::Activity => Kind::Tables,
        }
    }

    /// Whether it must be there.
    pub(crate) fn is_needed(self) -> bool
        ensures { result ≡ is_needed self }
    {
        match self {
            SettingKey::Vo
            | SettingKey::Storage
            | SettingKey::Url
            | SettingKey::LinkSource
            | SettingKey::LinkDestination
            | SettingKey::MaxActive
            | SettingKey::Name
            | SettingKey::Weight => true,
            SettingKey::Workers
            | SettingKey::DefaultMaxActive
            | SettingKey::Inbound
            | SettingKey::Outbound
            | SettingKey::Link
            | SettingKey::SymbolicName
            | SettingKey::Activity => false,
        }
    }
}
