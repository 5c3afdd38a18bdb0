//! The ban of a storage that a body asks for, or the least rule that the body breaks: 1 and 2 as of every document, 27 on the storage, 28 on
//! what becomes of the files that wait there. `specs/Bans.antt` is the whole definition.
//! Whether the settings list the storage is not asked here. `read_storage` reads a storage's name alone, for the end of a ban.
ghost use Rattle.std.specs.Prelude.{◌≡◌, ◌⊎◌, IfOk};
ghost use Rattle.serde_json.specs.View.{view};
ghost use Rattle.fts_jobdoc.specs.Bans.{storage_named, storage_in, has_bad_status, cancels, ban_in, ban_of, ban_rule_of, ban_message_of};
ghost use Rattle.fts_jobdoc.specs.declared.ban.BanFault.TheVariants.{Memory as TheMemory};

use crate::json::{field, is_object, is_this_text, read_value, text_of};
use fts_joburl::{UrlFault, read_endpoint};
use fts_tables::{EndpointName, Memory};
use serde_json::Value;
use std::alloc::Global;

/// What a ban asks for: its storage, and whether the files that wait there are cancelled or wait on.
#[derive(Drop)]
pub struct BanAsk {
    pub storage: EndpointName,
    pub cancel: bool,
}

/// Why a ban's document is refused: the rule that it breaks, the least of them.
#[derive(Clone, Copy, Debug, PartialEq, Eq)]
pub enum BanFault {
    NotJson,
    NotObject,
    BadStorage,
    BadStatus,
    Memory,
}

impl BanFault {
    /// The number of the rule: 1, 2, 27 or 28; and 0 for want of memory.
    #[tactic(auto, unfolding(crate::specs::Bans::ban_rule_of))]
    pub fn rule(self) -> u32
        ensures { result ≡ ban_rule_of self }
    {
        match self {
            BanFault::NotJson => 1,
            BanFault::NotObject => 2,
            BanFault::BadStorage => 27,
            BanFault::BadStatus => 28,
            BanFault::Memory => 0,
        }
    }

    /// The message of the rule, and the empty text for want of memory.
    #[tactic(auto, unfolding(crate::specs::Bans::ban_message_of))]
    pub fn message(self) -> &'static str
        ensures { result.now ≡ ban_message_of self }
    {
        match self {
            BanFault::NotJson => "not JSON",
            BanFault::NotObject => "not an object",
            BanFault::BadStorage => "bad storage",
            BanFault::BadStatus => "bad status",
            BanFault::Memory => "",
        }
    }
}

impl From<Memory> for BanFault {
    ghost from_gives = { λ _ fault. fault ≡ TheMemory };

    fn from(_: Memory) -> Self {
        BanFault::Memory
    }
}

/// Reads the body of a ban: a storage's URL under `storage`, and `wait` or `cancel` under `status`, where absent is `cancel`.
/// The error is the least of the rules 1, 2, 27 and 28 that is broken, or `Memory` where there was none to tell.
pub fn read_ban(alloc: Global, body: &[u8]) -> Result<BanAsk, BanFault>
    ensures { (result ≡ ban_of body.now) ⊎ (result ≡ Err BanFault.Memory) }
{
    match read_value(alloc, body)? {
        Some(document) => ban_in(alloc, &document),
        None => Err(BanFault::NotJson),
    }
}

/// The storage that a text names, as the URL of an endpoint. `None` exactly where it is none.
#[tactic(auto, unfolding(crate::specs::Bans::storage_named))]
pub fn read_storage(alloc: Global, text: &str) -> Result<Option<EndpointName>, Memory>
    ensures { IfOk result (λ storage. storage ≡ storage_named text.now) }
{
    match read_endpoint(alloc, text) {
        Ok(storage) => Ok(Some(storage)),
        Err(fault) => {
            if fault == UrlFault::Memory {
                Err(Memory)
            } else {
                Ok(None)
            }
        }
    }
}

/// The ban that a document asks for, or the least rule that it breaks.
fn ban_in(alloc: Global, document: &Value) -> Result<BanAsk, BanFault>
    ensures { (result ≡ ban_in (view document.now)) ⊎ (result ≡ Err BanFault.Memory) }
{
    if !is_object(document) {
        return Err(BanFault::NotObject);
    }
    let Some(storage) = storage_in(alloc, document)? else {
        return Err(BanFault::BadStorage);
    };
    if has_bad_status(document) {
        return Err(BanFault::BadStatus);
    }
    Ok(BanAsk {
        storage,
        cancel: is_cancelling(document),
    })
}

/// The storage that a document names.
#[tactic(auto, unfolding(crate::specs::Bans::storage_in))]
fn storage_in(alloc: Global, document: &Value) -> Result<Option<EndpointName>, Memory>
    ensures { IfOk result (λ storage. storage ≡ storage_in (view document.now)) }
{
    match text_of(field(document, "storage")) {
        Some(text) => read_storage(alloc, text),
        None => Ok(None),
    }
}

/// Whether `status` is there and says neither that files wait nor that they are cancelled.
#[tactic(auto, unfolding(crate::specs::Bans::has_bad_status))]
fn has_bad_status(document: &Value) -> bool
    ensures { result ≡ has_bad_status (view document.now) }
{
    match field(document, "status") {
        Some(status) => !(is_this_text(status, "wait") || is_this_text(status, "cancel")),
        None => false,
    }
}

/// Whether the files that wait at the storage are cancelled: also where nothing is said of them.
#[tactic(auto, unfolding(crate::specs::Bans::cancels))]
fn is_cancelling(document: &Value) -> bool
    ensures { result ≡ cancels (view document.now) }
{
    match field(document, "status") {
        Some(status) => !is_this_text(status, "wait"),
        None => true,
    }
}
