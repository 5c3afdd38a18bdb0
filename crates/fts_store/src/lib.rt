//! Stores: files at places, what each call makes of them, and how often one failed.
//! `Store` is the trait, and `specs/Store.antt` what its clauses mean; `MemoryStore` tells its files, so that the layers above can be proved
//! and tried against lost bytes and failures; `FolderStore` keeps real files, and tells none.
#![tactic(auto)]

mod folder;
mod folders;
mod held;
mod inside;
mod listing;
mod meeting;
mod memory;
mod removing;
mod store;
mod sweep;

pub use folder::FolderStore;
pub use held::StoredFile;
pub use memory::MemoryStore;
pub use store::{Store, StoreFailed};
