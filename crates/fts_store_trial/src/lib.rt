//! What no clause says of files, stores and copies: that each call is the system's and succeeds with ample memory, over memory and over real
//! folders, and what a copy leaves where a call fails or its files change meanwhile. A module a crate: `files`, `store`, `copy`; `files_noting`
//! is a file system that notes its calls, `store_edges` has folders that others work on too, `store_removing` what is removed, `copy_changes` the files
//! that change, `copy_tidied` what stays behind a copy. `grid` plays scripts of stores, and `deeds` is what they do and see by the system itself.
//! Tests stand here and not in the crates, so that a changed row builds no library again, and many tests share one check.
#![tactic(auto)]

#[cfg(test)]
mod tests;
