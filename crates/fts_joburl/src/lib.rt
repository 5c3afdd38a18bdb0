//! URLs of files and of endpoints: which texts are one, and the fault of each other text.
//! `read_surl` reads a file's URL, `read_endpoint` an endpoint's; what a URL is, the URL Standard says, as the crate `url` has it.
//! Each answer is one function of the text: `surl_of`, `endpoint_of` (`specs/Urls.antt`).
#![tactic(auto)]

mod checks;
mod fault;
mod parts;
mod read;

pub use fault::UrlFault;
pub use read::{Surl, read_endpoint, read_surl};
