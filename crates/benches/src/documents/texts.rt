//! The texts that are read: documents whose URLs are as long as a URL may be, and settings that list their endpoints.
use std::alloc::{AllocError, Global};

/// The segment that fills a URL of `https://a.example/` up to its greatest length, but for the file's number.
const FILLING_BYTES: usize = 999;

/// The settings of the documents.
pub const SETTINGS: &str =
    "vo = \"demo\"\n[[storage]]\nurl = \"https://a.example\"\n[[storage]]\nurl = \"https://b.example\"\n";

/// A job of so many files, each from and to a URL of 1,024 bytes.
pub fn document(alloc: Global, files: u32) -> Result<String, AllocError> {
    let filling = "f".repeat(alloc, FILLING_BYTES)?;
    let mut text = String::from_str(alloc, "{\"files\":[")?;
    for file in 0..files {
        if file > 0 {
            text.push_str(",")?;
        }
        let entry = format!(in alloc;
            "{{\"sources\":[\"https://a.example/{file:06}/{filling}\"],\"destinations\":[\"https://b.example/{file:06}/{filling}\"]}}"
        )?;
        text.push_str(entry.as_str())?;
    }
    text.push_str("]}")?;
    Ok(text)
}
