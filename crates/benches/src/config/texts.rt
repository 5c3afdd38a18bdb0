//! Texts that break the rule of counts at most, before which all but two others are looked at over the whole text.
use std::alloc::{AllocError, Global};

/// What a text has many of.
#[derive(Clone, Copy)]
pub enum Crowd {
    /// Storages with short names.
    Storages,
    /// Storages with names of 900 bytes that differ in their last.
    LongStorages,
    /// Links between 256 storages.
    Links,
    /// Keys that are passed over.
    Keys,
}

fn push_host(text: &mut String) -> Result<(), AllocError> {
    for _ in 0..900 {
        text.push('h')?;
    }
    Ok(())
}

fn push_item(text: &mut String, crowd: Crowd, number: u32) -> Result<(), AllocError> {
    match crowd {
        Crowd::Storages => write!(text, "[[storage]]\nurl = \"x://s{number}\"\n"),
        Crowd::LongStorages => {
            text.push_str("[[storage]]\nurl = \"x://")?;
            push_host(text)?;
            write!(text, "{number}\"\n")
        }
        Crowd::Links => {
            let (source, dest) = (number % 256, number / 256 % 256);
            write!(
                text,
                "[[link]]\nsource = \"x://s{source}\"\ndestination = \"x://s{dest}\"\nmax_active = 1\n"
            )
        }
        Crowd::Keys => write!(text, "[other.k{number}]\n"),
    }
}

fn push_storages(text: &mut String, count: u32) -> Result<(), AllocError> {
    for number in 0..count {
        push_item(text, Crowd::Storages, number)?;
    }
    Ok(())
}

/// How many storages stand before the crowd.
fn storages_before(crowd: Crowd) -> u32 {
    match crowd {
        Crowd::Storages | Crowd::LongStorages => 0,
        Crowd::Links => 256,
        Crowd::Keys => 1,
    }
}

/// A text with at least so many bytes.
pub fn crowded(alloc: Global, crowd: Crowd, bytes: usize) -> Result<String, AllocError> {
    let mut text = String::from_str(alloc, "vo = \"v\"\n")?;
    push_storages(&mut text, storages_before(crowd))?;
    for number in 0..1_000_000 {
        if text.len() >= bytes {
            break;
        }
        push_item(&mut text, crowd, number)?;
    }
    Ok(text)
}
