//! The texts that the program makes: settings, with one link or with 4,032 of which 1,024 are listed, and job documents.
use std::alloc::{AllocError, Global};

/// As many files as a job may have.
pub const FILES: u32 = 200;

/// How often a file is tried again behind its first failure, and how often it is copied in all.
const RETRIES: u32 = 5;

pub const ATTEMPTS: u32 = RETRIES + 1;

/// The settings: two endpoints and the link between them.
pub fn settings(alloc: Global) -> Result<String, AllocError> {
    String::from_str(
        alloc,
        "vo = \"demo\"\nworkers = 16\ndefault_max_active = 16\n[[activity]]\nname = \"default\"\nweight = 1\n[[storage]]\nurl = \"https://from\"\n[[storage]]\nurl = \"https://to\"\n",
    )
}

/// How many storages the grid has, and how many of the links between them its settings list.
pub const STORAGES: u32 = 64;

const LISTED: u32 = 1_024;

/// How many links there are between so many storages.
pub const LINKS: u32 = STORAGES * (STORAGES - 1);

/// The ends of the link with a number below `LINKS`.
fn ends(link: u32) -> (u32, u32) {
    let source = link / (STORAGES - 1);
    let other = link % (STORAGES - 1);
    if other < source {
        (source, other)
    } else {
        (source, other.saturating_add(1))
    }
}

/// The settings of the grid: the last links are listed, so that names that are sought stand behind many.
pub fn grid_settings(alloc: Global) -> Result<String, AllocError> {
    let mut text = String::from_str(
        alloc,
        "vo = \"demo\"\nworkers = 16\ndefault_max_active = 16\n[[activity]]\nname = \"default\"\nweight = 1\n",
    )?;
    for storage in 0..STORAGES {
        write!(text, "[[storage]]\nurl = \"https://e{storage}\"\n")?;
    }
    for number in 0..LISTED {
        let link = LINKS - 1 - number;
        let (source, dest) = ends(link);
        write!(
            text,
            "[[link]]\nsymbolicname = \"l{link}\"\nsource = \"https://e{source}\"\ndestination = \"https://e{dest}\"\nmax_active = 3\n"
        )?;
    }
    Ok(text)
}

/// Appends a file of the link with a number.
fn push_grid_file(text: &mut String, index: u32, number: u32) -> Result<(), AllocError> {
    if index != 0 {
        text.push_str(",")?;
    }
    let (source, dest) = ends(number % LINKS);
    write!(
        text,
        "{{\"sources\":[\"https://e{source}/s/{number}\"],\"destinations\":[\"https://e{dest}/d/{number}\"]}}"
    )
}

/// The document of a job of 200 files of the grid, each on the next link.
pub fn grid_job(alloc: Global, number: u32) -> Result<String, AllocError> {
    let mut text = String::new(alloc);
    write!(text, "{{\"params\":{{\"retry\":{RETRIES}}},\"files\":[")?;
    for index in 0..FILES {
        let file = number.saturating_mul(FILES).saturating_add(index);
        push_grid_file(&mut text, index, file)?;
    }
    text.push_str("]}")?;
    Ok(text)
}

/// Appends a file to the one destination of many.
fn push_same(text: &mut String, index: u32, number: u32) -> Result<(), AllocError> {
    if index != 0 {
        text.push_str(",")?;
    }
    write!(
        text,
        "{{\"sources\":[\"https://from/s/{number}\"],\"destinations\":[\"https://to/same\"]}}"
    )
}

/// The document of a job of 200 files that all go to one destination.
pub fn same_job(alloc: Global, number: u32) -> Result<String, AllocError> {
    let mut text = String::new(alloc);
    text.push_str("{\"files\":[")?;
    for index in 0..FILES {
        let file = number.saturating_mul(FILES).saturating_add(index);
        push_same(&mut text, index, file)?;
    }
    text.push_str("]}")?;
    Ok(text)
}

/// Appends a file, whose number stands in its paths, so that no two have one destination.
fn push_file(text: &mut String, index: u32, number: u32) -> Result<(), AllocError> {
    if index != 0 {
        text.push_str(",")?;
    }
    write!(
        text,
        "{{\"sources\":[\"https://from/s/{number}\"],\"destinations\":[\"https://to/d/{number}\"]}}"
    )
}

/// The document of a job of 200 files; the job's number, from 0, stands in the paths of its files.
pub fn job(alloc: Global, number: u32) -> Result<String, AllocError> {
    let mut text = String::new(alloc);
    write!(text, "{{\"params\":{{\"retry\":{RETRIES}}},\"files\":[")?;
    for index in 0..FILES {
        let file = number.saturating_mul(FILES).saturating_add(index);
        push_file(&mut text, index, file)?;
    }
    text.push_str("]}")?;
    Ok(text)
}
