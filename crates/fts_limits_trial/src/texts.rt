//! The texts that the program makes: settings with as much as there may be of all, and job documents of each kind.
//! Endpoints are `https://e000` to `https://e255`; a file's number stands in its paths, so that no two have one destination.
use std::alloc::{AllocError, Global};

/// As many endpoints, links and activities as there may be.
const ENDPOINTS: u32 = 256;

const LINKS: u32 = 1_024;

const ACTIVITIES: u32 = 64;

/// The files of plain jobs from this one on are all on one link, and those before it on all listed ones in turn.
const FIRST_ON_ONE_LINK: u32 = 200_000;

/// The place of that link among the listed ones: from the fifth endpoint, so that the claims of 16 workers don't come to it.
const ONE_LINK: u32 = 4;

/// The settings: the greatest limits, but for those of links.
pub fn settings(alloc: Global) -> Result<String, AllocError> {
    let mut text = String::from_str(
        alloc,
        "vo = \"demo\"\nworkers = 16\ndefault_max_active = 16\n[[activity]]\nname = \"default\"\nweight = 10000\n",
    )?;
    push_activities(&mut text)?;
    push_endpoints(&mut text)?;
    push_links(&mut text)?;
    Ok(text)
}

/// Appends the activities behind the default one.
fn push_activities(text: &mut String) -> Result<(), AllocError> {
    for number in 1..ACTIVITIES {
        write!(
            text,
            "[[activity]]\nname = \"a{number:02}\"\nweight = 10000\n"
        )?;
    }
    Ok(())
}

/// Appends the endpoints.
fn push_endpoints(text: &mut String) -> Result<(), AllocError> {
    for number in 0..ENDPOINTS {
        write!(
            text,
            "[[storage]]\nurl = \"https://e{number:03}\"\ninbound_max_active = 1000\noutbound_max_active = 1000\n"
        )?;
    }
    Ok(())
}

/// The place of a listed link's destination: the links from an endpoint, in order from 0, go to those behind it, and behind the last one to the first ones.
fn dest_of(source: u32, link: u32) -> u32 {
    source.saturating_add(link).saturating_add(1) % ENDPOINTS
}

/// Appends the links, each once.
fn push_links(text: &mut String) -> Result<(), AllocError> {
    for number in 0..LINKS {
        let source = number % ENDPOINTS;
        let dest = dest_of(source, number / ENDPOINTS);
        write!(
            text,
            "[[link]]\nsource = \"https://e{source:03}\"\ndestination = \"https://e{dest:03}\"\nmax_active = 16\n"
        )?;
    }
    Ok(())
}

/// A file of a document: its number in the paths, the places of its endpoints and of its activity.
#[derive(Clone, Copy)]
struct Entry {
    number: u32,
    source: u32,
    dest: u32,
    activity: u32,
}

/// Appends a file.
fn push_file(text: &mut String, file: Entry) -> Result<(), AllocError> {
    let Entry {
        number,
        source,
        dest,
        activity,
    } = file;
    write!(
        text,
        "{{\"sources\":[\"https://e{source:03}/s/{number}\"],\"destinations\":[\"https://e{dest:03}/d/{number}\"],\"activity\":\"a{activity:02}\"}}"
    )
}

/// Appends a comma, but before the first one.
fn push_comma(text: &mut String, index: u32) -> Result<(), AllocError> {
    if index == 0 {
        Ok(())
    } else {
        text.push_str(",")
    }
}

/// So many hops, from each endpoint to the one behind it.
pub fn hops(alloc: Global, count: u32) -> Result<String, AllocError> {
    let mut text = String::from_str(alloc, "{\"params\":{\"multihop\":true},\"files\":[")?;
    for hop in 0..count {
        let next = hop.saturating_add(1);
        push_comma(&mut text, hop)?;
        write!(
            text,
            "{{\"sources\":[\"https://e{hop:03}/h/{hop}\"],\"destinations\":[\"https://e{next:03}/h/{next}\"]}}"
        )?;
    }
    text.push_str("]}")?;
    Ok(text)
}

/// One file with so many sources.
pub fn replicas(alloc: Global, count: u32) -> Result<String, AllocError> {
    let mut text = String::from_str(alloc, "{\"files\":[{\"sources\":[")?;
    for source in 0..count {
        push_comma(&mut text, source)?;
        write!(text, "\"https://e{source:03}/r\"")?;
    }
    text.push_str("],\"destinations\":[\"https://e200/r\"]}]}")?;
    Ok(text)
}

/// So many files on one link, which goes before all others, with the greatest priority. No other job has files on it.
pub fn one_queue(alloc: Global, count: u32) -> Result<String, AllocError> {
    let mut text = String::from_str(alloc, "{\"params\":{\"priority\":5},\"files\":[")?;
    for number in 0..count {
        push_comma(&mut text, number)?;
        let file = Entry {
            number,
            source: 0,
            dest: 0,
            activity: 0,
        };
        push_file(&mut text, file)?;
    }
    text.push_str("]}")?;
    Ok(text)
}

/// So many files, each on a link of its own.
pub fn many_queues(alloc: Global, count: u32) -> Result<String, AllocError> {
    let mut text = String::from_str(alloc, "{\"files\":[")?;
    for place in 0..count {
        push_comma(&mut text, place)?;
        let file = Entry {
            number: place.saturating_add(1_000),
            source: place,
            dest: place.saturating_add(1),
            activity: place % ACTIVITIES,
        };
        push_file(&mut text, file)?;
    }
    text.push_str("]}")?;
    Ok(text)
}

/// A file of a plain job, of which they have one after the other, from 0.
fn plain_file(file: u32) -> Entry {
    let turn = if file < FIRST_ON_ONE_LINK {
        file % LINKS
    } else {
        ONE_LINK
    };
    let source = turn % ENDPOINTS;
    Entry {
        number: file.saturating_add(10_000),
        source,
        dest: dest_of(source, turn / ENDPOINTS),
        activity: source % ACTIVITIES,
    }
}

/// A plain job of so many files from this one on.
pub fn plain(alloc: Global, first: u32, count: u32) -> Result<String, AllocError> {
    let mut text = String::from_str(alloc, "{\"files\":[")?;
    for index in 0..count {
        push_comma(&mut text, index)?;
        push_file(&mut text, plain_file(first.saturating_add(index)))?;
    }
    text.push_str("]}")?;
    Ok(text)
}
