//! Commands of the desk for plain ones: numbers become names. A number without a name gets an empty one, which is refused as none.
//! The names of endpoints stand in the order of their bytes; one begins another.
use super::lawful::{lawful_job, lawful_settings};
use super::plain::{
    PlainCommand, PlainEndpoint, PlainLink, PlainNewJob, PlainPlace, PlainSettings, PlainWeight,
};
use fts_tables::{
    Command, Endpoint, EndpointName, Items, Label, LinkRule, Memory, NewFile, NewJob, PathKey,
    Place, Settings, Weight,
};
use std::alloc::Global;

const ENDPOINTS: [&str; 4] = [
    "https://a.example",
    "https://a.example:8",
    "https://b.example",
    "root://a.example",
];

const PATHS: [&str; 4] = ["data/f1", "data/f2", "f1", "f2"];

const ACTIVITIES: [&str; 4] = ["default", "analysis", "production", "unlisted"];

/// The name of an endpoint.
pub fn endpoint_text(number: u8) -> &'static str {
    ENDPOINTS.get(usize::from(number)).copied().unwrap_or("")
}

/// The number of the endpoint of a name.
pub fn endpoint_number(text: &str) -> Option<u8> {
    let place = ENDPOINTS.iter().position(|name| *name == text)?;
    u8::try_from(place).ok()
}

/// The text of a path.
pub fn path_text(number: u8) -> &'static str {
    PATHS.get(usize::from(number)).copied().unwrap_or("")
}

/// The name of an activity.
pub fn activity_text(number: u8) -> &'static str {
    ACTIVITIES.get(usize::from(number)).copied().unwrap_or("")
}

fn add<T: Drop>(items: &mut Items<T>, item: T) -> Result<(), Memory> {
    match items.push(item) {
        Ok(()) => Ok(()),
        Err(_) => Err(Memory),
    }
}

fn name_of(alloc: Global, number: u8) -> Result<EndpointName, Memory> {
    match EndpointName::read(alloc, endpoint_text(number))? {
        Some(name) => Ok(name),
        None => Err(Memory),
    }
}

fn place_of(alloc: Global, plain: PlainPlace) -> Result<Place, Memory> {
    let endpoint = name_of(alloc, plain.endpoint)?;
    match PathKey::read(alloc, path_text(plain.path))? {
        Some(path) => Ok(Place { endpoint, path }),
        None => Err(Memory),
    }
}

fn endpoint_of(alloc: Global, plain: &PlainEndpoint) -> Result<Endpoint, Memory> {
    Ok(Endpoint {
        name: name_of(alloc, plain.name)?,
        inbound: plain.inbound,
        outbound: plain.outbound,
    })
}

fn link_of(alloc: Global, plain: &PlainLink) -> Result<LinkRule, Memory> {
    Ok(LinkRule {
        symbolic: Label::new(alloc, "link")?,
        source: name_of(alloc, plain.source)?,
        dest: name_of(alloc, plain.dest)?,
        max_active: plain.max_active,
    })
}

fn weight_of(alloc: Global, plain: &PlainWeight) -> Result<Weight, Memory> {
    Ok(Weight {
        name: Label::new(alloc, activity_text(plain.activity))?,
        weight: plain.weight,
    })
}

fn endpoints_of(alloc: Global, plain: &[PlainEndpoint]) -> Result<Items<Endpoint>, Memory> {
    let mut endpoints = Items::new(alloc);
    for endpoint in plain {
        add(&mut endpoints, endpoint_of(alloc, endpoint)?)?;
    }
    Ok(endpoints)
}

fn links_of(alloc: Global, plain: &[PlainLink]) -> Result<Items<LinkRule>, Memory> {
    let mut links = Items::new(alloc);
    for link in plain {
        add(&mut links, link_of(alloc, link)?)?;
    }
    Ok(links)
}

fn weights_of(alloc: Global, plain: &[PlainWeight]) -> Result<Items<Weight>, Memory> {
    let mut weights = Items::new(alloc);
    for weight in plain {
        add(&mut weights, weight_of(alloc, weight)?)?;
    }
    Ok(weights)
}

fn settings_of(alloc: Global, plain: &PlainSettings) -> Result<Option<Settings>, Memory> {
    let endpoints = endpoints_of(alloc, &plain.endpoints)?;
    let links = links_of(alloc, &plain.links)?;
    let weights = weights_of(alloc, &plain.weights)?;
    lawful_settings(alloc, plain, endpoints, links, weights)
}

fn files_of(alloc: Global, plain: &PlainNewJob) -> Result<Items<NewFile>, Memory> {
    let mut files = Items::new(alloc);
    let mut place = 0u32;
    for file in &plain.files {
        let index = plain.index_at(place);
        let source = place_of(alloc, file.source)?;
        let dest = place_of(alloc, file.dest)?;
        let activity = Label::new(alloc, activity_text(file.activity))?;
        let file = NewFile {
            index,
            source,
            dest,
            size: file.size,
            wanted: None,
            activity,
        };
        add(&mut files, file)?;
        place = place.saturating_add(1);
    }
    Ok(files)
}

fn job_of(alloc: Global, plain: &PlainNewJob) -> Result<Option<NewJob>, Memory> {
    let files = files_of(alloc, plain)?;
    Ok(lawful_job(plain, files))
}

fn restart_of(alloc: Global, now: u64, plain: &PlainSettings) -> Result<Option<Command>, Memory> {
    match settings_of(alloc, plain)? {
        Some(settings) => Ok(Some(Command::Restart { now, settings })),
        None => Ok(None),
    }
}

fn submission_of(alloc: Global, now: u64, plain: &PlainNewJob) -> Result<Option<Command>, Memory> {
    match job_of(alloc, plain)? {
        Some(job) => Ok(Some(Command::Submit { now, job })),
        None => Ok(None),
    }
}

/// The desk's command for a plain one. None where its settings or its job break a rule.
pub fn command_of(alloc: Global, plain: &PlainCommand) -> Result<Option<Command>, Memory> {
    let command = match *plain {
        PlainCommand::Restart { now, ref settings } => return restart_of(alloc, now, settings),
        PlainCommand::Submit { now, ref job } => return submission_of(alloc, now, job),
        PlainCommand::CancelJob { now, job } => Command::CancelJob { now, job },
        PlainCommand::CancelFile { now, job, file } => Command::CancelFile { now, job, file },
        PlainCommand::SetPriority { now, job, priority } => Command::SetPriority {
            now,
            job,
            priority,
        },
        PlainCommand::Claim { now, word } => Command::Claim { now, word },
        PlainCommand::Report {
            now,
            file,
            attempt,
            outcome,
        } => Command::Report {
            now,
            file,
            attempt,
            outcome,
        },
        PlainCommand::Ban {
            now,
            storage,
            cancel,
        } => Command::Ban {
            now,
            storage: name_of(alloc, storage)?,
            cancel,
        },
        PlainCommand::Unban { now, storage } => Command::Unban {
            now,
            storage: name_of(alloc, storage)?,
        },
        PlainCommand::Expire { now } => Command::Expire { now },
    };
    Ok(Some(command))
}
