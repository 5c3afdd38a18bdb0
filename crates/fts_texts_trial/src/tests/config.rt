//! Of `fts_config`: the example and the text of a stand, read whole; texts that break one rule alone, and texts that break it with the one that
//! is answered next. Most are a start, which breaks no rule, with a line more. A row is a sentence, a text, and what is wanted.
use super::checks::{check, check_found, must};
use fts_config::SettingsFault::{
    BadLabel, BadUrl, LimitRange, Missing, NoDefaultWeight, NotToml, TooLong, TooMany, TwiceLink,
    TwiceWeight, UnknownEndpoint, WeightRange, WorkerRange, WrongType,
};
use fts_config::{SettingKey, SettingsFault, read_settings};
use fts_joburl::UrlFault;
use fts_tables::{Endpoint, LinkRule, Settings, Weight};
use std::alloc::{AllocError, Global};

/// The fault of a text that ends so.
fn fault_of(alloc: Global, start: &str, end: &str) -> Result<Option<SettingsFault>, AllocError> {
    let text = format!(in alloc; "{start}{end}")?;
    match read_settings(alloc, text.as_str().as_bytes()) {
        Ok(_) => Ok(None),
        Err(fault) => Ok(Some(fault)),
    }
}

/// A VO and two storages.
const START: &str = "vo = \"v\"\nstorage = [{ url = \"x://a\" }, { url = \"x://b\" }]\n";

fn show_endpoints(shown: &mut String, endpoints: &[Endpoint]) -> Result<(), AllocError> {
    for endpoint in endpoints {
        let name = endpoint.name.as_str();
        write!(
            shown,
            " {} {} {},",
            name, endpoint.inbound, endpoint.outbound
        )?;
    }
    Ok(())
}

fn show_links(shown: &mut String, links: &[LinkRule]) -> Result<(), AllocError> {
    for link in links {
        let (source, dest) = (link.source.as_str(), link.dest.as_str());
        write!(
            shown,
            " {} {} {} {},",
            link.symbolic.as_str(),
            source,
            dest,
            link.max_active
        )?;
    }
    Ok(())
}

fn show_weights(shown: &mut String, weights: &[Weight]) -> Result<(), AllocError> {
    for weight in weights {
        write!(shown, " {} {},", weight.name.as_str(), weight.weight)?;
    }
    Ok(())
}

/// Settings in one line.
fn shown(alloc: Global, settings: &Settings) -> Result<String, AllocError> {
    let vo = settings.vo.as_str();
    let mut shown = format!(in alloc;
        "{vo} {} {},",
        settings.workers, settings.default_max_active
    )?;
    show_endpoints(&mut shown, settings.endpoints.as_slice())?;
    show_links(&mut shown, settings.links.as_slice())?;
    show_weights(&mut shown, settings.weights.as_slice())?;
    Ok(shown)
}

/// Whether settings are these.
fn is_shown(alloc: Global, settings: &Settings, want: &str) -> bool {
    match shown(alloc, settings) {
        Ok(line) => line.as_str() == want,
        Err(_) => false,
    }
}

/// Whether a text gives these settings.
fn gives(alloc: Global, text: &str, want: &str) -> bool {
    match read_settings(alloc, text.as_bytes()) {
        Ok(settings) => is_shown(alloc, &settings, want),
        Err(_) => false,
    }
}

#[test]
fn a_stand_s_text_gives_its_settings(rt: HostRuntime) {
    let text =
        "vo = \"demo\"\nworkers = 2\n[[storage]]\nurl = \"https://a.example\"\n[[storage]]\nurl = \"https://b.example\"\n";
    let want = "demo 2 2, https://a.example 20 20, https://b.example 20 20, default 1,";
    check(&rt, gives(rt.alloc(), text, want), "a stand's settings");
}

#[test]
fn what_a_text_leaves_out_has_its_default(rt: HostRuntime) {
    let want = "v 4 2, x://a 20 20, x://b 20 20, default 1,";
    check(&rt, gives(rt.alloc(), START, want), "settings by default");
}

/// The file `examples/fts.toml`, byte for byte.
const EXAMPLE: &str = "# Settings of a service with three storages.
vo = \"demo\"
workers = 8
default_max_active = 5

[[storage]]
url = \"https://a.example\"
inbound_max_active = 10
outbound_max_active = 40

[[storage]]
url = \"https://b.example\"

[[storage]]
url = \"root://c.example:1094/\"

[[link]]
symbolicname = \"a-to-b\"
source = \"https://a.example\"
destination = \"https://b.example\"
max_active = 20

[[activity]]
name = \"default\"
weight = 1

[[activity]]
name = \"production\"
weight = 9
";

#[test]
fn the_example_gives_its_settings(rt: HostRuntime) {
    let want =
        "demo 8 5, https://a.example 10 40, https://b.example 20 20, root://c.example:1094 20 20, a-to-b https://a.example https://b.example 20, default 1, production 9,";
    check(
        &rt,
        gives(rt.alloc(), EXAMPLE, want),
        "the example's settings",
    );
}

/// A row: a sentence, the end of a text, and the key that its fault names.
type KeyRow = (&'static str, &'static str, SettingKey);

/// A row: a sentence, a text's start and its end, and the key that its fault names.
type NeedRow = (&'static str, &'static str, &'static str, SettingKey);

/// A row: a sentence, the end of a text, and its fault.
type FaultRow = (&'static str, &'static str, SettingsFault);

/// A row: a sentence, a text, and the rule that it breaks first.
type RuleRow = (&'static str, &'static str, u32);

/// Whether a text that ends so has this fault.
fn has_fault(
    alloc: Global,
    start: &str,
    end: &str,
    want: SettingsFault,
) -> Result<bool, AllocError> {
    Ok(fault_of(alloc, start, end)? == Some(want))
}

const KEYS: [KeyRow; 17] = [
    ("the VO is a number", "vo = 1", SettingKey::Vo),
    (
        "the workers are no whole number",
        "workers = 4.0",
        SettingKey::Workers,
    ),
    (
        "a limit is true",
        "default_max_active = true",
        SettingKey::DefaultMaxActive,
    ),
    (
        "the storages are a date",
        "storage = 1979-05-27",
        SettingKey::Storage,
    ),
    (
        "a storage is a number",
        "storage = [1]",
        SettingKey::Storage,
    ),
    (
        "a storage's URL is a number",
        "storage = [{ url = 1 }]",
        SettingKey::Url,
    ),
    (
        "an inbound limit is a text",
        "storage = [{ inbound_max_active = \"20\" }]",
        SettingKey::Inbound,
    ),
    (
        "an outbound limit is a time",
        "storage = [{ outbound_max_active = 07:32:00 }]",
        SettingKey::Outbound,
    ),
    ("the links are a table", "link = {}", SettingKey::Link),
    (
        "a link's name is a list",
        "link = [{ symbolicname = [] }]",
        SettingKey::SymbolicName,
    ),
    (
        "a source is a number",
        "link = [{ source = 1 }]",
        SettingKey::LinkSource,
    ),
    (
        "a destination is a moment",
        "link = [{ destination = 1979-05-27T07:32:00Z }]",
        SettingKey::LinkDestination,
    ),
    (
        "a link's limit is a text",
        "link = [{ max_active = \"1\" }]",
        SettingKey::MaxActive,
    ),
    (
        "the first link's limit is a text and the second one's source is a number",
        "link = [{ max_active = \"1\" }, { source = 1 }]",
        SettingKey::LinkSource,
    ),
    (
        "the activities are a table",
        "activity.name = \"default\"",
        SettingKey::Activity,
    ),
    (
        "an activity's name is a number",
        "activity = [{ name = 1 }]",
        SettingKey::Name,
    ),
    (
        "a weight is no whole number",
        "activity = [{ weight = 1.5 }]",
        SettingKey::Weight,
    ),
];

#[test]
fn a_key_has_its_type(rt: HostRuntime) {
    for (case, text, key) in KEYS {
        let has = has_fault(rt.alloc(), "", text, WrongType { key });
        check_found(&rt, has, case);
    }
}

const NEEDED_KEYS: [NeedRow; 9] = [
    (
        "no VO",
        "",
        "storage = [{ url = \"x://a\" }]",
        SettingKey::Vo,
    ),
    ("no list of storages", "", "vo = \"v\"", SettingKey::Storage),
    (
        "no storage in the list",
        "",
        "vo = \"v\"\nstorage = []",
        SettingKey::Storage,
    ),
    (
        "no URL of the second storage",
        "",
        "vo = \"v\"\nstorage = [{ url = \"x://a\" }, {}]",
        SettingKey::Url,
    ),
    ("no source", START, "link = [{}]", SettingKey::LinkSource),
    (
        "no destination",
        START,
        "link = [{ source = \"x://a\" }]",
        SettingKey::LinkDestination,
    ),
    (
        "no limit of a link",
        START,
        "link = [{ source = \"x://a\", destination = \"x://b\" }]",
        SettingKey::MaxActive,
    ),
    (
        "no name of an activity",
        START,
        "activity = [{}]",
        SettingKey::Name,
    ),
    (
        "no weight",
        START,
        "activity = [{ name = \"default\" }]",
        SettingKey::Weight,
    ),
];

#[test]
fn a_needed_key_is_there(rt: HostRuntime) {
    for (case, start, text, key) in NEEDED_KEYS {
        let has = has_fault(rt.alloc(), start, text, Missing { key });
        check_found(&rt, has, case);
    }
}

/// A sentence, and the end of a text that breaks no rule.
const READ: [(&str, &str); 2] = [
    ("a key that nobody knows", "other = 1\nworkers = 16"),
    (
        "a link and the way back",
        "link = [{ source = \"x://a\", destination = \"x://b\", max_active = 1 }, { source = \"x://b\", destination = \"x://a\", max_active = 2 }]",
    ),
];

#[test]
fn what_breaks_no_rule(rt: HostRuntime) {
    for row in &READ {
        let fault = must(&rt, fault_of(rt.alloc(), START, row.1), row.0);
        check(&rt, fault.is_none(), row.0);
    }
}

const RULES: [FaultRow; 12] = [
    (
        "a destination that is no URL",
        "link = [{ source = \"x://a\", destination = \"no url\", max_active = 1 }]",
        BadUrl {
            fault: UrlFault::NotUrl,
        },
    ),
    (
        "a link twice",
        "link = [{ source = \"x://a\", destination = \"x://b\", max_active = 1 }, { source = \"x://a\", destination = \"x://b\", max_active = 2 }]",
        TwiceLink,
    ),
    (
        "a link to no storage",
        "link = [{ source = \"x://a\", destination = \"x://c\", max_active = 1 }]",
        UnknownEndpoint,
    ),
    (
        "a link with an empty name",
        "link = [{ source = \"x://a\", destination = \"x://b\", max_active = 1, symbolicname = \"\" }]",
        BadLabel,
    ),
    ("a key with no value", "workers = ", NotToml),
    (
        "a number of more than 63 bits",
        "workers = 9223372036854775808",
        NotToml,
    ),
    (
        "a limit above 1,000",
        "default_max_active = 1001",
        LimitRange,
    ),
    ("a limit below 0", "default_max_active = -1", LimitRange),
    ("no worker", "workers = 0", WorkerRange),
    (
        "a weight above 10,000",
        "activity = [{ name = \"default\", weight = 10001 }]",
        WeightRange,
    ),
    (
        "no activity named default",
        "activity = []",
        NoDefaultWeight,
    ),
    (
        "an activity twice",
        "activity = [{ name = \"default\", weight = 1 }, { name = \"default\", weight = 2 }]",
        TwiceWeight,
    ),
];

#[test]
fn each_rule_alone(rt: HostRuntime) {
    for (case, text, fault) in RULES {
        check_found(&rt, has_fault(rt.alloc(), START, text, fault), case);
    }
}

const TWO_RULES: [RuleRow; 10] = [
    ("a text that is no TOML, and a type", "vo = 1\nworkers =", 1),
    ("a type, and no storage", "vo = 1", 2),
    ("no VO, and a URL", "storage = [{ url = \"no url\" }]", 3),
    (
        "a URL, and a storage twice",
        "vo = \"v\"\nstorage = [{ url = \"no url\" }, { url = \"x://a\" }, { url = \"x://a\" }]",
        4,
    ),
    (
        "a storage twice, and a link twice",
        "vo = \"v\"\nstorage = [{ url = \"HTTPS://A.EXAMPLE:443\" }, { url = \"https://a.example\" }]\n\
         link = [{ source = \"x://c\", destination = \"x://c\", max_active = 1 }, { source = \"x://c\", destination = \"x://c\", max_active = 1 }]",
        5,
    ),
    (
        "a link twice, and a link of no storage",
        "vo = \"v\"\nstorage = [{ url = \"x://a\" }]\nlink = [{ source = \"x://c\", destination = \"x://c\", max_active = 1 }, { source = \"x://c\", destination = \"x://c\", max_active = 1 }]",
        6,
    ),
    (
        "a link of no storage, and a limit of 0",
        "vo = \"v\"\nstorage = [{ url = \"x://a\" }]\nlink = [{ source = \"x://c\", destination = \"x://c\", max_active = 0 }]",
        7,
    ),
    (
        "a limit of 0, and a weight of 0",
        "vo = \"v\"\nstorage = [{ url = \"x://a\", inbound_max_active = 0 }]\nactivity = [{ name = \"a\", weight = 0 }]",
        8,
    ),
    (
        "a weight of 0, and no activity named default",
        "vo = \"v\"\nstorage = [{ url = \"x://a\" }]\nactivity = [{ name = \"a\", weight = 0 }]",
        9,
    ),
    (
        "no activity named default, and no worker",
        "vo = \"v\"\nworkers = 0\nstorage = [{ url = \"x://a\" }]\nactivity = []",
        10,
    ),
];

#[test]
fn of_two_rules_the_first_is_answered(rt: HostRuntime) {
    for (case, text, rule) in TWO_RULES {
        let is_so = match must(&rt, fault_of(rt.alloc(), "", text), case) {
            Some(fault) => fault.rule() == rule,
            None => false,
        };
        check(&rt, is_so, case);
    }
}

/// The start, and this many activities of one name, with `more` before them.
fn crowded(alloc: Global, more: &str, count: usize) -> Result<Option<SettingsFault>, AllocError> {
    let mut text = format!(in alloc; "{START}{more}\n")?;
    for _ in 0..count {
        text.push_str("[[activity]]\nname = \"default\"\nweight = 1\n")?;
    }
    fault_of(alloc, text.as_str(), "")
}

/// A link with an empty name.
const BAD_NAME: &str =
    "link = [{ source = \"x://a\", destination = \"x://b\", max_active = 1, symbolicname = \"\" }]";

/// A row: a sentence, what stands before the activities, how many there are, and the fault.
type CrowdRow = (&'static str, &'static str, usize, SettingsFault);

const CROWDS: [CrowdRow; 4] = [
    (
        "no worker, and too many activities",
        "workers = 0",
        65,
        WorkerRange,
    ),
    ("too many, and an empty name", BAD_NAME, 65, TooMany),
    (
        "an empty name, and an activity twice",
        BAD_NAME,
        2,
        BadLabel,
    ),
    ("an activity twice", "", 2, TwiceWeight),
];

#[test]
fn too_many_stands_between_its_neighbours(rt: HostRuntime) {
    for row in &CROWDS {
        let fault = must(&rt, crowded(rt.alloc(), row.1, row.2), row.0);
        check(&rt, fault == Some(row.3), row.0);
    }
}

#[test]
fn a_text_that_is_no_utf_8_is_no_toml(rt: HostRuntime) {
    let fault = read_settings(rt.alloc(), &[b'#', 0xff]).err();
    let is_so = fault == Some(NotToml);
    check(&rt, is_so, "a byte that begins no letter");
}

#[test]
fn a_text_that_is_too_long_is_told_first(rt: HostRuntime) {
    let text = vec![in rt.alloc(); b'='; 1_048_577];
    let text = must(&rt, text, "there is memory");
    let fault = read_settings(rt.alloc(), text.as_slice()).err();
    let is_so = fault == Some(TooLong);
    check(&rt, is_so, "a byte more than the limit");
}
