//! Of `fts_tables`: each call with ample memory, which no clause promises, and limits by their digits.
use super::made::{add, name, place, settings};
use fts_tables::{
    Clock, Command, EndpointName, Items, JobKind, Label, ListClock, ListWords, Memory, NewFile,
    NewJob, PartName, PathKey, Place, PlaceRef, Strategy, Words, limits,
};
use std::alloc::Global;
use std::test::Fail;

#[test]
fn names_are_read_with_ample_memory(rt: HostRuntime) -> Result<(), Fail> {
    for (case, text, want) in [
        ("a host", "https://a.example", true),
        ("a host with a port", "root://a.example:1094", true),
        ("an upper-case scheme", "HTTPS://a.example", false),
        ("no scheme", "a.example", false),
        ("no host", "https://", false),
        ("a path behind the host", "https://a.example/", false),
        ("a percent sign", "https://a%41.example", false),
        (
            "a byte above the printed ones",
            "https://\u{e9}.example",
            false,
        ),
        ("the empty text", "", false),
    ] {
        let name = EndpointName::read(rt.alloc(), text)?;
        let is_so = match name {
            Some(name) => {
                let copy = name.copy(rt.alloc())?;
                want && name.as_str() == text && copy.as_str() == text
            }
            None => !want,
        };
        assert!(rt; is_so, "{case}");
    }
    Ok(())
}

#[test]
fn paths_are_read_with_ample_memory(rt: HostRuntime) -> Result<(), Fail> {
    for (case, text, want) in [
        ("one segment", "f1", true),
        ("two segments", "data/f1", true),
        ("a name that only begins like ours", ".ftsx", true),
        ("our name below another", "a/.fts", true),
        ("three dots", "...", true),
        ("our folder", ".fts", false),
        ("a file in our folder", ".fts/part-1", false),
        ("one dot", "a/./b", false),
        ("two dots", "../b", false),
        ("a slash in front", "/a", false),
        ("a slash at the end", "a/", false),
        ("two slashes", "a//b", false),
        ("a blank", "a b", false),
        ("a percent sign", "a%20b", false),
        ("a byte above the printed ones", "a\u{7f}b", false),
        ("a byte outside ASCII", "a/\u{e9}", false),
        ("the empty text", "", false),
    ] {
        let path = PathKey::read(rt.alloc(), text)?;
        let is_so = match path {
            Some(path) => {
                let copy = path.copy(rt.alloc())?;
                want && path.as_str() == text && copy.as_str() == text
            }
            None => !want,
        };
        assert!(rt; is_so, "{case}");
    }
    Ok(())
}

/// A text with as many letters behind it as make it so long.
fn padded(alloc: Global, start: &str, bytes: usize) -> Result<String, Fail> {
    let mut text = String::from_str(alloc, start)?;
    for _ in start.len()..bytes {
        text.push('a')?;
    }
    Ok(text)
}

#[test]
fn texts_end_at_their_limit(rt: HostRuntime) -> Result<(), Fail> {
    for (case, bytes, want) in [("the limit", 1024, true), ("a byte more", 1025, false)] {
        let path = padded(rt.alloc(), "", bytes)?;
        let name = padded(rt.alloc(), "https://", bytes)?;
        let path = PathKey::read(rt.alloc(), path.as_str())?;
        let name = EndpointName::read(rt.alloc(), name.as_str())?;
        assert!(rt; path.is_some() == want, "a path: {case}");
        assert!(rt; name.is_some() == want, "a name: {case}");
    }
    Ok(())
}

#[test]
fn a_part_file_has_its_place(rt: HostRuntime) -> Result<(), Fail> {
    for (case, file, want) in [
        ("the first file", 1, ".fts/part-1"),
        ("the last file", 4294967295, ".fts/part-4294967295"),
    ] {
        let mut room = PartName::new();
        let place = PlaceRef::part("https://a.example", file, &mut room);
        let is_there = place.endpoint == "https://a.example" && place.path == want;
        assert!(rt; is_there, "{case}");
    }
    Ok(())
}

#[test]
fn places_are_copied_and_lent_with_ample_memory(rt: HostRuntime) -> Result<(), Fail> {
    let place = place(rt.alloc(), "data/f1")?;
    let copy = place.copy(rt.alloc())?;
    let lent = PlaceRef::of(&copy);
    let is_so = lent.endpoint == "https://a.example" && lent.path == "data/f1";
    assert!(rt; is_so, "the copy's parts");
    Ok(())
}

#[test]
fn labels_and_items_grow_with_ample_memory(rt: HostRuntime) -> Result<(), Fail> {
    let label = Label::new(rt.alloc(), "demo")?;
    let copy = label.copy(rt.alloc())?;
    assert!(rt; copy.as_str() == "demo", "a label's copy");
    let mut items = Items::new(rt.alloc());
    for item in [3, 1, 2] {
        assert!(rt; items.push(item).is_ok(), "item {item}");
    }
    assert!(rt;
        items.as_slice() == [3, 1, 2].as_slice(),
        "the items in order"
    );
    Ok(())
}

/// A job of one file.
fn job(alloc: Global) -> Result<NewJob, Memory> {
    let mut files = Items::new(alloc);
    let file = NewFile {
        index: 0,
        source: place(alloc, "data/f1")?,
        dest: place(alloc, "data/f2")?,
        size: 3,
        wanted: Some([7; 16]),
        activity: Label::new(alloc, "default")?,
    };
    add(&mut files, file)?;
    Ok(NewJob {
        id: Some(9),
        kind: JobKind::Plain,
        strategy: Strategy::Auto,
        priority: 3,
        retry: 1,
        delay: 60,
        overwrite: true,
        queue_hours: 24,
        files,
    })
}

#[test]
fn settings_are_copied_with_ample_memory(rt: HostRuntime) -> Result<(), Fail> {
    let copy = settings(rt.alloc())?.copy(rt.alloc())?;
    assert!(rt; copy.default_max_active == 7, "the number of the settings");
    Ok(())
}

#[test]
fn jobs_are_copied_with_ample_memory(rt: HostRuntime) -> Result<(), Fail> {
    let copy = job(rt.alloc())?.copy(rt.alloc())?;
    assert!(rt; copy.files.as_slice().len() == 1, "the one file of the job");
    assert!(rt; copy.queue_hours == 24, "the hours that its file may wait");
    Ok(())
}

#[test]
fn commands_are_copied_with_ample_memory(rt: HostRuntime) -> Result<(), Fail> {
    let command = Command::Claim { now: 1, word: 2 };
    let copy = command.copy(rt.alloc())?;
    let is_same = matches!(copy, Command::Claim { now: 1, word: 2 });
    assert!(rt; is_same, "a claim's copy is that claim");
    let command = Command::Expire { now: 1 };
    let copy = command.copy(rt.alloc())?;
    assert!(rt;
        matches!(copy, Command::Expire { now: 1 }),
        "an expiry's copy is that expiry"
    );
    Ok(())
}

/// The name of the storage that a command bans, or whose ban it ends.
fn storage(command: &Command) -> &str {
    match command {
        Command::Ban {
            now: _,
            storage,
            cancel: _,
        } => storage.as_str(),
        Command::Unban { now: _, storage } => storage.as_str(),
        Command::Restart { .. }
        | Command::Submit { .. }
        | Command::CancelJob { .. }
        | Command::CancelFile { .. }
        | Command::SetPriority { .. }
        | Command::Claim { .. }
        | Command::Report { .. }
        | Command::Expire { .. } => "",
    }
}

#[test]
fn bans_are_copied_with_ample_memory(rt: HostRuntime) -> Result<(), Fail> {
    let ban = Command::Ban {
        now: 1,
        storage: name(rt.alloc(), "https://b.example")?,
        cancel: true,
    };
    let copy = ban.copy(rt.alloc())?;
    let is_same = matches!(
        &copy,
        Command::Ban {
            now: 1,
            storage: _,
            cancel: true
        }
    ) && storage(&copy) == "https://b.example";
    assert!(rt; is_same, "a ban's copy is that ban");
    let unban = Command::Unban {
        now: 1,
        storage: name(rt.alloc(), "https://b.example")?,
    };
    let copy = unban.copy(rt.alloc())?;
    let is_same = matches!(&copy, Command::Unban { now: 1, storage: _ })
        && storage(&copy) == "https://b.example";
    assert!(rt; is_same, "the copy of a ban's end is that end");
    Ok(())
}

#[test]
fn listed_moments_and_words_come_in_order(rt: HostRuntime) -> Result<(), Fail> {
    let mut clock = ListClock::new(vec![in rt.alloc(); 5, 8]?);
    let mut words = ListWords::new(vec![in rt.alloc(); 5, 8]?);
    for (case, want) in [
        ("the first", 5),
        ("the second", 8),
        ("the second once more", 8),
    ] {
        clock.rest();
        assert!(rt; clock.now() == want, "{case} moment");
        assert!(rt; words.next() == want, "{case} word");
    }
    Ok(())
}

#[test]
fn limits_have_the_digits_that_users_read(rt: HostRuntime) {
    for (case, is_so) in [
        ("MAX_JOBS", limits::MAX_JOBS == 100000),
        ("MAX_ROWS", limits::MAX_ROWS == 400000),
        ("MAX_FILES", limits::MAX_FILES == 200),
        ("MIN_SOURCES", limits::MIN_SOURCES == 2),
        ("MAX_SOURCES", limits::MAX_SOURCES == 16),
        ("MAX_NAME_BYTES", limits::MAX_NAME_BYTES == 1024),
        ("MAX_LABEL_BYTES", limits::MAX_LABEL_BYTES == 255),
        ("MAX_ENDPOINTS", limits::MAX_ENDPOINTS == 256),
        ("MAX_LINKS", limits::MAX_LINKS == 1024),
        ("MAX_WEIGHTS", limits::MAX_WEIGHTS == 64),
        ("MAX_ACTIVE", limits::MAX_ACTIVE == 1000),
        ("MAX_WEIGHT", limits::MAX_WEIGHT == 10000),
        ("MAX_WORKERS", limits::MAX_WORKERS == 16),
        ("MAX_LANES", limits::MAX_LANES == 8),
        ("MAX_RETRY", limits::MAX_RETRY == 10),
        ("MAX_DELAY", limits::MAX_DELAY == 86400),
        ("MAX_QUEUE_HOURS", limits::MAX_QUEUE_HOURS == 8760),
        ("MIN_PRIORITY", limits::MIN_PRIORITY == 1),
        ("MAX_PRIORITY", limits::MAX_PRIORITY == 5),
        ("DEFAULT_PRIORITY", limits::DEFAULT_PRIORITY == 3),
        ("DEFAULT_ACTIVITY", limits::DEFAULT_ACTIVITY == "default"),
        ("MAX_SIZE", limits::MAX_SIZE == 9223372036854775807),
        ("LAST_MOMENT", limits::LAST_MOMENT == 18446744073709551615),
        ("MAX_COMMANDS", limits::MAX_COMMANDS == 4294967295),
        ("MAX_SETTINGS_BYTES", limits::MAX_SETTINGS_BYTES == 1048576),
        ("MAX_OPENING_BYTES", limits::MAX_OPENING_BYTES == 134217728),
        ("JOURNAL_END", limits::JOURNAL_END == 1073741824),
        ("MAX_BODY_BYTES", limits::MAX_BODY_BYTES == 4194304),
        ("MAX_HEAD_BYTES", limits::MAX_HEAD_BYTES == 16384),
        ("MAX_HEADER_LINES", limits::MAX_HEADER_LINES == 64),
        ("MAX_CONTENT_BYTES", limits::MAX_CONTENT_BYTES == 1048576),
        ("MAX_REQUESTS", limits::MAX_REQUESTS == 1000000),
    ] {
        assert!(rt; is_so, "{case}");
    }
}
