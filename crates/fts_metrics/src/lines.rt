//! The lines of the text form, each appended to what was written before.
//! Keeps: at `Ok` the text has grown by exactly the line (`specs/Form.antt`); at want of memory it may have grown by a part of it.
ghost use Rattle.std.specs.Prelude.{◌≡◌, ◌++◌, map, OnOk, IfOk, codes};
ghost use Rattle.std.specs.List.{concat};
ghost use Rattle.fts_metrics.specs.Form.{escaped, head, label, two_labels, sample, plain_sample};

use fts_tables::Memory;
use itoa::Buffer;
use std::alloc::Global;

/// A label's value, as the text form writes it.
fn put_escaped(text: &mut Vec<u8>, value: &str) -> Result<(), Memory>
    ensures { OnOk result (text.new.items ≡ text.old.items ++ escaped value.now) }
{
    for byte in value.as_bytes() {
        match *byte {
            b'\\' => text.extend_from_slice(b"\\\\")?,
            b'"' => text.extend_from_slice(b"\\\"")?,
            b'\n' => text.extend_from_slice(b"\\n")?,
            other => text.extend_from_slice(&[other])?,
        }
    }
    Ok(())
}

/// These parts, one behind the other.
fn put_parts(text: &mut Vec<u8>, parts: &[&[u8]]) -> Result<(), Memory>
    ensures { OnOk result (text.new.items ≡ text.old.items ++ concat (map (λ part. part.now) parts.now)) }
{
    for part in parts {
        text.extend_from_slice(part)?;
    }
    Ok(())
}

/// What a metric is: its name, what it counts, and its kind.
#[tactic(auto, unfolding(crate::specs::Form::head))]
pub fn put_head(text: &mut Vec<u8>, name: &str, help: &str, kind: &str) -> Result<(), Memory>
    ensures { OnOk result (text.new.items ≡ text.old.items ++ head name.now help.now kind.now) }
{
    put_parts(
        text,
        &[
            b"# HELP ",
            name.as_bytes(),
            b" ",
            help.as_bytes(),
            b"\n# TYPE ",
            name.as_bytes(),
            b" ",
            kind.as_bytes(),
            b"\n",
        ],
    )
}

/// A sample without labels.
#[tactic(auto, unfolding(crate::specs::Form::plain_sample))]
pub fn put_plain(text: &mut Vec<u8>, name: &str, number: u64) -> Result<(), Memory>
    ensures { OnOk result (text.new.items ≡ text.old.items ++ plain_sample name.now number) }
{
    let mut digits = Buffer::new();
    let digits = digits.format(number);
    put_parts(text, &[name.as_bytes(), b" ", digits.as_bytes(), b"\n"])
}

/// A sample with these labels.
pub fn put_sample(text: &mut Vec<u8>, name: &str, labels: &[u8], number: u64) -> Result<(), Memory>
    ensures { OnOk result (text.new.items ≡ text.old.items ++ sample name.now labels.now number) }
{
    put_total(text, name, labels, u128::from(number))
}

/// As `put_sample`, of a number that 64 bits may not hold.
#[tactic(auto, unfolding(crate::specs::Form::sample))]
pub fn put_total(text: &mut Vec<u8>, name: &str, labels: &[u8], number: u128) -> Result<(), Memory>
    ensures { OnOk result (text.new.items ≡ text.old.items ++ sample name.now labels.now number) }
{
    let mut digits = Buffer::new();
    let digits = digits.format(number);
    put_parts(
        text,
        &[
            name.as_bytes(),
            b"{",
            labels,
            b"} ",
            digits.as_bytes(),
            b"\n",
        ],
    )
}

// What stands before a label's value.
fn put_opening(text: &mut Vec<u8>, name: &str) -> Result<(), Memory>
    ensures { OnOk result (text.new.items ≡ text.old.items ++ (name.now ++ codes "=\"")) }
{
    put_parts(text, &[name.as_bytes(), b"=\""])
}

// What stands behind it.
fn put_closing(text: &mut Vec<u8>) -> Result<(), Memory>
    ensures { OnOk result (text.new.items ≡ text.old.items ++ codes "\"") }
{
    put_parts(text, &[b"\""])
}

// What stands between two labels.
fn put_comma(text: &mut Vec<u8>) -> Result<(), Memory>
    ensures { OnOk result (text.new.items ≡ text.old.items ++ codes ",") }
{
    put_parts(text, &[b","])
}

// A label and its value.
fn put_label(text: &mut Vec<u8>, name: &str, value: &str) -> Result<(), Memory>
    ensures { OnOk result (text.new.items ≡ text.old.items ++ label name.now value.now) }
{
    put_opening(text, name)?;
    put_escaped(text, value)?;
    put_closing(text)?;
    Ok(())
}

/// Two labels and their values.
pub fn labels_of(
    alloc: Global,
    name: &str,
    value: &str,
    other: &str,
    second: &str,
) -> Result<Vec<u8>, Memory>
    ensures { IfOk result (λ labels. labels.items ≡ two_labels (label name.now value.now) (label other.now second.now)) }
{
    let mut labels = Vec::new(alloc);
    put_label(&mut labels, name, value)?;
    put_comma(&mut labels)?;
    put_label(&mut labels, other, second)?;
    Ok(labels)
}

/// These labels, and one more.
pub fn labels_with(alloc: Global, labels: &[u8], name: &str, value: &str) -> Result<Vec<u8>, Memory>
    ensures { IfOk result (λ more. more.items ≡ two_labels labels.now (label name.now value.now)) }
{
    let mut more = Vec::new(alloc);
    more.extend_from_slice(labels)?;
    put_comma(&mut more)?;
    put_label(&mut more, name, value)?;
    Ok(more)
}

/// A label and its value.
pub fn label_of(alloc: Global, name: &str, value: &str) -> Result<Vec<u8>, Memory>
    ensures { IfOk result (λ labels. labels.items ≡ label name.now value.now) }
{
    let mut labels = Vec::new(alloc);
    put_label(&mut labels, name, value)?;
    Ok(labels)
}
