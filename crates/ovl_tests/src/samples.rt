//! Stacks as lines of text, the manifests that these state, and blobs.

use ovl_engine::{Blob, named_blobs};
use ovl_layer::Layer;
use ovl_lookup::Stack;
use ovl_manifest::read_layer;
use std::alloc::{AllocError, Global};
use std::test::Fail;

// The entries that the words stand for, as new layers are written, with a path and attributes in
// place of `PATH` and `ATTRS`. Those that are `bare` are files of which the contents lie elsewhere.
const KINDS: &str = r#"
dir {"gid":0,"kind":"dir","mode":493,"mtime":0,"mtime-nsec":0,"path":"PATH","uid":0,"xattrs":{ATTRS}}
dir-0700 {"gid":0,"kind":"dir","mode":448,"mtime":0,"mtime-nsec":0,"path":"PATH","uid":0,"xattrs":{ATTRS}}
dir-old {"gid":6,"kind":"dir","mode":493,"mtime":-9223372036854775808,"mtime-nsec":999999999,"path":"PATH","uid":4294967295,"xattrs":{ATTRS}}
dir-new {"gid":1000,"kind":"dir","mode":493,"mtime":1732233600,"mtime-nsec":20304050,"path":"PATH","uid":0,"xattrs":{ATTRS}}
file {"blob":"ca978112ca1bbdcafac231b39a23dc4da786eff8147c4e72b9807785afee48bb","gid":0,"kind":"file","mode":420,"mtime":0,"mtime-nsec":0,"path":"PATH","size":1,"uid":0,"xattrs":{ATTRS}}
file-late {"blob":"ca978112ca1bbdcafac231b39a23dc4da786eff8147c4e72b9807785afee48bb","gid":0,"kind":"file","mode":420,"mtime":0,"mtime-nsec":1,"path":"PATH","size":1,"uid":0,"xattrs":{ATTRS}}
file-0645 {"blob":"ca978112ca1bbdcafac231b39a23dc4da786eff8147c4e72b9807785afee48bb","gid":0,"kind":"file","mode":421,"mtime":0,"mtime-nsec":0,"path":"PATH","size":1,"uid":0,"xattrs":{ATTRS}}
file-large {"blob":"ca978112ca1bbdcafac231b39a23dc4da786eff8147c4e72b9807785afee48bb","gid":0,"kind":"file","mode":2541,"mtime":0,"mtime-nsec":0,"path":"PATH","size":9223372036854775807,"uid":0,"xattrs":{ATTRS}}
file-b {"blob":"3e23e8160039594a33894f6564e1b1348bbd7a0088d42c4acb73eeaed59c009d","gid":0,"kind":"file","mode":420,"mtime":0,"mtime-nsec":0,"path":"PATH","size":1,"uid":0,"xattrs":{ATTRS}}
file-ab {"blob":"fb8e20fc2e4c3f248c60c39bd652f3c1347298bb977b8b4d5903b85055620603","gid":0,"kind":"file","mode":420,"mtime":0,"mtime-nsec":0,"path":"PATH","size":3,"uid":0,"xattrs":{ATTRS}}
file-abc {"blob":"ba7816bf8f01cfea414140de5dae2223b00361a396177a9cb410ff61f20015ad","gid":0,"kind":"file","mode":420,"mtime":0,"mtime-nsec":0,"path":"PATH","size":3,"uid":0,"xattrs":{ATTRS}}
empty {"gid":0,"kind":"file","mode":420,"mtime":0,"mtime-nsec":0,"path":"PATH","size":0,"uid":0,"xattrs":{ATTRS}}
bare {"gid":0,"kind":"file","mode":420,"mtime":0,"mtime-nsec":0,"path":"PATH","size":1,"uid":0,"xattrs":{ATTRS}}
bare-2 {"gid":0,"kind":"file","mode":420,"mtime":0,"mtime-nsec":0,"path":"PATH","size":2,"uid":0,"xattrs":{ATTRS}}
link {"gid":0,"kind":"symlink","mode":511,"mtime":0,"mtime-nsec":0,"path":"PATH","target":"a b","uid":0,"xattrs":{ATTRS}}
whiteout {"gid":0,"kind":"char","major":0,"minor":0,"mode":0,"mtime":0,"mtime-nsec":0,"path":"PATH","uid":0,"xattrs":{ATTRS}}
console {"gid":0,"kind":"char","major":0,"minor":1,"mode":384,"mtime":0,"mtime-nsec":0,"path":"PATH","uid":0,"xattrs":{ATTRS}}
disk {"gid":0,"kind":"block","major":8,"minor":4294967295,"mode":48,"mtime":0,"mtime-nsec":0,"path":"PATH","uid":0,"xattrs":{ATTRS}}
fifo {"gid":0,"kind":"fifo","mode":0,"mtime":0,"mtime-nsec":0,"path":"PATH","uid":0,"xattrs":{ATTRS}}
socket {"gid":0,"kind":"socket","mode":4095,"mtime":0,"mtime-nsec":0,"path":"PATH","uid":0,"xattrs":{ATTRS}}
"#;

fn kind_of(word: &str) -> Result<&'static str, Fail> {
    for line in KINDS.lines() {
        let (kind, entry) = line.split_once(' ').unwrap_or((line, ""));
        if kind == word {
            return Ok(entry);
        }
    }
    Err(Fail::new("no kind has this word"))
}

// The digits of a value, in which `\xNN` is a byte.
fn digits_of(alloc: Global, value: &str) -> Result<String, AllocError> {
    let (plain, bytes) = value.split_once("\\x").unwrap_or((value, ""));
    let mut digits = hex::encode(alloc, plain.as_bytes())?;
    for byte in bytes.split("\\x") {
        digits.push_str(byte)?;
    }
    Ok(digits)
}

// An attribute, as a manifest states it, of a word such as `opaque=y`; one of the overlay has no
// prefix in the word.
fn attribute_of(alloc: Global, word: &str) -> Result<String, AllocError> {
    let (name, value) = word.split_once('=').unwrap_or((word, ""));
    let value = digits_of(alloc, value)?;
    if name.starts_with("user.") {
        return format!(in alloc; "\"{name}\":\"{value}\"");
    }
    format!(in alloc; "\"trusted.overlay.{name}\":\"{value}\"")
}

fn attributes_of(alloc: Global, words: &str) -> Result<String, AllocError> {
    let mut text = String::new(alloc);
    for word in words.split_whitespace() {
        if !text.is_empty() {
            text.push_str(",")?;
        }
        text.push_str(attribute_of(alloc, word)?.as_str())?;
    }
    Ok(text)
}

fn entry_of(alloc: Global, entry: &str) -> Result<String, Fail> {
    let (word, more) = entry.split_once(' ').unwrap_or((entry, ""));
    let (path, words) = more.split_once(' ').unwrap_or((more, ""));
    let stated = kind_of(word)?.replace(alloc, "PATH", path)?;
    let attributes = attributes_of(alloc, words)?;
    Ok(
        stated
            .as_str()
            .replace(alloc, "ATTRS", attributes.as_str())?,
    )
}

fn push_entry(alloc: Global, text: &mut String, entry: &str) -> Result<(), Fail> {
    if text.as_str().ends_with('}') {
        text.push_str(",")?;
    }
    text.push_str(entry_of(alloc, entry)?.as_str())?;
    Ok(())
}

// Adds this many directories, each inside the one before and of its name; the deepest has the
// attributes.
fn push_chain(alloc: Global, text: &mut String, count: usize, first: &str) -> Result<(), Fail> {
    let (path, attributes) = first.split_once(' ').unwrap_or((first, ""));
    let (_, name) = path.rsplit_once('/').unwrap_or(("", path));
    let mut path = String::from_str(alloc, path)?;
    for _ in 1..count {
        push_entry(alloc, text, format!(in alloc; "dir {path}")?.as_str())?;
        path.push_str(format!(in alloc; "/{name}")?.as_str())?;
    }
    push_entry(
        alloc,
        text,
        format!(in alloc; "dir {path} {attributes}")?.as_str(),
    )
}

// Adds an entry, or a chain of directories where a number and `*` are before it.
fn push_entries_of(alloc: Global, text: &mut String, words: &str) -> Result<(), Fail> {
    match words.split_once("*dir ") {
        Some((count, first)) => push_chain(alloc, text, count.parse()?, first),
        None => push_entry(alloc, text, words),
    }
}

fn has_root(entries: &str) -> bool {
    entries.contains(" / ") || entries.contains(" /,")
}

fn push_entries(alloc: Global, text: &mut String, entries: &str) -> Result<(), Fail> {
    if !has_root(entries) {
        push_entry(alloc, text, "dir /")?;
    }
    for entry in entries.split(", ") {
        if entry != "root" {
            push_entries_of(alloc, text, entry)?;
        }
    }
    Ok(())
}

fn stands_for_itself(entries: &str) -> bool {
    entries.is_empty() || entries.starts_with('[') || entries.starts_with('{')
}

/// The manifest of these entries, with commas between them, under a root of mode 0755 where none of
/// them is one, as new layers are written: `root` is only such a root. An entry is the word of its
/// kind, its path and its attributes, as `dir /d redirect=/x user.k=v`; `3*dir /a` is `/a`, `/a/a`
/// and `/a/a/a`. A text in brackets stands for itself, and so does none.
pub(crate) fn manifest_of(alloc: Global, entries: &str) -> Result<Vec<u8>, Fail> {
    if stands_for_itself(entries) {
        return Ok(String::from_str(alloc, entries)?.into_bytes());
    }
    let mut text = String::from_str(alloc, "{\"entries\":[")?;
    push_entries(alloc, &mut text, entries)?;
    text.push_str("],\"overlay-layer\":2}\n")?;
    Ok(text.into_bytes())
}

/// The same manifest in the earlier version, which has whole seconds.
pub(crate) fn earlier(alloc: Global, manifest: &[u8]) -> Result<Vec<u8>, Fail> {
    let text = String::from_utf8(Vec::from_slice(alloc, manifest)?)?;
    let seconds = text.as_str().replace(alloc, "\"mtime-nsec\":0,", "")?;
    let earlier = seconds.as_str().replace(alloc, "-layer\":2", "-layer\":1")?;
    Ok(earlier.into_bytes())
}

/// The manifests of a stack, the topmost layer first, and how many of them are data-only: a line
/// has ` | ` between layers, and `data ` before each data-only one.
pub(crate) fn manifests_of(alloc: Global, stack: &str) -> Result<(Vec<Vec<u8>>, u16), Fail> {
    let mut manifests = Vec::new(alloc);
    let mut bottom: u16 = 0;
    for layer in stack.split(" | ") {
        let data = layer.strip_prefix("data ");
        bottom = bottom.saturating_add(u16::from(data.is_some()));
        manifests.push(manifest_of(alloc, data.unwrap_or(layer))?)?;
    }
    Ok((manifests, bottom))
}

/// The layer of these entries.
pub(crate) fn layer_of(alloc: Global, entries: &str) -> Result<Layer, Fail> {
    Ok(read_layer(alloc, &manifest_of(alloc, entries)?)?)
}

/// The stack of a line.
pub(crate) fn stack_of(alloc: Global, stack: &str) -> Result<Stack, Fail> {
    let (manifests, bottom) = manifests_of(alloc, stack)?;
    let mut layers = Vec::new(alloc);
    for manifest in &manifests {
        layers.push(read_layer(alloc, manifest)?)?;
    }
    Ok(Stack::with_data(alloc, layers, bottom)?)
}

fn push_blob(alloc: Global, blobs: &mut Vec<Blob>, word: &str) -> Result<(), AllocError> {
    let (named, bytes) = word.split_once('=').unwrap_or((word, word));
    let contents = [String::from_str(alloc, named)?.into_bytes()];
    for mut blob in named_blobs(alloc, &contents)? {
        blob.bytes = String::from_str(alloc, bytes)?.into_bytes();
        blobs.push(blob)?;
    }
    Ok(())
}

/// A blob for each word, in this order: of the bytes of the word, or of those after `=`, where it
/// has the name of those before.
pub(crate) fn blobs_of(alloc: Global, words: &str) -> Result<Vec<Blob>, AllocError> {
    let mut blobs = Vec::new(alloc);
    for word in words.split_whitespace() {
        push_blob(alloc, &mut blobs, word)?;
    }
    Ok(blobs)
}
