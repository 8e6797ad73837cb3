//! Entries as their texts are written: members in the byte order of their names, without space.
ghost use Rattle.std.specs.Prelude.{◌≡◌, ◌+◌, ◌≤◌, ◌++◌, OnOk, codes, decimal, length};
ghost use Rattle.json.specs.Print.{quoted};
ghost use Rattle.serde_json.specs.Data.{object};
ghost use Rattle.serde_json.specs.Written.{compact_text};
ghost use Rattle.ovl_names.specs.Paths.{PathNames, path_text as text_of_path};
ghost use Rattle.ovl_manifest.specs.Compact.{attribute_text, blob_text, kind_text, front_text, size_text, target_text, blob_of_kind};
ghost use Rattle.ovl_manifest.specs.Text.{attribute_members, entry_value};

use crate::plain_runs::plain_length;
use crate::short_texts::ShortText;
use json::Writer;
use ovl_inode::{Attrs, Inode, Kind};
use std::alloc::{AllocError, Global};

/// Appends the text of an entry, by the text of its path; fails only when out of memory.
pub(crate) fn push_entry(
    alloc: Global,
    text: &mut Vec<u8>,
    path: &str,
    inode: &Inode,
) -> Result<(), AllocError>
    ensures { OnOk result ((own : PathNames) → path.now ≡ text_of_path own
        → text.new.items ≡ text.old.items ++ compact_text (entry_value (own, inode.now))) }
{
    push_blob(alloc, text, &inode.kind)?;
    push_front(text, inode)?;
    push_string(alloc, text, path)?;
    push_target(alloc, text, &inode.kind)?;
    push_back(text, inode)?;
    push_attributes(alloc, text, &inode.attrs)
}

// Appends the beginning of the entry of a file that has a blob: its digest.
fn push_blob(alloc: Global, text: &mut Vec<u8>, kind: &Kind) -> Result<(), AllocError>
    ensures { OnOk result
        (text.new.items ≡ text.old.items ++ blob_text (blob_of_kind kind.now)) }
{
    match kind {
        Kind::File {
            blob: Some(blob),
            ..
        } => push_text(alloc, text, "{\"blob\":", blob.digits().as_str()),
        _ => Ok(()),
    }
}

// Appends the members from the group to the name of the path.
fn push_front(text: &mut Vec<u8>, inode: &Inode) -> Result<(), AllocError>
    ensures { OnOk result (text.new.items ≡ text.old.items ++ front_text inode.now) }
{
    let mut short = ShortText::new();
    short.put(",\"path\":");
    short.put_number(u64::from(inode.nsec));
    short.put(",\"mtime-nsec\":");
    short.put_integer(inode.mtime);
    short.put(",\"mtime\":");
    short.put_number(u64::from(inode.mode));
    short.put(",\"mode\":");
    put_kind(&mut short, &inode.kind);
    short.put_number(u64::from(inode.gid));
    match &inode.kind {
        Kind::File { blob: Some(_), .. } => short.put(",\"gid\":"),
        _ => short.put("{\"gid\":"),
    }
    text.extend_from_slice(short.as_slice())
}

// Puts the word of a kind and the numbers of a device in front, with their names.
fn put_kind(short: &mut ShortText, kind: &Kind)
    requires { 80 + length short.old ≤ 224 }
    ensures text { short.new ≡ kind_text kind.now short.old }
    ensures length { length short.new ≤ 80 + length short.old }
{
    match kind {
        Kind::Dir => short.put(",\"kind\":\"dir\""),
        Kind::File { .. } => short.put(",\"kind\":\"file\""),
        Kind::Symlink { .. } => short.put(",\"kind\":\"symlink\""),
        Kind::Char { major, minor } => {
            put_device(short, *major, *minor);
            short.put(",\"kind\":\"char\"");
        }
        Kind::Block { major, minor } => {
            put_device(short, *major, *minor);
            short.put(",\"kind\":\"block\"");
        }
        Kind::Fifo => short.put(",\"kind\":\"fifo\""),
        Kind::Socket => short.put(",\"kind\":\"socket\""),
    }
}

// Puts the numbers of a device in front, with their names.
fn put_device(short: &mut ShortText, major: u32, minor: u32)
    requires { 60 + length short.old ≤ 224 }
    ensures text { short.new ≡ codes ",\"major\":" ++ (decimal major
        ++ (codes ",\"minor\":" ++ (decimal minor ++ short.old))) }
    ensures length { length short.new ≤ 60 + length short.old }
{
    short.put_number(u64::from(minor));
    short.put(",\"minor\":");
    short.put_number(u64::from(major));
    short.put(",\"major\":");
}

// Appends the target of a symlink.
fn push_target(alloc: Global, text: &mut Vec<u8>, kind: &Kind) -> Result<(), AllocError>
    ensures { OnOk result (text.new.items ≡ text.old.items ++ target_text kind.now) }
{
    match kind {
        Kind::Symlink { target } => push_text(alloc, text, ",\"target\":", target.as_str()),
        _ => Ok(()),
    }
}

// Appends the size of a file, the owner and the name of the attributes.
fn push_back(text: &mut Vec<u8>, inode: &Inode) -> Result<(), AllocError>
    ensures { OnOk result (text.new.items ≡ text.old.items ++ (size_text inode.now.kind
        ++ (codes ",\"uid\":" ++ (decimal inode.now.uid ++ codes ",\"xattrs\":")))) }
{
    let mut short = ShortText::new();
    short.put(",\"xattrs\":");
    short.put_number(u64::from(inode.uid));
    short.put(",\"uid\":");
    if let Kind::File { size, .. } = &inode.kind {
        short.put_number(*size);
        short.put(",\"size\":");
    }
    text.extend_from_slice(short.as_slice())
}

// Appends a name, as it stands, and a string.
fn push_text(alloc: Global, text: &mut Vec<u8>, name: &str, string: &str) -> Result<(), AllocError>
    ensures { OnOk result
        (text.new.items ≡ text.old.items ++ (name.now ++ quoted string.now)) }
{
    text.extend_from_slice(name.as_bytes())?;
    push_string(alloc, text, string)
}

// Appends a string with its quotation marks, as it is where nothing in it is escaped.
fn push_string(alloc: Global, text: &mut Vec<u8>, string: &str) -> Result<(), AllocError>
    ensures { OnOk result (text.new.items ≡ text.old.items ++ quoted string.now) }
{
    if plain_length(string.as_bytes()) != string.len() {
        return push_escaped(alloc, text, string);
    }
    text.push(b'"')?;
    text.extend_from_slice(string.as_bytes())?;
    text.push(b'"')?;
    Ok(())
}

// Appends a string of which some bytes are escaped.
fn push_escaped(alloc: Global, text: &mut Vec<u8>, string: &str) -> Result<(), AllocError>
    ensures { OnOk result (text.new.items ≡ text.old.items ++ quoted string.now) }
{
    let mut out = Writer::new(Vec::new(alloc));
    out.string(string)?;
    text.extend_from_slice(out.into_inner().as_slice())
}

// Appends the attributes as an object, each value by its digits, and the end of the entry.
fn push_attributes(alloc: Global, text: &mut Vec<u8>, attrs: &Attrs) -> Result<(), AllocError>
    ensures { OnOk result
        (text.new.items ≡ text.old.items
        ++ (compact_text (object (attribute_members attrs.now)) ++ codes "}")) }
{
    if attrs.pairs().is_empty() {
        return text.extend_from_slice("{}}".as_bytes());
    }
    text.push(b'{')?;
    let mut comma = "";
    for (name, value) in attrs.pairs() {
        push_attribute(alloc, text, comma, name, value)?;
        comma = ",";
    }
    text.extend_from_slice("}}".as_bytes())
}

// Appends an attribute, after what is put between it and the one before.
fn push_attribute(
    alloc: Global,
    text: &mut Vec<u8>,
    comma: &str,
    name: &str,
    value: &[u8],
) -> Result<(), AllocError>
    ensures { OnOk result
        (text.new.items ≡ text.old.items ++ (comma.now ++ attribute_text (name.now, value.now))) }
{
    let digits = hex::encode(alloc, value)?;
    push_text(alloc, text, comma, name)?;
    push_text(alloc, text, ":", digits.as_str())
}
