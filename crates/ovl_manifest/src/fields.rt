//! An entry from the value of its object. It must not know other entries.
ghost use Rattle.std.specs.Prelude.{◌≡◌, ◌≤◌, false, Some, None, IfOk, IfSome, MatchBool, [], ◌++◌, codes, map, is_some};
ghost use Rattle.std.specs.Option.{option_map};
ghost use Rattle.std.specs.List.{list_all};
ghost use Rattle.std.specs.Str.{bytes_eq};
ghost use Rattle.serde_json.specs.Data.{string};
ghost use Rattle.serde_json.specs.Find.{get};
ghost use Rattle.serde_json.specs.View.{view, members_view};
ghost use Rattle.ovl_manifest.specs.Fields.{text_field, natural_field, seconds_field, nsec_field, path_field, attribute_after, attributes_after, attributes_field, blob_field, file_kind, kind_named, kind_field, inode_with, inode_field, entry_of};
ghost use Rattle.ovl_manifest.specs.Fields as fields;

use crate::versions::Version;
use hex::FromHexError;
use ovl_inode::{
    AttrFault, Attrs, Digest, Inode, Kind, MODE_LIMIT, NSEC_LIMIT, SIZE_LIMIT, Target,
    are_lower_digits, sound,
};
use ovl_names::{Path, PathFault};
use serde_json::{Map, Value};
use std::alloc::{AllocError, Global};

/// The entry that a member of `entries` states, and `None` where it states none.
pub(crate) fn read_entry(
    alloc: Global,
    version: Version,
    value: &Value,
) -> Result<Option<(Path, Inode)>, AllocError>
    ensures { IfOk result (λ entry. entry ≡ entry_of version (view value.now)) }
{
    let Some(path) = read_path(alloc, version, value)? else {
        return Ok(None);
    };
    let Some(inode) = read_inode(alloc, version, value)? else {
        return Ok(None);
    };
    let own = own_members(&inode.kind);
    if has_exactly(value, own, version.common_members()) && sound(&inode) {
        Ok(Some((path, inode)))
    } else {
        Ok(None)
    }
}

fn read_path(alloc: Global, version: Version, value: &Value) -> Result<Option<Path>, AllocError>
    ensures { IfOk result (λ path. path ≡ path_field version (view value.now)) }
{
    // Made by hand (2): out of memory while a path is read; every other fault is a wrong member.
    let Some(text) = text(value, "path") else {
        return Ok(None);
    };
    match Path::parse(alloc, text) {
        Ok(path) if path.len() <= version.depth() => Ok(Some(path)),
        Ok(_) => Ok(None),
        Err(PathFault::Memory) => Err(AllocError),
        Err(_) => Ok(None),
    }
}

fn read_inode(alloc: Global, version: Version, value: &Value) -> Result<Option<Inode>, AllocError>
    ensures { IfOk result (λ inode. inode ≡ inode_field version (view value.now)) }
{
    let Some(kind) = read_kind(alloc, value)? else {
        return Ok(None);
    };
    let Some(attrs) = read_attributes(alloc, value)? else {
        return Ok(None);
    };
    Ok(inode_of(version, kind, attrs, value))
}

// The inode of a kind and attributes, with the numbers that the object states.
fn inode_of(version: Version, kind: Kind, attrs: Attrs, value: &Value) -> Option<Inode>
    ensures { result ≡ inode_with version kind attrs (view value.now) }
{
    let mode = natural(value, "mode", MODE_LIMIT as u64)?;
    let uid = natural(value, "uid", u32::MAX as u64)?;
    let gid = natural(value, "gid", u32::MAX as u64)?;
    let mtime = seconds(value, "mtime")?;
    let nsec = nanoseconds(version, value)?;
    Some(Inode {
        kind,
        mode: mode as u16,
        uid: uid as u32,
        gid: gid as u32,
        mtime,
        nsec,
        attrs,
    })
}

fn read_kind(alloc: Global, value: &Value) -> Result<Option<Kind>, AllocError>
    ensures { IfOk result (λ kind. kind ≡ kind_field (view value.now)) }
{
    let Some(name) = text(value, "kind") else {
        return Ok(None);
    };
    if name == "symlink" {
        return read_symlink(alloc, value);
    }
    Ok(plain_kind(name, value))
}

fn read_symlink(alloc: Global, value: &Value) -> Result<Option<Kind>, AllocError>
    ensures { IfOk result (λ kind. kind ≡ kind_named (view value.now) (codes "symlink")) }
{
    let Some(text) = text(value, "target") else {
        return Ok(None);
    };
    let target = Target::from(String::from_str(alloc, text)?);
    Ok(Some(Kind::Symlink { target }))
}

// Every kind but a symlink.
fn plain_kind(name: &str, value: &Value) -> Option<Kind>
    requires { bytes_eq name.now (codes "symlink") ≡ false }
    ensures { result ≡ kind_named (view value.now) name.now }
{
    if name == "dir" {
        Some(Kind::Dir)
    } else if name == "file" {
        read_file(value)
    } else if name == "char" {
        let major = natural(value, "major", u32::MAX as u64)?;
        let minor = natural(value, "minor", u32::MAX as u64)?;
        Some(Kind::Char {
            major: major as u32,
            minor: minor as u32,
        })
    } else if name == "block" {
        let major = natural(value, "major", u32::MAX as u64)?;
        let minor = natural(value, "minor", u32::MAX as u64)?;
        Some(Kind::Block {
            major: major as u32,
            minor: minor as u32,
        })
    } else if name == "fifo" {
        Some(Kind::Fifo)
    } else if name == "socket" {
        Some(Kind::Socket)
    } else {
        None
    }
}

fn read_file(value: &Value) -> Option<Kind>
    ensures { result ≡ file_kind (view value.now) }
{
    let size = natural(value, "size", SIZE_LIMIT)?;
    let blob = read_blob(value)?;
    Some(Kind::File { size, blob })
}

fn read_blob(value: &Value) -> Option<Option<Digest>>
    ensures { result ≡ blob_field (view value.now) }
{
    let Some(blob) = value.get("blob") else {
        return Some(None);
    };
    match Digest::parse(blob.as_str()?) {
        Ok(digest) => Some(Some(digest)),
        Err(_) => None,
    }
}

// A text.
fn text<'a>(value: &'a Value, name: &str) -> Option<&'a str>
    ensures { option_map (λ text. text.now) result ≡ text_field name.now (view value.now) }
{
    value.get(name)?.as_str()
}

// A whole number from 0 to a limit.
fn natural(value: &Value, name: &str, limit: u64) -> Option<u64>
    ensures value { result ≡ natural_field name.now limit (view value.now) }
    ensures bound { IfSome result (λ number. number ≤ limit) }
{
    let number = value.get(name)?.as_number()?.as_u64()?;
    if number <= limit { Some(number) } else { None }
}

// Whole seconds.
fn seconds(value: &Value, name: &str) -> Option<i64>
    ensures { result ≡ seconds_field name.now (view value.now) }
{
    value.get(name)?.as_number()?.as_i64()
}

// Nanoseconds past the second; none are stated in the first version.
fn nanoseconds(version: Version, value: &Value) -> Option<u32>
    ensures { result ≡ nsec_field version (view value.now) }
{
    match version {
        Version::One => Some(0),
        Version::Two => {
            let number = natural(value, "mtime-nsec", u64::from(NSEC_LIMIT))?;
            Some(number as u32)
        }
    }
}

fn read_attributes(alloc: Global, value: &Value) -> Result<Option<Attrs>, AllocError>
    ensures { IfOk result (λ attrs. attrs ≡ attributes_field (view value.now)) }
{
    let Some(value) = value.get("xattrs") else {
        return Ok(None);
    };
    match value.as_object() {
        Some(members) => read_members(alloc, members),
        None => Ok(None),
    }
}

// The attributes that the members of an object state.
fn read_members(alloc: Global, members: &Map<String, Value>) -> Result<Option<Attrs>, AllocError>
    ensures { IfOk result
        (λ attrs. attrs ≡ attributes_after [] (members_view members.now.entries)) }
{
    let mut attrs = Attrs::new(alloc);
    for (name, value) in members {
        if !put_attribute(alloc, &mut attrs, name.as_str(), value)? {
            return Ok(None);
        }
    }
    Ok(Some(attrs))
}

// Puts the attribute that a member states, and answers false where it states none.
fn put_attribute(
    alloc: Global,
    attrs: &mut Attrs,
    name: &str,
    value: &Value,
) -> Result<bool, AllocError>
    ensures { IfOk result (λ put. MatchBool put
        (attribute_after attrs.old name.now (view value.now) ≡ Some attrs.new)
        (attribute_after attrs.old name.now (view value.now) ≡ None)) }
{
    match value.as_str() {
        Some(digits) => put_digits(alloc, attrs, name, digits),
        None => Ok(false),
    }
}

/// Puts the attribute of this name and of the value that digits spell, and answers false where they
/// state none.
pub(crate) fn put_digits(
    alloc: Global,
    attrs: &mut Attrs,
    name: &str,
    digits: &str,
) -> Result<bool, AllocError>
    ensures { IfOk result (λ put. MatchBool put
        (attribute_after attrs.old name.now (string digits.now) ≡ Some attrs.new)
        (attribute_after attrs.old name.now (string digits.now) ≡ None)) }
{
    // Made by hand (4): out of memory while an attribute is put, or its value decoded; every other
    // fault is a wrong member.
    if !are_lower_digits(digits.as_bytes()) {
        return Ok(false);
    }
    match hex::decode(alloc, digits) {
        Ok(bytes) => match attrs.put(name, bytes.as_slice()) {
            Ok(()) => Ok(true),
            Err(AttrFault::Name) => Ok(false),
            Err(AttrFault::Memory) => Err(AllocError),
        },
        Err(FromHexError::OutOfMemory) => Err(AllocError),
        Err(_) => Ok(false),
    }
}

// The members that only entries of this kind have.
fn own_members(kind: &Kind) -> &'static [&'static str]
    ensures { map (λ name. name.now) result.now ≡ fields.own_members kind.now }
{
    match kind {
        Kind::File { blob: Some(_), .. } => &["blob", "size"],
        Kind::File { blob: None, .. } => &["size"],
        Kind::Symlink { .. } => &["target"],
        Kind::Char { .. } | Kind::Block { .. } => &["major", "minor"],
        Kind::Dir | Kind::Fifo | Kind::Socket => &[],
    }
}

/// Whether the value is an object that has these members and those, each of another name, and no
/// more.
pub(crate) fn has_exactly(value: &Value, own: &[&str], common: &[&str]) -> bool
    ensures { result
        ≡ fields.has_exactly (map (λ name. name.now) own.now ++ map (λ name. name.now) common.now)
        (view value.now) }
{
    let Some(members) = value.as_object() else {
        return false;
    };
    if members.len() != own.len() + common.len() {
        return false;
    }
    has_all(value, own) && has_all(value, common)
}

// Whether the value has a member of each of these names.
fn has_all(value: &Value, names: &[&str]) -> bool
    ensures { result ≡ list_all (λ name. is_some (get name.now (view value.now))) names.now }
{
    names.iter().all(|name| value.get(*name).is_some())
}
