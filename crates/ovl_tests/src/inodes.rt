//! Digests, attributes, redirects, marks, and what is copied or shown of inodes.

use crate::samples::layer_of;
use ovl_inode::{
    Attrs, Digest, Inode, Mark, Redirect, is_directory, is_whiteout, mark_of, read_redirect,
    visible,
};
use ovl_layer::Layer;
use ovl_names::Path;
use ovl_test_rows::{parts_of, repeated, same};
use std::alloc::{AllocError, Global};
use std::test::Fail;

// In a redirect each letter stands for the byte of its number. A mark comes before whether it is
// taken for a whiteout and as a directory.
const ROWS: &str = "\
digest: ca978112ca1bbdcafac231b39a23dc4da786eff8147c4e72b9807785afee48bb -> ca978112ca1bbdcafac231b39a23dc4da786eff8147c4e72b9807785afee48bb
digest: ca978112ca1bbdcafac231b39a23dc4da786eff8147c4e72b9807785afee48b -> the digest has not 64 digits
digest: CA -> the digest has not 64 digits
digest: CA978112CA1BBDCAFAC231B39A23DC4DA786EFF8147C4E72B9807785AFEE48BB -> the digest has a byte that is no lower-case hexadecimal digit
digest: 64*A -> the digest has a byte that is no lower-case hexadecimal digit
value: \u{1} -> 01
attrs: user.k=1 user.l=3 user.a=4 -> user.a user.k user.l
attrs: user.k=1 user.k=2 -> user.k
attr: user.k -> put
attr: 255*a -> put
attr:  -> the attribute's name has not 1 to 255 bytes without NUL
attr: user\0 -> the attribute's name has not 1 to 255 bytes without NUL
attr: 256*a -> the attribute's name has not 1 to 255 bytes without NUL
copied: console /c, disk /d, file /f, link /l user.k=v, fifo /p, socket /s -> 7 entries
copied: dir /n opaque=y -> 2 entries
visible: dir /a opaque=y -> 493\x20
visible: dir /a opaque=y user.k=v -> 493 user.k
redirect: /x/y -> /x/y
redirect: r -> r
redirect:  -> the redirect is empty
redirect: \u{ff} -> the redirect is not UTF-8 text without NUL
redirect: a\0 -> the redirect is not UTF-8 text without NUL
redirect: / -> the redirect has a separator out of place
redirect: /a/ -> the redirect has a separator out of place
redirect: //a -> the redirect has a separator out of place
redirect: a/b -> the redirect has a separator out of place
redirect: /a/.. -> the redirect has a part that is no name
redirect: .. -> the redirect has a part that is no name
redirect: 256*a -> the redirect has a part that is no name
mark: dir /a opaque=y -> DirOpaque false true
mark: dir /a opaque=y redirect=/x -> DirOpaque false true
mark: dir /a opaque=x -> DirPlain false true
mark: dir /a redirect=/x -> DirMoved to /x false true
mark: dir /a redirect=r metacopy= -> DirMoved to r false true
mark: dir /a redirect= -> DirBad false true
mark: whiteout /a -> Whiteout true false
mark: empty /a whiteout= -> Whiteout true false
mark: file /a whiteout= -> Leaf false false
mark: console /a -> Leaf false false
mark: bare /a metacopy= -> Meta(None) false false
mark: bare /a metacopy= redirect=/x -> Meta to /x false false
mark: bare /a metacopy= redirect=a/b -> MetaBad false false
";

// A digest's digits, or what is reported of its fault.
fn digest_told(alloc: Global, text: &str) -> Result<String, AllocError> {
    match Digest::parse(text) {
        Ok(digest) => String::from_str(alloc, digest.digits().as_str()),
        Err(fault) => fault.to_string(alloc),
    }
}

fn names_of(alloc: Global, attrs: &Attrs) -> Result<String, AllocError> {
    let mut names = String::new(alloc);
    for (name, _) in attrs.pairs() {
        if !names.is_empty() {
            names.push_str(" ")?;
        }
        names.push_str(name)?;
    }
    Ok(names)
}

// Whether an attribute is found as it was put, and no other.
fn is_put(attrs: &mut Attrs, word: &str) -> Result<bool, Fail> {
    let (name, value) = word.split_once('=').unwrap_or((word, ""));
    attrs.put(name, value.as_bytes())?;
    Ok(attrs.get(name) == Some(value.as_bytes()) && attrs.get("user.b").is_none())
}

// The names of attributes that are put one after another.
fn attrs_told(alloc: Global, words: &str) -> Result<String, Fail> {
    let mut attrs = Attrs::new(alloc);
    for word in words.split_whitespace() {
        if !is_put(&mut attrs, word)? {
            return Err(Fail::new("an attribute is not as it was put"));
        }
    }
    Ok(names_of(alloc, &attrs)?)
}

// The digits of a value that was put and is got.
fn value_digits(alloc: Global, value: &str) -> Result<String, Fail> {
    let mut attrs = Attrs::new(alloc);
    attrs.put("user.k", value.as_bytes())?;
    Ok(hex::encode(alloc, attrs.get("user.k").unwrap_or(b"none"))?)
}

fn attr_told(alloc: Global, name: &str) -> Result<String, AllocError> {
    let mut attrs = Attrs::new(alloc);
    match attrs.put(name, b"v") {
        Ok(()) => String::from_str(alloc, "put"),
        Err(fault) => fault.to_string(alloc),
    }
}

fn is_copied(alloc: Global, inode: &Inode) -> Result<bool, AllocError> {
    Ok(inode.copy(alloc)? == *inode)
}

// How many entries there are, all of which are copied as they are.
fn copied_told(alloc: Global, entries: &str) -> Result<String, Fail> {
    let entries = layer_of(alloc, entries)?.entries(alloc)?;
    for (_, inode) in &entries {
        if !is_copied(alloc, inode)? {
            return Err(Fail::new("a copy is another inode"));
        }
    }
    Ok(format!(in alloc; "{} entries", entries.len())?)
}

fn inode_at(alloc: Global, layer: &Layer, path: &Path) -> Result<Inode, Fail> {
    match layer.at(path) {
        Some(inode) => Ok(inode.copy(alloc)?),
        None => Err(Fail::new("no entry")),
    }
}

// The inode of the entry at `/a`.
fn inode_of(alloc: Global, entry: &str) -> Result<Inode, Fail> {
    let path = Path::parse(alloc, "/a")?;
    inode_at(alloc, &layer_of(alloc, entry)?, &path)
}

fn shown_mode(alloc: Global, inode: &Inode) -> Result<String, AllocError> {
    let names = names_of(alloc, &inode.attrs)?;
    format!(in alloc; "{} {names}", inode.mode)
}

fn shown_visible(alloc: Global, inode: &Inode) -> Result<String, AllocError> {
    shown_mode(alloc, &visible(alloc, inode)?)
}

// The mode and the names of the attributes that are shown.
fn visible_told(alloc: Global, entry: &str) -> Result<String, Fail> {
    Ok(shown_visible(alloc, &inode_of(alloc, entry)?)?)
}

fn bytes_of(alloc: Global, text: &str) -> Result<Vec<u8>, AllocError> {
    let mut bytes = Vec::new(alloc);
    for letter in text.chars() {
        bytes.push(u8::try_from(u32::from(letter)).unwrap_or(0))?;
    }
    Ok(bytes)
}

fn shown_place(alloc: Global, redirect: &Redirect) -> Result<String, AllocError> {
    match redirect {
        Redirect::To(path) => path.shown(alloc),
        Redirect::Beside(name) => name.shown(alloc),
    }
}

// A path or a name, as reports show it, or what is reported of a redirect's fault.
fn redirect_told(alloc: Global, text: &str) -> Result<String, AllocError> {
    let value = bytes_of(alloc, text)?;
    match read_redirect(alloc, &value) {
        Ok(Redirect::To(path)) => path.shown(alloc),
        Ok(Redirect::Beside(name)) => name.shown(alloc),
        Err(fault) => fault.to_string(alloc),
    }
}

fn word_of(alloc: Global, mark: &Mark) -> Result<String, AllocError> {
    match mark {
        Mark::DirMoved(to) => {
            let to = shown_place(alloc, to)?;
            format!(in alloc; "DirMoved to {to}")
        }
        Mark::Meta(Some(to)) => {
            let to = shown_place(alloc, to)?;
            format!(in alloc; "Meta to {to}")
        }
        other => format!(in alloc; "{other:?}"),
    }
}

fn shown_mark(alloc: Global, inode: &Inode) -> Result<String, AllocError> {
    let word = word_of(alloc, &mark_of(alloc, inode)?)?;
    let (whiteout, directory) = (is_whiteout(inode), is_directory(inode));
    format!(in alloc; "{word} {whiteout} {directory}")
}

fn mark_told(alloc: Global, entry: &str) -> Result<String, Fail> {
    Ok(shown_mark(alloc, &inode_of(alloc, entry)?)?)
}

fn told(alloc: Global, call: &str, text: &str) -> Result<String, Fail> {
    match call {
        "digest" => Ok(digest_told(alloc, text)?),
        "value" => value_digits(alloc, text),
        "attrs" => attrs_told(alloc, text),
        "attr" => Ok(attr_told(alloc, text)?),
        "copied" => copied_told(alloc, text),
        "visible" => visible_told(alloc, text),
        "redirect" => Ok(redirect_told(alloc, text)?),
        "mark" => mark_told(alloc, text),
        _ => Err(Fail::new("no call has this word")),
    }
}

fn row_told(alloc: Global, row: &str) -> Result<(), Fail> {
    let (words, wanted) = parts_of(row);
    let (call, text) = words.split_once(": ").unwrap_or((words, ""));
    let found = told(alloc, call, repeated(alloc, text)?.as_str())?;
    same(row, found.as_str(), wanted)
}

#[test]
fn inodes_and_their_parts_are_told_or_refused_by_their_first_fault(
    rt: HostRuntime,
) -> Result<(), Fail> {
    for row in ROWS.lines() {
        row_told(rt.alloc(), row)?;
    }
    Ok(())
}
