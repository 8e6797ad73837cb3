//! Entries as their texts are written: members in the order of their names, without space.
ghost use Rattle.std.specs.Prelude.{◌≡◌, true, IsTrue, IfSome, Some, ◌++◌};
ghost use Rattle.std.specs.Cow.{cow_str_bytes};
ghost use Rattle.json.specs.Print.{quoted};
ghost use Rattle.serde_json.specs.Data.{object};
ghost use Rattle.serde_json.specs.Written.{compact_text};
ghost use Rattle.ovl_names.specs.Paths.{PathNames, path_text};
ghost use Rattle.ovl_inode.specs.Attributes.{all_before};
ghost use Rattle.ovl_inode.specs.Sound.{is_sound_inode};
ghost use Rattle.ovl_manifest.specs.Text.{attribute_members, entry_value};
ghost use Rattle.ovl_manifest.specs.Compact.{group_text, device_text, word_name, word_text, device_of_word, time_text, before_path, contents_text, back_text, IsKindOf, TakesAttribute};

use crate::compact_texts::Rest;
use crate::fields::put_digits;
use ovl_inode::{Attrs, Digest, Inode, Kind, MODE_LIMIT, NSEC_LIMIT, SIZE_LIMIT, Target, sound};
use std::alloc::Global;
use std::borrow::CowStr;

/// The word of a kind, with the two numbers after that of a device.
#[derive(Clone, Copy)]
pub(crate) enum Word {
    Dir,
    File,
    Symlink,
    Char { major: u32, minor: u32 },
    Block { major: u32, minor: u32 },
    Fifo,
    Socket,
}

/// What an entry has before its path.
#[derive(Clone, Copy)]
pub(crate) struct Front {
    blob: Option<Digest>,
    gid: u32,
    word: Word,
    mode: u16,
    mtime: i64,
    nsec: u32,
}

/// The text of the path and the inode of the entry that comes next.
pub(crate) fn read_entry<'a>(
    alloc: Global,
    rest: &mut Rest<'a>,
) -> Option<(CowStr<'a, Global>, Inode)>
    ensures text { IfSome result
        (λ entry. (path : PathNames) → path_text path ≡ cow_str_bytes entry.0
        → rest.old ≡ compact_text (entry_value (path, entry.1)) ++ rest.new) }
    ensures sound { IfSome result (λ entry. is_sound_inode entry.1 ≡ true) }
{
    let front = read_front(rest)?;
    let path = rest.take_text(alloc)?;
    let kind = read_kind(alloc, rest, front.word, front.blob)?;
    let (uid, attrs) = read_back(alloc, rest)?;
    let inode = Inode {
        kind,
        mode: front.mode,
        uid,
        gid: front.gid,
        mtime: front.mtime,
        nsec: front.nsec,
        attrs,
    };
    if sound(&inode) {
        Some((path, inode))
    } else {
        None
    }
}

// What is before the path of the entry that comes next.
fn read_front(rest: &mut Rest<'_>) -> Option<Front>
    ensures { IfSome result (λ front. rest.old ≡ before_path front rest.new) }
{
    let (blob, gid) = read_group(rest)?;
    let word = read_word(rest)?;
    let mode = rest.take_natural(MODE_LIMIT as u64)?;
    let (mtime, nsec) = read_time(rest)?;
    rest.take(",\"path\":")?;
    Some(Front {
        blob,
        gid,
        word,
        mode: mode as u16,
        mtime,
        nsec,
    })
}

// The end of an entry: the owning user and the attributes.
fn read_back(alloc: Global, rest: &mut Rest<'_>) -> Option<(u32, Attrs)>
    ensures { IfSome result (λ read. rest.old ≡ back_text read.0 read.1 rest.new) }
{
    rest.take(",\"uid\":")?;
    let uid = rest.take_natural(u32::MAX as u64)?;
    rest.take(",\"xattrs\":")?;
    let attrs = read_attributes(alloc, rest)?;
    rest.take("}")?;
    Some((uid as u32, attrs))
}

// The beginning of an entry: the blob, where that member comes first, and the owning group.
fn read_group(rest: &mut Rest<'_>) -> Option<(Option<Digest>, u32)>
    ensures { IfSome result (λ read. rest.old ≡ group_text read.0 read.1 ++ rest.new) }
{
    if rest.take("{\"gid\":").is_some() {
        let gid = rest.take_natural(u32::MAX as u64)?;
        return Some((None, gid as u32));
    }
    rest.take("{\"blob\":")?;
    let digest = rest.take_digest()?;
    rest.take(",\"gid\":")?;
    let gid = rest.take_natural(u32::MAX as u64)?;
    Some((Some(digest), gid as u32))
}

// The word of the kind and the two numbers of a device, up to the mode; most entries are files or
// directories.
fn read_word(rest: &mut Rest<'_>) -> Option<Word>
    ensures { IfSome result (λ word. rest.old ≡ word_text word rest.new) }
{
    if rest.take(",\"kind\":\"file\",\"mode\":").is_some() {
        return Some(Word::File);
    }
    if rest.take(",\"kind\":\"dir\",\"mode\":").is_some() {
        return Some(Word::Dir);
    }
    rest.take(",\"kind\":")?;
    let word = read_rare_word(rest)?;
    rest.take(",\"mode\":")?;
    Some(word)
}

// The word of a kind that few entries have, and the two numbers of a device.
fn read_rare_word(rest: &mut Rest<'_>) -> Option<Word>
    ensures { IfSome result (λ word. rest.old
        ≡ quoted (word_name word) ++ (device_text (device_of_word word) ++ rest.new)) }
{
    match rest.take_string()? {
        "symlink" => Some(Word::Symlink),
        "char" => {
            let (major, minor) = read_device(rest)?;
            Some(Word::Char { major, minor })
        }
        "block" => {
            let (major, minor) = read_device(rest)?;
            Some(Word::Block { major, minor })
        }
        "fifo" => Some(Word::Fifo),
        "socket" => Some(Word::Socket),
        _ => None,
    }
}

// The two numbers of a device.
fn read_device(rest: &mut Rest<'_>) -> Option<(u32, u32)>
    ensures { IfSome result (λ device. rest.old ≡ device_text (Some device) ++ rest.new) }
{
    rest.take(",\"major\":")?;
    let major = rest.take_natural(u32::MAX as u64)?;
    rest.take(",\"minor\":")?;
    let minor = rest.take_natural(u32::MAX as u64)?;
    Some((major as u32, minor as u32))
}

// The time of the last change: its seconds, and the nanoseconds past them.
fn read_time(rest: &mut Rest<'_>) -> Option<(i64, u32)>
    ensures { IfSome result (λ time. rest.old ≡ time_text time.0 time.1 rest.new) }
{
    rest.take(",\"mtime\":")?;
    let seconds = rest.take_integer()?;
    rest.take(",\"mtime-nsec\":")?;
    let nsec = rest.take_natural(u64::from(NSEC_LIMIT))?;
    Some((seconds, nsec as u32))
}

// The kind of this word, with the blob that was read and the member after `path`.
fn read_kind(alloc: Global, rest: &mut Rest<'_>, word: Word, blob: Option<Digest>) -> Option<Kind>
    ensures kind { IfSome result (λ kind. IsKindOf word blob kind) }
    ensures contents { IfSome result (λ kind. rest.old ≡ contents_text kind ++ rest.new) }
{
    match (word, blob) {
        (Word::File, blob) => {
            rest.take(",\"size\":")?;
            let size = rest.take_natural(SIZE_LIMIT)?;
            Some(Kind::File { size, blob })
        }
        (Word::Symlink, None) => {
            rest.take(",\"target\":")?;
            let text = rest.take_text(alloc)?;
            let Ok(own) = text.into_owned(alloc) else {
                return None;
            };
            Some(Kind::Symlink {
                target: Target::from(own),
            })
        }
        (Word::Char { major, minor }, None) => Some(Kind::Char { major, minor }),
        (Word::Block { major, minor }, None) => Some(Kind::Block { major, minor }),
        (Word::Dir, None) => Some(Kind::Dir),
        (Word::Fifo, None) => Some(Kind::Fifo),
        (Word::Socket, None) => Some(Kind::Socket),
        _ => None,
    }
}

// The attributes, in the order of their names.
fn read_attributes(alloc: Global, rest: &mut Rest<'_>) -> Option<Attrs>
    ensures { IfSome result
        (λ attrs. rest.old ≡ compact_text (object (attribute_members attrs)) ++ rest.new) }
{
    let mut attrs = Attrs::new(alloc);
    if rest.take("{}").is_some() {
        return Some(attrs);
    }
    rest.take("{")?;
    read_attribute(alloc, rest, &mut attrs)?;
    'attributes: while rest.take(",").is_some() {
        read_attribute(alloc, rest, &mut attrs)?;
    }
    rest.take("}")?;
    Some(attrs)
}

// Puts the attribute that comes next after the others, if its name comes after theirs.
fn read_attribute(alloc: Global, rest: &mut Rest<'_>, attrs: &mut Attrs) -> Option<()>
    ensures { IfSome result (λ _. TakesAttribute rest.old attrs.old rest.new attrs.new) }
{
    let text = rest.take_text(alloc)?;
    let name = text.as_str();
    if !are_before(attrs, name) {
        return None;
    }
    rest.take(":")?;
    let digits = rest.take_string()?;
    match put_digits(alloc, attrs, name, digits) {
        Ok(true) => Some(()),
        _ => None,
    }
}

// Whether the names of all attributes come before this one.
fn are_before(attrs: &Attrs, name: &str) -> bool
    ensures { IsTrue result → IsTrue (all_before attrs.now name.now) }
{
    match attrs.pairs().next_back() {
        Some((last, _)) => last.as_bytes().cmp(name.as_bytes()).is_lt(),
        None => true,
    }
}
