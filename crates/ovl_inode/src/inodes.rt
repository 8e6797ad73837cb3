//! What an inode has, and what of it is visible. It must not know its path.
ghost use Rattle.std.specs.Prelude.{◌≡◌, IfOk, string_bytes};
ghost use Rattle.std.specs.Cmp.{partial_equiv_from_equiv};
ghost use Rattle.std.specs.Cmp.Lexicographic.{nat_list_eq_equiv};
ghost use Rattle.std.specs.Str.{bytes_eq};
ghost use Rattle.ovl_inode.specs.Sound.{is_sound_inode, is_sound_kind, has_sound_blob, is_target};
ghost use Rattle.ovl_inode.specs.Kinds.{kind_word, size_of};
ghost use Rattle.ovl_inode.specs.Kinds as kinds;
ghost use Rattle.ovl_inode.specs.Inodes.{plain_inode, inode_with};
ghost use Rattle.ovl_inode.specs.Inodes as inodes;
ghost use Rattle.ovl_inode.specs.Equal.{kind_eq, inode_eq};
ghost use Rattle.ovl_inode.specs.EqualLaws.{kind_eq_equiv, inode_eq_equiv};

use crate::{Attrs, Digest, overlay};
use std::alloc::{AllocError, Global};
use std::marker::Model;

/// The greatest mode: permission bits, set-user-ID, set-group-ID and sticky bit.
pub const MODE_LIMIT: u16 = 4095;

/// The most nanoseconds of a time past its second.
pub const NSEC_LIMIT: u32 = 999_999_999;

/// The most bytes of a file.
pub const SIZE_LIMIT: u64 = 9_223_372_036_854_775_807;

/// The most bytes of a symlink's target.
pub const TARGET_LIMIT: usize = 4095;

/// The target of a symlink.
#[derive(Debug, Drop)]
pub struct Target {
    text: String,
}

impl Model for Target {
    ghost use Rattle.std.specs.Prelude.{ℕ, List, string_bytes};

    ghost Value = { List ℕ };

    ghost view = { λ a. string_bytes a.text };
}

impl Target {
    /// The target's text.
    pub fn as_str(&self) -> &str
        ensures { result.now ≡ self.now }
    {
        self.text.as_str()
    }

    /// A target equal to this one; fails only when out of memory.
    pub fn copy(&self, alloc: Global) -> Result<Target, AllocError>
        ensures { IfOk result (λ target. target ≡ self.now) }
    {
        Ok(Target {
            text: String::from_str(alloc, self.text.as_str())?,
        })
    }
}

impl PartialEq for Target {
    ghost eq = { bytes_eq };

    ghost laws = { partial_equiv_from_equiv nat_list_eq_equiv };

    fn eq(&self, other: &Target) -> bool {
        self.text.as_bytes() == other.text.as_bytes()
    }
}

impl Eq for Target {
    ghost laws = { nat_list_eq_equiv };
}

impl From<String> for Target {
    ghost from_gives = { λ text target. target ≡ string_bytes text };

    fn from(text: String) -> Target {
        Target { text }
    }
}

/// What an inode is, with what only its kind has.
#[derive(Debug, Drop)]
pub enum Kind {
    /// A directory.
    Dir,
    /// A regular file: its size in bytes, and the digest of its contents where a blob has them.
    File { size: u64, blob: Option<Digest> },
    /// A symbolic link.
    Symlink { target: Target },
    /// A character device.
    Char { major: u32, minor: u32 },
    /// A block device.
    Block { major: u32, minor: u32 },
    /// A named pipe.
    Fifo,
    /// A socket.
    Socket,
}

impl Kind {
    /// The word that manifests and reports have for the kind.
    pub fn word(&self) -> &'static str
        ensures { result.now ≡ kind_word self.now }
    {
        match self {
            Kind::Dir => "dir",
            Kind::File { .. } => "file",
            Kind::Symlink { .. } => "symlink",
            Kind::Char { .. } => "char",
            Kind::Block { .. } => "block",
            Kind::Fifo => "fifo",
            Kind::Socket => "socket",
        }
    }

    /// A kind equal to this one; fails only when out of memory.
    pub fn copy(&self, alloc: Global) -> Result<Kind, AllocError>
        ensures { IfOk result (λ kind. kind ≡ self.now) }
    {
        Ok(match self {
            Kind::Dir => Kind::Dir,
            Kind::File { size, blob } => Kind::File {
                size: *size,
                blob: *blob,
            },
            Kind::Symlink { target } => Kind::Symlink {
                target: target.copy(alloc)?,
            },
            Kind::Char { major, minor } => Kind::Char {
                major: *major,
                minor: *minor,
            },
            Kind::Block { major, minor } => Kind::Block {
                major: *major,
                minor: *minor,
            },
            Kind::Fifo => Kind::Fifo,
            Kind::Socket => Kind::Socket,
        })
    }
}

impl PartialEq for Kind {
    ghost eq = { kind_eq };

    ghost laws = { partial_equiv_from_equiv kind_eq_equiv };

    fn eq(&self, other: &Kind) -> bool {
        match (self, other) {
            (Kind::Dir, Kind::Dir) | (Kind::Fifo, Kind::Fifo) | (Kind::Socket, Kind::Socket) =>
                true,
            (
                Kind::File { size, blob },
                Kind::File {
                    size: other_size,
                    blob: other_blob,
                },
            ) => size == other_size && blob == other_blob,
            (Kind::Symlink { target }, Kind::Symlink { target: other }) => target == other,
            (
                Kind::Char { major, minor },
                Kind::Char {
                    major: other_major,
                    minor: other_minor,
                },
            ) => major == other_major && minor == other_minor,
            (
                Kind::Block { major, minor },
                Kind::Block {
                    major: other_major,
                    minor: other_minor,
                },
            ) => major == other_major && minor == other_minor,
            _ => false,
        }
    }
}

impl Eq for Kind {
    ghost laws = { kind_eq_equiv };
}

/// The inode of an entry: its kind, permission bits, owner, modification time and extended
/// attributes.
#[derive(Debug, Drop)]
pub struct Inode {
    /// The kind of the inode, with what only that kind has.
    pub kind: Kind,
    /// Permission bits, set-user-ID, set-group-ID and sticky bit; at most [`MODE_LIMIT`] where it
    /// is sound.
    pub mode: u16,
    /// The owner's number.
    pub uid: u32,
    /// The owning group's number.
    pub gid: u32,
    /// The nanoseconds of the modification time past its second; at most [`NSEC_LIMIT`] where it is
    /// sound.
    pub nsec: u32,
    /// The time of the last modification, in whole seconds from the start of 1970 in UTC, rounded
    /// down.
    pub mtime: i64,
    /// The extended attributes.
    pub attrs: Attrs,
}

impl Inode {
    /// The inode of this kind, mode and attributes; its owner, its group and its time are 0.
    pub fn plain(kind: Kind, mode: u16, attrs: Attrs) -> Inode
        ensures { result ≡ plain_inode kind mode attrs }
    {
        Inode {
            kind,
            mode,
            uid: 0,
            gid: 0,
            mtime: 0,
            nsec: 0,
            attrs,
        }
    }

    /// An inode equal to this one; fails only when out of memory.
    pub fn copy(&self, alloc: Global) -> Result<Inode, AllocError>
        ensures { IfOk result (λ inode. inode ≡ self.now) }
    {
        Ok(self.with(self.kind.copy(alloc)?, self.attrs.copy(alloc)?))
    }

    /// The inode with this kind and these attributes; the rest is as here.
    pub fn with(&self, kind: Kind, attrs: Attrs) -> Inode
        ensures { result ≡ inode_with self.now kind attrs }
    {
        Inode {
            kind,
            mode: self.mode,
            uid: self.uid,
            gid: self.gid,
            mtime: self.mtime,
            nsec: self.nsec,
            attrs,
        }
    }
}

impl PartialEq for Inode {
    ghost eq = { inode_eq };

    ghost laws = { partial_equiv_from_equiv inode_eq_equiv };

    fn eq(&self, other: &Inode) -> bool {
        self.kind == other.kind
            && self.mode == other.mode
            && self.uid == other.uid
            && self.gid == other.gid
            && self.mtime == other.mtime
            && self.nsec == other.nsec
            && self.attrs == other.attrs
    }
}

impl Eq for Inode {
    ghost laws = { inode_eq_equiv };
}

/// The size of a regular file in bytes, and 0 for every other kind.
pub fn file_size(inode: &Inode) -> u64
    ensures { result ≡ size_of inode.now }
{
    match &inode.kind {
        Kind::File { size, .. } => *size,
        _ => 0,
    }
}

/// The digest that a regular file names as its contents, if it names one.
pub fn blob_of(inode: &Inode) -> Option<Digest>
    ensures { result ≡ kinds.blob_of inode.now }
{
    match &inode.kind {
        Kind::File { blob, .. } => *blob,
        _ => None,
    }
}

/// The inode as the merged tree shows it: without the attributes whose name begins with
/// `trusted.overlay.`. Fails only when out of memory.
pub fn visible(alloc: Global, inode: &Inode) -> Result<Inode, AllocError>
    ensures { IfOk result (λ shown. shown ≡ inodes.visible inode.now) }
{
    Ok(inode.with(inode.kind.copy(alloc)?, inode.attrs.visible(alloc)?))
}

/// Whether a manifest can state the inode: a mode of at most 4,095; at most 999,999,999
/// nanoseconds; a file of at most 2^63 - 1 bytes, with a blob exactly if it has a size over 0 and
/// no attribute `metacopy`; a symlink's target of 1 to 4,095 bytes without NUL. The types keep the
/// other limits.
pub fn sound(inode: &Inode) -> bool
    ensures { result ≡ is_sound_inode inode.now }
{
    // The types keep the ranges of these numbers, and the attributes as they should be.
    let (_uid, _gid, _mtime) = (inode.uid, inode.gid, inode.mtime);
    let _pairs = inode.attrs.pairs();
    inode.mode <= MODE_LIMIT
        && inode.nsec <= NSEC_LIMIT
        && is_kind_sound(&inode.kind, inode.attrs.get(overlay::METACOPY).is_some())
}

// Whether a manifest can state the kind of an inode that has `metacopy` or hasn't.
fn is_kind_sound(kind: &Kind, has_metacopy: bool) -> bool
    ensures { result ≡ is_sound_kind kind.now has_metacopy }
{
    match kind {
        Kind::File { size, blob } => *size <= SIZE_LIMIT
            && is_blob_sound(*size, *blob, has_metacopy),
        Kind::Symlink { target } => is_target_sound(target.as_str()),
        // The types keep the ranges of these numbers.
        Kind::Char { major, minor } | Kind::Block { major, minor } => {
            let (_major, _minor) = (*major, *minor);
            true
        }
        Kind::Dir | Kind::Fifo | Kind::Socket => true,
    }
}

// Whether a file of this size has a blob exactly if it has a size over 0 and no `metacopy`.
fn is_blob_sound(size: u64, blob: Option<Digest>, has_metacopy: bool) -> bool
    ensures { result ≡ has_sound_blob size blob has_metacopy }
{
    match blob {
        Some(digest) => {
            // The type keeps the ranges of its bytes.
            let _bytes = digest.as_bytes();
            size > 0 && !has_metacopy
        }
        None => size == 0 || has_metacopy,
    }
}

fn is_target_sound(text: &str) -> bool
    ensures { result ≡ is_target text.now }
{
    !text.is_empty() && text.len() <= TARGET_LIMIT && !text.as_bytes().contains(&0)
}
