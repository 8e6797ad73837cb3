//! From the facts of an entry to its codes. It must not look into layers.
ghost use Rattle.std.specs.Prelude.{◌≡◌};
ghost use Rattle.ovl_check.specs.Facts as facts;

use crate::findings::Code;
use crate::marks::{attribute_is, is_malformed, is_quiet, mark_is_ignored};
use ovl_blobs::KnownBlobs;
use ovl_inode::{Inode, Kind, Mark, blob_of, file_size, is_directory, overlay};

/// All codes, in their order.
pub(crate) const CODES: [Code; 15] = [
    Code::RedirectForm,
    Code::RedirectLost,
    Code::RedirectKind,
    Code::RedirectDouble,
    Code::RedirectOpen,
    Code::DataMissing,
    Code::DataSize,
    Code::BlobMissing,
    Code::BlobSize,
    Code::BlobDigest,
    Code::OrphanWhiteout,
    Code::WhiteoutInOpaque,
    Code::WhiteoutUnmarked,
    Code::ImpureMissing,
    Code::MarkIgnored,
];

/// The codes on blobs.
pub(crate) const BLOB_CODES: [Code; 3] = [Code::BlobMissing, Code::BlobSize, Code::BlobDigest];

/// What the layers below show at a place.
#[derive(Clone, Copy, Debug)]
pub(crate) enum ThingShown {
    Nothing,
    Directory,
    Other,
}

/// The old place of a moved directory.
#[derive(Clone, Copy, Debug)]
pub(crate) enum OldPlace {
    // The layers below are hidden there.
    Hidden,
    // What the layers below show there, and whether the layer itself doesn't hide it.
    Open { thing: ThingShown, is_seen: bool },
}

/// What the conditions ask of an entry of its kind.
#[derive(Clone, Copy, Debug)]
pub(crate) enum KindFacts {
    // A whiteout in an opaque directory.
    WhiteoutInOpaque,
    // Another whiteout: whether its directory is marked as holding whiteouts by attribute, and
    // whether it hides something.
    Whiteout { is_marked: bool, hides: bool },
    // A moved directory.
    Moved(OldPlace),
    // A metacopy file, with the size of its data, where it has any.
    Metacopy(Option<u64>),
    // Everything else.
    Other,
}

/// The blob that an inode names.
#[derive(Clone, Copy, Debug)]
pub(crate) enum NamedBlob {
    // The inode names no blob.
    Unnamed,
    // The blob isn't among the known ones.
    Missing,
    // Its length, and whether its bytes have another digest.
    Found { length: u64, is_wrong: bool },
}

impl NamedBlob {
    /// The blob that an inode names, by what is known of it.
    pub(crate) fn of(known: &KnownBlobs<'_>, inode: &Inode) -> NamedBlob
        ensures { result ≡ facts.blob_named known.now inode.now }
    {
        let Some(name) = blob_of(inode) else {
            return NamedBlob::Unnamed;
        };
        match known.find(&name) {
            Some(content) => NamedBlob::Found {
                length: content.size,
                is_wrong: !content.is_right,
            },
            None => NamedBlob::Missing,
        }
    }
}

/// What the conditions ask of one entry.
#[derive(Drop)]
pub(crate) struct Facts<'a> {
    pub(crate) is_root: bool,
    pub(crate) inode: &'a Inode,
    pub(crate) mark: &'a Mark,
    pub(crate) kind: KindFacts,
    pub(crate) blob: NamedBlob,
    // Whether the entry is a directory that directly holds an entry with `origin`.
    pub(crate) holds_origin: bool,
}

/// Whether no code can hold of an entry of this inode, mark and blob that holds none with `origin`:
/// it has no attributes, and the blob, if it names one, is right.
pub(crate) fn is_silent(inode: &Inode, mark: &Mark, blob: &NamedBlob) -> bool
    ensures { result ≡ facts.is_silent inode.now mark.now blob.now }
{
    has_quiet_mark(inode, mark) && is_right(blob, file_size(inode))
}

// Whether the inode has no attributes, and the mark is one that such inodes have.
fn has_quiet_mark(inode: &Inode, mark: &Mark) -> bool
    ensures { result ≡ facts.has_quiet_mark inode.now mark.now }
{
    inode.attrs.pairs().is_empty() && is_quiet(mark)
}

impl<'a> Facts<'a> {
    /// Whether no code can hold but those on blobs: of an entry without attributes of which its
    /// kind asks nothing.
    pub(crate) fn is_bare(&self) -> bool
        ensures { result ≡ facts.is_bare self.now }
    {
        has_quiet_mark(self.inode, self.mark) && is_other(&self.kind) && !self.holds_origin
    }

    /// Whether the condition of a code other than redirect-double holds.
    pub(crate) fn tells(&self, code: Code) -> bool
        ensures { result ≡ facts.tells self.now code }
    {
        match code {
            Code::RedirectForm => is_malformed(self.mark),
            Code::RedirectLost => is_lost(&self.kind),
            Code::RedirectKind => is_of_wrong_kind(&self.kind),
            Code::RedirectDouble => false,
            Code::RedirectOpen => is_open(&self.kind),
            Code::DataMissing => lacks_data(&self.kind),
            Code::DataSize => has_data_of_other_size(&self.kind, file_size(self.inode)),
            Code::BlobMissing => is_missing(&self.blob),
            Code::BlobSize => is_of_other_length(&self.blob, file_size(self.inode)),
            Code::BlobDigest => is_wrong(&self.blob),
            Code::OrphanWhiteout => is_orphan(&self.kind),
            Code::WhiteoutInOpaque => is_in_opaque(&self.kind),
            Code::WhiteoutUnmarked => is_unmarked(&self.kind, self.inode),
            Code::ImpureMissing => impure_is_missing(self.inode, self.holds_origin),
            Code::MarkIgnored => mark_is_ignored(self.is_root, self.inode, self.mark),
        }
    }
}

// Whether the entry is a moved directory whose old place is hidden or shows nothing.
fn is_lost(kind: &KindFacts) -> bool
    ensures { result ≡ facts.is_lost kind.now }
{
    matches!(
        kind,
        KindFacts::Moved(
            OldPlace::Hidden
                | OldPlace::Open {
                    thing: ThingShown::Nothing,
                    ..
                }
        )
    )
}

// Whether the entry is a moved directory whose old place shows something else than a directory.
fn is_of_wrong_kind(kind: &KindFacts) -> bool
    ensures { result ≡ facts.is_of_wrong_kind kind.now }
{
    matches!(
        kind,
        KindFacts::Moved(OldPlace::Open {
            thing: ThingShown::Other,
            ..
        })
    )
}

// Whether the entry is a moved directory whose old place the layer itself doesn't hide.
fn is_open(kind: &KindFacts) -> bool
    ensures { result ≡ facts.is_open kind.now }
{
    matches!(kind, KindFacts::Moved(OldPlace::Open { is_seen: true, .. }))
}

// Whether the entry is a metacopy file without data.
fn lacks_data(kind: &KindFacts) -> bool
    ensures { result ≡ facts.lacks_data kind.now }
{
    matches!(kind, KindFacts::Metacopy(None))
}

// Whether the entry is a metacopy file whose data has another size than `size`.
fn has_data_of_other_size(kind: &KindFacts, size: u64) -> bool
    ensures { result ≡ facts.has_data_of_other_size kind.now size }
{
    match kind {
        KindFacts::Metacopy(Some(own)) => *own != size,
        _ => false,
    }
}

// Whether the entry names a blob that isn't there.
fn is_missing(blob: &NamedBlob) -> bool
    ensures { result ≡ facts.is_missing blob.now }
{
    matches!(blob, NamedBlob::Missing)
}

// Whether the blob that an entry names is there and has another length than `size`.
fn is_of_other_length(blob: &NamedBlob, size: u64) -> bool
    ensures { result ≡ facts.is_of_other_length blob.now size }
{
    match blob {
        NamedBlob::Found { length, .. } => *length != size,
        _ => false,
    }
}

// Whether the blob that an entry names is there and its bytes have another digest.
fn is_wrong(blob: &NamedBlob) -> bool
    ensures { result ≡ facts.is_wrong blob.now }
{
    matches!(blob, NamedBlob::Found { is_wrong: true, .. })
}

// Whether the entry is a whiteout that hides nothing, outside an opaque directory.
fn is_orphan(kind: &KindFacts) -> bool
    ensures { result ≡ facts.is_orphan kind.now }
{
    matches!(kind, KindFacts::Whiteout { hides: false, .. })
}

// Whether the entry is a whiteout in an opaque directory.
fn is_in_opaque(kind: &KindFacts) -> bool
    ensures { result ≡ facts.is_in_opaque kind.now }
{
    matches!(kind, KindFacts::WhiteoutInOpaque)
}

// Whether the entry is a whiteout by attribute in a directory that is neither opaque nor marked as
// holding such whiteouts.
fn is_unmarked(kind: &KindFacts, inode: &Inode) -> bool
    ensures { result ≡ facts.is_unmarked kind.now inode.now }
{
    matches!(&inode.kind, Kind::File { .. })
        && matches!(
            kind,
            KindFacts::Whiteout {
                is_marked: false,
                ..
            }
        )
}

// Whether the entry is a directory that holds an entry with `origin` and isn't marked as impure.
fn impure_is_missing(inode: &Inode, holds_origin: bool) -> bool
    ensures { result ≡ facts.impure_is_missing inode.now holds_origin }
{
    is_directory(inode) && !attribute_is(inode, overlay::IMPURE, b"y") && holds_origin
}

// Whether the conditions ask nothing of an entry of its kind.
fn is_other(kind: &KindFacts) -> bool
    ensures { result ≡ facts.is_other kind.now }
{
    matches!(kind, KindFacts::Other)
}

// Whether the blob, if one is named, is there, has this length and the bytes of its name.
fn is_right(blob: &NamedBlob, size: u64) -> bool
    ensures { result ≡ facts.is_right blob.now size }
{
    !is_missing(blob) && !is_of_other_length(blob, size) && !is_wrong(blob)
}
