//! What an inode means to the overlay, and where a redirect leads. It must not know layers.
ghost use Rattle.std.specs.Prelude.{◌≡◌, ◌≢◌, ◌∷◌, ◌==◌, length, true, false, None, IfOk, MatchResult};
ghost use Rattle.std.specs.List.{list_any};
ghost use Rattle.std.specs.Str.{is_utf8};
ghost use Rattle.ovl_names.specs.Names.{slash};
ghost use Rattle.ovl_names.specs.Paths.{parts_between};
ghost use Rattle.ovl_inode.specs.declared.marks.RedirectFault.TheVariants.{Memory};
ghost use Rattle.ovl_inode.specs.Redirects.{redirect_fault, redirect_of, redirect_refusal, is_absolute};
ghost use Rattle.ovl_inode.specs.Redirects as redirects;
ghost use Rattle.ovl_inode.specs.Marks.{is_regular};
ghost use Rattle.ovl_inode.specs.Marks as marks;

use crate::{Inode, Kind, overlay};
use ovl_names::{NAME_LIMIT, Name, Path, has_empty_part};
use std::alloc::{AllocError, Global};
use thiserror::Error;

/// Where a directory or a metacopy file was before it was renamed.
#[derive(Debug, Drop)]
pub enum Redirect {
    /// The path from the root of the overlay.
    To(Path),
    /// The name in the same directory.
    Beside(Name),
}

/// Why the value of a `redirect` is malformed; where several hold, the first of them is given.
#[derive(Clone, Copy, Debug, PartialEq, Eq, Error)]
pub enum RedirectFault {
    /// It has no bytes.
    #[error("the redirect is empty")]
    Empty,
    /// It is no UTF-8 text, or holds NUL.
    #[error("the redirect is not UTF-8 text without NUL")]
    Text,
    /// It has an empty part, or is a name beside that holds `/`.
    #[error("the redirect has a separator out of place")]
    Slash,
    /// A part is `.` or `..`, or has more than [`NAME_LIMIT`] bytes.
    #[error("the redirect has a part that is no name")]
    Part,
    /// Out of memory.
    #[error("out of memory")]
    Memory,
}

impl From<AllocError> for RedirectFault {
    ghost from_gives = { λ _ fault. fault ≡ Memory };

    fn from(_: AllocError) -> RedirectFault {
        RedirectFault::Memory
    }
}

/// What an inode means to the overlay: the first of these that holds. overlayfs.rst: "whiteouts and
/// opaque directories", "renaming directories", "Metadata only copy up".
#[derive(Debug, Drop)]
pub enum Mark {
    /// A char device 0:0, or an empty regular file with the attribute `whiteout`.
    Whiteout,
    /// A directory whose `opaque` is `y`.
    DirOpaque,
    /// A directory with a `redirect`.
    DirMoved(Redirect),
    /// A directory with a malformed `redirect`.
    DirBad,
    /// Every other directory.
    DirPlain,
    /// A regular file with `metacopy`, and its `redirect` if there is one.
    Meta(Option<Redirect>),
    /// A regular file with `metacopy` and a malformed `redirect`.
    MetaBad,
    /// Everything else.
    Leaf,
}

/// What the value of a `redirect` says: one that begins with `/` is a path from the root of the
/// overlay, every other a name in the same directory. Otherwise the first fault in the order of
/// [`RedirectFault`], each looked for in the whole value before the next. A path may have any
/// number of names. overlayfs.rst: "renaming directories"; that a name lies beside the directory,
/// and which values are malformed, is this profile's.
///
/// The path or the name as reports show it, or the text of the fault:
///
/// ```
/// match read_redirect(alloc, &value) {
///     Ok(Redirect::To(path)) => path.shown(alloc),
///     Ok(Redirect::Beside(name)) => name.shown(alloc),
///     Err(fault) => fault.to_string(alloc),
/// }
/// ```
pub fn read_redirect(alloc: Global, value: &[u8]) -> Result<Redirect, RedirectFault>
    ensures { MatchResult result
        (λ redirect. (redirect ≡ redirect_of value.now) × (redirect_fault value.now ≡ None))
        (λ fault. redirect_fault value.now ≡ redirect_refusal fault) }
{
    if value.is_empty() {
        return Err(RedirectFault::Empty);
    }
    let Ok(text) = std::str::from_utf8(value) else {
        return Err(RedirectFault::Text);
    };
    if value.contains(&0) {
        return Err(RedirectFault::Text);
    }
    match text.strip_prefix('/') {
        Some(rest) => match path_to(alloc, rest) {
            Ok(path) => Ok(Redirect::To(path)),
            Err(fault) => Err(fault),
        },
        None => match name_beside(alloc, text) {
            Ok(name) => Ok(Redirect::Beside(name)),
            Err(fault) => Err(fault),
        },
    }
}

// The path that an absolute value spells, by what comes after its first separator.
fn path_to(alloc: Global, rest: &str) -> Result<Path, RedirectFault>
    requires utf8 { is_utf8 (slash ∷ rest.now) ≡ true }
    requires no_nul { list_any (λ byte. byte == 0) (slash ∷ rest.now) ≡ false }
    ensures { MatchResult result
        (λ path. (path ≡ parts_between rest.now) × (redirect_fault (slash ∷ rest.now) ≡ None))
        (λ fault. redirect_fault (slash ∷ rest.now) ≡ redirect_refusal fault) }
{
    if has_empty_part(rest) {
        return Err(RedirectFault::Slash);
    }
    if has_bad_part(rest) {
        return Err(RedirectFault::Part);
    }
    // Each part is a name: it isn't empty, holds no NUL and isn't bad.
    Ok(Path::of_names(alloc, rest)?)
}

fn has_bad_part(rest: &str) -> bool
    ensures { result ≡ list_any redirects.is_bad_part (parts_between rest.now) }
{
    rest.split('/').any(|part| is_bad_part(part))
}

// The name that a relative value is.
fn name_beside(alloc: Global, text: &str) -> Result<Name, RedirectFault>
    requires some { length text.now ≢ 0 }
    requires relative { is_absolute text.now ≡ false }
    requires no_nul { list_any (λ byte. byte == 0) text.now ≡ false }
    ensures { MatchResult result
        (λ name. (name ≡ text.now) × (redirect_fault text.now ≡ None))
        (λ fault. redirect_fault text.now ≡ redirect_refusal fault) }
{
    // Made by hand (1): all that makes a text no name was tested, so no other fault of `Name::of`
    // comes.
    if text.as_bytes().contains(&b'/') {
        return Err(RedirectFault::Slash);
    }
    if is_bad_part(text) {
        return Err(RedirectFault::Part);
    }
    // The text is a name: it isn't empty, holds no separator and no NUL, and isn't bad.
    let Ok(name) = Name::of(alloc, text) else {
        return Err(RedirectFault::Memory);
    };
    Ok(name)
}

fn is_bad_part(part: &str) -> bool
    ensures { result ≡ redirects.is_bad_part part.now }
{
    part == "." || part == ".." || part.len() > NAME_LIMIT
}

/// What an inode means to the overlay, see [`Mark`]; fails only when out of memory.
///
/// The old place of a moved directory, or the word of another mark:
///
/// ```
/// match mark_of(alloc, inode)? {
///     Mark::DirMoved(Redirect::To(path)) => path.shown(alloc),
///     Mark::DirMoved(Redirect::Beside(name)) => name.shown(alloc),
///     mark => format!(in alloc; "{mark:?}"),
/// }
/// ```
pub fn mark_of(alloc: Global, inode: &Inode) -> Result<Mark, AllocError>
    ensures { IfOk result (λ mark. mark ≡ marks.mark_of inode.now) }
{
    if is_whiteout(inode) {
        return Ok(Mark::Whiteout);
    }
    match &inode.kind {
        Kind::Dir => directory_mark(alloc, inode),
        Kind::File { .. } => file_mark(alloc, inode),
        _ => Ok(Mark::Leaf),
    }
}

/// Whether the inode hides what lower layers have at its path: a char device 0:0, or a regular file
/// of size 0 with the attribute `trusted.overlay.whiteout` of any value. overlayfs.rst: "whiteouts
/// and opaque directories".
pub fn is_whiteout(inode: &Inode) -> bool
    ensures { result ≡ marks.is_whiteout inode.now }
{
    match &inode.kind {
        Kind::Char { major, minor } => *major == 0 && *minor == 0,
        Kind::File { size, .. } => *size == 0 && inode.attrs.get(overlay::WHITEOUT).is_some(),
        _ => false,
    }
}

/// Whether the inode is a directory.
pub fn is_directory(inode: &Inode) -> bool
    ensures { result ≡ marks.is_directory inode.now }
{
    matches!(&inode.kind, Kind::Dir)
}

/// Whether the inode is a regular file without the attribute `metacopy`, whose contents are its
/// own. overlayfs.rst: "Metadata only copy up".
pub fn is_data(inode: &Inode) -> bool
    ensures { result ≡ marks.is_data inode.now }
{
    matches!(&inode.kind, Kind::File { .. }) && inode.attrs.get(overlay::METACOPY).is_none()
}

fn directory_mark(alloc: Global, inode: &Inode) -> Result<Mark, AllocError>
    requires { marks.is_directory inode.now ≡ true }
    ensures { IfOk result (λ mark. mark ≡ marks.mark_of inode.now) }
{
    if inode.attrs.get(overlay::OPAQUE) == Some(b"y".as_slice()) {
        return Ok(Mark::DirOpaque);
    }
    Ok(match redirect_reading(alloc, inode)? {
        RedirectReading::Absent => Mark::DirPlain,
        RedirectReading::Malformed => Mark::DirBad,
        RedirectReading::Says(redirect) => Mark::DirMoved(redirect),
    })
}

fn file_mark(alloc: Global, inode: &Inode) -> Result<Mark, AllocError>
    requires file { is_regular inode.now ≡ true }
    requires no_whiteout { marks.is_whiteout inode.now ≡ false }
    ensures { IfOk result (λ mark. mark ≡ marks.mark_of inode.now) }
{
    if inode.attrs.get(overlay::METACOPY).is_none() {
        return Ok(Mark::Leaf);
    }
    Ok(match redirect_reading(alloc, inode)? {
        RedirectReading::Absent => Mark::Meta(None),
        RedirectReading::Malformed => Mark::MetaBad,
        RedirectReading::Says(redirect) => Mark::Meta(Some(redirect)),
    })
}

// How the attribute `redirect` of an inode reads.
#[derive(Drop)]
enum RedirectReading {
    Absent,
    Malformed,
    Says(Redirect),
}

fn redirect_reading(alloc: Global, inode: &Inode) -> Result<RedirectReading, AllocError>
    ensures { IfOk result (λ reading. reading ≡ marks.redirect_reading inode.now) }
{
    // Made by hand (2): out of memory while a redirect is read; every other fault is a malformed
    // one.
    let Some(value) = inode.attrs.get(overlay::REDIRECT) else {
        return Ok(RedirectReading::Absent);
    };
    match read_redirect(alloc, value) {
        Ok(redirect) => Ok(RedirectReading::Says(redirect)),
        Err(RedirectFault::Memory) => Err(AllocError),
        Err(
            RedirectFault::Empty | RedirectFault::Text | RedirectFault::Slash | RedirectFault::Part,
        ) => Ok(RedirectReading::Malformed),
    }
}
