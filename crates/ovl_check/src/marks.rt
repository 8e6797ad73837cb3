//! What the check asks of one inode or its mark. It must not know layers.
ghost use Rattle.std.specs.Prelude.{◌≡◌, ◌||◌, Some};
ghost use Rattle.ovl_inode.specs.Marks as marks;
ghost use Rattle.ovl_lookup.specs.Sound as sound;
ghost use Rattle.ovl_check.specs.Conditions as conditions;
ghost use Rattle.ovl_check.specs.Facts.{is_quiet_mark, opaque_says_nothing, redirect_says_nothing, mark_says_nothing};

use ovl_inode::{Inode, Kind, Mark, is_directory, overlay};

/// Whether an inode has an attribute of this name.
pub(crate) fn has_attribute(inode: &Inode, name: &str) -> bool
    ensures { result ≡ marks.has_attribute inode.now name.now }
{
    inode.attrs.get(name).is_some()
}

/// Whether an inode has an attribute of this name with this value.
pub(crate) fn attribute_is(inode: &Inode, name: &str, value: &[u8]) -> bool
    ensures { result ≡ marks.attribute_is inode.now name.now value.now }
{
    match inode.attrs.get(name) {
        Some(found) => found == value,
        None => false,
    }
}

/// Whether the mark is that of a directory that hides nothing.
pub(crate) fn is_plain(mark: &Mark) -> bool
    ensures { result ≡ sound.is_plain (Some mark.now) }
{
    matches!(mark, Mark::DirPlain)
}

/// Whether the mark is one that entries without attributes have.
pub(crate) fn is_quiet(mark: &Mark) -> bool
    ensures { result ≡ is_quiet_mark mark.now }
{
    matches!(mark, Mark::Leaf | Mark::DirPlain)
}

/// Whether the mark is that of a malformed redirect.
pub(crate) fn is_malformed(mark: &Mark) -> bool
    ensures { result ≡ sound.is_malformed (Some mark.now) }
{
    matches!(mark, Mark::DirBad | Mark::MetaBad)
}

/// Whether at least one attribute of an entry of this mark, which may be the root, says nothing.
pub(crate) fn mark_is_ignored(is_root: bool, inode: &Inode, mark: &Mark) -> bool
    ensures { result ≡ mark_says_nothing is_root inode.now mark.now }
{
    opaque_is_ignored(is_root, inode)
        || redirect_is_ignored(is_root, inode, mark)
        || metacopy_is_ignored(inode, mark)
        || whiteout_is_ignored(inode)
}

fn opaque_is_ignored(is_root: bool, inode: &Inode) -> bool
    ensures { result ≡ opaque_says_nothing is_root inode.now }
{
    has_attribute(inode, overlay::OPAQUE)
        && (!is_directory(inode)
            || !(attribute_is(inode, overlay::OPAQUE, b"y")
                || attribute_is(inode, overlay::OPAQUE, b"x"))
            || (attribute_is(inode, overlay::OPAQUE, b"y") && is_root))
}

fn redirect_is_ignored(is_root: bool, inode: &Inode, mark: &Mark) -> bool
    ensures { result ≡ redirect_says_nothing is_root inode.now mark.now }
{
    has_attribute(inode, overlay::REDIRECT)
        && (is_root
            || matches!(mark, Mark::DirOpaque)
            || (!is_directory(inode) && !is_any_meta(mark)))
}

fn metacopy_is_ignored(inode: &Inode, mark: &Mark) -> bool
    ensures { result ≡ conditions.metacopy_is_ignored inode.now (Some mark.now) }
{
    has_attribute(inode, overlay::METACOPY) && !is_any_meta(mark)
}

fn whiteout_is_ignored(inode: &Inode) -> bool
    ensures { result ≡ conditions.whiteout_is_ignored inode.now }
{
    has_attribute(inode, overlay::WHITEOUT) && !is_empty_file(inode)
}

fn is_any_meta(mark: &Mark) -> bool
    ensures { result ≡ conditions.is_any_meta (Some mark.now) }
{
    matches!(mark, Mark::Meta(_) | Mark::MetaBad)
}

fn is_empty_file(inode: &Inode) -> bool
    ensures { result ≡ conditions.is_empty_file inode.now }
{
    match &inode.kind {
        Kind::File { size, .. } => *size == 0,
        _ => false,
    }
}
