//! What is shown at a path.
ghost use Rattle.std.specs.Prelude.{◌≡◌, ◌&&◌, IfOk};
ghost use Rattle.std.specs.Option.{option_map};
ghost use Rattle.std.specs.Cmp.{partial_equiv_from_equiv};
ghost use Rattle.ovl_inode.specs.Marks.{is_metacopy_mark, is_regular, has_metacopy};
ghost use Rattle.ovl_lookup.specs.Merged.{shown_of, is_nothing, is_shown_directory};
ghost use Rattle.ovl_lookup.specs.Merged as merged;
ghost use Rattle.ovl_lookup.specs.ShownInodes.{inode_shown};
ghost use Rattle.ovl_lookup.specs.Passes.{shown_with};
ghost use Rattle.ovl_lookup.specs.Hits.{IsHitOver, found_of};
ghost use Rattle.ovl_lookup.specs.Equal.{look_eq};
ghost use Rattle.ovl_lookup.specs.Sound as sound;
ghost use Rattle.ovl_lookup.specs.EqualLaws.{look_eq_equiv};

use crate::Stack;
use crate::hits::{Hit, data_of};
use ovl_inode::{Inode, Kind, Mark, is_directory, overlay, visible};
use std::alloc::{AllocError, Global};

/// What a stack shows at a path.
#[derive(Debug, Drop)]
pub enum Look {
    /// Nothing is shown.
    Nothing,
    /// The inode, without the overlay's own attributes; of a metacopy file with the size and blob
    /// of its data.
    Shown(Inode),
    /// A metacopy file whose data is missing: its inode with its own size, and no blob.
    Broken(Inode),
}

impl PartialEq for Look {
    ghost eq = { look_eq };

    ghost laws = { partial_equiv_from_equiv look_eq_equiv };

    fn eq(&self, other: &Look) -> bool {
        match (self, other) {
            (Look::Nothing, Look::Nothing) => true,
            (Look::Shown(one), Look::Shown(other)) => one == other,
            (Look::Broken(one), Look::Broken(other)) => one == other,
            _ => false,
        }
    }
}

impl Eq for Look {
    ghost laws = { look_eq_equiv };
}

impl Look {
    /// Whether nothing is shown.
    pub fn is_nothing(&self) -> bool
        ensures { result ≡ is_nothing self.now }
    {
        matches!(self, Look::Nothing)
    }

    /// Whether a directory is shown.
    pub fn is_shown_directory(&self) -> bool
        ensures { result ≡ is_shown_directory self.now }
    {
        match self {
            Look::Shown(inode) => is_directory(inode),
            Look::Nothing | Look::Broken(_) => false,
        }
    }

    /// The inode that is shown, whole or broken.
    pub fn into_inode(self) -> Option<Inode>
        ensures { result ≡ inode_shown self }
    {
        match self {
            Look::Shown(inode) | Look::Broken(inode) => Some(inode),
            Look::Nothing => None,
        }
    }
}

/// What is shown of the things found, by the first. Fails only when out of memory.
pub(crate) fn look_of<'a>(
    alloc: Global,
    stack: &'a Stack,
    first: Option<Hit<'_, 'a>>,
) -> Result<Look, AllocError>
    requires { IsHitOver stack.now first }
    ensures { IfOk result
        (λ look. look ≡ shown_of stack.now.data_only (found_of stack.now first.entry)) }
{
    let Some(hit) = &first else {
        return Ok(Look::Nothing);
    };
    let inode = hit.found.inode;
    if !lacks_contents(inode) {
        return Ok(Look::Shown(visible(alloc, inode)?));
    }
    let contents = data_of(alloc, stack, first, None)?;
    metacopy_shown(alloc, inode, contents)
}

// What is shown of a metacopy file, by its data.
fn metacopy_shown(
    alloc: Global,
    inode: &Inode,
    contents: Option<&Inode>,
) -> Result<Look, AllocError>
    ensures { IfOk result
        (λ look. look ≡ shown_with inode.now (option_map (λ found. found.now) contents.entry)) }
{
    let shown = visible(alloc, inode)?;
    Ok(match contents {
        Some(contents) => Look::Shown(with_kind(shown, contents.kind.copy(alloc)?)),
        None => Look::Broken(with_kind(shown, without_blob(alloc, &inode.kind)?)),
    })
}

fn with_kind(inode: Inode, kind: Kind) -> Inode
    ensures { result ≡ record inode { kind = kind } }
{
    let mut inode = inode;
    inode.kind = kind;
    inode
}

/// Whether the inode is a regular file with `metacopy`.
pub(crate) fn lacks_contents(inode: &Inode) -> bool
    ensures { result ≡ (is_regular inode.now && has_metacopy inode.now) }
{
    matches!(&inode.kind, Kind::File { .. }) && inode.attrs.get(overlay::METACOPY).is_some()
}

/// Whether the mark is that of a metacopy file whose redirect is absent or well formed.
pub fn is_well_formed_metacopy(mark: &Mark) -> bool
    ensures { result ≡ is_metacopy_mark mark.now }
{
    matches!(mark, Mark::Meta(_))
}

/// Whether the mark is that of a moved directory.
pub fn is_moved(mark: &Mark) -> bool
    ensures { result ≡ sound.is_moved (Some mark.now) }
{
    matches!(mark, Mark::DirMoved(_))
}

fn without_blob(alloc: Global, kind: &Kind) -> Result<Kind, AllocError>
    ensures { IfOk result (λ bare. bare ≡ merged.without_blob kind.now) }
{
    match kind {
        Kind::File { size, .. } => Ok(Kind::File {
            size: *size,
            blob: None,
        }),
        other => other.copy(alloc),
    }
}
