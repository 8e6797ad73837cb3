//! Of what kind something is that is shown.
ghost use Rattle.std.specs.Prelude.{◌≡◌};
ghost use Rattle.ovl_lookup.specs.declared.looks.Look.{Look};
ghost use Rattle.ovl_lookup.specs.Stacks.{StackView};
ghost use Rattle.ovl_lookup.specs.Merged.{is_nothing, is_shown_directory, shown_of};
ghost use Rattle.ovl_lookup.specs.Hits.{found_of};
ghost use Rattle.ovl_lookup.specs.ShownKinds.{shown_kind_of, shown_kind_of_kind};

use crate::hits::Hit;
use ovl_inode::Kind;

/// The kind of what a stack shows at a path.
#[derive(Clone, Copy, Debug)]
pub enum ShownKind {
    /// Nothing is shown.
    Nothing,
    /// A directory.
    Directory,
    /// A regular file, whole or broken.
    File,
    /// Something else.
    Other,
}

impl ShownKind {
    /// The kind of what is shown of the things found, by the first.
    pub(crate) fn of_first(first: Option<Hit<'_, '_>>) -> ShownKind
        ensures { (stack : StackView) → result
            ≡ shown_kind_of (shown_of stack.data_only (found_of stack first.entry)) }
    {
        match first {
            Some(hit) => ShownKind::of(&hit.found.inode.kind),
            None => ShownKind::Nothing,
        }
    }

    // The kind of what is shown of an inode of this kind.
    fn of(kind: &Kind) -> ShownKind
        ensures { result ≡ shown_kind_of_kind kind.now }
    {
        match kind {
            Kind::Dir => ShownKind::Directory,
            Kind::File { .. } => ShownKind::File,
            _ => ShownKind::Other,
        }
    }

    /// Whether nothing is shown.
    pub fn is_nothing(self) -> bool
        ensures { (look : Look) → self ≡ shown_kind_of look → result ≡ is_nothing look }
    {
        matches!(self, ShownKind::Nothing)
    }

    /// Whether a directory is shown.
    pub fn is_directory(self) -> bool
        ensures { (look : Look) → self ≡ shown_kind_of look → result ≡ is_shown_directory look }
    {
        matches!(self, ShownKind::Directory)
    }
}
