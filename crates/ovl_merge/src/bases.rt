//! Where the names of a directory lie below the two layers.
ghost use Rattle.std.specs.Prelude.{◌≡◌, ◌<◌, true, length, IfOk};
ghost use Rattle.ovl_names.specs.Paths.{PathNames};
ghost use Rattle.ovl_lookup.specs.ShownKinds.{shown_kind_of};
ghost use Rattle.ovl_lookup.specs.Words.{look_on};
ghost use Rattle.ovl_merge.specs.Places.{merge_of, shows_own_directory, reach, child_of, base, shows_at};
ghost use Rattle.ovl_merge.specs.Directories.{base_names};
ghost use Rattle.ovl_merge.specs.Reckoned.{IsBase, next_lookup_at, reach_from};

use crate::directories::{Directory, next_lookup_of};
use crate::stands::Stand;
use ovl_lookup::{DirView, ShownKind, Stack};
use ovl_names::Name;
use std::alloc::{AllocError, Global};

/// Where the names in a directory lie in the rest, which is what lies below the two layers.
#[derive(Drop)]
pub(crate) enum Base<'a> {
    // In the directory of the rest in which it goes on.
    Reached(DirView<'a>),
    // Where the rest shows no directory.
    Apart,
}

impl<'a> Base<'a> {
    /// The base of a directory that the two layers show, by where its walk in the lower one stands.
    pub(crate) fn of(
        alloc: Global,
        stack: &'a Stack,
        lower: &Option<Stand<'a>>,
    ) -> Result<Base<'a>, AllocError>
        requires { 1 < length stack.now.layers }
        ensures { IfOk result (λ own. (dir : PathNames)
            → shows_own_directory (merge_of stack.now) dir ≡ true
            → reach (merge_of stack.now) dir
            ≡ reach_from (merge_of stack.now).rest (next_lookup_at lower.now)
            → IsBase stack.now dir own) }
    {
        // Each layer of a stack is one.
        let _layers = stack.ordinary();
        let Some(next) = next_lookup_of(lower) else {
            return Ok(Base::Apart);
        };
        match DirView::at(alloc, stack, 2, next.copy(alloc)?)? {
            Some(view) => Ok(Base::Reached(view)),
            None => Ok(Base::Apart),
        }
    }
}

impl<'a> Directory<'a> {
    /// The kind of what the rest shows at a name in the directory.
    pub(crate) fn shown_kind(&self, stack: &Stack, name: &Name) -> ShownKind
        requires several { 1 < length stack.now.layers }
        requires base { IsBase stack.now self.now.path self.now.base }
        ensures { result
            ≡ shown_kind_of
            (look_on (merge_of stack.now).rest
            (child_of (base (merge_of stack.now) self.now.path) name.now)) }
    {
        // Each layer of a stack is one.
        let _layers = stack.ordinary();
        match &self.base {
            Base::Reached(view) => view.shown_kind(stack, name),
            Base::Apart => ShownKind::Nothing,
        }
    }

    /// Whether the rest shows something at a name in the directory.
    pub(crate) fn shows(&self, stack: &Stack, name: &Name) -> bool
        requires several { 1 < length stack.now.layers }
        requires base { IsBase stack.now self.now.path self.now.base }
        ensures { result
            ≡ shows_at (merge_of stack.now).rest
            (child_of (base (merge_of stack.now) self.now.path) name.now) }
    {
        // Each layer of a stack is one.
        let _layers = stack.ordinary();
        match &self.base {
            Base::Reached(view) => view.shows(stack, name),
            Base::Apart => false,
        }
    }

    /// The names in the directory at which the rest shows something.
    pub(crate) fn rest_names(&self, alloc: Global, stack: &Stack) -> Result<Vec<Name>, AllocError>
        requires several { 1 < length stack.now.layers }
        requires base { IsBase stack.now self.now.path self.now.base }
        ensures { IfOk result
            (λ names. names.items
            ≡ base_names (merge_of stack.now).rest (base (merge_of stack.now) self.now.path)) }
    {
        // Each layer of a stack is one.
        let _layers = stack.ordinary();
        match &self.base {
            Base::Reached(view) => view.names(alloc, stack),
            Base::Apart => Ok(Vec::new(alloc)),
        }
    }
}
