//! A directory of the merged tree, found once for all names in it, and what is shown there.
ghost use Rattle.std.specs.Prelude.{◌≡◌, ◌<◌, ◌≤◌, ◌++◌, [], ◌∷◌, if◌then◌else◌, false, None, Some, drop, length, slice_get, IfOk, IfSome, IsSomeAnd, OnErr, OnOk, MatchOption};
ghost use Rattle.std.specs.Option.{option_map};
ghost use Rattle.std.specs.List.{All};
ghost use Rattle.ovl_names.specs.Paths.{child_path};
ghost use Rattle.ovl_lookup.specs.Stacks.{from_layer};
ghost use Rattle.ovl_lookup.specs.Trace.{things_found};
ghost use Rattle.ovl_lookup.specs.Merged.{AreKids, look, shows, shows_directory, shown_of, is_nothing};
ghost use Rattle.ovl_lookup.specs.ShownKinds.{shown_kind_of};
ghost use Rattle.ovl_lookup.specs.Passes.{data_below};
ghost use Rattle.ovl_lookup.specs.Views.{reached, entry_in, found_below, reached_below};
ghost use Rattle.ovl_lookup.specs.ViewPasses.{AreLooks};
ghost use Rattle.ovl_lookup.specs.DirViews.{IsViewOver, IsViewOf, IsPlaceOver, IsEntryIn, AddsPlaces, place_in, places_in};

use crate::hits::{data_of, first_in};
use crate::looks::{lacks_contents, look_of};
use crate::tops::tops_of;
use crate::{Arrival, Look, NextLookup, PathRope, ShownKind, Stack};
use ovl_inode::{Inode, Mark, is_directory, is_whiteout, visible};
use ovl_names::{Name, Path};
use std::alloc::{AllocError, Global};

/// A directory of the merged tree of the layers from one on: where each of them has it that its
/// walks come to. What it is asked is of the stack that it was made over. Of its path no name is
/// copied.
#[derive(Drop)]
pub struct DirView<'a> {
    from: usize,
    path: PathRope<'a>,
    pub(crate) places: Vec<DirPlace>,
}

/// A layer that has the directory, and the number of its row there.
#[derive(Drop)]
pub(crate) struct DirPlace {
    pub(crate) layer: usize,
    pub(crate) row: u32,
}

/// What is at a name in a place.
#[derive(Drop)]
pub(crate) struct PlaceEntry<'a> {
    pub(crate) row: u32,
    pub(crate) inode: &'a Inode,
    pub(crate) mark: &'a Mark,
}

impl DirPlace {
    /// What is at a name there, if something does.
    pub(crate) fn entry<'a>(&self, stack: &'a Stack, name: &Name) -> Option<PlaceEntry<'a>>
        requires { IsPlaceOver stack.now self.now }
        ensures { MatchOption result
            (entry_in stack.now.layers name.now (place_in stack.now self.now) ≡ None)
            (λ entry. IsEntryIn stack.now name.now self.now entry) }
    {
        let sheet = stack.sheet(self.layer);
        let Some(row) = sheet.child(self.row, name.as_str()) else {
            return None;
        };
        Some(PlaceEntry {
            row,
            inode: sheet.inode(row),
            mark: sheet.mark(row),
        })
    }
}

impl<'a> DirView<'a> {
    /// The view of a path of the merged tree of the layers with index `from` and up, and `None`
    /// where they show no directory there; `from` is at most the number of layers that aren't
    /// data-only. Each of these is walked at most once. Fails only when out of memory.
    pub fn of(
        alloc: Global,
        stack: &'a Stack,
        from: usize,
        path: &'a Path,
    ) -> Result<Option<DirView<'a>>, AllocError>
        requires { from ≤ length stack.now.layers }
        ensures { IfOk result (λ found. MatchOption found
            (shows_directory (from_layer from stack.now) path.now ≡ false)
            (λ view. IsViewOf stack.now from path.now view)) }
    {
        let rope = PathRope::of(alloc, &path.names())?;
        DirView::at(alloc, stack, from, rope)
    }

    /// The view of the path of a rope in the merged tree of the layers with index `from` and up,
    /// and `None` if they show no directory there, see [`DirView::of`].
    pub fn at(
        alloc: Global,
        stack: &'a Stack,
        from: usize,
        path: PathRope<'a>,
    ) -> Result<Option<DirView<'a>>, AllocError>
        requires { from ≤ length stack.now.layers }
        ensures { IfOk result (λ found. MatchOption found
            (shows_directory (from_layer from stack.now) path.entry ≡ false)
            (λ view. IsViewOf stack.now from path.entry view)) }
    {
        let _ = &stack.layers;
        let mut places = Vec::new(alloc);
        push_reached(alloc, stack, from, path.copy(alloc)?, &mut places)?;
        if places.is_empty() {
            return Ok(None);
        }
        Ok(Some(DirView { from, path, places }))
    }

    /// The directory's path in the merged tree.
    pub fn path(&self) -> &PathRope<'a>
        ensures { result.now ≡ self.now.path }
    {
        &self.path
    }

    /// The view of the directory `name` in this one, and `None` where no directory is shown there.
    /// It goes on from the rows of this one; a layer is walked from its root only below an absolute
    /// redirect. Fails only when out of memory.
    pub fn child(
        &self,
        alloc: Global,
        stack: &Stack,
        name: &'a Name,
    ) -> Result<Option<DirView<'a>>, AllocError>
        requires { IsViewOver stack.now self.now }
        ensures { IfOk result (λ found. MatchOption found
            (shows_directory (from_layer self.now.from stack.now)
            (child_path self.now.path name.now) ≡ false)
            (λ view. IsViewOf stack.now self.now.from (child_path self.now.path name.now) view)) }
    {
        let _ = &stack.layers;
        let mut places = Vec::new(alloc);
        push_below(alloc, stack, &self.places, name, &mut places)?;
        if places.is_empty() {
            return Ok(None);
        }
        let path = self.path.copy(alloc)?.child(name.as_str())?;
        Ok(Some(DirView {
            from: self.from,
            path,
            places,
        }))
    }

    /// What is shown at a name in this directory. The name is sought in the directory of each
    /// layer; a layer is walked from its root only below an absolute redirect. Fails only when out
    /// of memory.
    pub fn look(&self, alloc: Global, stack: &Stack, name: &Name) -> Result<Look, AllocError>
        requires { IsViewOver stack.now self.now }
        ensures { IfOk result
            (λ shown. shown
            ≡ look (from_layer self.now.from stack.now) (child_path self.now.path name.now)) }
    {
        let _ = &stack.layers;
        look_of(alloc, stack, first_in(stack, &self.places, name))
    }

    /// What the stack shows at a name in a directory, by the view of that, which is made with the
    /// first name that is asked for and kept for the others. Fails only when out of memory.
    pub fn look_cached(
        alloc: Global,
        stack: &'a Stack,
        view: &mut Option<DirView<'a>>,
        dir: &'a Path,
        name: &Name,
    ) -> Result<Look, AllocError>
        requires { IfSome view.old (IsViewOf stack.now 0 dir.now) }
        ensures look { IfOk result
            (λ shown. shown ≡ look stack.now (child_path dir.now name.now)) }
        ensures view { IfSome view.new (IsViewOf stack.now 0 dir.now) }
        ensures kept { OnErr result (view.new ≡ view.old) }
    {
        // Each layer of a stack is one.
        let _layers = stack.ordinary();
        if let Some(made) = view.as_ref() {
            return made.look(alloc, stack, name);
        }
        let Some(made) = DirView::of(alloc, stack, 0, dir)? else {
            return Ok(Look::Nothing);
        };
        let look = made.look(alloc, stack, name)?;
        *view = Some(made);
        Ok(look)
    }

    /// The kind of what is shown at a name in this directory, with nothing copied; takes no memory.
    pub fn shown_kind(&self, stack: &Stack, name: &Name) -> ShownKind
        requires { IsViewOver stack.now self.now }
        ensures { result
            ≡ shown_kind_of
            (look (from_layer self.now.from stack.now) (child_path self.now.path name.now)) }
    {
        let _ = &stack.layers;
        ShownKind::of_first(first_in(stack, &self.places, name))
    }

    /// Whether something is shown at a name in this directory; takes no memory.
    pub fn shows(&self, stack: &Stack, name: &Name) -> bool
        requires { IsViewOver stack.now self.now }
        ensures { result
            ≡ shows (from_layer self.now.from stack.now) (child_path self.now.path name.now) }
    {
        !self.shown_kind(stack, name).is_nothing()
    }

    /// The data that there is at a name in this directory below a metacopy file that doesn't say
    /// itself where data-only layers have it. Fails only when out of memory. overlayfs.rst:
    /// "Metadata only copy up".
    pub fn data<'s>(
        &self,
        alloc: Global,
        stack: &'s Stack,
        name: &'s Name,
    ) -> Result<Option<&'s Inode>, AllocError>
        requires { IsViewOver stack.now self.now }
        ensures { IfOk result (λ found. option_map (λ inode. inode.now) found
            ≡ data_below stack.now.data_only None
            (things_found (drop self.now.from stack.now.layers)
            (child_path self.now.path name.now))) }
    {
        let _ = &stack.layers;
        data_of(alloc, stack, first_in(stack, &self.places, name), None)
    }

    /// The names in this directory at which something is shown, in order, each with what is shown
    /// there, in one pass over the directories of all layers. Fails only when out of memory.
    pub fn looks(&self, alloc: Global, stack: &Stack) -> Result<Vec<(Name, Look)>, AllocError>
        requires { IsViewOver stack.now self.now }
        ensures { IfOk result
            (λ looks. AreLooks (from_layer self.now.from stack.now) self.now.path looks.items) }
    {
        let _ = &stack.layers;
        let tops = tops_of(alloc, stack, &self.places, 0)?;
        let mut looks = Vec::with_capacity(alloc, tops.len())?;
        for top in &tops {
            let places = self.places_from(top.place);
            let look = look_at(alloc, stack, places, top.name, top.inode)?;
            push_look(alloc, top.name, look, &mut looks)?;
        }
        Ok(looks)
    }

    /// The names in this directory at which something is shown, in order. Fails only when out of
    /// memory.
    pub fn names(&self, alloc: Global, stack: &Stack) -> Result<Vec<Name>, AllocError>
        requires { IsViewOver stack.now self.now }
        ensures { IfOk result
            (λ names. AreKids (from_layer self.now.from stack.now) self.now.path names.items) }
    {
        let _ = &stack.layers;
        let tops = tops_of(alloc, stack, &self.places, 0)?;
        let mut names = Vec::with_capacity(alloc, tops.len())?;
        for top in &tops {
            if !is_whiteout(top.inode) {
                names.push(top.name.copy(alloc)?)?;
            }
        }
        Ok(names)
    }

    // The places from one on.
    fn places_from(&self, number: usize) -> &[DirPlace]
        requires { number < length self.now.places.items }
        ensures { result.now ≡ drop number self.now.places.items }
    {
        &self.places[number..]
    }
}

// Adds the places of the view of a path over the layers from `from` on.
fn push_reached<'a>(
    alloc: Global,
    stack: &'a Stack,
    from: usize,
    path: PathRope<'a>,
    places: &mut Vec<DirPlace>,
) -> Result<(), AllocError>
    requires { from ≤ length stack.now.layers }
    ensures { OnOk result
        (AddsPlaces stack.now places.old.items places.new.items
        (reached (drop from stack.now.layers) from path.entry)) }
{
    let mut rope = path;
    for layer in from..stack.ordinary() {
        let Arrival { row, next, closed } = Arrival::at(alloc, stack.sheet(layer), rope)?;
        if let Some(row) = row {
            places.push(DirPlace { layer, row })?;
        }
        if closed {
            return Ok(());
        }
        rope = next;
    }
    Ok(())
}

// Adds the places of the view with one more name, by those of the view.
fn push_below(
    alloc: Global,
    stack: &Stack,
    places: &[DirPlace],
    name: &Name,
    below: &mut Vec<DirPlace>,
) -> Result<(), AllocError>
    requires { All (IsPlaceOver stack.now) places.now }
    ensures { OnOk result
        (AddsPlaces stack.now below.old.items below.new.items
        (reached_below stack.now.layers name.now (places_in stack.now places.now))) }
{
    let _ = &stack.layers;
    let mut own = name;
    for place in places {
        let Some(entry) = place.entry(stack, own) else {
            continue;
        };
        if !is_directory(entry.inode) {
            return Ok(());
        }
        below.push(DirPlace {
            layer: place.layer,
            row: entry.row,
        })?;
        match NextLookup::of(entry.mark, own) {
            NextLookup::At(origin) => {
                let rope = PathRope::of(alloc, &origin.names())?;
                return push_reached(alloc, stack, place.layer + 1, rope, below);
            }
            NextLookup::Beside(other) => own = other,
            NextLookup::Nowhere => return Ok(()),
        }
    }
    Ok(())
}

// Adds a name with what is shown there, where something is.
fn push_look(
    alloc: Global,
    name: &Name,
    look: Look,
    looks: &mut Vec<(Name, Look)>,
) -> Result<(), AllocError>
    ensures { OnOk result (looks.new.items
        ≡ looks.old.items ++ (if is_nothing look then [] else (name.now, look) ∷ [])) }
{
    if look.is_nothing() {
        return Ok(());
    }
    looks.push((name.copy(alloc)?, look))?;
    Ok(())
}

// What is shown at a name, by these places, the first of which has this inode there.
fn look_at(
    alloc: Global,
    stack: &Stack,
    places: &[DirPlace],
    name: &Name,
    inode: &Inode,
) -> Result<Look, AllocError>
    requires over { All (IsPlaceOver stack.now) places.now }
    requires first { IsSomeAnd (slice_get (places_in stack.now places.now) 0)
        (λ place. entry_in stack.now.layers name.now place ≡ Some inode.now) }
    ensures { IfOk result
        (λ look. look
        ≡ shown_of stack.now.data_only
        (found_below stack.now.layers name.now (places_in stack.now places.now))) }
{
    if is_whiteout(inode) {
        return Ok(Look::Nothing);
    }
    if !lacks_contents(inode) {
        return Ok(Look::Shown(visible(alloc, inode)?));
    }
    look_of(alloc, stack, first_in(stack, places, name))
}
