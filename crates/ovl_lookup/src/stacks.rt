//! A stack of layers: what each has by itself, and what they show together.
ghost use Rattle.std.specs.Prelude.{◌≡◌, ◌≢◌, ◌<◌, ◌≤◌, ◌+◌, ◌++◌, ◌↔◌, ◌⊎◌, [], false, Some, Err, drop, length, IsTrue, IfOk, OnOk, MatchOption, MatchResult, slice_get, IfSome};
ghost use Rattle.std.specs.Option.{option_map};
ghost use Rattle.std.specs.List.{All};
ghost use Rattle.ovl_layer.specs.Layers.{IsLayer, entry_at, is_directory_at, names_below};
ghost use Rattle.ovl_lookup.specs.Passes.{IsMarked, IsOwnMarked, IsOwnDirectory, step_of, own_step_of, data_below, looks_from, looks_placed};
ghost use Rattle.ovl_lookup.specs.Walk.{walk};
ghost use Rattle.ovl_lookup.specs.declared.stacks.StackFault.TheVariants.{Layers, Memory, DataCount};
ghost use Rattle.ovl_lookup.specs.Stacks.{layer_limit, all_layers, from_layer, stack_with};
ghost use Rattle.ovl_lookup.specs.Trace.{things_found};
ghost use Rattle.ovl_lookup.specs.Merged.{AreKids, IsMerged, look, place_told, data_at_place, is_full_file};
ghost use Rattle.ovl_lookup.specs.Merged as merged;
ghost use Rattle.ovl_lookup.specs.ShownKinds.{shown_kind_of};
ghost use Rattle.ovl_lookup.specs.Words.{top_layer};

use crate::hits::{data_of, first_on, past_metacopies};
use crate::looks::look_of;
use crate::steps::directory_in;
use crate::{DirView, Look, OwnDirectory, OwnStep, PathRope, RopeStep, ShownKind, follow};
use ovl_inode::{Inode, is_data, is_whiteout};
use ovl_layer::{Layer, Sheet};
use ovl_names::{DEPTH_LIMIT, Name, Path};
use std::alloc::{AllocError, Global};
use std::marker::Model;
use thiserror::Error;

/// The most layers of a stack.
pub const LAYER_LIMIT: usize = 128;

/// Why layers are no stack.
#[derive(Clone, Copy, Debug, PartialEq, Eq, Error)]
pub enum StackFault {
    /// There is none, or there are more than [`LAYER_LIMIT`].
    #[error("layers must be 1 to {max}", max = LAYER_LIMIT)]
    Layers,
    /// Out of memory.
    #[error("out of memory")]
    Memory,
    /// All layers would be data-only.
    #[error("data layers must leave a layer")]
    DataCount,
}

impl From<AllocError> for StackFault {
    ghost from_gives = { λ _ fault. fault ≡ Memory };

    fn from(_: AllocError) -> StackFault {
        StackFault::Memory
    }
}

/// A stack of 1 to [`LAYER_LIMIT`] layers, the topmost first; the data-only ones come last, and
/// there is another.
#[derive(Drop)]
pub struct Stack {
    pub(crate) layers: Vec<Sheet>,
    pub(crate) data_only: Vec<Sheet>,
}

impl Model for Stack {
    ghost use Rattle.std.specs.Prelude.{◌<◌, ◌≤◌, ◌+◌, length};
    ghost use Rattle.std.specs.List.{All};
    ghost use Rattle.ovl_layer.specs.Layers.{IsLayer};
    ghost use Rattle.ovl_lookup.specs.Stacks.{StackView, layer_limit};

    ghost Value = { StackView };

    ghost view = { λ a. record { layers = a.layers.items; data_only = a.data_only.items } };

    ghost invariant = { λ a. (0 < length a.layers.items)
        × (length a.layers.items + length a.data_only.items ≤ layer_limit)
        × All IsLayer a.layers.items × All IsLayer a.data_only.items };
}

impl Stack {
    /// The stack of these layers, the topmost first; refused exactly if they are none or more than
    /// [`LAYER_LIMIT`]. When out of memory, the layers are dropped.
    pub fn of(alloc: Global, layers: Vec<Layer>) -> Result<Stack, StackFault>
        ensures value { IfOk result (λ stack. stack.layers ≡ layers.items) }
        ensures bare { IfOk result (λ stack. stack.data_only ≡ []) }
        ensures refused { (result ≡ Err Layers)
            ↔ ((length layers.items ≡ 0) ⊎ (layer_limit < length layers.items)) }
        ensures left { result ≢ Err DataCount }
    {
        if is_outside(layers.len()) {
            return Err(StackFault::Layers);
        }
        let sheets = sheets_of(alloc, layers)?;
        Stack::of_sheets(sheets, Vec::new(alloc))
    }

    /// The stack of these layers, the topmost first, of which the last `bottom` are data-only;
    /// refused exactly if they are none or more than [`LAYER_LIMIT`], and where no other is left.
    /// When out of memory, the layers are dropped. overlayfs.rst: "Data-only lower layers".
    ///
    /// The stack of these manifests, the last `bottom` of them data-only:
    ///
    /// ```
    /// let mut layers = Vec::new(alloc);
    /// for manifest in &manifests {
    ///     layers.push(read_layer(alloc, manifest)?)?;
    /// }
    /// Ok(Stack::with_data(alloc, layers, bottom)?)
    /// ```
    pub fn with_data(alloc: Global, layers: Vec<Layer>, bottom: u16) -> Result<Stack, StackFault>
        ensures value { IfOk result (λ stack. stack ≡ stack_with layers.items bottom) }
        ensures refused { (result ≡ Err Layers)
            ↔ ((length layers.items ≡ 0) ⊎ (layer_limit < length layers.items)) }
        ensures none_left { (result ≡ Err DataCount)
            ↔ ((0 < length layers.items) × (length layers.items ≤ layer_limit)
            × (length layers.items ≤ bottom)) }
    {
        if is_outside(layers.len()) {
            return Err(StackFault::Layers);
        }
        let bottom = usize::from(bottom);
        if bottom >= layers.len() {
            return Err(StackFault::DataCount);
        }
        let mut sheets = sheets_of(alloc, layers)?;
        let data_only = sheets.split_off(sheets.len() - bottom)?;
        Stack::of_sheets(sheets, data_only)
    }

    /// The stack of layers that are sheets already, the topmost first, over data-only ones; refused
    /// exactly if there is none but those or they are more than [`LAYER_LIMIT`] together. Takes no
    /// memory.
    pub fn of_sheets(layers: Vec<Sheet>, data_only: Vec<Sheet>) -> Result<Stack, StackFault>
        ensures { MatchResult result
            (λ stack. (stack.layers ≡ layers.items) × (stack.data_only ≡ data_only.items))
            (λ fault. (fault ≡ Layers)
            × ((length layers.items ≡ 0)
            ⊎ (layer_limit < length layers.items + length data_only.items))) }
    {
        if is_outside(layers.len()) {
            return Err(StackFault::Layers);
        }
        if data_only.len() > LAYER_LIMIT - layers.len() {
            return Err(StackFault::Layers);
        }
        keep_layers(&layers);
        keep_layers(&data_only);
        Ok(Stack { layers, data_only })
    }

    /// The number of layers, the data-only ones too, 1 to [`LAYER_LIMIT`].
    pub fn layers(&self) -> usize
        ensures value { result ≡ length (all_layers self.now) }
        ensures limit { result ≤ layer_limit }
        ensures all { All IsLayer (all_layers self.now) }
    {
        self.ordinary() + self.data_only.len()
    }

    /// The number of layers that aren't data-only; there is one.
    pub fn ordinary(&self) -> usize
        ensures value { result ≡ length self.now.layers }
        ensures some { 0 < result }
        ensures limit { result ≤ layer_limit }
        ensures each { All IsLayer self.now.layers }
        ensures data_only { All IsLayer self.now.data_only }
    {
        self.layers.len()
    }

    /// The sheet of layer `i`, which isn't data-only.
    pub fn sheet(&self, i: usize) -> &Sheet
        requires { i < length self.now.layers }
        ensures { slice_get self.now.layers i ≡ Some result.now }
    {
        &self.layers[i]
    }

    /// The sheet of the topmost layer.
    pub fn top(&self) -> &Sheet
        ensures value { result.now ≡ top_layer self.now }
        ensures some { 0 < length self.now.layers }
        ensures each { All IsLayer self.now.layers }
    {
        &self.layers[0]
    }

    /// The sheets of its layers, the topmost first, and those of its data-only ones.
    pub fn into_sheets(self) -> (Vec<Sheet>, Vec<Sheet>)
        ensures { (result.0.items ≡ self.layers) × (result.1.items ≡ self.data_only) }
    {
        (self.layers, self.data_only)
    }

    /// The sheet of layer `i`, which may be data-only; `i` is below the number of all layers.
    pub fn any_sheet(&self, i: usize) -> &Sheet
        requires { i < length (all_layers self.now) }
        ensures { slice_get (all_layers self.now) i ≡ Some result.now }
    {
        let ordinary = self.ordinary();
        if i < ordinary {
            &self.layers[i]
        } else {
            &self.data_only[i - ordinary]
        }
    }

    /// The inode that layer `i` has at a path, and `None` where it has no entry; `i` is below the
    /// number of layers.
    pub fn own_at(&self, i: usize, path: &Path) -> Option<&Inode>
        requires { i < length (all_layers self.now) }
        ensures { IfSome (slice_get (all_layers self.now) i)
            (λ layer. option_map (λ inode. inode.now) result ≡ entry_at layer path.now) }
    {
        self.any_sheet(i).at(path)
    }

    /// The names directly below a path in layer `i`, in order; none where it has no directory. `i`
    /// is below the number of layers. Fails only when out of memory.
    pub fn own_names(&self, alloc: Global, i: usize, path: &Path) -> Result<Vec<Name>, AllocError>
        requires { i < length (all_layers self.now) }
        ensures all { IfSome (slice_get (all_layers self.now) i)
            (λ layer. IfOk result (λ names. names.items ≡ names_below layer path.now)) }
        ensures ordinary { IfSome (slice_get self.now.layers i)
            (λ layer. IfOk result (λ names. names.items ≡ names_below layer path.now)) }
    {
        self.any_sheet(i).children(alloc, path)
    }

    /// The walk of a rope in layer `i`, see [`follow`]; `i` is below the number of layers. Fails
    /// only when out of memory.
    pub fn own_walk<'a>(
        &'a self,
        alloc: Global,
        i: usize,
        rope: PathRope<'a>,
    ) -> Result<RopeStep<'a>, AllocError>
        requires { i < length (all_layers self.now) }
        ensures value { IfSome (slice_get (all_layers self.now) i)
            (λ layer. IfOk result (λ step. step_of step ≡ walk layer rope.entry)) }
        ensures marked { IfOk result IsMarked }
    {
        follow(alloc, self.any_sheet(i), rope)
    }

    /// The walk of a rope in layer `i`, with the path for the layer below only if marks turn it,
    /// see [`OwnStep::at`]; `i` is below the number of layers. Fails only when out of memory.
    pub fn own_step<'a>(
        &'a self,
        alloc: Global,
        i: usize,
        rope: &PathRope<'a>,
    ) -> Result<OwnStep<'a>, AllocError>
        requires { i < length (all_layers self.now) }
        ensures value { IfSome (slice_get (all_layers self.now) i)
            (λ layer. IfOk result (λ step. own_step_of rope.now step ≡ walk layer rope.now)) }
        ensures marked { IfOk result IsOwnMarked }
    {
        OwnStep::at(alloc, self.any_sheet(i), rope)
    }

    /// The directory that layer `i` has at a path, with how its walk goes on, and `None` where it
    /// has none; `i` is below the number of layers. No name is copied. Fails only when out of
    /// memory. overlayfs.rst: "renaming directories", "whiteouts and opaque directories".
    pub fn own_directory<'a>(
        &'a self,
        alloc: Global,
        i: usize,
        path: &Path,
    ) -> Result<Option<OwnDirectory<'a>>, AllocError>
        requires { i < length (all_layers self.now) }
        ensures { IfSome (slice_get (all_layers self.now) i)
            (λ layer. IfOk result (λ found. MatchOption found
            (is_directory_at layer path.now ≡ false)
            (IsOwnDirectory layer path.now))) }
    {
        directory_in(alloc, self.any_sheet(i), path)
    }

    /// What the layers with index `from` and up show at a path, over the data-only ones; `from` is
    /// at most the number of the others. Fails only when out of memory. overlayfs.rst:
    /// "Directories", "Multiple lower layers", "Metadata only copy up", "Data-only lower layers".
    ///
    /// What all layers show at a path, in words:
    ///
    /// ```
    /// match stack.look(alloc, 0, path)? {
    ///     Look::Nothing => String::from_str(alloc, "nothing"),
    ///     Look::Shown(inode) => format!(in alloc; "mode {}", inode.mode),
    ///     Look::Broken(_) => String::from_str(alloc, "a file whose data is missing"),
    /// }
    /// ```
    pub fn look(&self, alloc: Global, from: usize, path: &Path) -> Result<Look, AllocError>
        requires { from ≤ length self.now.layers }
        ensures { IfOk result (λ shown. shown ≡ look (from_layer from self.now) path.now) }
    {
        let rope = PathRope::of(alloc, &path.names())?;
        let first = first_on(alloc, self, from, rope)?;
        look_of(alloc, self, first)
    }

    /// The kind of what the layers with index `from` and up show at a path, as [`Stack::look`]
    /// finds it, with nothing copied. Fails only when out of memory.
    pub fn shown_kind<'a>(
        &'a self,
        alloc: Global,
        from: usize,
        path: PathRope<'a>,
    ) -> Result<ShownKind, AllocError>
        requires { from ≤ length self.now.layers }
        ensures { IfOk result
            (λ shown_kind. shown_kind ≡ shown_kind_of (look (from_layer from self.now) path.entry)) }
    {
        let first = first_on(alloc, self, from, path)?;
        Ok(ShownKind::of_first(first))
    }

    /// The data that the layers with index `from` and up have at a path, below metacopy files, of
    /// which the last says where data-only layers have it; before the first, that is `place_told`.
    /// `from` is at most the number of layers that aren't data-only. Fails only when out of memory.
    /// overlayfs.rst: "Metadata only copy up", "Data-only lower layers".
    pub fn data<'a>(
        &'a self,
        alloc: Global,
        from: usize,
        path: PathRope<'a>,
        place_told: Option<&'a Path>,
    ) -> Result<Option<&'a Inode>, AllocError>
        requires { from ≤ length self.now.layers }
        ensures { IfOk result (λ found. option_map (λ inode. inode.now) found
            ≡ data_below self.now.data_only (option_map (λ told. told.now) place_told.entry)
            (things_found (drop from self.now.layers) path.entry)) }
    {
        let first = first_on(alloc, self, from, path)?;
        data_of(alloc, self, first, place_told)
    }

    /// Where data-only layers have the data of what is found at a path, if that is only metacopy
    /// files: where the last of them says. Fails only when out of memory. overlayfs.rst: "Data-only
    /// lower layers".
    pub fn data_place(&self, alloc: Global, path: &Path) -> Result<Option<Path>, AllocError>
        ensures { IfOk result
            (λ place. place ≡ place_told (things_found self.now.layers path.now)) }
    {
        let rope = PathRope::of(alloc, &path.names())?;
        let first = first_on(alloc, self, 0, rope)?;
        let (found, told) = past_metacopies(alloc, self, first, None)?;
        match found {
            Some(_) => Ok(None),
            None => copied(alloc, told),
        }
    }

    /// The full file that data-only layers have at this place, where there is one.
    pub(crate) fn data_at(&self, place: Option<&Path>) -> Option<&Inode>
        ensures { option_map (λ inode. inode.now) result
            ≡ data_at_place self.now.data_only (option_map (λ path. path.now) place.entry) }
    {
        match place {
            Some(path) => self.full_file(path),
            None => None,
        }
    }

    /// The first full file that the data-only layers have at a path: a regular file with its
    /// contents itself, and no whiteout. Takes no memory. overlayfs.rst: "Data-only lower layers".
    pub fn full_file(&self, path: &Path) -> Option<&Inode>
        ensures { option_map (λ inode. inode.now) result
            ≡ merged.full_file_in self.now.data_only path.now }
    {
        full_file_in(&self.data_only, path)
    }

    /// The names that a directory has in the merged tree of the layers with index `from` and up, in
    /// order; none where no directory is shown. `from` is at most the number of layers that aren't
    /// data-only. Fails only when out of memory. overlayfs.rst: "Directories", "readdir".
    ///
    /// The names that all layers show in a directory, each with a space after it:
    ///
    /// ```
    /// for name in &stack.names(alloc, 0, path)? {
    ///     text.push_str(name.as_str())?;
    ///     text.push_str(" ")?;
    /// }
    /// ```
    pub fn names(&self, alloc: Global, from: usize, path: &Path) -> Result<Vec<Name>, AllocError>
        requires { from ≤ length self.now.layers }
        ensures { IfOk result (λ names. AreKids (from_layer from self.now) path.now names.items) }
    {
        let _ = &self.layers;
        let view = DirView::of(alloc, self, from, path)?;
        match view {
            Some(view) => view.names(alloc, self),
            None => Ok(Vec::new(alloc)),
        }
    }

    /// The whole merged tree in path order: each path at which something is shown once, with what
    /// is shown there. Fails only when out of memory.
    ///
    /// The directories that a stack shows, each with a space after it:
    ///
    /// ```
    /// for (path, look) in &stack.list(alloc)? {
    ///     if look.is_shown_directory() {
    ///         text.push_str(path.shown(alloc)?.as_str())?;
    ///         text.push_str(" ")?;
    ///     }
    /// }
    /// ```
    pub fn list(&self, alloc: Global) -> Result<Vec<(Path, Look)>, AllocError>
        ensures { IfOk result (λ looks. IsMerged self.now looks.items) }
    {
        let _ = &self.layers;
        let mut looks = Vec::new(alloc);
        let root = Path::root(alloc);
        self.push_looks(alloc, &root, DEPTH_LIMIT * self.ordinary() + 1, &mut looks)?;
        Ok(looks)
    }

    // Adds what is shown at a path and at most `depth` names under it, in path order.
    fn push_looks(
        &self,
        alloc: Global,
        path: &Path,
        depth: usize,
        looks: &mut Vec<(Path, Look)>,
    ) -> Result<(), AllocError>
        ensures { OnOk result
            (looks.new.items
            ≡ looks.old.items ++ looks_placed path.now (looks_from depth self.now path.now)) }
    {
        let _ = &self.layers;
        if depth == 0 {
            return Ok(());
        }
        let look = self.look(alloc, 0, path)?;
        looks.push((path.copy(alloc)?, look))?;
        let names = self.names(alloc, 0, path)?;
        for name in &names {
            let child = path.child(alloc, name)?;
            self.push_looks(alloc, &child, depth - 1, looks)?;
        }
        Ok(())
    }
}

// Whether this many layers are too few or too many for a stack.
fn is_outside(number: usize) -> bool
    ensures { IsTrue result ↔ ((number ≡ 0) ⊎ (layer_limit < number)) }
{
    number == 0 || number > LAYER_LIMIT
}

// A sheet of each layer, in their order; the layers are dropped when out of memory.
fn sheets_of(alloc: Global, layers: Vec<Layer>) -> Result<Vec<Sheet>, AllocError>
    ensures { IfOk result (λ sheets. sheets.items ≡ layers.items) }
{
    // Made by hand (1): `Sheet::of` gives a layer back only when out of memory.
    let mut sheets = Vec::with_capacity(alloc, layers.len())?;
    for layer in layers {
        let Ok(sheet) = Sheet::of(alloc, layer) else {
            return Err(AllocError);
        };
        sheets.push(sheet)?;
    }
    Ok(sheets)
}

// Each of these is a layer, since its type keeps that.
fn keep_layers(layers: &[Sheet])
    ensures { All IsLayer layers.now }
{
    for layer in layers {
        let _root = layer.root();
    }
}

// A path of its own.
fn copied(alloc: Global, path: Option<&Path>) -> Result<Option<Path>, AllocError>
    ensures { IfOk result (λ copy. copy ≡ option_map (λ path. path.now) path.entry) }
{
    match path {
        Some(path) => Ok(Some(path.copy(alloc)?)),
        None => Ok(None),
    }
}

// The first full file that these layers have at a path.
fn full_file_in<'a>(layers: &'a [Sheet], path: &Path) -> Option<&'a Inode>
    ensures { option_map (λ inode. inode.now) result ≡ merged.full_file_in layers.now path.now }
{
    for layer in layers {
        if let Some(inode) = layer.at(path) {
            if is_full(inode) {
                return Some(inode);
            }
        }
    }
    None
}

// Whether the inode is a regular file with its contents itself, and no whiteout.
fn is_full(inode: &Inode) -> bool
    ensures { result ≡ is_full_file inode.now }
{
    is_data(inode) && !is_whiteout(inode)
}
