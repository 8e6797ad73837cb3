//! The layer of a list of entries, or its first fault. It must not know texts.
ghost use Rattle.std.specs.Prelude.{◌≡◌, ◌*◌, ◌<◌, ◌≤◌, ◌↔◌, Ok, Err, Some, IfSome, IsTrue, MatchResult, [], length, take};
ghost use Rattle.ovl_names.specs.Paths.{child_path, depth_limit};
ghost use Rattle.ovl_inode.specs.Attributes as attributes;
ghost use Rattle.ovl_layer.specs.Layers.{entry_limit};
ghost use Rattle.ovl_layer.specs.Layers as layers;
ghost use Rattle.ovl_layer.specs.TextPaths.{slashed};
ghost use Rattle.ovl_layer.specs.Entries.{is_statable, stated_pair, entry_after, layer_of_pairs, is_miscounted, first_fault, is_of_first, IsFaultOf};
ghost use Rattle.ovl_layer.specs.declared.faults.LayerFault.{LayerFault};
ghost use Rattle.ovl_layer.specs.declared.faults.LayerFault.TheVariants.{Count};
ghost use Rattle.ovl_layer.specs.LayerBuilders.{builder_entries, IsLayerBuilder};

use crate::faults::LayerFault;
use crate::layer_builders::LayerBuilder;
use crate::trees::Layer;
use ovl_inode::{Attrs, Inode, is_directory, overlay, sound};
use ovl_names::{DEPTH_LIMIT, Name, Path, TEXT_LIMIT};
use std::alloc::Global;

/// The most entries of a layer.
pub const ENTRY_LIMIT: usize = 1_048_576;

/// The layer of these entries. It is refused with `Count`, or with the first fault of the first
/// entry that has one, in the order of tests that `docs/FORMATS.md` has; `Memory` can come in
/// place of a layer or of a later entry's fault, but `Count` and the faults of the first entry need
/// none. `Entry` is of a path past the limits of its names or its text, and of an inode that
/// isn't sound.
pub fn from_entries(alloc: Global, entries: Vec<(Path, Inode)>) -> Result<Layer, LayerFault>
    ensures value { MatchResult result
        (λ layer. layer_of_pairs entries.items ≡ Ok layer)
        (λ fault. IsFaultOf (layer_of_pairs entries.items) fault) }
    ensures count { (result ≡ Err Count) ↔ IsTrue (is_miscounted (length entries.items)) }
    ensures first { (fault : LayerFault)
        → (first_fault entries.items ≡ Some fault)
        ↔ ((result ≡ Err fault) × IsTrue (is_of_first fault)) }
{
    if entries.len() > ENTRY_LIMIT {
        return Err(LayerFault::Count);
    }
    let mut entries = entries.into_iter();
    let Some(root) = entries.next() else {
        return Err(LayerFault::Count);
    };
    let mut builder = start_builder(alloc, stated(root))?;
    let mut number = 0;
    for entry in entries {
        number += 1;
        builder = builder.with_entry(alloc, number, stated(entry))?;
    }
    Ok(builder.finish()?)
}

/// The builder of the first entry, if one is stated.
pub fn start_builder(
    alloc: Global,
    entry: Option<(Path, Inode)>,
) -> Result<LayerBuilder, LayerFault>
    requires { IfSome entry (λ stated. IsTrue (is_statable stated)) }
    ensures { MatchResult result
        (λ builder. (entry_after [] entry ≡ Ok (builder_entries builder)) × IsLayerBuilder builder)
        (λ fault. entry_after [] entry ≡ Err fault) }
{
    let Some((path, inode)) = entry else {
        return Err(LayerFault::Entry(0));
    };
    if has_escaped_name(&inode.attrs) {
        return Err(LayerFault::Escaped(0));
    }
    if !path.is_empty() || !is_directory(&inode) {
        return Err(LayerFault::Root);
    }
    Ok(LayerBuilder::start(alloc, inode))
}

/// The builder of only a root.
pub fn start_root(alloc: Global, root: Inode) -> Result<LayerBuilder, LayerFault>
    ensures { MatchResult result
        (λ builder. (entry_after [] (stated_pair ([], root)) ≡ Ok (builder_entries builder))
        × IsLayerBuilder builder)
        (λ fault. entry_after [] (stated_pair ([], root)) ≡ Err fault) }
{
    start_builder(alloc, stated((Path::root(alloc), root)))
}

impl LayerBuilder {
    /// The builder with one entry more; `entry` is `None` if a manifest can't state it. `number`,
    /// which a fault names, is how many entries there are before it. Refused are `None`, an
    /// attribute with an escaped name, and an entry that doesn't come after the last one or whose
    /// directory isn't there; else it fails only when out of memory.
    pub fn with_entry(
        self,
        alloc: Global,
        number: u32,
        entry: Option<(Path, Inode)>,
    ) -> Result<LayerBuilder, LayerFault>
        requires builder { IsLayerBuilder self }
        requires number { number ≡ length (builder_entries self) }
        requires room { number < entry_limit }
        requires stated { IfSome entry (λ stated. IsTrue (is_statable stated)) }
        ensures { MatchResult result
            (λ more. (entry_after (builder_entries self) entry ≡ Ok (builder_entries more))
            × IsLayerBuilder more)
            (λ fault. IsFaultOf (entry_after (builder_entries self) entry) fault) }
    {
        let Some((path, inode)) = entry else {
            return Err(LayerFault::Entry(number));
        };
        if has_escaped_name(&inode.attrs) {
            return Err(LayerFault::Escaped(number));
        }
        if !self.comes_before(&path) {
            return Err(LayerFault::Order(number));
        }
        if !self.has_parent(&path) {
            return Err(LayerFault::NoParent(number));
        }
        let mut builder = self;
        builder.enter(alloc, &path, inode)?;
        Ok(builder)
    }

    /// The builder with one entry more, `name` in a directory, with the faults of
    /// [`LayerBuilder::with_entry`]. No path of it is made if the last entry is that directory or
    /// lies under it.
    pub fn with_child(
        self,
        alloc: Global,
        number: u32,
        directory: &Path,
        name: Name,
        inode: Inode,
    ) -> Result<LayerBuilder, LayerFault>
        requires builder { IsLayerBuilder self }
        requires number { number ≡ length (builder_entries self) }
        requires room { number < entry_limit }
        ensures { MatchResult result
            (λ more. (entry_after (builder_entries self)
            (stated_pair (child_path directory.now name, inode)) ≡ Ok (builder_entries more))
            × IsLayerBuilder more)
            (λ fault. IsFaultOf
            (entry_after (builder_entries self)
            (stated_pair (child_path directory.now name, inode))) fault) }
    {
        if !self.is_within(directory) {
            let path = directory.child(alloc, &name)?;
            return self.with_entry(alloc, number, stated((path, inode)));
        }
        if !is_child_statable(directory, &name, &inode) {
            return Err(LayerFault::Entry(number));
        }
        self.with_child_on_way(alloc, number, directory.len(), name, inode)
    }

    // The builder with one entry more, `name` in the directory of the first `depth` names of the
    // last path; a manifest can state it.
    fn with_child_on_way(
        self,
        alloc: Global,
        number: u32,
        depth: usize,
        name: Name,
        inode: Inode,
    ) -> Result<LayerBuilder, LayerFault>
        requires builder { IsLayerBuilder self }
        requires number { number ≡ length (builder_entries self) }
        requires room { number < entry_limit }
        requires depth { depth ≤ length self.last }
        requires stated { IsTrue (is_statable (child_path (take depth self.last) name, inode)) }
        ensures { MatchResult result
            (λ more. (entry_after (builder_entries self)
            (Some (child_path (take depth self.last) name, inode))
            ≡ Ok (builder_entries more)) × IsLayerBuilder more)
            (λ fault. IsFaultOf
            (entry_after (builder_entries self)
            (Some (child_path (take depth self.last) name, inode))) fault) }
    {
        if has_escaped_name(&inode.attrs) {
            return Err(LayerFault::Escaped(number));
        }
        if !self.comes_before_child(depth, &name) {
            return Err(LayerFault::Order(number));
        }
        if !self.is_directory_above(depth) {
            return Err(LayerFault::NoParent(number));
        }
        let mut builder = self;
        builder.enter_child(alloc, depth, name, inode)?;
        Ok(builder)
    }
}

// Whether a manifest can state the entry `name` of a directory.
fn is_child_statable(directory: &Path, name: &Name, inode: &Inode) -> bool
    ensures { result ≡ is_statable (child_path directory.now name.now, inode.now) }
{
    is_child_within_limits(directory, name) && sound(inode)
}

/// The entry that a pair states, and `None` where a manifest can't state it.
pub(crate) fn stated(entry: (Path, Inode)) -> Option<(Path, Inode)>
    ensures { result ≡ stated_pair entry }
{
    if is_within_limits(&entry.0) && sound(&entry.1) {
        Some(entry)
    } else {
        None
    }
}

// Whether the path has at most `DEPTH_LIMIT` names, and its text at most `TEXT_LIMIT` bytes.
fn is_within_limits(path: &Path) -> bool
    ensures { result ≡ layers.is_within_limits path.now }
{
    path.len() <= DEPTH_LIMIT && slashed_len(path) <= TEXT_LIMIT
}

/// How many bytes the names of a path take, each with its separator; takes no memory.
pub fn slashed_len(path: &Path) -> usize
    requires { length path.now ≤ depth_limit }
    ensures value { result ≡ length (slashed path.now) }
    ensures limit { result ≤ 256 * length path.now }
{
    let mut bytes = 0;
    for name in path.names() {
        bytes += 1 + name.len();
    }
    bytes
}

// The most names of a path that can't pass `TEXT_LIMIT`: each takes at most 256 bytes with its
// separator.
const SHORT: usize = 15;

// Whether the path of the entry `name` of a directory has at most `DEPTH_LIMIT` names, and its text
// at most `TEXT_LIMIT` bytes.
fn is_child_within_limits(directory: &Path, name: &Name) -> bool
    ensures { result ≡ layers.is_within_limits (child_path directory.now name.now) }
{
    let above = directory.names();
    let own = name.as_str();
    above.len() < SHORT
        || above.len() < DEPTH_LIMIT && slashed_len(directory) + 1 + own.len() <= TEXT_LIMIT
}

/// Whether the name of some attribute begins with `overlay::ESCAPED_PREFIX`.
pub fn has_escaped_name(attrs: &Attrs) -> bool
    ensures { result ≡ attributes.has_escaped_name attrs.now }
{
    attrs.pairs().any(|(name, _)| is_escaped_name(name))
}

fn is_escaped_name(name: &str) -> bool
    ensures { result ≡ attributes.is_escaped_name name.now }
{
    name.as_bytes()
        .starts_with(overlay::ESCAPED_PREFIX.as_bytes())
}
