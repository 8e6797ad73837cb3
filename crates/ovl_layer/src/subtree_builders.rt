//! A layer of directories that are complete, put together from below.
ghost use Rattle.std.specs.Prelude.{◌≡◌, ◌↔◌, ◌&&◌, not, false, [], ◌∷◌, ◌++◌, Err, IfOk, OnErr, IsTrue, MatchOption};
ghost use Rattle.ovl_inode.specs.Attributes.{has_escaped_name};
ghost use Rattle.ovl_inode.specs.Marks.{is_directory};
ghost use Rattle.ovl_inode.specs.Sound.{is_sound_inode};
ghost use Rattle.ovl_layer.specs.Layers.{Entries, IsLayer};
ghost use Rattle.ovl_layer.specs.LayerTrees.{under, entries_from};
ghost use Rattle.ovl_layer.specs.Entries.{comes_after};
ghost use Rattle.ovl_layer.specs.SubtreeBuilder.{CanStand, IsExtent, Fits};
ghost use Rattle.ovl_layer.specs.declared.faults.SubtreeFault.TheVariants.{NoLayer};

use crate::entries::{ENTRY_LIMIT, has_escaped_name};
use crate::faults::SubtreeFault;
use crate::trees::{Layer, Node};
use ovl_inode::{Inode, is_directory, sound};
use ovl_names::{DEPTH_LIMIT, Name, TEXT_LIMIT};
use std::alloc::{AllocError, Global};
use std::marker::Model;

/// The entries of a directory with all that lies under them, while they are put together, in order;
/// seen as these entries, their paths counted from the directory.
#[derive(Drop)]
pub struct SubtreeBuilder {
    nodes: Vec<Node>,
    extent: Extent,
}

/// How much some entries are.
#[derive(Clone, Copy)]
pub(crate) struct Extent {
    count: usize,
    /// The most names of a path, and the most bytes of its text.
    names: usize,
    bytes: usize,
}

impl Model for SubtreeBuilder {
    ghost use Rattle.std.specs.Prelude.{◌≡◌, true};
    ghost use Rattle.ovl_names.specs.Order.{ascends};
    ghost use Rattle.ovl_layer.specs.Layers.{Entries};
    ghost use Rattle.ovl_layer.specs.LayerTrees.{node_cmp, entries_of_nodes};
    ghost use Rattle.ovl_layer.specs.SubtreeBuilder.{AreBelow, IsExtent, Fits};

    ghost Value = { Entries };

    ghost view = { λ a. entries_of_nodes a.nodes.items };

    ghost invariant = { λ a. (ascends node_cmp a.nodes.items ≡ true)
        × AreBelow (entries_of_nodes a.nodes.items)
        × IsExtent (entries_of_nodes a.nodes.items) a.extent × Fits a.extent };
}

impl SubtreeBuilder {
    /// No entries yet.
    pub fn none(alloc: Global) -> SubtreeBuilder
        ensures { result ≡ [] }
    {
        SubtreeBuilder {
            nodes: Vec::new(alloc),
            extent: Extent::NOTHING,
        }
    }

    /// No entries yet, with room for this many in the directory; fails only when out of memory.
    pub fn with_room(alloc: Global, siblings: usize) -> Result<SubtreeBuilder, AllocError>
        ensures { IfOk result (λ none. none ≡ []) }
    {
        Ok(SubtreeBuilder {
            nodes: Vec::with_capacity(alloc, siblings)?,
            extent: Extent::NOTHING,
        })
    }

    /// Adds the entry `name` with what lies below it. It is refused with `NoLayer` only if no layer
    /// has it after those so far; a refusal leaves these as they are.
    pub fn add(
        &mut self,
        name: Name,
        inode: Inode,
        below: SubtreeBuilder,
    ) -> Result<(), SubtreeFault>
        requires { is_directory inode ≡ false → below ≡ [] }
        ensures entries { IfOk result
            (λ _. self.new ≡ self.old ++ under name (entries_from inode below)) }
        ensures kept { OnErr result (self.new ≡ self.old) }
        ensures refused { result ≡ Err NoLayer
            → CanStand (self.old ++ under name (entries_from inode below)) → ⊥ }
    {
        let extent = self.extent.with(&name, below.extent);
        if !extent.fits() || !self.takes(&name, &inode) {
            return Err(SubtreeFault::NoLayer);
        }
        self.nodes.push(Node {
            name,
            inode,
            children: below.nodes,
        })?;
        self.extent = extent;
        Ok(())
    }

    // Whether an entry of this name and inode can come after all entries so far, whatever lies
    // below it.
    fn takes(&self, name: &Name, inode: &Inode) -> bool
        ensures { result
            ≡ comes_after self.now (name.now ∷ []) && is_sound_inode inode.now
            && not (has_escaped_name inode.now.attrs) }
    {
        self.comes_last(name) && sound(inode) && !has_escaped_name(&inode.attrs)
    }

    // Whether an entry of this name comes after all entries so far.
    fn comes_last(&self, name: &Name) -> bool
        ensures { result ≡ comes_after self.now (name.now ∷ []) }
    {
        match self.nodes.last() {
            Some(last) => last.name.cmp(name).is_lt(),
            None => true,
        }
    }

    /// The layer of these entries under a root. It is refused with `None` only if they are no
    /// layer.
    pub fn under(self, root: Inode) -> Option<Layer>
        ensures { MatchOption result
            (IsLayer (entries_from root self) → ⊥)
            (λ layer. layer ≡ entries_from root self) }
    {
        if !is_directory(&root) || !sound(&root) || has_escaped_name(&root.attrs) {
            return None;
        }
        Some(Layer {
            inode: root,
            children: self.nodes,
        })
    }
}

impl Extent {
    const NOTHING: Extent = Extent {
        count: 0,
        names: 0,
        bytes: 0,
    };

    // The extent of these entries and an entry `name` of their directory with those below it.
    fn with(self, name: &Name, below: Extent) -> Extent
        requires own { Fits self }
        requires below { Fits below }
        ensures { (old kids : Entries) → (inode : Inode) → IsExtent old self → IsExtent kids below
            → IsExtent (old ++ under name.now (entries_from inode kids)) result }
    {
        Extent {
            count: self.count + 1 + below.count,
            names: self.names.max(1 + below.names),
            bytes: self.bytes.max(1 + name.as_str().len() + below.bytes),
        }
    }

    // Whether a layer can have as much below its root.
    fn fits(self) -> bool
        ensures { IsTrue result ↔ Fits self }
    {
        self.count < ENTRY_LIMIT && self.names <= DEPTH_LIMIT && self.bytes <= TEXT_LIMIT
    }
}
