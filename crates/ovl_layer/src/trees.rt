//! A layer as a tree. It must not know what a mark does.
ghost use Rattle.std.specs.Prelude.{◌≡◌, ◌++◌, [], Ok, IfOk, OnOk};
ghost use Rattle.std.specs.Option.{option_map};
ghost use Rattle.ovl_names.specs.Paths.{child_path};
ghost use Rattle.ovl_layer.specs.Layers.{IsLayer, entry_at, names_below};
ghost use Rattle.ovl_layer.specs.Entries.{layer_of_pairs};
ghost use Rattle.ovl_layer.specs.LayerTrees.{entries_from, entries_of_nodes, HasBelow, IsPlaceAt, placed};

use crate::places::{LayerPlace, names_at, place_at};
use ovl_inode::Inode;
use ovl_names::{Name, Path};
use std::alloc::{AllocError, Global};
use std::marker::Model;

/// An entry below the root with all that lies under it, seen as its name, its inode and the entries
/// below it, their paths counted from it.
#[derive(Drop)]
pub struct Node {
    pub(crate) name: Name,
    pub(crate) inode: Inode,
    pub(crate) children: Vec<Node>,
}

impl Model for Node {
    ghost use Rattle.std.specs.Prelude.{◌≡◌, true, length};
    ghost use Rattle.std.proofs.Common.{arith};
    ghost use Rattle.ovl_names.specs.Order.{ascends};
    ghost use Rattle.ovl_layer.specs.LayerTrees.{NodeView, node_cmp, entries_of_nodes};
    ghost use Rattle.ovl_layer.specs.TreeFalls.{most_le-length-entries_of_nodes};

    ghost Value = { NodeView };

    ghost view = { λ a. record
        { name = a.name; inode = a.inode; below = entries_of_nodes a.children.items } };

    ghost invariant = { λ a. ascends node_cmp a.children.items ≡ true };

    ghost size = { λ v. length v.below };

    ghost size_decreases = { λ a h. omega
        (arith, most_le-length-entries_of_nodes a.children.items) };
}

/// A layer: a tree whose children are in the byte order of their names, seen as its entries in path
/// order.
#[derive(Drop)]
pub struct Layer {
    pub(crate) inode: Inode,
    pub(crate) children: Vec<Node>,
}

impl Model for Layer {
    ghost use Rattle.std.specs.Prelude.{◌≡◌, true};
    ghost use Rattle.ovl_names.specs.Order.{ascends};
    ghost use Rattle.ovl_layer.specs.Layers.{Entries, IsLayer};
    ghost use Rattle.ovl_layer.specs.LayerTrees.{node_cmp, entries_from, entries_of_nodes};

    ghost Value = { Entries };

    ghost view = { λ a. entries_from a.inode (entries_of_nodes a.children.items) };

    ghost invariant = { λ a. (ascends node_cmp a.children.items ≡ true)
        × IsLayer (entries_from a.inode (entries_of_nodes a.children.items)) };
}

/// A place in a layer, seen as the entries at and under it, their paths counted from it.
#[derive(Drop)]
pub struct Cursor<'a> {
    inode: &'a Inode,
    children: &'a [Node],
}

impl<'a> Model for Cursor<'a> {
    ghost use Rattle.std.specs.Prelude.{◌≡◌, true};
    ghost use Rattle.ovl_names.specs.Order.{ascends};
    ghost use Rattle.ovl_layer.specs.Layers.{Entries};
    ghost use Rattle.ovl_layer.specs.LayerTrees.{node_cmp, entries_from, entries_of_nodes};

    ghost Value = { Entries };

    ghost view = { λ a. entries_from a.inode.now (entries_of_nodes a.children.now) };

    ghost invariant = { λ a. ascends node_cmp a.children.now ≡ true };
}

impl Node {
    /// The last name of its path.
    pub fn name(&self) -> &Name
        ensures { result.now ≡ self.now.name }
    {
        &self.name
    }

    /// The inode, as the layer has it.
    pub fn inode(&self) -> &Inode
        ensures { result.now ≡ self.now.inode }
    {
        &self.inode
    }

    /// What lies directly below it, in order.
    pub fn children(&self) -> &[Node]
        ensures { entries_of_nodes result.now ≡ self.now.below }
    {
        &self.children
    }
}

impl Layer {
    /// The place of the root.
    pub fn root(&self) -> Cursor<'_>
        ensures value { result ≡ self.now }
        ensures layer { IsLayer self.now }
    {
        Cursor {
            inode: &self.inode,
            children: &self.children,
        }
    }

    /// The place of a path, and `None` where there is no entry.
    pub fn place(&self, path: &Path) -> Option<Cursor<'_>>
        ensures { IsPlaceAt self.now path.now result }
    {
        place_at(self.root(), path)
    }

    /// The inode at a path, and `None` where there is no entry.
    pub fn at(&self, path: &Path) -> Option<&Inode>
        ensures { option_map (λ inode. inode.now) result ≡ entry_at self.now path.now }
    {
        Some(self.place(path)?.inode())
    }

    /// The names directly below a path, in order; none where there is no directory.
    /// Fails only when out of memory.
    pub fn children(&self, alloc: Global, path: &Path) -> Result<Vec<Name>, AllocError>
        ensures { IfOk result (λ names. names.items ≡ names_below self.now path.now) }
    {
        names_at(alloc, self.root(), path)
    }

    /// All entries in path order, which make this layer; fails only when out of memory.
    pub fn entries(&self, alloc: Global) -> Result<Vec<(Path, Inode)>, AllocError>
        ensures value { IfOk result (λ entries. entries.items ≡ self.now) }
        ensures layer { OnOk result (IsLayer self.now) }
        ensures back { IfOk result (λ entries. layer_of_pairs entries.items ≡ Ok self.now) }
    {
        let root = Path::root(alloc);
        let mut entries = Vec::new(alloc);
        entries.push((root.copy(alloc)?, self.inode.copy(alloc)?))?;
        for child in &self.children {
            push_entries(alloc, &root, child, &mut entries)?;
        }
        Ok(entries)
    }
}

// Adds the entries at and under a node of the directory `above`.
fn push_entries(
    alloc: Global,
    above: &Path,
    node: &Node,
    entries: &mut Vec<(Path, Inode)>,
) -> Result<(), AllocError>
    ensures { OnOk result (entries.new.items
        ≡ entries.old.items
        ++ placed (child_path above.now node.now.name)
        (entries_from node.now.inode node.now.below)) }
{
    let path = above.child(alloc, &node.name)?;
    entries.push((path.copy(alloc)?, node.inode.copy(alloc)?))?;
    for child in &node.children {
        push_entries(alloc, &path, child, entries)?;
    }
    Ok(())
}

impl<'a> Cursor<'a> {
    fn at(node: &'a Node) -> Cursor<'a>
        ensures { result ≡ entries_from node.now.inode node.now.below }
    {
        Cursor {
            inode: &node.inode,
            children: &node.children,
        }
    }

    /// The inode at the place.
    pub fn inode(&self) -> &'a Inode
        ensures { entry_at self.now [] ≡ Some result.now }
    {
        self.inode
    }

    /// What lies directly below the place, in order.
    pub fn children(&self) -> &'a [Node]
        ensures { HasBelow self.now result.now }
    {
        self.children
    }
}

impl<'a> LayerPlace for Cursor<'a> {
    ghost entries = { λ place. place };

    fn child(&self, name: &str) -> Option<Cursor<'a>> {
        match self.children.binary_search_by(|child| child
            .name
            .as_str()
            .as_bytes()
            .cmp(name.as_bytes()))
        {
            Ok(place) => Some(Cursor::at(&self.children[place])),
            Err(_) => None,
        }
    }

    fn names(&self, alloc: Global) -> Result<Vec<Name>, AllocError> {
        let mut names = Vec::with_capacity(alloc, self.children.len())?;
        for child in self.children {
            names.push(child.name.copy(alloc)?)?;
        }
        Ok(names)
    }
}
