//! A layer of entries in path order, node by node. It must not know texts.
ghost use Rattle.std.specs.Prelude.{◌≡◌, ◌≤◌, ◌+◌, ◌-◌, true, false, [], ◌∷◌, ◌++◌, IsTrue, IfOk, length, map, take, vec_len};
ghost use Rattle.std.specs.List.{starts_with};
ghost use Rattle.ovl_names.specs.Names.{name_eq};
ghost use Rattle.ovl_names.specs.Order.{ascends};
ghost use Rattle.ovl_names.specs.Paths.{path_cmp, child_path, parent_path};
ghost use Rattle.ovl_inode.specs.Attributes.{has_escaped_name};
ghost use Rattle.ovl_inode.specs.Marks.{is_directory};
ghost use Rattle.ovl_inode.specs.Sound.{is_sound_inode};
ghost use Rattle.std.specs.Ordering.{is_lt};
ghost use Rattle.ovl_layer.specs.Layers.{entry_cmp, is_directory_at};
ghost use Rattle.ovl_layer.specs.LayerTrees.{under, entries_from, grown};
ghost use Rattle.ovl_layer.specs.Entries.{comes_after};
ghost use Rattle.ovl_layer.specs.LayerBuilders.{builder_entries, inode_on_way, IsLayerBuilder, CanTake};

use crate::trees::{Layer, Node};
use ovl_inode::{Inode, is_directory};
use ovl_names::{Name, Path};
use std::alloc::{AllocError, Global};

/// A layer while it is built: the finished nodes of its root, and the nodes on the way to its last
/// entry.
#[derive(Drop)]
pub struct LayerBuilder {
    inode: Inode,
    children: Vec<Node>,
    open_dirs: Vec<Node>,
    last: Path,
}

impl LayerBuilder {
    /// The layer of only a root.
    pub(crate) fn start(alloc: Global, inode: Inode) -> LayerBuilder
        requires directory { IsTrue (is_directory inode) }
        requires sound { IsTrue (is_sound_inode inode) }
        requires unescaped { has_escaped_name inode.attrs ≡ false }
        ensures entries { builder_entries result ≡ ([], inode) ∷ [] }
        ensures builder { IsLayerBuilder result }
    {
        LayerBuilder {
            inode,
            children: Vec::new(alloc),
            open_dirs: Vec::new(alloc),
            last: Path::root(alloc),
        }
    }

    /// Whether the path comes after all entries.
    pub(crate) fn comes_before(&self, path: &Path) -> bool
        requires { IsLayerBuilder self.now }
        ensures value { result ≡ comes_after (builder_entries self.now) path.now }
        ensures last { result ≡ is_lt (path_cmp self.now.last path.now) }
    {
        self.last < *path
    }

    /// Whether the directory of a path that comes after all entries is there.
    pub(crate) fn has_parent(&self, path: &Path) -> bool
        requires builder { IsLayerBuilder self.now }
        requires after { IsTrue (is_lt (path_cmp self.now.last path.now)) }
        ensures { result ≡ is_directory_at (builder_entries self.now) (parent_path path.now) }
    {
        let Some((_, above)) = path.names().split_last() else {
            return false;
        };
        let depth = above.len();
        if depth > self.open_dirs.len() || !self.last.names().starts_with(&above) {
            return false;
        }
        self.is_directory_above(depth)
    }

    // The inode of the directory on the way to the last entry that has `depth` names.
    fn inode_on_way(&self, depth: usize) -> &Inode
        requires { depth ≤ vec_len self.now.open_dirs }
        ensures { result.now ≡ inode_on_way self.now.inode self.now.open_dirs.items depth }
    {
        if depth == 0 {
            &self.inode
        } else {
            &self.open_dirs[depth - 1].inode
        }
    }

    /// Whether the path of a directory is the last one, or leads to it.
    pub(crate) fn is_within(&self, directory: &Path) -> bool
        ensures { result ≡ starts_with name_eq self.now.last directory.now }
    {
        self.last.names().starts_with(&directory.names())
    }

    /// Whether the entry `name` of the directory of the first `depth` names of the last path comes
    /// after all entries.
    pub(crate) fn comes_before_child(&self, depth: usize, name: &Name) -> bool
        requires builder { IsLayerBuilder self.now }
        requires depth { depth ≤ length self.now.last }
        ensures { result
            ≡ comes_after (builder_entries self.now)
            (child_path (take depth self.now.last) name.now) }
    {
        if depth == self.open_dirs.len() {
            return true;
        }
        self.open_dirs[depth].name.cmp(name).is_lt()
    }

    /// Whether the path of the first `depth` names of the last path is a directory's.
    pub(crate) fn is_directory_above(&self, depth: usize) -> bool
        requires builder { IsLayerBuilder self.now }
        requires depth { depth ≤ length self.now.last }
        ensures { result ≡ is_directory_at (builder_entries self.now) (take depth self.now.last) }
    {
        is_directory(self.inode_on_way(depth))
    }

    /// Enters one more entry, which comes after all others and whose directory is there.
    pub(crate) fn enter(
        &mut self,
        alloc: Global,
        path: &Path,
        inode: Inode,
    ) -> Result<(), AllocError>
        requires builder { IsLayerBuilder self.old }
        requires entry { CanTake self.old path.now inode }
        ensures entries { IfOk result
            (λ _. builder_entries self.new ≡ builder_entries self.old ++ (path.now, inode) ∷ []) }
        ensures builder { IfOk result (λ _. IsLayerBuilder self.new) }
    {
        let (name, above) = path.names().split_last().unwrap();
        let name = Name::copy_of(alloc, name)?;
        self.enter_child(alloc, above.len(), name, inode)
    }

    /// Enters the entry `name` of the directory of the first `depth` names of the last path, which
    /// is there; the entry comes after all others.
    pub(crate) fn enter_child(
        &mut self,
        alloc: Global,
        depth: usize,
        name: Name,
        inode: Inode,
    ) -> Result<(), AllocError>
        requires builder { IsLayerBuilder self.old }
        requires depth { depth ≤ length self.old.last }
        requires entry { CanTake self.old (child_path (take depth self.old.last) name) inode }
        ensures entries { IfOk result (λ _. builder_entries self.new
            ≡ builder_entries self.old ++ (child_path (take depth self.old.last) name, inode) ∷ []) }
        ensures builder { IfOk result (λ _. IsLayerBuilder self.new) }
    {
        self.close(depth)?;
        self.last.go_to(depth, &name)?;
        self.open_dirs.push(Node {
            name,
            inode,
            children: Vec::new(alloc),
        })?;
        Ok(())
    }

    /// The finished layer.
    pub fn finish(self) -> Result<Layer, AllocError>
        requires { IsLayerBuilder self }
        ensures { IfOk result (λ layer. layer ≡ builder_entries self) }
    {
        let mut builder = self;
        builder.close(0)?;
        let LayerBuilder {
            inode,
            children,
            ..
        } = builder;
        Ok(Layer { inode, children })
    }

    // Finishes the nodes of the list of open directories after the first `depth`.
    fn close(&mut self, depth: usize) -> Result<(), AllocError>
        requires order { ascends entry_cmp (builder_entries self.old) ≡ true }
        requires depth { depth ≤ vec_len self.old.open_dirs }
        ensures entries { IfOk result (λ _. builder_entries self.new ≡ builder_entries self.old) }
        ensures open_dirs { IfOk result (λ _. map (λ node. node.name) self.new.open_dirs.items
            ≡ take depth (map (λ node. node.name) self.old.open_dirs.items)) }
        ensures count { IfOk result (λ _. vec_len self.new.open_dirs ≡ depth) }
        ensures last { IfOk result (λ _. self.new.last ≡ self.old.last) }
    {
        while self.open_dirs.len() > depth {
            self.close_last()?;
        }
        Ok(())
    }

    // Finishes the last node of the list of open directories.
    fn close_last(&mut self) -> Result<(), AllocError>
        requires order { ascends entry_cmp (builder_entries self.old) ≡ true }
        requires some { 1 ≤ vec_len self.old.open_dirs }
        ensures entries { IfOk result (λ _. builder_entries self.new ≡ builder_entries self.old) }
        ensures open_dirs { IfOk result (λ _. map (λ node. node.name) self.new.open_dirs.items
            ≡ take (vec_len self.old.open_dirs - 1) (map (λ node. node.name) self.old.open_dirs.items)) }
        ensures count { IfOk result (λ _. vec_len self.new.open_dirs + 1 ≡ vec_len self.old.open_dirs) }
        ensures last { IfOk result (λ _. self.new.last ≡ self.old.last) }
    {
        let node = self.open_dirs.pop().unwrap();
        let depth = self.open_dirs.len();
        if depth == 0 {
            self.children.push(node)?;
            return Ok(());
        }
        let parent = &mut self.open_dirs[depth - 1];
        parent.take_child(node)?;
        Ok(())
    }
}

impl Node {
    // Takes one more child, which comes after all others.
    fn take_child(&mut self, child: Node) -> Result<(), AllocError>
        requires { ascends entry_cmp
            (self.old.below ++ under child.name (entries_from child.inode child.below)) ≡ true }
        ensures { IfOk result (λ _. self.new ≡ grown self.old child) }
    {
        self.children.push(child)?;
        Ok(())
    }
}
