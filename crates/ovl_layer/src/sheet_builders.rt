//! A sheet of entries in path order, row by row. It must not know texts.
ghost use Rattle.std.specs.Prelude.{◌≡◌, ◌≤◌, true, false, [], ◌∷◌, ◌++◌, IsTrue, IfOk, OnErr, length, take};
ghost use Rattle.std.specs.Ordering.{is_lt};
ghost use Rattle.ovl_names.specs.Paths.{path_cmp, child_path};
ghost use Rattle.ovl_inode.specs.Attributes.{has_escaped_name};
ghost use Rattle.ovl_inode.specs.Marks.{is_directory};
ghost use Rattle.ovl_inode.specs.Sound.{is_sound_inode};
ghost use Rattle.ovl_layer.specs.Layers.{is_directory_at};
ghost use Rattle.ovl_layer.specs.SheetBuilders.{built_entries, last_path, IsSheetBuilder, CanEnter};

use crate::sheets::{Sheet, SheetRow};
use ovl_inode::{Inode, is_directory};
use ovl_names::Name;
use std::alloc::{AllocError, Global};

/// A layer while its entries come in path order: the rows of its sheet so far, and the numbers of
/// those on the way to the last entry, the root's first.
#[derive(Drop)]
pub struct SheetBuilder {
    rows: Vec<SheetRow>,
    way: Vec<u32>,
}

impl SheetBuilder {
    /// The layer of only a root, with room for this many entries.
    pub fn start(alloc: Global, inode: Inode, room: usize) -> Result<SheetBuilder, AllocError>
        requires directory { IsTrue (is_directory inode) }
        requires sound { IsTrue (is_sound_inode inode) }
        requires unescaped { has_escaped_name inode.attrs ≡ false }
        ensures entries { IfOk result (λ builder. built_entries builder ≡ ([], inode) ∷ []) }
        ensures builder { IfOk result (λ builder. IsSheetBuilder builder) }
        ensures last { IfOk result (λ builder. last_path builder ≡ []) }
    {
        let mut rows = Vec::with_capacity(alloc, room)?;
        rows.push(SheetRow {
            name: None,
            inode,
            parent: 0,
            after: 1,
        })?;
        let mut way = Vec::new(alloc);
        way.push(0)?;
        Ok(SheetBuilder { rows, way })
    }

    /// The number of names of the last path.
    pub(crate) fn last_depth(&self) -> usize
        requires { IsSheetBuilder self.now }
        ensures { result ≡ length (last_path self.now) }
    {
        self.way.len() - 1
    }

    /// Whether the entry `name` of the directory of the first `depth` names of the last path comes
    /// after all entries.
    pub fn comes_before_child(&self, depth: usize, name: &Name) -> bool
        requires builder { IsSheetBuilder self.now }
        requires depth { depth ≤ length (last_path self.now) }
        ensures { result
            ≡ is_lt (path_cmp (last_path self.now)
            (child_path (take depth (last_path self.now)) name.now)) }
    {
        if depth == self.last_depth() {
            return true;
        }
        let number = self.way[depth + 1];
        match &self.rows[number as usize].name {
            Some(own) => own.cmp(name).is_lt(),
            None => true,
        }
    }

    /// Whether the path of the first `depth` names of the last path is a directory's.
    pub fn is_directory_above(&self, depth: usize) -> bool
        requires builder { IsSheetBuilder self.now }
        requires depth { depth ≤ length (last_path self.now) }
        ensures { result ≡ is_directory_at (built_entries self.now) (take depth (last_path self.now)) }
    {
        let number = self.way[depth];
        is_directory(&self.rows[number as usize].inode)
    }

    /// Puts one more entry, which comes after all others, into the directory of the first `depth`
    /// names of the last path, which is there. Fails, with nothing changed, only when out of memory.
    pub fn enter(
        &mut self,
        alloc: Global,
        depth: usize,
        name: Name,
        inode: Inode,
    ) -> Result<(), AllocError>
        requires builder { IsSheetBuilder self.old }
        requires entry { CanEnter self.old depth name inode }
        ensures entries { IfOk result (λ _. built_entries self.new
            ≡ built_entries self.old ++ (child_path (take depth (last_path self.old)) name, inode) ∷ []) }
        ensures builder { IsSheetBuilder self.new }
        ensures last { IfOk result
            (λ _. last_path self.new ≡ child_path (take depth (last_path self.old)) name) }
        ensures kept { OnErr result (built_entries self.new ≡ built_entries self.old) }
    {
        let number = self.rows.len() as u32;
        let parent = self.way[depth];
        // The room for the last step is made first.
        self.way.reserve(1)?;
        self.rows.push(SheetRow {
            name: Some(name),
            inode,
            parent,
            after: number + 1,
        })?;
        self.way.truncate(depth + 1);
        self.way.push(number)?;
        Ok(())
    }

    /// The finished sheet.
    pub fn finish(self, alloc: Global) -> Result<Sheet, AllocError>
        requires { IsSheetBuilder self }
        ensures { IfOk result (λ sheet. sheet ≡ built_entries self) }
    {
        Sheet::of_rows(alloc, self.rows)
    }
}
