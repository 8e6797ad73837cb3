//! A layer as a table. It must not know what a mark does.
ghost use Rattle.std.specs.Prelude.{◌≡◌, ◌+◌, ◌<◌, ◌≤◌, ◌^◌, ◌++◌, [], ◌∷◌, length, map, vec_len, Some, IfOk, IfErr, OnOk, MatchOption};
ghost use Rattle.std.specs.Option.{option_map};
ghost use Rattle.std.specs.List.{All};
ghost use Rattle.std.specs.Vec.{vec_capacity};
ghost use Rattle.ovl_names.specs.Paths.{child_path};
ghost use Rattle.ovl_inode.specs.Marks.{mark_of};
ghost use Rattle.ovl_layer.specs.Layers.{IsLayer, entry_at, names_below, entry_limit};
ghost use Rattle.ovl_layer.specs.LayerTrees.{entries_under, entries_of_nodes, IsPlaceAt};
ghost use Rattle.ovl_layer.specs.Sheets.{IsRowOf, AreRows, path_at, last_name, entries_of_rows, afters_from};
ghost use Rattle.ovl_layer.specs.RowsBelow.{AreRowsBelow};
ghost use Rattle.ovl_layer.specs.SheetPasses.{AddsParents, IsRoomFor, rows_from, kid_order, with_afters};
ghost use Rattle.ovl_layer.specs.SheetPasses as sheet_passes;

use crate::kid_lists::KidLists;
use crate::mark_lists::MarkList;
use crate::places::{LayerPlace, names_at, place_at};
use crate::rows_below::RowsBelow;
use crate::trees::{Layer, Node};
use ovl_inode::{Inode, Mark};
use ovl_names::{Name, Path};
use std::alloc::{AllocError, Global};
use std::cmp::Ordering;
use std::marker::Model;

/// A row of a [`Sheet`].
#[derive(Debug, Drop)]
pub struct SheetRow {
    /// The last name of its path; the root has none.
    pub name: Option<Name>,
    /// The inode, as the layer has it.
    pub inode: Inode,
    /// The number of its directory's row; the root's is its own.
    pub parent: u32,
    /// The number after those of the rows under it.
    pub after: u32,
}

/// A layer as a flat table, seen as its entries in path order: the row of number `n` is that of the
/// entry `n`, counted from 0, so that of the root is the first. Beside the rows it keeps the
/// numbers of those directly below each, and each one's mark.
#[derive(Drop)]
pub struct Sheet {
    rows: Vec<SheetRow>,
    kids: KidLists,
    marks: MarkList,
}

impl Model for Sheet {
    ghost use Rattle.ovl_layer.specs.Layers.{Entries};
    ghost use Rattle.ovl_layer.specs.Sheets.{IsSheet, entries_of_rows};

    ghost Value = { Entries };

    ghost view = { λ a. entries_of_rows a.rows.items };

    ghost invariant = { λ a. IsSheet a.rows.items a.kids a.marks };
}

/// A place in a sheet, seen as the entries at and under it, their paths counted from it.
#[derive(Drop)]
pub struct SheetPlace<'a> {
    sheet: &'a Sheet,
    number: u32,
}

impl<'a> Model for SheetPlace<'a> {
    ghost use Rattle.std.specs.Prelude.{◌<◌, length};
    ghost use Rattle.ovl_layer.specs.Layers.{Entries};
    ghost use Rattle.ovl_layer.specs.LayerTrees.{entries_under};
    ghost use Rattle.ovl_layer.specs.Sheets.{path_at};

    ghost Value = { Entries };

    ghost view = { λ a. entries_under (path_at a.sheet.now a.number) a.sheet.now };

    ghost invariant = { λ a. a.number < length a.sheet.now };
}

impl Sheet {
    /// The sheet of a layer, whose nodes are moved into it. All memory is taken before the first is
    /// moved: where a growth was refused, the layer comes back as it was.
    pub fn of(alloc: Global, layer: Layer) -> Result<Sheet, Layer>
        ensures value { IfOk result (λ sheet. sheet ≡ layer) }
        ensures back { IfErr result (λ back. back ≡ layer) }
    {
        // Made by hand (1): a refused growth: the layer comes back.
        match Room::of(alloc, &layer) {
            Ok(room) => Ok(Sheet::filled(layer, room)),
            Err(AllocError) => Err(layer),
        }
    }

    /// The sheet of the rows of a layer, in path order; the number after each one's subtree is set
    /// here.
    pub(crate) fn of_rows(alloc: Global, mut rows: Vec<SheetRow>) -> Result<Sheet, AllocError>
        requires { AreRows rows.items }
        ensures { IfOk result (λ sheet. sheet ≡ entries_of_rows rows.items) }
    {
        let mut parents = Vec::with_capacity(alloc, rows.len())?;
        let mut marks = MarkList::with_capacity(alloc, rows.len())?;
        for row in &rows {
            parents.push(row.parent)?;
            marks.push_of(alloc, &row.inode)?;
        }
        let kids = KidLists::of(alloc, &parents)?;
        let depths = depths_of(alloc, &rows)?;
        set_afters(&depths, &mut rows);
        Ok(Sheet { rows, kids, marks })
    }

    /// The number of rows, at least one; takes no memory.
    pub fn len(&self) -> u32
        ensures value { result ≡ length self.now }
        ensures layer { IsLayer self.now }
    {
        self.rows.len() as u32
    }

    /// The number of the root's row, which is the first.
    pub fn root_number(&self) -> u32
        ensures inside { result < length self.now }
        ensures path { path_at self.now result ≡ [] }
        ensures layer { IsLayer self.now }
    {
        let _rows = &self.rows;
        0
    }

    /// The row of a number, and `None` past the last; takes no memory.
    pub fn row(&self, number: u32) -> Option<&SheetRow>
        ensures { MatchOption result (length self.now ≤ number)
            (λ row. IsRowOf self.now number row.now) }
    {
        self.rows.get(number as usize)
    }

    /// The inode of the row of a number, which is below the number of rows; takes no memory.
    pub fn inode(&self, number: u32) -> &Inode
        requires { number < length self.now }
        ensures { entry_at self.now (path_at self.now number) ≡ Some result.now }
    {
        &self.rows[number as usize].inode
    }

    /// The last name of the path of the row of a number, which is below the number of rows; the
    /// root has none. Takes no memory.
    pub fn name(&self, number: u32) -> Option<&Name>
        requires { number < length self.now }
        ensures { option_map (λ name. name.now) result ≡ last_name (path_at self.now number) }
    {
        self.rows[number as usize].name.as_ref()
    }

    /// The mark of the row of a number, as only its inode says it; the number is below that of
    /// rows. Takes no memory.
    pub fn mark(&self, number: u32) -> &Mark
        requires { number < length self.now }
        ensures { option_map mark_of (entry_at self.now (path_at self.now number))
            ≡ Some result.now }
    {
        self.marks.at(number)
    }

    /// The rows directly below the row of a number, in the order of their names; takes no memory.
    pub fn below(&self, directory: u32) -> RowsBelow<'_>
        requires { directory < length self.now }
        ensures { AreRowsBelow self.now (path_at self.now directory) result }
    {
        RowsBelow::of(self, self.kids.below(directory))
    }

    /// The number of the entry `name` in the directory of a number, and `None` where there is none;
    /// takes no memory, and time for the logarithm of the directory's entries.
    pub fn child(&self, directory: u32, name: &str) -> Option<u32>
        requires { directory < length self.now }
        ensures { MatchOption result
            (entries_under (child_path (path_at self.now directory) name.now) self.now ≡ [])
            (λ child. (child < length self.now)
            × (path_at self.now child ≡ child_path (path_at self.now directory) name.now)) }
    {
        let rows = self.rows.as_slice();
        let kids = self.kids.below(directory);
        match kids.binary_search_by(|kid| order_of_kid(rows, *kid, name)) {
            Ok(place) => Some(kids[place]),
            Err(_) => None,
        }
    }

    /// The place of the root.
    pub fn root(&self) -> SheetPlace<'_>
        ensures value { result ≡ self.now }
        ensures layer { IsLayer self.now }
    {
        let _ = &self.rows;
        SheetPlace {
            sheet: self,
            number: 0,
        }
    }

    /// The place of a path, and `None` where there is no entry; takes no memory.
    pub fn place(&self, path: &Path) -> Option<SheetPlace<'_>>
        ensures { IsPlaceAt self.now path.now result }
    {
        place_at(self.root(), path)
    }

    /// The inode at a path, and `None` where there is no entry; takes no memory.
    pub fn at(&self, path: &Path) -> Option<&Inode>
        ensures { option_map (λ inode. inode.now) result ≡ entry_at self.now path.now }
    {
        Some(self.place(path)?.inode())
    }

    /// The names directly below a path, in order; none where there is no directory. Fails only when
    /// out of memory.
    pub fn children(&self, alloc: Global, path: &Path) -> Result<Vec<Name>, AllocError>
        ensures { IfOk result (λ names. names.items ≡ names_below self.now path.now) }
    {
        names_at(alloc, self.root(), path)
    }
}

// How the name of the row of a number is to another; a row without a name, and none at all, come
// before each.
fn order_of_kid(rows: &[SheetRow], number: u32, name: &str) -> Ordering
    ensures { result ≡ kid_order rows.now name.now number }
{
    match rows.get(number as usize) {
        Some(
            SheetRow {
                name: Some(own),
                ..
            },
        ) => own.as_str().as_bytes().cmp(name.as_bytes()),
        _ => Ordering::Less,
    }
}

impl<'a> SheetPlace<'a> {
    /// The inode at the place.
    pub fn inode(&self) -> &'a Inode
        ensures { entry_at self.now [] ≡ Some result.now }
    {
        let sheet = self.sheet;
        &sheet.rows[self.number as usize].inode
    }

    /// The mark of the place, as only its inode says it; takes no memory.
    pub fn mark(&self) -> &'a Mark
        ensures { option_map mark_of (entry_at self.now []) ≡ Some result.now }
    {
        let sheet = self.sheet;
        sheet.mark(self.number)
    }
}

impl<'a> LayerPlace for SheetPlace<'a> {
    ghost entries = { λ place. place };

    fn child(&self, name: &str) -> Option<SheetPlace<'a>> {
        let sheet = self.sheet;
        let _ = &sheet.rows;
        match sheet.child(self.number, name) {
            Some(number) => Some(SheetPlace { sheet, number }),
            None => None,
        }
    }

    fn names(&self, alloc: Global) -> Result<Vec<Name>, AllocError> {
        let rows = self.sheet.below(self.number);
        let mut names = Vec::with_capacity(alloc, rows.len())?;
        for (_, name) in rows {
            names.push(name.copy(alloc)?)?;
        }
        Ok(names)
    }
}

// The memory of a layer's sheet, taken before the layer's nodes are moved, with all that the sheet
// says beside them.
#[derive(Drop)]
struct Room {
    rows: Vec<SheetRow>,
    parents: Vec<u32>,
    afters: Vec<u32>,
    kids: KidLists,
    marks: MarkList,
}

impl Room {
    // The room of a layer's sheet; its rows are still empty.
    fn of(alloc: Global, layer: &Layer) -> Result<Room, AllocError>
        ensures { IfOk result (λ room. IsRoomFor layer.now room) }
    {
        let mut parents = Vec::new(alloc);
        parents.push(0)?;
        push_parents(&layer.children, 0, &mut parents)?;
        let count = parents.len();
        let mut afters = Vec::with_capacity(alloc, count)?;
        afters.push(count as u32)?;
        push_afters(&layer.children, &mut afters)?;
        let mut marks = MarkList::with_capacity(alloc, count)?;
        marks.push_of(alloc, &layer.inode)?;
        push_marks(alloc, &layer.children, &mut marks)?;
        let kids = KidLists::of(alloc, &parents)?;
        let rows = Vec::with_capacity(alloc, count)?;
        Ok(Room {
            rows,
            parents,
            afters,
            kids,
            marks,
        })
    }
}

// Adds the number of the parent of each entry at and under these nodes, which lie in the directory
// of this number.
fn push_parents(nodes: &[Node], directory: u32, parents: &mut Vec<u32>) -> Result<(), AllocError>
    requires directory { directory < vec_len parents.old }
    requires limit { vec_len parents.old + length (entries_of_nodes nodes.now) < 2 ^ 32 }
    ensures { OnOk result
        (AddsParents directory parents.old.items parents.new.items (entries_of_nodes nodes.now)) }
{
    for node in nodes {
        let number = parents.len() as u32;
        parents.push(directory)?;
        push_parents(&node.children, number, parents)?;
    }
    Ok(())
}

// Adds the number after the subtree of each entry at and under these nodes, the first of which has
// the next number.
fn push_afters(nodes: &[Node], afters: &mut Vec<u32>) -> Result<(), AllocError>
    requires limit { vec_len afters.old + length (entries_of_nodes nodes.now) < 2 ^ 32 }
    ensures { OnOk result (afters.new.items
        ≡ afters.old.items ++ afters_from (vec_len afters.old) (entries_of_nodes nodes.now)) }
{
    for node in nodes {
        let number = afters.len();
        afters.push(0)?;
        push_afters(&node.children, afters)?;
        afters[number] = afters.len() as u32;
    }
    Ok(())
}

// Adds the mark of each entry at and under these nodes.
fn push_marks(alloc: Global, nodes: &[Node], marks: &mut MarkList) -> Result<(), AllocError>
    requires limit { length marks.old + length (entries_of_nodes nodes.now) ≤ entry_limit }
    ensures { OnOk result (marks.new
        ≡ marks.old ++ map (λ entry. mark_of entry.1) (entries_of_nodes nodes.now)) }
{
    for node in nodes {
        marks.push_of(alloc, &node.inode)?;
        push_marks(alloc, &node.children, marks)?;
    }
    Ok(())
}

// The number of names of each row's path.
fn depths_of(alloc: Global, rows: &[SheetRow]) -> Result<Vec<u32>, AllocError>
    requires rows { AreRows rows.now }
    requires limit { length rows.now < 2 ^ 32 }
    ensures { IfOk result
        (λ depths. depths.items ≡ sheet_passes.depths_of (entries_of_rows rows.now)) }
{
    let mut depths = Vec::with_capacity(alloc, rows.len())?;
    for row in rows {
        let depth = match row.name {
            Some(_) => depths[row.parent as usize] + 1,
            None => 0,
        };
        depths.push(depth)?;
    }
    Ok(depths)
}

// Sets the number after the subtree of each row: those under a row follow it and have more names.
fn set_afters(depths: &[u32], rows: &mut Vec<SheetRow>)
    requires limit { vec_len rows.old < 2 ^ 32 }
    requires depths { depths.now ≡ sheet_passes.depths_of (entries_of_rows rows.old.items) }
    ensures { rows.new.items
        ≡ with_afters (afters_from 0 (entries_of_rows rows.old.items)) rows.old.items }
{
    let mut number = rows.len();
    while number > 0 {
        number -= 1;
        let mut after = number + 1;
        while after < rows.len() && depths[after] > depths[number] {
            after = rows[after].after as usize;
        }
        rows[number].after = after as u32;
    }
}

impl Sheet {
    // The sheet of a layer in the room that was taken for it.
    fn filled(layer: Layer, room: Room) -> Sheet
        requires { IsRoomFor layer room }
        ensures { result ≡ layer }
    {
        let Layer { inode, children } = layer;
        let Room {
            mut rows,
            parents,
            afters,
            kids,
            marks,
        } = room;
        let root = SheetRow {
            name: None,
            inode,
            parent: 0,
            after: afters[0],
        };
        put_row(&mut rows, root);
        move_nodes(children, &parents, &afters, &mut rows);
        Sheet { rows, kids, marks }
    }
}

// Adds the rows at and under these nodes, where there is room for them.
fn move_nodes(nodes: Vec<Node>, parents: &[u32], afters: &[u32], rows: &mut Vec<SheetRow>)
    requires limit { vec_len rows.old + length (entries_of_nodes nodes.items) < 2 ^ 32 }
    requires room { vec_len rows.old + length (entries_of_nodes nodes.items)
        ≤ vec_capacity rows.old }
    requires parents { vec_len rows.old + length (entries_of_nodes nodes.items)
        ≤ length parents.now }
    requires afters { vec_len rows.old + length (entries_of_nodes nodes.items) ≤ length afters.now }
    ensures rows { rows.new.items
        ≡ rows.old.items
        ++ rows_from parents.now afters.now (vec_len rows.old) (entries_of_nodes nodes.items) }
    ensures room { vec_capacity rows.old ≤ vec_capacity rows.new }
{
    for node in nodes {
        let Node {
            name,
            inode,
            children,
        } = node;
        let number = rows.len();
        let row = SheetRow {
            name: Some(name),
            inode,
            parent: parents[number],
            after: afters[number],
        };
        put_row(rows, row);
        move_nodes(children, parents, afters, rows);
    }
}

// Adds a row, where there is room for it.
fn put_row(rows: &mut Vec<SheetRow>, row: SheetRow)
    requires { vec_len rows.old < vec_capacity rows.old }
    ensures rows { rows.new.items ≡ rows.old.items ++ row ∷ [] }
    ensures room { vec_capacity rows.old ≤ vec_capacity rows.new }
{
    let _ = rows.push(row);
}
