//! The layer that is left, from what the walk put out.
ghost use Rattle.std.specs.Prelude.{◌≡◌, ◌<◌, ◌≤◌, ◌+◌, false, [], Ok, IfOk, length};
ghost use Rattle.ovl_names.specs.Paths.{child_path};
ghost use Rattle.ovl_board.specs.Parcels.{parcel_views};
ghost use Rattle.ovl_lookup.specs.Words.{top_layer, lower_layers};
ghost use Rattle.ovl_layer.specs.Layers.{entry_limit};
ghost use Rattle.ovl_layer.specs.Entries.{entry_after, stated_pair};
ghost use Rattle.ovl_layer.specs.Sheets.{path_at};
ghost use Rattle.ovl_layer.specs.LayerBuilders.{builder_entries, IsLayerBuilder};
ghost use Rattle.ovl_vacuum.specs.Directories.{names_seen, IsVacuumWalk};
ghost use Rattle.ovl_vacuum.specs.Passes.{idle_flags, gone_flags, names_told, TellsBelow, IsLeftTo};
ghost use Rattle.ovl_vacuum.specs.Vacuum.{is_idle_throughout, vacuumed_layer, removed_paths};

use crate::places::{DirectoryAbove, directory_of, path_in};
use crate::works::VacuumWork;
use ovl_board::Parcel;
use ovl_inode::{Inode, is_directory};
use ovl_layer::{Layer, LayerBuilder, start_root};
use ovl_lookup::Stack;
use ovl_names::{Name, Path};
use std::alloc::{AllocError, Global};

/// What vacuum gives.
#[derive(Drop)]
pub struct VacuumDone {
    /// The topmost layer without the entries at and under which all change nothing.
    pub layer: Layer,
    /// The paths of those entries, in path order.
    pub removed: Vec<Path>,
}

/// The topmost layer without each entry at and under which all are idle, and the paths of those.
/// The parcels are the plain walk of the work from `/` of space 0. Fails only when out of memory.
///
/// By one thread:
///
/// ```
/// let work = VacuumWork::new(stack);
/// let parcels = plain_walk(alloc, &work, Piece::root(alloc, 0))?;
/// Ok(finish_vacuum(alloc, &work, parcels)?)
/// ```
pub fn finish_vacuum(
    alloc: Global,
    work: &VacuumWork<'_>,
    parcels: Vec<Parcel<Vec<(Name, bool)>>>,
) -> Result<VacuumDone, AllocError>
    requires { IsVacuumWalk work.now (parcel_views names_seen parcels.items) }
    ensures layer { IfOk result
        (λ done. done.layer ≡ vacuumed_layer (top_layer work.now) (lower_layers work.now)) }
    ensures removed { IfOk result
        (λ done. done.removed.items ≡ removed_paths (top_layer work.now) (lower_layers work.now)) }
{
    let idle = idle_rows(alloc, work.stack, &parcels)?;
    done_by(alloc, work.stack, &gone_rows(work.stack, idle))
}

// What vacuum gives, by whether each row goes.
fn done_by(alloc: Global, stack: &Stack, gone: &[bool]) -> Result<VacuumDone, AllocError>
    requires { gone.now ≡ gone_flags stack.now }
    ensures layer { IfOk result
        (λ done. done.layer ≡ vacuumed_layer (top_layer stack.now) (lower_layers stack.now)) }
    ensures removed { IfOk result (λ done. done.removed.items
        ≡ removed_paths (top_layer stack.now) (lower_layers stack.now)) }
{
    Ok(VacuumDone {
        layer: layer_left(alloc, stack, gone)?,
        removed: paths_gone(alloc, stack, gone)?,
    })
}

// Whether the entry of each row of the topmost layer is idle.
fn idle_rows(
    alloc: Global,
    stack: &Stack,
    parcels: &[Parcel<Vec<(Name, bool)>>],
) -> Result<Vec<bool>, AllocError>
    requires { IsVacuumWalk stack.now (parcel_views names_seen parcels.now) }
    ensures { IfOk result (λ idle. idle.items ≡ idle_flags stack.now) }
{
    let sheet = stack.top();
    let mut idle = vec![in alloc; false; sheet.len() as usize]?;
    // The parcels are those of the directories, in the order of their rows.
    let mut place = 0;
    for number in 0..sheet.len() {
        if is_directory(sheet.inode(number)) {
            mark_below(stack, number, &parcels[place].out, &mut idle);
            place += 1;
        }
    }
    Ok(idle)
}

// Tells of the rows directly below a directory's whether their entries are idle, by what the
// directory put out.
fn mark_below(stack: &Stack, directory: u32, names: &[(Name, bool)], idle: &mut Vec<bool>)
    requires inside { directory < length (top_layer stack.now) }
    requires names { names.now ≡ names_told stack.now directory }
    requires count { length idle.old.items ≡ length (top_layer stack.now) }
    ensures { TellsBelow stack.now directory idle.old.items idle.new.items }
{
    let mut place = 0;
    for (row, _) in stack.top().below(directory) {
        idle[row as usize] = names[place].1;
        place += 1;
    }
}

// Whether all at and under each row are idle. From the last row to the first, one that stays keeps
// its directory.
fn gone_rows(stack: &Stack, idle: Vec<bool>) -> Vec<bool>
    requires { idle.items ≡ idle_flags stack.now }
    ensures { result.items ≡ gone_flags stack.now }
{
    let sheet = stack.top();
    let mut gone = idle;
    let mut number = sheet.len();
    while number > 1 {
        number -= 1;
        if !gone[number as usize] {
            let directory = directory_of(sheet, number);
            gone[directory as usize] = false;
        }
    }
    gone
}

// The layer of the rows that stay.
fn layer_left(alloc: Global, stack: &Stack, gone: &[bool]) -> Result<Layer, AllocError>
    requires { gone.now ≡ gone_flags stack.now }
    ensures { IfOk result
        (λ layer. layer ≡ vacuumed_layer (top_layer stack.now) (lower_layers stack.now)) }
{
    let sheet = stack.top();
    let mut rest = Remainder::of_root(alloc, stack)?;
    for number in 1..sheet.len() {
        if !gone[number as usize] {
            rest = rest.with_row(alloc, stack, number)?;
        }
    }
    rest.builder.finish()
}

// The layer of the rows that stay, while it is built.
#[derive(Drop)]
struct Remainder {
    builder: LayerBuilder,
    // How many entries it has.
    count: u32,
    above: DirectoryAbove,
}

impl Remainder {
    // The remainder of only the root, which stays.
    fn of_root(alloc: Global, stack: &Stack) -> Result<Remainder, AllocError>
        ensures { IfOk result (IsLeftTo stack.now 1) }
    {
        let root = stack.top().inode(0).copy(alloc)?;
        Ok(Remainder {
            builder: begun(alloc, root)?,
            count: 1,
            above: DirectoryAbove::root(alloc),
        })
    }

    // The remainder with the entry of the next row too, which stays.
    fn with_row(self, alloc: Global, stack: &Stack, number: u32) -> Result<Remainder, AllocError>
        requires some { 1 ≤ number }
        requires inside { number < length (top_layer stack.now) }
        requires stays { is_idle_throughout (top_layer stack.now) (lower_layers stack.now)
            (path_at (top_layer stack.now) number) ≡ false }
        requires left { IsLeftTo stack.now number self }
        ensures { IfOk result (IsLeftTo stack.now (number + 1)) }
    {
        let Remainder {
            builder,
            count,
            mut above,
        } = self;
        let sheet = stack.top();
        above.go_to(alloc, sheet, number)?;
        let name = sheet.name(number).unwrap().copy(alloc)?;
        let inode = sheet.inode(number).copy(alloc)?;
        Ok(Remainder {
            builder: with_child(alloc, builder, count, &above.path, name, inode)?,
            count: count + 1,
            above,
        })
    }
}

// The layer of only a root. What vacuum leaves is a layer, so this fails only when out
// of memory.
fn begun(alloc: Global, root: Inode) -> Result<LayerBuilder, AllocError>
    ensures { IfOk result
        (λ builder. (entry_after [] (stated_pair ([], root)) ≡ Ok (builder_entries builder))
        × IsLayerBuilder builder) }
{
    // Made by hand (1): entries of a layer are one, so no other fault of the builder comes.
    match start_root(alloc, root) {
        Ok(builder) => Ok(builder),
        Err(_) => Err(AllocError),
    }
}

// The builder with the entry `name` of a directory, after this many others. Fails only when out of
// memory.
fn with_child(
    alloc: Global,
    builder: LayerBuilder,
    count: u32,
    directory: &Path,
    name: Name,
    inode: Inode,
) -> Result<LayerBuilder, AllocError>
    requires builder { IsLayerBuilder builder }
    requires count { count ≡ length (builder_entries builder) }
    requires room { count < entry_limit }
    ensures { IfOk result
        (λ more.
        (entry_after (builder_entries builder) (stated_pair (child_path directory.now name, inode))
        ≡ Ok (builder_entries more))
        × IsLayerBuilder more) }
{
    // Made by hand (1): entries of a layer are one, so no other fault of the builder comes.
    match builder.with_child(alloc, count, directory, name, inode) {
        Ok(builder) => Ok(builder),
        Err(_) => Err(AllocError),
    }
}

// The paths of the rows that go.
fn paths_gone(alloc: Global, stack: &Stack, gone: &[bool]) -> Result<Vec<Path>, AllocError>
    requires { gone.now ≡ gone_flags stack.now }
    ensures { IfOk result
        (λ paths. paths.items ≡ removed_paths (top_layer stack.now) (lower_layers stack.now)) }
{
    let sheet = stack.top();
    let mut paths = Vec::new(alloc);
    let mut above = DirectoryAbove::root(alloc);
    for number in 0..sheet.len() {
        if gone[number as usize] {
            above.go_to(alloc, sheet, number)?;
            paths.push(path_in(alloc, sheet, number, &above.path)?)?;
        }
    }
    Ok(paths)
}
