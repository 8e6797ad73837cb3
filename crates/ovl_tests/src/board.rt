//! Walks, assemblies and the steps of the machine.
use ovl_board::{
    BoardFault, Core, CoreFault, Event, Parcel, Piece, Tree, all_lawful, assemble, kids_lawful,
    plain_walk,
};
use ovl_names::Path;
use ovl_test_rows::{expect_at, parts_of, same};
use std::alloc::Global;
use std::test::Fail;

/// The piece of this directory.
pub(crate) fn piece(alloc: Global, text: &str) -> Result<Piece, Fail> {
    Ok(Piece {
        space: 0,
        dir: Path::parse(alloc, text)?,
    })
}

fn pieces(alloc: Global, texts: &str) -> Result<Vec<Piece>, Fail> {
    let mut all = Vec::new(alloc);
    for text in texts.split_whitespace() {
        all.push(piece(alloc, text)?)?;
    }
    Ok(all)
}

fn parcel(alloc: Global, text: &str, kids: &str) -> Result<Parcel<()>, Fail> {
    Ok(Parcel {
        piece: piece(alloc, text)?,
        kids: pieces(alloc, kids)?,
        out: (),
    })
}

// The parcels that the tree of `/`, `/a` and `/b` has at these paths.
fn small_parcels(alloc: Global, texts: &str) -> Result<Vec<Parcel<()>>, Fail> {
    let mut all = Vec::new(alloc);
    for text in texts.split_whitespace() {
        let kids = if text == "/" { "/a /b" } else { "" };
        all.push(parcel(alloc, text, kids)?)?;
    }
    Ok(all)
}

fn paths(alloc: Global, texts: &str) -> Result<Vec<Path>, Fail> {
    let mut paths = Vec::new(alloc);
    for text in texts.split_whitespace() {
        paths.push(Path::parse(alloc, text)?)?;
    }
    Ok(paths)
}

/// The tree of these paths.
pub(crate) fn tree(alloc: Global, texts: &str) -> Result<Tree, Fail> {
    Ok(Tree::of(paths(alloc, texts)?)?)
}

// The paths of the parcels' pieces, with a space after each.
fn shown(alloc: Global, parcels: &[Parcel<()>]) -> Result<String, Fail> {
    let mut text = String::new(alloc);
    for parcel in parcels {
        text.push_str(parcel.piece.dir.shown(alloc)?.as_str())?;
        text.push_str(" ")?;
    }
    Ok(text)
}

const KIDS: &str = "\
/a/b /a/c -> true
/a/c /a/b -> false
/a/b /a/b -> false
/a/b /a/b/c -> false
/a /a/b -> false
/a/b /b/c -> false
 -> true
";

fn kids_told(alloc: Global, row: &str) -> Result<(), Fail> {
    let (kids, wanted) = parts_of(row);
    let lawful = kids_lawful(&parcel(alloc, "/a", kids)?);
    same(row, if lawful { "true" } else { "false" }, wanted)
}

#[test]
fn kids_are_lawful_one_name_below_and_ascending(rt: HostRuntime) -> Result<(), Fail> {
    for row in KIDS.lines() {
        kids_told(rt.alloc(), row)?;
    }
    Ok(())
}

// The plain walk over a tree, where the list is one.
fn walked(alloc: Global, texts: &str) -> Result<String, Fail> {
    match Tree::of(paths(alloc, texts)?) {
        Ok(tree) => shown(alloc, &plain_walk(alloc, &tree, piece(alloc, "/")?)?),
        Err(fault) => Ok(fault.to_string(alloc)?),
    }
}

const WALKS: &str = "\
/ /a /b -> / /a /b\x20
/ /a /a/c /a-b /b -> / /a /a/c /a-b /b\x20
 -> the paths do not begin with `/`, do not ascend, or lack a parent
/ /a/b -> the paths do not begin with `/`, do not ascend, or lack a parent
/a /a/b -> the paths do not begin with `/`, do not ascend, or lack a parent
/ /b /a -> the paths do not begin with `/`, do not ascend, or lack a parent
/ /a /a -> the paths do not begin with `/`, do not ascend, or lack a parent
/ /a /b/c -> the paths do not begin with `/`, do not ascend, or lack a parent
";

fn row_walked(alloc: Global, row: &str) -> Result<(), Fail> {
    let (texts, wanted) = parts_of(row);
    same(row, walked(alloc, texts)?.as_str(), wanted)
}

#[test]
fn the_plain_walk_goes_below_a_kid_before_the_next(rt: HostRuntime) -> Result<(), Fail> {
    for row in WALKS.lines() {
        row_walked(rt.alloc(), row)?;
    }
    Ok(())
}

// The fault with its piece.
fn fault_told(alloc: Global, fault: &BoardFault) -> Result<String, Fail> {
    let (word, piece) = match fault {
        BoardFault::Double(piece) => ("double", piece),
        BoardFault::Stranger(piece) => ("stranger", piece),
        BoardFault::Missing(piece) => ("missing", piece),
        BoardFault::Memory => return Err(Fail::from("out of memory")),
    };
    let path = piece.dir.shown(alloc)?;
    Ok(format!(in alloc; "{word} {path}")?)
}

// The order in which parcels of the tree of `/`, `/a` and `/b` are assembled, or the fault with its
// piece.
fn assembled(alloc: Global, parcels: Vec<Parcel<()>>) -> Result<String, Fail> {
    if !all_lawful(&parcels) {
        return Err(Fail::from("unlawful kids"));
    }
    match assemble(alloc, &piece(alloc, "/")?, parcels) {
        Ok(parcels) => shown(alloc, &parcels),
        Err(fault) => fault_told(alloc, &fault),
    }
}

const ASSEMBLIES: &str = "\
/b / /a -> / /a /b\x20
/ /a /a /z -> double /a
/ /a /z -> stranger /z
/ /a -> missing /b
 -> missing /
";

fn row_assembled(alloc: Global, row: &str) -> Result<(), Fail> {
    let (texts, wanted) = parts_of(row);
    same(
        row,
        assembled(alloc, small_parcels(alloc, texts)?)?.as_str(),
        wanted,
    )
}

#[test]
fn assembly_puts_parcels_in_order_or_tells_the_first_fault(rt: HostRuntime) -> Result<(), Fail> {
    for row in ASSEMBLIES.lines() {
        row_assembled(rt.alloc(), row)?;
    }
    Ok(())
}

// Whether this many workers are refused.
fn is_refused(alloc: Global, small: &Tree, workers: usize) -> Result<bool, Fail> {
    let core = Core::start(alloc, small, piece(alloc, "/")?, workers);
    Ok(core.err() == Some(CoreFault::NotPossible))
}

#[test]
fn a_core_has_1_to_64_workers(rt: HostRuntime) -> Result<(), Fail> {
    let small = tree(rt.alloc(), "/ /a /b")?;
    for workers in [0, 1, 64, 65] {
        let is = is_refused(rt.alloc(), &small, workers)?;
        expect_at(workers, is == (workers == 0 || workers == 65))?;
    }
    Ok(())
}

const STEPS: [Event; 8] = [
    Event::Pop(0),
    Event::Work(0),
    Event::Push(0),
    Event::Push(0),
    Event::Steal(1, 0),
    Event::Pop(0),
    Event::Work(0),
    Event::Work(1),
];

const IMPOSSIBLE: [Event; 5] = [
    Event::Pop(1),
    Event::Steal(0, 0),
    Event::Steal(2, 0),
    Event::Work(0),
    Event::Push(0),
];

// Whether none of these steps is possible.
fn are_refused(alloc: Global, core: &mut Core<'_, Tree>) -> bool {
    for event in IMPOSSIBLE {
        if core.step(alloc, event) != Err(CoreFault::NotPossible) {
            return false;
        }
    }
    true
}

fn step_all(alloc: Global, core: &mut Core<'_, Tree>) -> Result<(), Fail> {
    for step in STEPS {
        core.step(alloc, step)?;
    }
    Ok(())
}

// The parcels of a core of two workers, which isn't finished before the steps.
fn stepped(alloc: Global, small: &Tree) -> Result<Vec<Parcel<()>>, Fail> {
    let mut core = Core::start(alloc, small, piece(alloc, "/")?, 2)?;
    if !are_refused(alloc, &mut core) || core.idle() {
        return Err(Fail::from("a step is possible"));
    }
    let Err(mut core) = core.finish() else {
        return Err(Fail::from("finished"));
    };
    step_all(alloc, &mut core)?;
    let Ok(parcels) = core.finish() else {
        return Err(Fail::from("open"));
    };
    Ok(parcels)
}

#[test]
fn a_core_gives_its_parcels_in_the_order_of_the_steps(rt: HostRuntime) -> Result<(), Fail> {
    let alloc = rt.alloc();
    let parcels = stepped(alloc, &tree(alloc, "/ /a /b")?)?;
    same("steps", shown(alloc, &parcels)?.as_str(), "/ /b /a ")?;
    same("walk", assembled(alloc, parcels)?.as_str(), "/ /a /b ")
}
