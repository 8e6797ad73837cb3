//! Runs by several workers, with gates and works that look at them.
ghost use Rattle.std.specs.Prelude.{◌≡◌, []};
ghost use Rattle.ovl_board.specs.Trees.{tree_kids, deepest_path};

use crate::board::{piece, tree};
use ovl_board::{Piece, Tree, Work};
use ovl_pool::{Gate, OpenGate, RunFault, Tally, run};
use ovl_test_rows::{expect_at, expect_so, parts_of, same};
use std::alloc::{AllocError, Global};
use std::marker::Brand;
use std::sync::Wait;
use std::sync::atomic::{AtomicBool, AtomicU64, Ordering};
use std::sync::ledger::{Blank, Ledger};
use std::test::Fail;
use std::thread::{self, Threads};

const SMALL: &str = "/ /a /b";

const DEEP: &str =
    "/ /a /b /b/c /b/c/d /b/c/d/e /b/c/d/e/f /b/c/d/e/f/g /b/c/d/e/f/g/h /b/c/d/e/f/g/h/i /b/c/d/e/f/g/h/i/j";

const LOOKS_OF_A_VISIT: u32 = 400_000_000;

// How often it yields its processor where a worker is to see meanwhile that another one met a
// fault.
const YIELDS: u32 = 50_000;

// And how often where that one wasn't refused yet.
const YIELDS_BEFORE: u32 = 10_000_000;

// What a tally answers where pieces with this many kids are delivered one after another by one
// worker, and how many pieces are known and delivered then.
fn deliver_by<K: Ledger, D: Ledger>(
    alloc: Global,
    kids: Blank,
    parcels: Blank,
    pieces: &[u64],
) -> Result<(Vec<bool>, u64, u64), AllocError>
    requires kids { (kids.name ≡ K.name) × (kids.parts ≡ K.parts) × (kids.parts ≡ 1) }
    requires parcels { (parcels.name ≡ D.name) × (parcels.parts ≡ D.parts) × (parcels.parts ≡ 1) }
{
    let (kids, mut known) = kids.open::<K>();
    let (parcels, mut delivered) = parcels.open::<D>();
    let mut tally = Tally::start(kids, parcels);
    let mut answers = Vec::new(alloc);
    for kids in pieces {
        answers.push(tally.deliver(*kids, &mut known, &mut delivered))?;
    }
    Ok((answers, tally.known, tally.delivered))
}

fn deliver_all(alloc: Global, pieces: &[u64]) -> Result<(Vec<bool>, u64, u64), AllocError> {
    deliver_by::<Brand, Brand>(alloc, Blank::new(1), Blank::new(1), pieces)
}

fn tally_told(alloc: Global, pieces: &[u64]) -> Result<String, AllocError> {
    let (answers, known, delivered) = deliver_all(alloc, pieces)?;
    format!(in alloc; "{answers:?} {known} {delivered}")
}

#[test]
fn a_tally_notes_each_known_piece_once_and_no_more_than_it_can_count(
    rt: HostRuntime,
) -> Result<(), Fail> {
    let few = tally_told(rt.alloc(), &[2, 0, 0, 0])?;
    same("few", few.as_str(), "[true, true, true, false] 3 3")?;
    let most = tally_told(rt.alloc(), &[u64::MAX, u64::MAX - 1, 1])?;
    same(
        "most",
        most.as_str(),
        "[false, true, false] 18446744073709551615 1",
    )
}

// Workers, and the parcels of a run over the small tree with its own numbers; or the text of its
// fault.
const RUNS: &str = "\
0 -> there are 1 to 64 workers
1 -> 3 RunCount { known: 3, delivered: 3, taken: 3, left: 0 }
64 -> 3 RunCount { known: 3, delivered: 3, taken: 3, left: 0 }
65 -> there are 1 to 64 workers
";

fn counted<R: Threads + Wait + Sync>(
    rt: &R,
    alloc: Global,
    work: &Tree,
    workers: usize,
) -> Result<String, Fail> {
    match run(rt, alloc, work, piece(alloc, "/")?, workers, &OpenGate) {
        Ok((parcels, count)) => Ok(format!(in alloc; "{} {count:?}", parcels.len())?),
        Err(fault) => Ok(fault.to_string(alloc)?),
    }
}

fn row_counted<R: Threads + Wait + Sync>(
    rt: &R,
    alloc: Global,
    work: &Tree,
    row: &str,
) -> Result<(), Fail> {
    let (workers, wanted) = parts_of(row);
    same(
        row,
        counted(rt, alloc, work, workers.parse()?)?.as_str(),
        wanted,
    )
}

#[test]
fn a_run_gives_the_plain_walk_by_1_to_64_workers(rt: HostRuntime) -> Result<(), Fail> {
    let work = tree(rt.alloc(), SMALL)?;
    for row in RUNS.lines() {
        row_counted(&rt, rt.alloc(), &work, row)?;
    }
    Ok(())
}

// A piece: how often the gate was asked for it, and whether that was once when its visit began.
#[derive(Drop)]
struct Turn {
    piece: Piece,
    asked: AtomicU64,
    in_turn: AtomicBool,
}

// What learns of each visit as it begins.
trait Witness {
    fn see(&self, piece: &Piece);
}

// A tree, and who learns of the visits to its pieces.
#[derive(Drop)]
struct Watched<T: Drop> {
    tree: Tree,
    witness: T,
}

impl<T: Witness + Drop> Work for Watched<T> {
    type Out = ();

    ghost Seen = { Unit {0} };

    ghost seen_set = { Prim.hlevel };

    ghost seen = { λ _. tt };

    ghost kids_of = { λ work. tree_kids work.tree };

    ghost out_of = { λ _ _. tt };

    ghost deepest_of = { λ work. deepest_path work.tree };

    fn visit(&self, alloc: Global, piece: &Piece) -> Result<(Vec<Piece>, ()), AllocError> {
        self.witness.see(piece);
        self.tree.visit(alloc, piece)
    }

    fn deepest(&self) -> u32 {
        self.tree.deepest()
    }
}

// The turns of pieces, as the gate to these, which lets all pass.
#[derive(Drop)]
struct Turns(Vec<Turn>);

impl Turns {
    fn of(alloc: Global, texts: &str) -> Result<Turns, Fail> {
        let mut turns = Vec::new(alloc);
        for text in texts.split_whitespace() {
            turns.push(Turn {
                piece: piece(alloc, text)?,
                asked: AtomicU64::new(0),
                in_turn: AtomicBool::new(false),
            })?;
        }
        Ok(Turns(turns))
    }

    fn turn(&self, piece: &Piece) -> Option<&Turn> {
        self.0.iter().find(|turn| turn.piece == *piece)
    }

    // Whether the gate was asked for each piece once, before its visit.
    fn were_kept(&self) -> bool {
        self.0.iter().all(|turn| {
            turn.in_turn.load(Ordering::SeqCst) && turn.asked.load(Ordering::SeqCst) == 1
        })
    }
}

impl Gate for Turns {
    ghost may_refuse = { λ _ _. ⊥ };

    fn pass(&self, piece: &Piece) -> bool {
        if let Some(turn) = self.turn(piece) {
            turn.asked.fetch_add(1, Ordering::SeqCst);
        }
        true
    }
}

impl Witness for Turns {
    fn see(&self, piece: &Piece) {
        if let Some(turn) = self.turn(piece) {
            let asked = turn.asked.load(Ordering::SeqCst);
            turn.in_turn.store(asked == 1, Ordering::SeqCst);
        }
    }
}

// The deep tree, where the visits of all pieces have their turns.
fn turning_tree(alloc: Global) -> Result<Watched<Turns>, Fail> {
    let tree = tree(alloc, DEEP)?;
    let witness = Turns::of(alloc, DEEP)?;
    Ok(Watched { tree, witness })
}

fn is_in_turn<R: Threads + Wait + Sync>(
    rt: &R,
    alloc: Global,
    work: &Watched<Turns>,
    workers: usize,
) -> Result<bool, Fail> {
    run(rt, alloc, work, piece(alloc, "/")?, workers, &work.witness)?;
    Ok(work.witness.were_kept())
}

#[test]
fn the_gate_is_asked_once_for_each_piece_before_its_visit(rt: HostRuntime) -> Result<(), Fail> {
    for workers in [1, 2, 7] {
        let work = turning_tree(rt.alloc())?;
        expect_at(workers, is_in_turn(&rt, rt.alloc(), &work, workers)?)?;
    }
    Ok(())
}

// Refuses `/a`. Another piece below the root passes a while after that.
#[derive(Drop)]
struct Refusing {
    refused: Piece,
    last: Piece,
    has_refused: AtomicBool,
    was_asked_for_last: AtomicBool,
}

impl Refusing {
    fn of(alloc: Global, last: &str) -> Result<Refusing, Fail> {
        Ok(Refusing {
            refused: piece(alloc, "/a")?,
            last: piece(alloc, last)?,
            has_refused: AtomicBool::new(false),
            was_asked_for_last: AtomicBool::new(false),
        })
    }
}

impl Gate for Refusing {
    ghost may_refuse = { λ _ p. ¬ (p.dir ≡ []) };

    fn pass(&self, piece: &Piece) -> bool {
        if piece.dir.is_empty() {
            return true;
        }
        if *piece == self.refused {
            self.has_refused.store(true, Ordering::SeqCst);
            return false;
        }
        if *piece == self.last {
            self.was_asked_for_last.store(true, Ordering::SeqCst);
        }
        for _ in 0..YIELDS_BEFORE {
            if self.has_refused.load(Ordering::SeqCst) {
                break;
            }
            thread::yield_now();
        }
        for _ in 0..YIELDS {
            thread::yield_now();
        }
        true
    }
}

fn ends_refused<R: Threads + Wait + Sync>(
    rt: &R,
    alloc: Global,
    work: &Tree,
    gate: &Refusing,
) -> Result<bool, Fail> {
    let answer = run(rt, alloc, work, piece(alloc, "/")?, 2, gate);
    Ok(answer.err() == Some(RunFault::Gate))
}

#[test]
fn the_others_end_once_a_worker_is_refused(rt: HostRuntime) -> Result<(), Fail> {
    let work = tree(rt.alloc(), DEEP)?;
    let gate = Refusing::of(rt.alloc(), "/b/c/d/e/f/g/h/i/j")?;
    let is = ends_refused(&rt, rt.alloc(), &work, &gate)?;
    expect_so(is && !gate.was_asked_for_last.load(Ordering::SeqCst))
}

// A visited place: whether its visit began, and whether it saw the other one's begin.
#[derive(Drop)]
struct Place {
    piece: Piece,
    began: AtomicBool,
    saw: AtomicBool,
}

impl Place {
    fn new(piece: Piece) -> Place {
        Place {
            piece,
            began: AtomicBool::new(false),
            saw: AtomicBool::new(false),
        }
    }

    fn meet(&self, other: &Place) {
        self.began.store(true, Ordering::SeqCst);
        for _ in 0..LOOKS_OF_A_VISIT {
            if other.began.load(Ordering::SeqCst) {
                self.saw.store(true, Ordering::SeqCst);
                return;
            }
        }
    }

    fn has_seen(&self) -> bool {
        self.saw.load(Ordering::SeqCst)
    }
}

// Two places whose visits wait for each other for a while.
#[derive(Drop)]
struct Meeting {
    a: Place,
    b: Place,
}

impl Witness for Meeting {
    fn see(&self, piece: &Piece) {
        if *piece == self.a.piece {
            self.a.meet(&self.b);
        } else if *piece == self.b.piece {
            self.b.meet(&self.a);
        }
    }
}

// The small tree, where the visits of `/a` and `/b` meet.
fn meeting_tree(alloc: Global) -> Result<Watched<Meeting>, Fail> {
    let (a, b) = (piece(alloc, "/a")?, piece(alloc, "/b")?);
    let tree = tree(alloc, SMALL)?;
    let witness = Meeting {
        a: Place::new(a),
        b: Place::new(b),
    };
    Ok(Watched { tree, witness })
}

// Whether the visits of `/a` and of `/b` saw each other.
fn visited<R: Threads + Wait + Sync>(
    rt: &R,
    alloc: Global,
    work: &Watched<Meeting>,
    workers: usize,
) -> Result<(bool, bool), Fail> {
    run(rt, alloc, work, piece(alloc, "/")?, workers, &OpenGate)?;
    let Meeting { a, b } = &work.witness;
    Ok((a.has_seen(), b.has_seen()))
}

#[test]
fn several_workers_visit_at_the_same_time(rt: HostRuntime) -> Result<(), Fail> {
    for workers in [1, 2, 4] {
        let work = meeting_tree(rt.alloc())?;
        let seen = visited(&rt, rt.alloc(), &work, workers)?;
        expect_at(workers, seen == (workers > 1, true))?;
    }
    Ok(())
}
