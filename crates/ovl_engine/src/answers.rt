//! What a prepared task gives, once the contents of blobs are known. It must not know where they
//! are from.
ghost use Rattle.std.specs.Prelude.{◌≡◌, ◌<◌, ◌≤◌, true, false, IfOk, IfErr, List, length};
ghost use Rattle.ovl_lookup.specs.Sound.{IsSoundStack};
ghost use Rattle.ovl_board.specs.Machine.{worker_limit};
ghost use Rattle.ovl_check.specs.declared.findings.Finding.{Finding};
ghost use Rattle.ovl_blobs.specs.Blobs.{BlobView};
ghost use Rattle.ovl_blobs.specs.Contents.{contents_of, contents_ascend};
ghost use Rattle.ovl_check.specs.Findings.{findings};
ghost use Rattle.ovl_commands.specs.declared.requests.Command.TheVariants.{Show, Fsck};
ghost use Rattle.ovl_commands.specs.Commands.{makes_layers, stays_sound, stands_alone, wants_lower};
ghost use Rattle.ovl_commands.specs.Commands as commands;
ghost use Rattle.ovl_engine.specs.FsckReports as fsck_reports;
ghost use Rattle.ovl_engine.specs.Tasks.{command_of, left_of};
ghost use Rattle.ovl_engine.specs.Refusals.{lacks_layers};
ghost use Rattle.ovl_engine.specs.Outcomes.{IsRun, IsFailedWalk, MayRefuseLayers, MayRefuseOwn};
ghost use Rattle.ovl_engine.specs.Prepared.{IsRunOf, KeepsTreeBy, MayRefuseWork};
ghost use Rattle.ovl_engine.specs.Kept.{KeepsTreeOf, KeepsSoundness, IsQuietOf};

use crate::checks::findings_of;
use crate::derefs::deref;
use crate::faults::EngineFault;
use crate::flattens::flatten;
use crate::fsck_reports::{fsck_report_by, is_clean};
use crate::merges::merge;
use crate::merges_down::merged_down;
use crate::preparations::Prepared;
use crate::stacks::drop_in_parallel;
use crate::tasks::{Task, checks};
use crate::teams::WorkerTeam;
use crate::vacuums::vacuum;
use ovl_check::{BlobInfo, Finding};
use ovl_commands::{Answer, Command};
use ovl_lookup::Stack;
use ovl_pool::Gate;
use ovl_reports::{ShowWork, report_by};
use std::alloc::Global;
use std::sync::Wait;
use std::thread::Threads;

/// What a prepared task gives, by 1 to [`WORKER_LIMIT`](ovl_board::WORKER_LIMIT) workers, of the
/// contents of blobs, their names ascending: of each name that it wants to know and that is there,
/// see [`Prepared::wanted_names`]. The answer is that with any blobs that have these contents; a
/// name without content has none, and what is under other names says nothing, see
/// [`findings_need_named`](ovl_check::laws::findings_need_named). The gate is asked for directories
/// only. Merges one after the other give the answer of the last; contents are known once for all of
/// them, since no blob is named by a new layer that the given ones don't name. Fails as
/// [`command`](crate::command) does in its work.
pub fn answer<G: Gate + Sync, R: Threads + Wait + Sync>(
    rt: &R,
    alloc: Global,
    prepared: Prepared,
    contents: Vec<BlobInfo>,
    workers: usize,
    gate: &G,
) -> Result<Answer, EngineFault>
    requires number { (0 < workers) × (workers ≤ worker_limit) }
    requires enough { lacks_layers (command_of prepared.task) (left_of prepared.task)
        (length prepared.stack.layers) ≡ false }
    requires ascend { contents_ascend contents.items ≡ true }
    requires held { (blobs : List BlobView) × (contents_of blobs ≡ contents.items) }
    ensures outcome { (blobs : List BlobView)
        → (commands.checks (command_of prepared.task) ≡ true → contents_of blobs ≡ contents.items)
        → IsRunOf (command_of prepared.task) (left_of prepared.task) prepared.stack blobs
        (G.may_refuse gate.now) result }
    ensures keeps { IfOk result (KeepsTreeBy prepared.task prepared.stack) }
    ensures sound { IfOk result (λ answer. stays_sound (command_of prepared.task) ≡ true
        → KeepsSoundness (command_of prepared.task) prepared.stack answer) }
    ensures quiet { IfOk result (λ answer. stands_alone (command_of prepared.task) ≡ true
        → IsQuietOf (command_of prepared.task) prepared.stack answer) }
{
    let Prepared { task, stack } = prepared;
    let team = WorkerTeam {
        rt,
        alloc,
        workers,
        gate,
    };
    match task {
        Task::Once(what) => answer_once(&team, what, stack, &contents),
        Task::MergeDown(left) => merged_down(&team, stack, &contents, left),
    }
}

// What a command gives of a stack and contents that it isn't refused for.
fn answer_once<G: Gate + Sync, R: Threads + Wait + Sync>(
    team: &WorkerTeam<'_, G, R>,
    what: Command,
    stack: Stack,
    contents: &[BlobInfo],
) -> Result<Answer, EngineFault>
    requires number { (0 < team.now.workers) × (team.now.workers ≤ worker_limit) }
    requires several { wants_lower what ≡ true → 1 < length stack.layers }
    requires ascend { contents_ascend contents.now ≡ true }
    requires held { (blobs : List BlobView) × (contents_of blobs ≡ contents.now) }
    ensures outcome { (blobs : List BlobView)
        → (commands.checks what ≡ true → contents_of blobs ≡ contents.now)
        → IsRun what stack (findings blobs stack)
        (MayRefuseWork what stack (G.may_refuse team.now.gate.now)) result }
    ensures keeps { IfOk result
        (λ answer. makes_layers what ≡ true → KeepsTreeOf what stack answer) }
    ensures sound { IfOk result
        (λ answer. stays_sound what ≡ true → KeepsSoundness what stack answer) }
    ensures quiet { IfOk result (λ answer. stands_alone what ≡ true → IsQuietOf what stack answer) }
{
    let found = found_in(team, what, &stack, contents)?;
    answer_found(team, what, stack, found)
}

// What is found in a stack by these contents, if the command checks it.
fn found_in<G: Gate + Sync, R: Threads + Wait + Sync>(
    team: &WorkerTeam<'_, G, R>,
    what: Command,
    stack: &Stack,
    contents: &[BlobInfo],
) -> Result<Vec<Finding>, EngineFault>
    requires number { (0 < team.now.workers) × (team.now.workers ≤ worker_limit) }
    requires ascend { contents_ascend contents.now ≡ true }
    ensures found { IfOk result (λ found. (blobs : List BlobView)
        → contents_of blobs ≡ contents.now
        → commands.checks what ≡ true → found.items ≡ findings blobs stack.now) }
    ensures sound { IfOk result (λ found. (blobs : List BlobView)
        → contents_of blobs ≡ contents.now
        → commands.checks what ≡ true → fsck_reports.is_clean found.items ≡ true
        → IsSoundStack stack.now) }
    ensures fault { IfErr result (λ fault. (commands.checks what ≡ true)
        × IsFailedWalk (MayRefuseLayers stack.now (G.may_refuse team.now.gate.now)) fault) }
{
    if !checks(what) {
        return Ok(Vec::new(team.alloc));
    }
    findings_of(team, stack, contents)
}

// What a command gives of a stack that it isn't refused for, by all that is found in it where the
// command checks.
fn answer_found<G: Gate + Sync, R: Threads + Wait + Sync>(
    team: &WorkerTeam<'_, G, R>,
    what: Command,
    stack: Stack,
    found: Vec<Finding>,
) -> Result<Answer, EngineFault>
    requires number { (0 < team.now.workers) × (team.now.workers ≤ worker_limit) }
    requires several { commands.wants_lower what ≡ true → 1 < length stack.layers }
    requires sound { commands.checks what ≡ true → fsck_reports.is_clean found.items ≡ true
        → IsSoundStack stack }
    ensures outcome { (all : List Finding) → (commands.checks what ≡ true → found.items ≡ all)
        → IsRun what stack all (MayRefuseOwn what stack (G.may_refuse team.now.gate.now)) result }
    ensures keeps { IfOk result
        (λ answer. makes_layers what ≡ true → KeepsTreeOf what stack answer) }
    ensures sound { IfOk result
        (λ answer. stays_sound what ≡ true → KeepsSoundness what stack answer) }
    ensures quiet { IfOk result (λ answer. stands_alone what ≡ true → IsQuietOf what stack answer) }
{
    match what {
        Command::Show => show(team, stack),
        Command::Fsck => fsck(team, stack, &found),
        Command::Vacuum => vacuum(team, stack, found),
        Command::Deref => deref(team, stack, found),
        Command::Merge => merge(team, stack, found),
        Command::Flatten => flatten(team, stack, found),
    }
}

// The report of the merged tree of a stack, whatever is found in it.
fn show<G: Gate + Sync, R: Threads + Wait + Sync>(
    team: &WorkerTeam<'_, G, R>,
    stack: Stack,
) -> Result<Answer, EngineFault>
    requires { (0 < team.now.workers) × (team.now.workers ≤ worker_limit) }
    ensures { (found : List Finding)
        → IsRun Show stack found (MayRefuseOwn Show stack (G.may_refuse team.now.gate.now)) result }
{
    let work = ShowWork::new(&stack);
    let parcels = team.walk(&work, 0)?;
    let look = work.root_look(team.alloc)?;
    drop_in_parallel(team.rt, team.alloc, stack, team.workers);
    Ok(Answer {
        report: report_by(team.rt, team.alloc, &look, parcels, team.workers)?,
        layers: Vec::new(team.alloc),
        clean: true,
    })
}

// The report of what is found in a stack.
fn fsck<G, R: Threads + Sync>(
    team: &WorkerTeam<'_, G, R>,
    stack: Stack,
    found: &[Finding],
) -> Result<Answer, EngineFault>
    requires { 0 < team.now.workers }
    ensures { IsRun Fsck stack found.now ⊥ result }
{
    drop_in_parallel(team.rt, team.alloc, stack, team.workers);
    Ok(Answer {
        report: fsck_report_by(team.rt, team.alloc, found, team.workers)?,
        layers: Vec::new(team.alloc),
        clean: is_clean(found),
    })
}
