//! A caller to begin with: prints what two layers show together.
#![tactic(auto)]

ghost use Rattle.std.specs.Prelude.{[]};
ghost use Rattle.ovl_engine.specs.Outcomes.{IsOutcome};
ghost use Rattle.ovl_engine.specs.Requests.{request_of};
ghost use Rattle.ovl_commands.specs.declared.requests.Command.TheVariants.{Show};

use ovl_engine::{Answer, Command, EngineFault, command, emit};
use ovl_pool::OpenGate;
use std::alloc::{AllocError, Global};
use std::io;
use std::process::ExitCode;
use std::sync::Wait;
use std::thread::Threads;

// The upper layer hides `/old` by a whiteout.
const UPPER: &str = r#"{"entries":[
{"path":"/","kind":"dir","mode":493,"uid":0,"gid":0,"mtime":0,"xattrs":{}},
{"path":"/old","kind":"char","mode":0,"uid":0,"gid":0,"mtime":0,"xattrs":{},
"major":0,"minor":0}],"overlay-layer":1}"#;
// The lower layer has it, and a directory.
const LOWER: &str = r#"{"entries":[
{"path":"/","kind":"dir","mode":493,"uid":0,"gid":0,"mtime":0,"xattrs":{}},
{"path":"/etc","kind":"dir","mode":493,"uid":0,"gid":0,"mtime":0,"xattrs":{}},
{"path":"/old","kind":"fifo","mode":420,"uid":0,"gid":0,"mtime":0,"xattrs":{}}
],"overlay-layer":1}"#;

// Both manifests, the topmost layer's first.
fn manifests(alloc: Global) -> Result<Vec<Vec<u8>>, AllocError> {
    let mut manifests = Vec::new(alloc);
    for text in [UPPER, LOWER] {
        manifests.push(String::from_str(alloc, text)?.into_bytes())?;
    }
    Ok(manifests)
}

// What the layers of these manifests show, by two workers: with no data-only layers and no blobs,
// and a gate that refuses nothing. The clause says which report that is, and what each fault means.
fn shown<R: Threads + Wait + Sync>(
    rt: &R,
    alloc: Global,
    manifests: &[Vec<u8>],
) -> Result<Answer, EngineFault>
    ensures { IsOutcome (request_of Show manifests.now 0 [] 2) (λ _. ⊥) result }
{
    command(rt, alloc, Command::Show, manifests, 0, &[], 2, &OpenGate)
}

// The report.
fn report<R: Threads + Wait + Sync>(rt: &R, alloc: Global) -> Result<Vec<u8>, EngineFault> {
    Ok(shown(rt, alloc, &manifests(alloc)?)?.report)
}

fn main(rt: HostRuntime) -> ExitCode {
    let Ok(report) = report(&rt, rt.alloc()) else {
        return ExitCode::FAILURE;
    };
    let mut writer = io::writer(&rt);
    match emit(&mut writer, &report) {
        Ok(()) => ExitCode::SUCCESS,
        Err(_) => ExitCode::FAILURE,
    }
}
