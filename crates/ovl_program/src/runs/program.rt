//! Which of these a line asks for.
use crate::faults::ProgramFault;
use crate::output::status::Ending;
use crate::runs::arguments;
use crate::runs::command::perform;
use crate::runs::standard_input::show_input;
use ovl_command_line::{LineFault, line};
use ovl_engine::{EngineFault, emit};
use ovl_files::SharedFiles;
use std::io;
use std::rt::{Env, Files};
use std::sync::Wait;
use std::thread::Threads;

/// Does what the words ask for, or without any word what standard input asks for, and gives the
/// status that the program ends with. A fault is printed on standard error; where that can't be
/// written either, the status says it.
pub fn run<
    R: Env
        + Files
        + SharedFiles
        + Input
        + Print
        + Eprint
        + AllocGlobal
        + Clone
        + Drop
        + Threads
        + Wait
        + Sync,
>(rt: &R) -> u8 {
    match dispatch(rt) {
        Ok(ending) => ending.status(),
        Err(fault) => {
            tell(rt, &fault);
            fault.status()
        }
    }
}

fn dispatch<
    R: Env
        + Files
        + SharedFiles
        + Input
        + Print
        + AllocGlobal
        + Clone
        + Drop
        + Threads
        + Wait
        + Sync,
>(rt: &R) -> Result<Ending, ProgramFault> {
    // Made by hand (3): out of memory while the words are read; the help can't be written.
    let alloc = rt.alloc();
    let mut writer = io::writer(rt);
    if !arguments::are_there(rt) {
        return show_input(rt, &mut rt.reader(), &mut writer);
    }
    let words = arguments::read(rt)?;
    let texts: Vec<&str> = words.iter().map(|word| word.as_str()).collect(alloc)?;
    match line(alloc, &texts) {
        Ok(line) => perform(rt, &line, &mut writer),
        Err(LineFault::Help(text)) => match emit(&mut writer, text.as_bytes()) {
            Ok(()) => Ok(Ending::Clean),
            Err(_) => Err(ProgramFault::Output),
        },
        Err(LineFault::Usage(text)) => Err(ProgramFault::Usage(text)),
        Err(LineFault::Memory) => Err(ProgramFault::Engine(EngineFault::Memory)),
    }
}

fn tell(rt: &impl Eprint, fault: &ProgramFault) {
    let _ = match fault {
        ProgramFault::Usage(text) => eprint!(rt; "{text}"),
        _ => eprintln!(rt; "ovl_layers: {fault}"),
    };
}
