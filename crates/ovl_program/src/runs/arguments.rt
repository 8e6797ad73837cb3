//! The words that the program was started with.
ghost use Rattle.std.specs.Prelude.{◌≡◌, ◌↔◌, ◌⊎◌, false, Err, IfErr};
ghost use Rattle.std.specs.declared.env.FillError.TheVariants.{NotPresent};
ghost use Rattle.ovl_engine.specs.declared.faults.EngineFault.TheVariants.{Memory};
ghost use Rattle.ovl_program.specs.declared.faults.ProgramFault.TheVariants.{Words, Engine};

use crate::faults::ProgramFault;
use ovl_engine::EngineFault;
use std::env;
use std::env::FillError;
use std::io::ErrorKind;
use std::rt::Env;

/// Whether the program was started with any word after its name, be it text or not.
pub fn are_there(rt: &impl Env) -> bool {
    is_there(rt.arg(1, &mut [0; 1]))
}

// Whether there is a word, by what comes where it is asked for: one that doesn't fit is there too.
fn is_there(word: Result<usize, FillError>) -> bool
    ensures { (result ≡ false) ↔ (word ≡ Err NotPresent) }
{
    !matches!(word, Err(FillError::NotPresent))
}

/// The words after the program's name. Each must be UTF-8, and so must the name.
pub fn read<R: Env + AllocGlobal>(rt: &R) -> Result<Vec<String>, ProgramFault>
    ensures { IfErr result (λ fault. (fault ≡ Words) ⊎ (fault ≡ Engine Memory)) }
{
    // Made by hand (2): the call that gives the words ran out of memory.
    match env::args(rt) {
        Ok(words) => Ok(words.skip(1).collect(rt.alloc())?),
        Err(error) if error.kind() == ErrorKind::OutOfMemory => {
            Err(ProgramFault::Engine(EngineFault::Memory))
        }
        Err(_) => Err(ProgramFault::Words),
    }
}
