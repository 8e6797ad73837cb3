//! Faults that no words and no files make a program meet.

use ovl_engine::EngineFault;
use ovl_pool::RunFault;
use ovl_program::ProgramFault;
use std::alloc::Global;
use std::test::Fail;

// A failure where a fault of the engine has another text or another status.
fn is_told(alloc: Global, fault: EngineFault, text: &str, status: u8) -> Result<(), Fail> {
    let told = ProgramFault::from(fault);
    if told.to_string(alloc)?.as_str() == text && told.status() == status {
        return Ok(());
    }
    Err(Fail::new(format_args!("not told as {text:?} with {status}")))
}

#[test]
fn a_fault_of_the_engine_has_its_text_and_its_status(rt: HostRuntime) -> Result<(), Fail> {
    let alloc = rt.alloc();
    is_told(alloc, EngineFault::Workers, "workers must be 1 to 64", 5)?;
    is_told(alloc, EngineFault::BlobOrder, "blobs out of order", 3)?;
    is_told(alloc, EngineFault::Run(RunFault::Gate), "gate", 5)?;
    is_told(alloc, EngineFault::Memory, "out of memory", 5)
}
