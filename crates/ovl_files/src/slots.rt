//! What several workers give of the blobs of a list of names, each name by one of them, and how
//! that is put in order.
ghost use Rattle.std.specs.Prelude.{◌≡◌, ◌≤◌, ◌⊎◌, ℕ, List, IfOk, IfSome, MatchResult, All, Some, None, flat_map, length};
ghost use Rattle.std.specs.Option.{option_or};
ghost use Rattle.ovl_files.specs.declared.faults.FileFault.TheVariants.{Memory};
ghost use Rattle.ovl_files.specs.declared.slots.Stop.{Stop};
ghost use Rattle.ovl_files.specs.Slots.{AreSlotsOf, IsFirstStop, IsShareOf, IsToldAmong, slot_at, told_at, told_by};

use crate::faults::FileFault;
use ovl_blobs::BlobInfo;
use ovl_inode::Digest;
use std::alloc::{AllocError, Global};
use thiserror::Error;

/// What a worker gives of the name of this number: the content of its blob, if it has one.
#[derive(Clone, Copy, Debug)]
pub struct Told {
    pub number: usize,
    pub content: Option<BlobInfo>,
}

/// Why a worker stopped, at the name of this number.
#[derive(Debug, Drop, Error)]
#[error("blob {number}: {fault}")]
pub struct Stop {
    pub number: usize,
    pub fault: FileFault,
}

/// What is given of names, each in the slot of its number. The slot of a name of which nothing is
/// given is empty.
#[derive(Drop)]
pub struct Slots {
    told: Vec<Option<Option<BlobInfo>>>,
}

impl Slots {
    /// An empty slot for each of these names.
    fn new(alloc: Global, names: &[Digest]) -> Result<Slots, AllocError>
        ensures count { IfOk result (λ slots. length slots.told.items ≡ length names.now) }
        ensures slots { IfOk result (AreSlotsOf names.now) }
        ensures empty { IfOk result (λ slots. (number : ℕ) → slot_at slots number ≡ None) }
    {
        Ok(Slots {
            told: vec![in alloc; None; names.len()]?,
        })
    }

    /// Puts what is given of some of these names into their slots.
    fn put(&mut self, names: &[Digest], told: &[Told])
        requires count { length self.old.told.items ≡ length names.now }
        requires slots { AreSlotsOf names.now self.old }
        requires told { All (IsToldAmong names.now) told.now }
        ensures count { length self.new.told.items ≡ length names.now }
        ensures slots { AreSlotsOf names.now self.new }
        ensures told { (number : ℕ) → slot_at self.new number
            ≡ option_or (told_at told.now number) (slot_at self.old number) }
    {
        for one in told {
            self.told[one.number] = Some(one.content);
        }
    }

    /// What is in the slot of this number, if anything is there.
    pub fn get(&self, number: usize) -> Option<Option<BlobInfo>>
        ensures { result ≡ slot_at self.now number }
    {
        match self.told.get(number) {
            Some(slot) => *slot,
            None => None,
        }
    }
}

/// What workers give of these names, each its share of them, put in order; or where any stopped,
/// the fault at the least number.
pub fn joined(
    alloc: Global,
    folder: &str,
    names: &[Digest],
    shares: Vec<Result<Vec<Told>, Stop>>,
) -> Result<Slots, FileFault>
    requires { All (IsShareOf folder.now names.now) shares.items }
    ensures told { IfOk result (λ slots. (number : ℕ)
        → slot_at slots number ≡ told_at (flat_map told_by shares.items) number) }
    ensures slots { MatchResult result
        (AreSlotsOf names.now)
        (λ fault. (fault ≡ Memory)
        ⊎ ((stop : Stop) × (IsFirstStop shares.items stop × (fault ≡ stop.fault)))) }
{
    let mut slots = Slots::new(alloc, names)?;
    let mut first: Option<Stop> = None;
    for share in shares {
        match share {
            Ok(told) => slots.put(names, &told),
            Err(stop) => first = Some(earlier(first, stop)),
        }
    }
    match first {
        Some(stop) => Err(stop.fault),
        None => Ok(slots),
    }
}

// The stop at the lesser number.
fn earlier(first: Option<Stop>, stop: Stop) -> Stop
    ensures one { (result ≡ stop) ⊎ (first ≡ Some result) }
    ensures least { (result.number ≤ stop.number)
        × IfSome first (λ one. result.number ≤ one.number) }
{
    match first {
        Some(first) if first.number < stop.number => first,
        _ => stop,
    }
}
