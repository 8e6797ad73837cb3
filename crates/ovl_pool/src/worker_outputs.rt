//! What workers bring, put together.
ghost use Rattle.std.specs.Prelude.{◌≡◌, None, IfOk, IsPermutation, [], false};
ghost use Rattle.ovl_pool.specs.WorkerOutputs.{AreInPieceOrder, IsWorkerOutputOfBoth};

use crate::merging::merge;
use ovl_board::{Parcel, Piece, sort_parcels};
use std::alloc::{AllocError, Global};

/// What workers bring: their parcels, a piece that the gate refused, and whether a worker was out
/// of memory.
#[derive(Drop)]
pub(crate) struct WorkerOutput<T> {
    pub(crate) parcels: Vec<Parcel<T>>,
    pub(crate) refused: Option<Piece>,
    pub(crate) out_of_memory: bool,
}

impl<T: Drop> WorkerOutput<T> {
    /// An output with nothing in it.
    pub(crate) fn empty(alloc: Global) -> WorkerOutput<T>
        ensures parcels { result.parcels.items ≡ [] }
        ensures refused { result.refused ≡ None }
        ensures out_of_memory { result.out_of_memory ≡ false }
    {
        WorkerOutput {
            parcels: Vec::new(alloc),
            refused: None,
            out_of_memory: false,
        }
    }

    /// The output with its parcels in the order of their pieces, where there is memory to sort them.
    pub(crate) fn sorted(mut self) -> WorkerOutput<T>
        ensures parcels { IsPermutation self.parcels.items result.parcels.items }
        ensures refused { result.refused ≡ self.refused }
        ensures out_of_memory { result.out_of_memory ≡ false
            → (self.out_of_memory ≡ false) × AreInPieceOrder result.parcels.items }
    {
        // Made by hand (2): a refused growth: the output says so.
        match sort_parcels(&mut self.parcels) {
            Ok(()) => self,
            Err(AllocError) => {
                self.out_of_memory = true;
                self
            }
        }
    }

    /// Both outputs in one, in the order of pieces where each of them is. Of two refused pieces it
    /// keeps the first.
    pub(crate) fn with(
        self,
        alloc: Global,
        other: WorkerOutput<T>,
    ) -> Result<WorkerOutput<T>, AllocError>
        ensures { IfOk result (IsWorkerOutputOfBoth self other) }
    {
        let WorkerOutput {
            parcels,
            refused,
            out_of_memory,
        } = self;
        let WorkerOutput {
            parcels: more,
            refused: beside,
            out_of_memory: too,
        } = other;
        Ok(WorkerOutput {
            parcels: merge(alloc, parcels, more)?,
            refused: refused.or(beside),
            out_of_memory: out_of_memory || too,
        })
    }
}
