//! What an owner or a pass took and pushed.
use ovl_board::Piece;
use std::collections::LinkedList;

/// What the owner of a lane, or one pass of it, knows of the lane: whether it is the owner, how
/// many passes were split from it and joined to it, and the pieces that it pushed and took.
/// Contracts speak of it; no value of it is made.
pub struct Account {
    /// Whether the account is the owner's, not a pass's.
    pub owner: bool,
    /// How many passes were split from it.
    pub split: u64,
    /// How many passes were joined to it.
    pub joined: u64,
    /// The pieces that it pushed, in their order.
    pub pushed: LinkedList<Piece>,
    /// The pieces that it took, in their order.
    pub taken: LinkedList<Piece>,
}
