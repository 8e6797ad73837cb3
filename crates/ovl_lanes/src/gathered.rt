//! The numbers of a closed lane.
ghost use Rattle.std.specs.Prelude.{◌≡◌, ◌+◌};

/// How many pieces were pushed to a lane, were taken from it and are left in it: those pushed are
/// those taken with those left.
#[derive(Drop)]
pub struct Gathered {
    /// How many pieces were pushed.
    pub pushed: u64,
    /// How many of them were taken.
    pub taken: u64,
    /// How many of them are left.
    pub left: u64,
    ghost whole: { pushed ≡ taken + left },
}
