//! The rule of a lane, and the steps that keep it. It has no code that runs.
use crate::accounts::Account;
use crossbeam_deque::protocol::{Join, Lesson, Outcome, Protocol, Split};
use ovl_board::Piece;

/// The rule of a lane, which each step keeps: its pieces, with those that the owner and all passes
/// took, are those that the owner pushed, and each pass that was split off is joined again or still
/// out.
pub struct Fair;

impl Protocol<Piece, Account> for Fair {
    ghost use Rattle.std.specs.Prelude.{[]};
    ghost use Rattle.ovl_lanes.specs.Accounts.{owned, lent, Kept};

    ghost holds = { Kept };

    ghost first = { owned 0 0 [] [] };

    ghost guest = { lent 0 [] };
}

/// Splitting makes a pass that took nothing; joining it adds what it took to the owner's account.
pub(crate) struct Lends;

impl Split<Account> for Lends {
    ghost use Rattle.std.specs.Prelude.{[], ◌+◌};
    ghost use Rattle.ovl_lanes.specs.Accounts.{owned, lent};

    ghost left = { λ v. owned (v.split + 1) v.joined v.pushed v.taken };

    ghost right = { λ v. lent 1 [] };
}

impl Join<Account> for Lends {
    ghost use Rattle.std.specs.Prelude.{[], ◌+◌, ◌++◌};
    ghost use Rattle.ovl_lanes.specs.Accounts.{owned, lent};

    ghost both = { λ v w. owned v.split (v.joined + 1) v.pushed (v.taken ++ w.taken) };

    ghost spent = { lent 0 [] };
}

/// The owner adds pieces.
pub(crate) struct Puts;

impl Outcome<Piece, Account> for Puts {
    ghost use Rattle.std.specs.Prelude.{◌≡◌, ◌++◌};
    ghost use Rattle.ovl_lanes.specs.Accounts.{owned};

    ghost then = { λ v xs w. w ≡ owned v.split v.joined (v.pushed ++ xs) v.taken };
}

/// The owner takes pieces: ones that it pushed and that weren't taken before. Where it finds none
/// and no pass is out, all that it pushed was taken.
pub(crate) struct Takes;

impl Outcome<Piece, Account> for Takes {
    ghost use Rattle.std.specs.Prelude.{◌≡◌, ◌≤◌, ◌++◌, ℕ};
    ghost use Rattle.std.specs.List.{sum_by};
    ghost use Rattle.ovl_board.specs.declared.pieces.Piece.{Piece};
    ghost use Rattle.ovl_lanes.specs.Accounts.{owned};

    ghost then = { λ v xs w. (w ≡ owned v.split v.joined v.pushed (v.taken ++ xs))
        × ((h : Piece → ℕ) → sum_by h (v.taken ++ xs) ≤ sum_by h v.pushed) };

    ghost empty = { λ v. v.split ≡ v.joined → (h : Piece → ℕ)
        → sum_by h v.pushed ≡ sum_by h v.taken };
}

/// A pass takes pieces.
pub(crate) struct Steals;

impl Outcome<Piece, Account> for Steals {
    ghost use Rattle.std.specs.Prelude.{◌≡◌, ◌++◌};
    ghost use Rattle.ovl_lanes.specs.Accounts.{lent};

    ghost then = { λ v xs w. w ≡ lent 1 (v.taken ++ xs) };
}

/// If no pass is out, what was pushed is what the owner's account has as taken with what the
/// lane holds.
pub(crate) struct Left;

impl Lesson<Piece, Account> for Left {
    ghost use Rattle.std.specs.Prelude.{◌≡◌, ◌+◌, ℕ};
    ghost use Rattle.std.specs.List.{sum_by};
    ghost use Rattle.ovl_board.specs.declared.pieces.Piece.{Piece};

    ghost fact = { λ v items. (h : Piece → ℕ)
        → sum_by h v.pushed ≡ sum_by h v.taken + sum_by h items };
}
