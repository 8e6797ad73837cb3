//! Short texts, put together piece by piece from their ends, in a room that takes no memory.
ghost use Rattle.std.specs.Prelude.{◌≡◌, ◌+◌, ◌≤◌, ◌++◌, [], decimal, length};
ghost use Rattle.std.specs.Fmt.{signed_decimal};

use std::marker::Model;

// More than the numbers and the names of an entry's members take.
const ROOM: usize = 224;

/// A text of at most 224 bytes, seen as its bytes. They are at the end of the room, so that a
/// number's digits come where they stay.
#[derive(Drop)]
pub(crate) struct ShortText {
    room: [u8; 224],
    from: usize,
}

impl Model for ShortText {
    ghost use Rattle.std.specs.Prelude.{◌≤◌, ℕ, List, drop};

    ghost Value = { List ℕ };

    ghost view = { λ a. drop a.from a.room };

    ghost invariant = { λ a. a.from ≤ 224 };
}

impl ShortText {
    /// No text.
    pub(crate) fn new() -> ShortText
        ensures { result ≡ [] }
    {
        ShortText {
            room: [0; 224],
            from: ROOM,
        }
    }

    /// The bytes.
    pub(crate) fn as_slice(&self) -> &[u8]
        ensures { result.now ≡ self.now }
    {
        &self.room[self.from..]
    }

    /// Puts a text in front.
    #[inline(always)]
    pub(crate) fn put(&mut self, piece: &str)
        requires { length piece.now + length self.old ≤ 224 }
        ensures { self.new ≡ piece.now ++ self.old }
    {
        let from = self.from - piece.len();
        self.room[from..self.from].copy_from_slice(piece.as_bytes());
        self.from = from;
    }

    /// Puts a whole number in front.
    pub(crate) fn put_number(&mut self, number: u64)
        requires { 20 + length self.old ≤ 224 }
        ensures text { self.new ≡ decimal number ++ self.old }
        ensures length { length self.new ≤ 20 + length self.old }
    {
        self.from = itoa::write_digits(number, &mut self.room, self.from);
    }

    /// Puts a whole number in front that may be negative.
    pub(crate) fn put_integer(&mut self, number: i64)
        requires { 21 + length self.old ≤ 224 }
        ensures text { self.new ≡ signed_decimal number ++ self.old }
        ensures length { length self.new ≤ 21 + length self.old }
    {
        self.put_number(number.unsigned_abs());
        if number < 0 {
            self.put("-");
        }
    }
}
