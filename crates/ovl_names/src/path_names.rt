//! The names of a path, lent one after the other.
ghost use Rattle.std.specs.Prelude.{◌≡◌, ◌∷◌, ◌++◌, [], ◌↔◌, take, drop, length, IsTrue, MatchOption};
ghost use Rattle.std.specs.Cmp.{partial_equiv_from_equiv};
ghost use Rattle.std.specs.Cmp.Lexicographic.{nat_list_eq_equiv, lists_equiv};
ghost use Rattle.std.specs.Iterator.{YieldsFirstRef, item_count};
ghost use Rattle.std.specs.List.{starts_with};
ghost use Rattle.ovl_names.specs.Names.{is_name, name_eq};
ghost use Rattle.ovl_names.specs.Paths.{path_eq, text_names, has_names};
ghost use Rattle.ovl_names.specs.Ends.{OrdersEnds, LeavesEnds};

use crate::ends::{Ends, compare_from_ends};
use std::cmp::Ordering;
use std::marker::Model;

/// Names of a path one after the other, from the root down, in the text that holds them: all of
/// them, or the first or last ones. As an iterator it gives each name's text, and leaves the
/// others.
#[derive(Debug, Drop)]
pub struct Names<'a> {
    text: &'a str,
    len: usize,
}

impl<'a> Model for Names<'a> {
    ghost use Rattle.std.specs.Prelude.{◌≡◌, length, true};
    ghost use Rattle.ovl_names.specs.Paths.{PathNames, text_names, has_names};

    ghost Value = { PathNames };

    ghost view = { λ a. text_names a.text.now };

    ghost invariant = { λ a. (a.len ≡ length (text_names a.text.now))
        × (has_names (text_names a.text.now) ≡ true) };
}

impl<'a> Names<'a> {
    /// The names of a text that has `/` between them, of which this is the number.
    pub(crate) fn of_text(text: &'a str, len: usize) -> Names<'a>
        requires names { IsTrue (has_names (text_names text.now)) }
        requires len { len ≡ length (text_names text.now) }
        ensures { result ≡ text_names text.now }
    {
        Names { text, len }
    }

    /// The text that has `/` between the names.
    pub(crate) fn text(&self) -> &'a str
        ensures value { text_names result.now ≡ self.now }
        ensures names { IsTrue (has_names self.now) }
    {
        self.text
    }

    /// No name.
    pub fn none() -> Names<'a>
        ensures { result ≡ [] }
    {
        Names { text: "", len: 0 }
    }

    /// One name, by its text.
    pub fn one(name: &'a str) -> Names<'a>
        requires { IsTrue (is_name name.now) }
        ensures { result ≡ name.now ∷ [] }
    {
        Names { text: name, len: 1 }
    }

    /// The number of names.
    pub fn len(&self) -> usize
        ensures { result ≡ length self.now }
    {
        self.len
    }

    /// Whether there is no name.
    pub fn is_empty(&self) -> bool
        ensures { IsTrue result ↔ (self.now ≡ []) }
    {
        self.text.is_empty()
    }

    /// A copy of the names that are left; taking names from it leaves these as they are.
    pub fn rest(&self) -> Names<'a>
        ensures value { result ≡ self.now }
        ensures names { IsTrue (has_names self.now) }
    {
        Names {
            text: self.text,
            len: self.len,
        }
    }

    /// The names after the first `count`, and none where there are no more.
    pub fn after(&self, count: usize) -> Names<'a>
        ensures { result ≡ drop count self.now }
    {
        let mut names = self.rest();
        for _ in 0..count {
            if names.next().is_none() {
                break;
            }
        }
        names
    }

    /// The first `count` names, and all of them where there are no more.
    pub fn first(&self, count: usize) -> Names<'a>
        ensures { result ≡ take count self.now }
    {
        let mut names = self.rest();
        for _ in count..self.len {
            if let Some((_, above)) = names.split_last() {
                names = above;
            }
        }
        names
    }

    /// The last name and those above it, and `None` where there is no name.
    pub fn split_last(&self) -> Option<(&'a str, Names<'a>)>
        ensures value { MatchOption result (self.now ≡ [])
            (λ parts. self.now ≡ parts.1 ++ parts.0.now ∷ []) }
        ensures names { IsTrue (has_names self.now) }
    {
        let (above, last) = cut_last(self.text)?;
        let above = Names {
            text: above,
            len: self.len - 1,
        };
        Some((last, above))
    }

    /// Whether the names begin with those of `front`.
    pub fn starts_with(&self, front: &Names<'_>) -> bool
        ensures { result ≡ starts_with name_eq self.now front.now }
    {
        if front.text.is_empty() {
            return true;
        }
        match self.text.as_bytes().strip_prefix(front.text.as_bytes()) {
            Some(rest) => rest.is_empty() || rest[0] == b'/',
            None => false,
        }
    }

    /// Compares these names with others from the last ones on until two differ, and gives how these
    /// two are to each other. If none do, both lists lose as many names at their ends as the
    /// shorter has, and the answer is `Equal`.
    pub fn compare_ends<'b>(&mut self, other: &mut Names<'b>) -> Ordering
        ensures order { OrdersEnds self.old other.old self.new other.new result }
        ensures left { LeavesEnds self.old other.old self.new other.new result }
    {
        match compare_from_ends(self.text, other.text) {
            Ends::Apart(order) => order,
            Ends::Left(text, other_text) => {
                let (len, other_len) = (self.len, other.len);
                self.text = text;
                self.len = len.saturating_sub(other_len);
                other.text = other_text;
                other.len = other_len.saturating_sub(len);
                Ordering::Equal
            }
        }
    }
}

impl<'a> Iterator for Names<'a> {
    type Item = &'a str;

    ghost next_gives = { YieldsFirstRef (λ names. names) };

    ghost remaining = { item_count (λ names. names) };

    fn next(&mut self) -> Option<&'a str> {
        let (first, rest) = cut_first(self.text)?;
        self.text = rest;
        self.len -= 1;
        Some(first)
    }
}

// The first name of a text, and the text of the others.
fn cut_first(text: &str) -> Option<(&str, &str)>
    requires { IsTrue (has_names (text_names text.now)) }
    ensures { MatchOption result
        (text.now ≡ [])
        (λ parts. text_names text.now ≡ parts.0.now ∷ text_names parts.1.now) }
{
    if text.is_empty() {
        return None;
    }
    match text.split_once('/') {
        Some(parts) => Some(parts),
        None => Some((text, "")),
    }
}

/// The text of the names above the last name of a text, and that name.
pub(crate) fn cut_last(text: &str) -> Option<(&str, &str)>
    requires { IsTrue (has_names (text_names text.now)) }
    ensures { MatchOption result
        (text.now ≡ [])
        (λ parts. text_names text.now ≡ text_names parts.0.now ++ parts.1.now ∷ []) }
{
    if text.is_empty() {
        return None;
    }
    match text.rsplit_once('/') {
        Some(parts) => Some(parts),
        None => Some(("", text)),
    }
}

impl<'a> PartialEq for Names<'a> {
    ghost eq = { path_eq };

    ghost laws = { partial_equiv_from_equiv (lists_equiv nat_list_eq_equiv) };

    fn eq(&self, other: &Names<'a>) -> bool {
        self.text.as_bytes() == other.text.as_bytes()
    }
}

impl<'a> Eq for Names<'a> {
    ghost laws = { lists_equiv nat_list_eq_equiv };
}
