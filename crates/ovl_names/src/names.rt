//! Which texts are names, and names.
ghost use Rattle.std.specs.Prelude.{◌≡◌, Some, IsTrue, IfOk, MatchResult, string_bytes};
ghost use Rattle.std.specs.Cmp.{partial_equiv_from_equiv};
ghost use Rattle.std.specs.Cmp.Lexicographic.{nat_list_cmp_total, nat_list_eq_equiv, texts_po, texts_ties};
ghost use Rattle.std.proofs.Common.{refl};
ghost use Rattle.ovl_names.specs.declared.names.NameFault.TheVariants.{Memory};
ghost use Rattle.ovl_names.specs.Names.{name_fault, name_refusal, is_name, name_eq, name_cmp};
ghost use Rattle.ovl_names.specs.Escapes.{escaped as escaped_text};

use crate::escaped;
use crate::texts::Text;
use std::alloc::{AllocError, Global};
use std::cmp::Ordering;
use std::marker::Model;
use thiserror::Error;

/// The most bytes of a name.
pub const NAME_LIMIT: usize = 255;

/// Why a text is no name; where several hold, the first of them is given.
#[derive(Clone, Copy, Debug, PartialEq, Eq, Error)]
pub enum NameFault {
    /// It has no bytes.
    #[error("the name is empty")]
    Empty,
    /// It has more than [`NAME_LIMIT`] bytes.
    #[error("the name has more than {max} bytes", max = NAME_LIMIT)]
    TooLong,
    /// It is `.` or `..`.
    #[error("the name is `.` or `..`")]
    Dot,
    /// It holds `/`.
    #[error("the name holds `/`")]
    Slash,
    /// It holds NUL.
    #[error("the name holds NUL")]
    Nul,
    /// Out of memory.
    #[error("out of memory")]
    Memory,
}

impl From<AllocError> for NameFault {
    ghost from_gives = { λ _ fault. fault ≡ Memory };

    fn from(_: AllocError) -> NameFault {
        NameFault::Memory
    }
}

/// The name of a directory entry: UTF-8 text of 1 to 255 bytes without `/` and NUL, neither `.` nor
/// `..`. Names are ordered as bytes.
#[derive(Debug, Drop)]
pub struct Name {
    text: Text,
}

impl Model for Name {
    ghost use Rattle.std.specs.Prelude.{ℕ, List, IsTrue};
    ghost use Rattle.ovl_names.specs.Names.{is_name};
    ghost use Rattle.ovl_names.specs.Texts.{text_bytes};

    ghost Value = { List ℕ };

    ghost view = { λ a. text_bytes a.text };

    ghost invariant = { λ a. IsTrue (is_name (text_bytes a.text)) };
}

impl Name {
    /// The name that a text spells, or the first fault of the text in the order of [`NameFault`].
    ///
    /// The text of a fault, that the name holds `/`:
    ///
    /// ```
    /// match Name::of(alloc, "a/b") {
    ///     Ok(name) => name.shown(alloc),
    ///     Err(fault) => fault.to_string(alloc),
    /// }
    /// ```
    pub fn of(alloc: Global, text: &str) -> Result<Name, NameFault>
        ensures { MatchResult result
            (λ name. (name ≡ text.now) × IsTrue (is_name text.now))
            (λ fault. name_fault text.now ≡ name_refusal fault) }
    {
        if let Some(fault) = first_name_fault(text) {
            return Err(fault);
        }
        Ok(Name::copy_of(alloc, text)?)
    }

    /// The name of a text that is one, as each name of a path is; fails only when out of memory.
    pub fn copy_of(alloc: Global, text: &str) -> Result<Name, AllocError>
        requires { IsTrue (is_name text.now) }
        ensures { IfOk result (λ name. name ≡ text.now) }
    {
        Ok(Name {
            text: Text::of(alloc, text)?,
        })
    }

    /// A name equal to this one; fails only when out of memory.
    pub fn copy(&self, alloc: Global) -> Result<Name, AllocError>
        ensures { IfOk result (λ name. name ≡ self.now) }
    {
        Ok(Name {
            text: self.text.copy(alloc)?,
        })
    }

    /// The name's text.
    pub fn as_str(&self) -> &str
        ensures value { result.now ≡ self.now }
        ensures name { IsTrue (is_name self.now) }
    {
        self.text.as_str()
    }

    /// The name as reports write it, see [`escaped`]; fails only when out of memory.
    pub fn shown(&self, alloc: Global) -> Result<String, AllocError>
        ensures { IfOk result (λ text. string_bytes text ≡ escaped_text self.now) }
    {
        escaped(alloc, self.as_str())
    }
}

/// The first fault of a text that is no name, in the order of [`NameFault`].
pub(crate) fn first_name_fault(text: &str) -> Option<NameFault>
    ensures { result ≡ name_fault text.now }
{
    let bytes = text.as_bytes();
    if bytes.is_empty() {
        Some(NameFault::Empty)
    } else if bytes.len() > NAME_LIMIT {
        Some(NameFault::TooLong)
    } else if text == "." || text == ".." {
        Some(NameFault::Dot)
    } else if bytes.contains(&b'/') {
        Some(NameFault::Slash)
    } else if bytes.contains(&0) {
        Some(NameFault::Nul)
    } else {
        None
    }
}

impl PartialEq for Name {
    ghost eq = { name_eq };

    ghost laws = { partial_equiv_from_equiv nat_list_eq_equiv };

    fn eq(&self, other: &Name) -> bool {
        self.as_str().as_bytes() == other.as_str().as_bytes()
    }
}

impl Eq for Name {
    ghost laws = { nat_list_eq_equiv };
}

impl PartialOrd for Name {
    ghost partial_cmp = { λ a b. Some (name_cmp a b) };

    ghost laws = { texts_po };

    fn partial_cmp(&self, other: &Name) -> Option<Ordering> {
        Some(self.cmp(other))
    }
}

impl Ord for Name {
    ghost cmp = { name_cmp };

    ghost total = { nat_list_cmp_total };

    ghost matches_partial_cmp = { λ a b. refl };

    ghost matches_eq = { texts_ties };

    fn cmp(&self, other: &Name) -> Ordering {
        self.as_str().as_bytes().cmp(other.as_str().as_bytes())
    }
}
