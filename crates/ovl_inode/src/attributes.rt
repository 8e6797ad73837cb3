//! Extended attributes. It must not know which of them mean something to the overlay.
ghost use Rattle.std.specs.Prelude.{◌≡◌, Some, None, IsTrue, IfOk, OnOk, OnErr, MatchResult, []};
ghost use Rattle.std.specs.Cmp.{partial_equiv_from_equiv};
ghost use Rattle.std.specs.Option.{option_map};
ghost use Rattle.ovl_inode.specs.declared.attributes.AttrFault.TheVariants.{Name, Memory};
ghost use Rattle.ovl_inode.specs.Equal.{attributes_eq};
ghost use Rattle.ovl_inode.specs.EqualLaws.{attributes_eq_equiv};
ghost use Rattle.ovl_inode.specs.Attributes.{attribute, with_attribute, attribute_fault, attribute_refusal, is_attribute_name, are_attributes, visible_attributes};
ghost use Rattle.ovl_inode.specs.Attributes as attributes;

use crate::overlay;
use crate::tables::{Pairs, Table};
use std::alloc::{AllocError, AllocFailed, Global};
use std::marker::Model;
use thiserror::Error;

/// The most bytes of an attribute's name.
pub const ATTR_NAME_LIMIT: usize = 255;

/// Why an attribute can't be put; where both hold, the first is given.
#[derive(Clone, Copy, Debug, PartialEq, Eq, Error)]
pub enum AttrFault {
    /// The name has not 1 to [`ATTR_NAME_LIMIT`] bytes, or holds NUL.
    #[error("the attribute's name has not 1 to {max} bytes without NUL", max = ATTR_NAME_LIMIT)]
    Name,
    /// Out of memory.
    #[error("out of memory")]
    Memory,
}

impl From<AllocError> for AttrFault {
    ghost from_gives = { λ _ fault. fault ≡ Memory };

    fn from(_: AllocError) -> AttrFault {
        AttrFault::Memory
    }
}

impl<T: Drop> From<AllocFailed<T>> for AttrFault {
    ghost from_gives = { λ _ fault. fault ≡ Memory };

    fn from(_: AllocFailed<T>) -> AttrFault {
        AttrFault::Memory
    }
}

/// Extended attributes: a value of bytes for each name, in the byte order of the names.
/// All names and values together take at most 2^32 - 1 bytes each.
#[derive(Debug, Drop)]
pub struct Attrs {
    alloc: Global,
    table: Option<Box<Table>>,
}

impl Model for Attrs {
    ghost use Rattle.std.specs.Prelude.{[], IsTrue, unwrap_or};
    ghost use Rattle.std.specs.Option.{option_map};
    ghost use Rattle.ovl_inode.specs.Attributes.{Attributes, are_attributes};

    ghost Value = { Attributes };

    ghost view = { λ a. unwrap_or (option_map (λ table. table.value) a.table) [] };

    ghost invariant = { λ a. IsTrue
        (are_attributes (unwrap_or (option_map (λ table. table.value) a.table) [])) };
}

impl Attrs {
    /// No attributes.
    pub fn new(alloc: Global) -> Attrs
        ensures { result ≡ [] }
    {
        Attrs { alloc, table: None }
    }

    /// The value of the attribute `name`, and `None` where there is none.
    pub fn get(&self, name: &str) -> Option<&[u8]>
        ensures { option_map (λ value. value.now) result ≡ attribute self.now name.now }
    {
        match &self.table {
            Some(table) => table.get(name),
            None => None,
        }
    }

    /// Sets the value of the attribute `name`; the other names stay as they are. Refused, with
    /// nothing changed, where the name has not 1 to 255 bytes without NUL, and where memory runs
    /// out.
    pub fn put(&mut self, name: &str, value: &[u8]) -> Result<(), AttrFault>
        ensures { MatchResult result
            (λ _. (self.new ≡ with_attribute self.old name.now value.now)
            × IsTrue (is_attribute_name name.now))
            (λ fault. (self.new ≡ self.old)
            × (attribute_fault name.now ≡ attribute_refusal fault)) }
    {
        check_name(name)?;
        match &mut self.table {
            Some(table) => put_in(self.alloc, table, name, value)?,
            None => {
                let mut table = Table::new(self.alloc);
                table.insert(0, name, value)?;
                *self = Attrs::of(self.alloc, table)?;
            }
        }
        Ok(())
    }

    /// The attributes in the byte order of their names.
    pub fn pairs(&self) -> Pairs<'_>
        ensures value { result ≡ self.now }
        ensures attributes { IsTrue (are_attributes self.now) }
    {
        match &self.table {
            Some(table) => table.pairs(),
            None => Pairs::none(),
        }
    }

    /// Attributes equal to these; fails only when out of memory.
    pub fn copy(&self, alloc: Global) -> Result<Attrs, AllocError>
        ensures { IfOk result (λ attrs. attrs ≡ self.now) }
    {
        match &self.table {
            Some(table) => Attrs::of(alloc, table.copy(alloc)?),
            None => Ok(Attrs::new(alloc)),
        }
    }

    /// The attributes that the merged tree shows: those whose name doesn't begin with
    /// `trusted.overlay.`. Fails only when out of memory.
    pub fn visible(&self, alloc: Global) -> Result<Attrs, AllocError>
        ensures { IfOk result (λ attrs. attrs ≡ visible_attributes self.now) }
    {
        let mut shown = Table::new(alloc);
        for (name, value) in self.pairs() {
            if !is_overlay_name(name) {
                shown.insert(shown.len(), name, value)?;
            }
        }
        if shown.is_empty() {
            return Ok(Attrs::new(alloc));
        }
        Attrs::of(alloc, shown)
    }

    // The attributes of a table.
    fn of(alloc: Global, table: Table) -> Result<Attrs, AllocError>
        requires { IsTrue (are_attributes table) }
        ensures { IfOk result (λ attrs. attrs ≡ table) }
    {
        Ok(Attrs {
            alloc,
            table: Some(Box::new(alloc, table)?),
        })
    }
}

impl PartialEq for Attrs {
    ghost eq = { attributes_eq };

    ghost laws = { partial_equiv_from_equiv attributes_eq_equiv };

    fn eq(&self, other: &Attrs) -> bool {
        let mut others = other.pairs();
        for (name, value) in self.pairs() {
            let Some((other_name, other_value)) = others.next() else {
                return false;
            };
            if name.as_bytes() != other_name.as_bytes() || value != other_value {
                return false;
            }
        }
        others.next().is_none()
    }
}

impl Eq for Attrs {
    ghost laws = { attributes_eq_equiv };
}

// Puts an attribute into a table of attributes.
fn put_in(alloc: Global, table: &mut Table, name: &str, value: &[u8]) -> Result<(), AllocError>
    requires { IsTrue (are_attributes table.old) }
    ensures done { OnOk result (table.new ≡ with_attribute table.old name.now value.now) }
    ensures kept { OnErr result (table.new ≡ table.old) }
{
    match table.search(name) {
        Ok(place) => table.set_value(alloc, place, value),
        Err(place) => table.insert(place, name, value),
    }
}

// Whether a text names an attribute, or which fault it has.
fn check_name(name: &str) -> Result<(), AttrFault>
    ensures { MatchResult result
        (λ _. (attribute_fault name.now ≡ None) × IsTrue (is_attribute_name name.now))
        (λ fault. (fault ≡ Name) × (attribute_fault name.now ≡ Some Name)) }
{
    let bytes = name.as_bytes();
    if bytes.is_empty() || bytes.len() > ATTR_NAME_LIMIT || bytes.contains(&0) {
        return Err(AttrFault::Name);
    }
    Ok(())
}

// Whether the name begins with `trusted.overlay.`.
fn is_overlay_name(name: &str) -> bool
    ensures { result ≡ attributes.is_overlay_name name.now }
{
    name.as_bytes().starts_with(overlay::PREFIX.as_bytes())
}
