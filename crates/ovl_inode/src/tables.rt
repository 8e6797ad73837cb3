//! Attributes as places in two texts. It must not know what a name means.
ghost use Rattle.std.specs.Prelude.{◌≡◌, ◌==◌, ◌<◌, ◌≤◌, ◌+◌, ◌^◌, Some, [], length, insert, set, slice_get, IfOk, OnOk, OnErr, IsTrue, MatchResult, IfSome, take};
ghost use Rattle.std.specs.declared.cmp.Ordering.TheVariants.{Less};
ghost use Rattle.std.specs.Iterator.{YieldsFirstBy, YieldsLastBy, item_count};
ghost use Rattle.ovl_names.specs.Names.{name_cmp};
ghost use Rattle.ovl_inode.specs.Attributes.{all_before, are_attributes, attribute};
ghost use Rattle.std.specs.Option.{option_map};
ghost use Rattle.std.specs.Str.{IsCharBoundary};
ghost use Rattle.ovl_inode.specs.Tables.{IsAttributePlace, bytes_of, attribute_of, place_order};

use std::alloc::{AllocError, Global};
use std::cmp::Ordering;
use std::marker::Model;

/// A part of some bytes: where it starts, and where it ends.
#[derive(Clone, Copy, Debug)]
pub(crate) struct Part {
    start: u32,
    end: u32,
}

impl Part {
    // The part of this many bytes after others; none where it ends past the greatest number.
    fn behind(before: usize, count: usize) -> Result<Part, AllocError>
        requires { before + count < 2 ^ 64 }
        ensures { IfOk result (λ part. (part.start ≡ before) × (part.end ≡ before + count)) }
    {
        // Made by hand (1): the texts of one inode's attributes, over 2^32 bytes in sum.
        match (u32::try_from(before), u32::try_from(before + count)) {
            (Ok(start), Ok(end)) => Ok(Part { start, end }),
            _ => Err(AllocError),
        }
    }

    fn of_bytes(self, bytes: &[u8]) -> &[u8]
        requires order { self.start ≤ self.end }
        requires inside { self.end ≤ length bytes.now }
        ensures { result.now ≡ bytes_of bytes.now self }
    {
        &bytes[self.start as usize..self.end as usize]
    }

    fn of_text(self, text: &str) -> &str
        requires order { self.start ≤ self.end }
        requires first { IsCharBoundary text.now self.start }
        requires last { IsCharBoundary text.now self.end }
        ensures { result.now ≡ bytes_of text.now self }
    {
        &text[self.start as usize..self.end as usize]
    }
}

/// Where the name and the value of an attribute are.
#[derive(Clone, Copy, Debug)]
pub(crate) struct AttributePlace {
    name: Part,
    value: Part,
}

/// Attributes as places in the bytes of all their names and of all their values, in any order
/// there. No other byte is kept.
#[derive(Debug, Drop)]
pub(crate) struct Table {
    names: String,
    values: Vec<u8>,
    places: Vec<AttributePlace>,
}

impl Model for Table {
    ghost use Rattle.std.specs.Prelude.{string_bytes};
    ghost use Rattle.ovl_inode.specs.Attributes.{Attributes};
    ghost use Rattle.ovl_inode.specs.Tables.{IsFull, attributes_of};

    ghost Value = { Attributes };

    ghost view = { λ a. attributes_of (string_bytes a.names) a.values.items a.places.items };

    ghost invariant = { λ a. IsFull (string_bytes a.names) a.values.items a.places.items };
}

/// Attributes in their order, each its name and its value, from the front or from the back.
#[derive(Drop)]
pub struct Pairs<'a> {
    names: &'a str,
    values: &'a [u8],
    places: &'a [AttributePlace],
}

impl<'a> Model for Pairs<'a> {
    ghost use Rattle.ovl_inode.specs.Attributes.{Attributes};
    ghost use Rattle.ovl_inode.specs.Tables.{ArePlaces, attributes_of};

    ghost Value = { Attributes };

    ghost view = { λ a. attributes_of a.names.now a.values.now a.places.now };

    ghost invariant = { λ a. ArePlaces a.names.now a.values.now a.places.now };
}

impl Table {
    /// No attributes.
    pub(crate) fn new(alloc: Global) -> Table
        ensures { result ≡ [] }
    {
        Table {
            names: String::new(alloc),
            values: Vec::new(alloc),
            places: Vec::new(alloc),
        }
    }

    /// How many attributes there are.
    pub(crate) fn len(&self) -> usize
        ensures { result ≡ length self.now }
    {
        self.places.len()
    }

    /// Whether there are no attributes.
    pub(crate) fn is_empty(&self) -> bool
        ensures { result ≡ (length self.now == 0) }
    {
        self.places.is_empty()
    }

    /// The attributes in their order.
    pub(crate) fn pairs(&self) -> Pairs<'_>
        ensures { result ≡ self.now }
    {
        Pairs {
            names: self.names.as_str(),
            values: &self.values,
            places: &self.places,
        }
    }

    /// Puts an attribute between others; where a growth is refused, all stays as it was.
    pub(crate) fn insert(
        &mut self,
        place: usize,
        name: &str,
        value: &[u8],
    ) -> Result<(), AllocError>
        requires { place ≤ length self.old }
        ensures done { OnOk result (self.new ≡ insert self.old place (name.now, value.now)) }
        ensures kept { OnErr result (self.new ≡ self.old) }
    {
        let own = AttributePlace {
            name: Part::behind(self.names.len(), name.len())?,
            value: Part::behind(self.values.len(), value.len())?,
        };
        self.names.reserve(name.len())?;
        self.values.reserve(value.len())?;
        self.places.insert(place, own)?;
        self.names.push_str(name)?;
        self.values.extend_from_slice(value)?;
        Ok(())
    }

    /// Sets the value of the attribute at a place; where a growth is refused, all stays as it was.
    /// The attributes are put anew, so that nothing is kept of the value that was there.
    pub(crate) fn set_value(
        &mut self,
        alloc: Global,
        place: usize,
        value: &[u8],
    ) -> Result<(), AllocError>
        requires { place < length self.old }
        ensures done { OnOk result
            (option_map (λ own. set self.old place (own.0, value.now)) (slice_get self.old place)
            ≡ Some self.new) }
        ensures kept { OnErr result (self.new ≡ self.old) }
    {
        let mut table = Table::new(alloc);
        for (name, own) in self.pairs() {
            let number = table.len();
            if number == place {
                table.insert(number, name, value)?;
            } else {
                table.insert(number, name, own)?;
            }
        }
        *self = table;
        Ok(())
    }

    /// A table equal to this one; fails only when out of memory.
    pub(crate) fn copy(&self, alloc: Global) -> Result<Table, AllocError>
        ensures { IfOk result (λ table. table ≡ self.now) }
    {
        Ok(Table {
            names: String::from_str(alloc, self.names.as_str())?,
            values: Vec::from_slice(alloc, &self.values)?,
            places: Vec::from_slice(alloc, &self.places)?,
        })
    }

    /// Where the attribute `name` is, or where it belongs. The last name is asked first: ascending
    /// names are put after it.
    pub(crate) fn search(&self, name: &str) -> Result<usize, usize>
        requires { IsTrue (are_attributes self.now) }
        ensures { MatchResult result
            (λ place. IfSome (slice_get self.now place) (λ own. own.0 ≡ name.now)
            × (place < length self.now) × IsTrue (all_before (take place self.now) name.now))
            (λ place. IfSome (slice_get self.now place) (λ own. name_cmp name.now own.0 ≡ Less)
            × (place ≤ length self.now) × IsTrue (all_before (take place self.now) name.now)) }
    {
        let names = self.names.as_str();
        let Some((last, others)) = self.places.split_last() else {
            return Err(0);
        };
        match order_of_place(names, *last, name) {
            Ordering::Less => Err(self.places.len()),
            Ordering::Equal => Ok(others.len()),
            Ordering::Greater => {
                others.binary_search_by(|place| order_of_place(names, *place, name))
            }
        }
    }

    /// The value of the attribute `name`, and `None` where there is none.
    pub(crate) fn get(&self, name: &str) -> Option<&[u8]>
        requires { IsTrue (are_attributes self.now) }
        ensures { option_map (λ value. value.now) result ≡ attribute self.now name.now }
    {
        match self.search(name) {
            Ok(place) => Some(self.places[place].value.of_bytes(&self.values)),
            Err(_) => None,
        }
    }
}

impl<'a> Pairs<'a> {
    /// Whether no attributes are left.
    pub fn is_empty(&self) -> bool
        ensures { result ≡ (length self.now == 0) }
    {
        self.places.is_empty()
    }

    /// No attributes.
    pub(crate) fn none() -> Pairs<'a>
        ensures { result ≡ [] }
    {
        Pairs {
            names: "",
            values: &[],
            places: &[],
        }
    }
}

impl<'a> Iterator for Pairs<'a> {
    type Item = (&'a str, &'a [u8]);

    ghost next_gives = { YieldsFirstBy (λ pair. (pair.0.now, pair.1.now)) (λ pairs. pairs) };

    ghost remaining = { item_count (λ pairs. pairs) };

    fn next(&mut self) -> Option<(&'a str, &'a [u8])> {
        let (first, others) = self.places.split_first()?;
        self.places = others;
        Some(attribute_at(self.names, self.values, *first))
    }
}

impl<'a> DoubleEndedIterator for Pairs<'a> {
    ghost next_back_gives = { YieldsLastBy (λ pair. (pair.0.now, pair.1.now)) (λ pairs. pairs) };

    fn next_back(&mut self) -> Option<(&'a str, &'a [u8])> {
        let (last, others) = self.places.split_last()?;
        self.places = others;
        Some(attribute_at(self.names, self.values, *last))
    }
}

// How the name at a place is to another; a place outside of the names comes before each.
fn order_of_place(names: &str, place: AttributePlace, name: &str) -> Ordering
    ensures { result ≡ place_order names.now name.now place }
{
    let range = place.name.start as usize..place.name.end as usize;
    match names.as_bytes().get(range) {
        Some(own) => own.cmp(name.as_bytes()),
        None => Ordering::Less,
    }
}

// The attribute at a place, its name and its value.
fn attribute_at<'a>(names: &'a str, values: &'a [u8], place: AttributePlace) -> (&'a str, &'a [u8])
    requires { IsAttributePlace names.now values.now place }
    ensures { (result.0.now, result.1.now) ≡ attribute_of names.now values.now place }
{
    (place.name.of_text(names), place.value.of_bytes(values))
}
