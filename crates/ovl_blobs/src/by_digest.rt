//! Elements under digests, sought by name.
ghost use Rattle.std.specs.Prelude.{◌≡◌, ◌<◌, ℕ, List, slice_index, true};
ghost use Rattle.std.specs.Option.{option_map};
ghost use Rattle.ovl_blobs.specs.ByDigest.{names_ascend, element_named, IsStart, AreStarts};

use crate::blobs::Blob;
use crate::contents::BlobInfo;
use ovl_inode::Digest;

/// What has a digest for its name.
pub(crate) trait Named {
    ghost name_of: { Self → List ℕ };

    fn name(&self) -> &Digest
        ensures { result.now ≡ name_of self.now };
}

impl Named for Blob {
    ghost name_of = { λ blob. blob.name };

    fn name(&self) -> &Digest {
        &self.name
    }
}

impl Named for BlobInfo {
    ghost name_of = { λ content. content.name };

    fn name(&self) -> &Digest {
        &self.name
    }
}

// Where the elements of each first byte begin among elements whose names ascend, and where all end.
type Starts = [usize; 257];

/// Elements whose names ascend strictly, each sought among those of its name's first byte.
#[derive(Drop)]
pub(crate) struct ByName<'a, T: Named> {
    elements: &'a [T],
    starts: Starts,
    ghost ascend: { names_ascend T.name_of elements.now ≡ true },
    ghost begin: { AreStarts T.name_of elements.now starts },
}

impl<'a, T: Named> ByName<'a, T> {
    /// An index by name of elements whose names ascend strictly.
    pub(crate) fn of(elements: &'a [T]) -> ByName<'a, T>
        requires { names_ascend T.name_of elements.now ≡ true }
        ensures { result.elements.now ≡ elements.now }
    {
        ByName {
            elements,
            starts: starts_of(elements),
        }
    }

    /// The element of a name.
    pub(crate) fn find(&self, name: &Digest) -> Option<&'a T>
        ensures { option_map (λ element. element.now) result
            ≡ element_named T.name_of self.now.elements.now name.now }
    {
        let first = first_byte(name);
        let part = &self.elements[self.starts[first]..self.starts[first + 1]];
        match part.binary_search_by(|element| element.name().cmp(name)) {
            Ok(place) => Some(&part[place]),
            Err(_) => None,
        }
    }
}

fn starts_of<T: Named>(elements: &[T]) -> Starts
    requires { names_ascend T.name_of elements.now ≡ true }
    ensures { AreStarts T.name_of elements.now result }
{
    let mut starts = [0; 257];
    for byte in 0..257 {
        starts[byte] = start_in(elements, byte);
    }
    starts
}

/// Where the elements whose names have this first byte begin.
pub(crate) fn start_in<T: Named>(elements: &[T], byte: usize) -> usize
    requires { names_ascend T.name_of elements.now ≡ true }
    ensures { IsStart T.name_of elements.now byte result }
{
    elements.partition_point(|element| first_byte(element.name()) < byte)
}

fn first_byte(name: &Digest) -> usize
    ensures value { result ≡ slice_index name.now 0 }
    ensures limit { result < 256 }
{
    usize::from(name.as_bytes()[0])
}

/// Whether the names ascend strictly.
pub(crate) fn in_order<T: Named>(elements: &[T]) -> bool
    ensures { result ≡ names_ascend T.name_of elements.now }
{
    for i in 1..elements.len() {
        if !elements[i - 1].name().cmp(elements[i].name()).is_lt() {
            return false;
        }
    }
    true
}
