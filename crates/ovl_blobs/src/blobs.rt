//! The digests of blobs that are held, as work. It must not know layers.
ghost use Rattle.std.specs.Prelude.{◌≡◌, IfOk, true, map};
ghost use Rattle.std.specs.List.{flat_map};
ghost use Rattle.ovl_names.specs.Names.{name_eq};
ghost use Rattle.ovl_board.specs.declared.pieces.Piece.{Piece};
ghost use Rattle.ovl_board.specs.Parcels.{IsPlain, parcel_views};
ghost use Rattle.ovl_blobs.specs.Blobs.{blob_view, blob_views, are_in_order, AreNamedByDigests, wrong_names, digits_piece, blob_kids, blob_out, blob_root};
ghost use Rattle.ovl_blobs.specs.Blobs as the_blobs;

use crate::by_digest::{in_order, start_in};
use ovl_board::{Parcel, Piece, Work};
use ovl_inode::Digest;
use ovl_names::Name;
use sha2::Sha256;
use std::alloc::{AllocError, Global};
use std::collections::BTreeSet;
use std::marker::Model;

/// The space of the pieces of a [`BlobWork`].
pub const BLOB_SPACE: u16 = 128;

/// The most bytes that all blobs of a command have together.
pub const BLOB_LIMIT: usize = 268_435_456;

/// A blob: bytes under the digest that they should have.
#[derive(Debug, Drop)]
pub struct Blob {
    /// The SHA-256 digest that the bytes should have.
    pub name: Digest,
    /// The bytes, whatever their digest.
    pub bytes: Vec<u8>,
}

/// Whether the names of the blobs ascend strictly.
pub fn blobs_in_order(blobs: &[Blob]) -> bool
    ensures { result ≡ are_in_order (blob_views blobs.now) }
{
    in_order(blobs)
}

/// The digests of blobs as work, in the space [`BLOB_SPACE`]. The root has a kid for each two
/// hexadecimal digits with which a blob's name begins. The output of such a kid is the names of its
/// blobs whose bytes have another SHA-256 digest, in the order of the blobs; the root puts out
/// none.
#[derive(Drop)]
pub struct BlobWork<'a> {
    blobs: &'a [Blob],
    // Whether their names ascend.
    in_order: bool,
}

impl<'a> Model for BlobWork<'a> {
    ghost use Rattle.std.specs.Prelude.{◌≡◌, List};
    ghost use Rattle.ovl_blobs.specs.Blobs.{BlobView, blob_views, are_in_order, AreNamedByDigests};

    ghost Value = { List BlobView };

    ghost view = { λ a. blob_views a.blobs.now };

    ghost invariant = { λ a. (a.in_order ≡ are_in_order (blob_views a.blobs.now))
        × AreNamedByDigests a.blobs.now };
}

impl<'a> BlobWork<'a> {
    /// The work of these blobs.
    pub fn new(blobs: &'a [Blob]) -> BlobWork<'a>
        ensures { result ≡ blob_views blobs.now }
    {
        keep_digests(blobs);
        BlobWork {
            blobs,
            in_order: blobs_in_order(blobs),
        }
    }

    // A kid for each two digits with which a name begins, in order.
    fn kids(&self, alloc: Global) -> Result<Vec<Piece>, AllocError>
        ensures { IfOk result (λ kids. kids.items ≡ blob_kids self.now blob_root) }
    {
        let digits = digits_of_names(alloc, self.blobs)?;
        digits_pieces(alloc, digits)
    }

    // The names of the blobs with wrong bytes whose names begin with these digits.
    fn wrong_names(&self, alloc: Global, digits: &str) -> Result<Vec<Digest>, AllocError>
        ensures { IfOk result
            (λ names. names.items ≡ the_blobs.wrong_names_under digits.now self.now) }
    {
        if self.in_order {
            return wrong_names_under(alloc, blobs_under(self.blobs, digits), digits);
        }
        wrong_names_under(alloc, self.blobs, digits)
    }
}

impl<'a> Work for BlobWork<'a> {
    type Out = Vec<Digest>;

    ghost use Rattle.std.specs.Prelude.{ℕ, List};
    ghost use Rattle.ovl_blobs.specs.Blobs.{blob_kids, blob_out, names_set};

    ghost Seen = { List (List ℕ) };

    ghost seen_set = { names_set };

    ghost seen = { λ names. names.items };

    ghost kids_of = { blob_kids };

    ghost out_of = { blob_out };

    ghost deepest_of = { λ _. 1 };

    fn visit(&self, alloc: Global, piece: &Piece) -> Result<(Vec<Piece>, Vec<Digest>), AllocError> {
        let none = Vec::new(alloc);
        if piece.space != BLOB_SPACE {
            return Ok((none, Vec::new(alloc)));
        }
        let mut names = piece.dir.names();
        match (names.next(), names.next()) {
            (None, _) => Ok((self.kids(alloc)?, Vec::new(alloc))),
            (Some(digits), None) => Ok((none, self.wrong_names(alloc, digits)?)),
            _ => Ok((none, Vec::new(alloc))),
        }
    }

    fn deepest(&self) -> u32 {
        1
    }
}

/// The names of the blobs whose bytes have another SHA-256 digest, ascending, where the blobs'
/// names ascend strictly. The parcels are the plain walk of the work from `/` of its space. Fails
/// only when out of memory.
///
/// The names of the blobs that are wrong, by one thread:
///
/// ```
/// let work = BlobWork::new(blobs);
/// let root = Piece::root(alloc, BLOB_SPACE);
/// let parcels = plain_walk(alloc, &work, root)?;
/// Ok(finish_blobs(alloc, &work, parcels)?)
/// ```
pub fn finish_blobs(
    alloc: Global,
    _work: &BlobWork<'_>,
    parcels: Vec<Parcel<Vec<Digest>>>,
) -> Result<Vec<Digest>, AllocError>
    requires { IsPlain (blob_kids _work.now) (blob_out _work.now) blob_root
        (parcel_views (λ names. names.items) parcels.items) }
    ensures { are_in_order _work.now ≡ true
        → IfOk result (λ names. names.items ≡ wrong_names _work.now) }
{
    let mut names = outputs(alloc, parcels)?;
    names.sort()?;
    names.dedup();
    Ok(names)
}

// The outputs of all parcels, one after another.
fn outputs(alloc: Global, parcels: Vec<Parcel<Vec<Digest>>>) -> Result<Vec<Digest>, AllocError>
    ensures { IfOk result
        (λ names. names.items ≡ flat_map (λ parcel. parcel.out.items) parcels.items) }
{
    let mut names = Vec::new(alloc);
    for parcel in parcels {
        let mut out = parcel.out;
        names.append(&mut out)?;
    }
    Ok(names)
}

// The first two digits of the blobs' names, each once, in order.
fn digits_of_names(alloc: Global, blobs: &[Blob]) -> Result<BTreeSet<Name>, AllocError>
    ensures { IfOk result
        (λ digits. digits.keys ≡ the_blobs.digits_of_names (blob_views blobs.now)) }
{
    let mut digits = BTreeSet::new(alloc);
    for blob in blobs {
        digits.insert(digits_name(alloc, &blob.name)?)?;
    }
    Ok(digits)
}

// The piece of each two digits.
fn digits_pieces(alloc: Global, digits: BTreeSet<Name>) -> Result<Vec<Piece>, AllocError>
    ensures { IfOk result (λ pieces. pieces.items ≡ map digits_piece digits.keys) }
{
    let root = Piece::root(alloc, BLOB_SPACE);
    let mut pieces = Vec::new(alloc);
    for name in digits {
        pieces.push(root.child(alloc, &name)?)?;
    }
    Ok(pieces)
}

// The names of the blobs with wrong bytes whose names begin with these digits.
fn wrong_names_under(alloc: Global, blobs: &[Blob], digits: &str) -> Result<Vec<Digest>, AllocError>
    ensures { IfOk result
        (λ names. names.items ≡ the_blobs.wrong_names_under digits.now (blob_views blobs.now)) }
{
    let mut names = Vec::new(alloc);
    for blob in blobs {
        if begins_with(&blob.name, digits) && is_wrong(blob) {
            names.push(blob.name)?;
        }
    }
    Ok(names)
}

// Each of these has a digest for a name, since its type keeps that.
fn keep_digests(blobs: &[Blob])
    ensures { AreNamedByDigests blobs.now }
{
    for blob in blobs {
        let _bytes = blob.name.as_bytes();
    }
}

// The part of ascending blobs that has all whose names begin with these digits.
fn blobs_under<'a>(blobs: &'a [Blob], digits: &str) -> &'a [Blob]
    requires in_order { are_in_order (blob_views blobs.now) ≡ true }
    requires digests { AreNamedByDigests blobs.now }
    ensures { the_blobs.wrong_names_under digits.now (blob_views result.now)
        ≡ the_blobs.wrong_names_under digits.now (blob_views blobs.now) }
{
    let mut byte = [0; 1];
    if hex::decode_to_slice(digits, &mut byte).is_err() {
        return &blobs[..0];
    }
    let first = usize::from(byte[0]);
    let start = start_in(blobs, first);
    let end = start_in(blobs, first + 1);
    &blobs[start..end]
}

fn first_digits(name: &Digest) -> [u8; 2]
    ensures { result ≡ the_blobs.first_digits name.now }
{
    let mut digits = [0; 2];
    let _ = hex::encode_to_slice(&name.as_bytes()[..1], &mut digits);
    digits
}

// The first two digits of a digest, as a name.
fn digits_name(alloc: Global, name: &Digest) -> Result<Name, AllocError>
    ensures { IfOk result (λ digits. digits ≡ the_blobs.first_digits name.now) }
{
    // Made by hand (1): two digits are a name, so no other fault of `Name::of` comes.
    let text = hex::encode(alloc, &name.as_bytes()[..1])?;
    match Name::of(alloc, text.as_str()) {
        Ok(digits) => Ok(digits),
        // Two digits are a name, so that there is no other fault.
        Err(_) => Err(AllocError),
    }
}

fn begins_with(name: &Digest, digits: &str) -> bool
    ensures { result ≡ name_eq digits.now (the_blobs.first_digits name.now) }
{
    digits.as_bytes() == first_digits(name).as_slice()
}

// Whether the blob's bytes have another digest than its name.
fn is_wrong(blob: &Blob) -> bool
    ensures { result ≡ the_blobs.is_wrong (blob_view blob.now) }
{
    <Sha256 as sha2::Digest>::digest(blob.bytes.as_slice()).as_slice()
        != blob.name.as_bytes().as_slice()
}
