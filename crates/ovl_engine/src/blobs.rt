//! Contents as blobs, under the digests that they have.
ghost use Rattle.std.specs.Prelude.{◌≡◌, IfOk, map};
ghost use Rattle.std.specs.BTreeMap.{IsOrdered};
ghost use Rattle.sha2.specs.Sha256.{sha256};
ghost use Rattle.ovl_blobs.specs.Blobs.{blob_views, digest_cmp};
ghost use Rattle.ovl_engine.specs.NamedBlobs.{AreNamed, HasFirsts, name_and_bytes};

use ovl_check::Blob;
use ovl_inode::Digest;
use sha2::Sha256;
use std::alloc::{AllocError, Global};
use std::collections::BTreeMap;

/// The contents as blobs, each named by its SHA-256 digest (FIPS 180-4): ascending by name, each
/// name once, with the first contents that have this digest. Fails only when out of memory.
pub fn named_blobs(alloc: Global, contents: &[Vec<u8>]) -> Result<Vec<Blob>, AllocError>
    ensures { IfOk result
        (λ blobs. AreNamed (map (λ bytes. bytes.items) contents.now) (blob_views blobs.items)) }
{
    let named = first_of_each(alloc, contents)?;
    let blobs = blobs_of(alloc, named)?;
    Ok(blobs)
}

// The first contents of each digest that contents have.
fn first_of_each(
    alloc: Global,
    contents: &[Vec<u8>],
) -> Result<BTreeMap<Digest, Vec<u8>>, AllocError>
    ensures { IfOk result (λ named.
        HasFirsts (map (λ bytes. bytes.items) contents.now)
        (map (λ entry. (entry.0, entry.1.items)) named.entries)) }
{
    let mut named = BTreeMap::new(alloc);
    for bytes in contents {
        let name = digest_of(bytes.as_slice());
        if !named.contains_key(&name) {
            named.insert(name, copied(alloc, bytes.as_slice())?)?;
        }
    }
    Ok(named)
}

// The entries as blobs, in their order.
fn blobs_of(alloc: Global, named: BTreeMap<Digest, Vec<u8>>) -> Result<Vec<Blob>, AllocError>
    ensures same { IfOk result (λ blobs.
        map name_and_bytes (blob_views blobs.items)
        ≡ map (λ entry. (entry.0, entry.1.items)) named.entries) }
    ensures ordered { IfOk result (λ _. IsOrdered digest_cmp named) }
{
    let mut blobs = Vec::new(alloc);
    for (name, bytes) in named {
        blobs.push(Blob { name, bytes })?;
    }
    Ok(blobs)
}

fn digest_of(bytes: &[u8]) -> Digest
    ensures { result ≡ sha256 bytes.now }
{
    Digest::from(&<Sha256 as sha2::Digest>::digest(bytes))
}

fn copied(alloc: Global, bytes: &[u8]) -> Result<Vec<u8>, AllocError>
    ensures { IfOk result (λ copy. copy.items ≡ bytes.now) }
{
    let mut copy = Vec::with_capacity(alloc, bytes.len())?;
    copy.extend_from_slice(bytes)?;
    Ok(copy)
}
