//! Digests by their bytes and their digits.
ghost use Rattle.std.specs.Prelude.{◌≡◌, Some, IsTrue, MatchResult};
ghost use Rattle.hex.specs.Hex.{encode_lower};
ghost use Rattle.ovl_inode.specs.Bytes.{is_digest};
ghost use Rattle.ovl_inode.specs.Hexadecimal.{digest_fault, digest_of_text};

use crate::digit_lanes::{are_lower_digits, bytes_of_digits, digits_of_bytes};
use std::marker::Model;
use thiserror::Error;

/// Why a text is no digest; where both hold, the first is given.
#[derive(Clone, Copy, Debug, PartialEq, Eq, Error)]
pub enum DigestFault {
    /// It has not 64 bytes.
    #[error("the digest has not 64 digits")]
    Length,
    /// It has a byte that is none of `0` to `9` and `a` to `f`.
    #[error("the digest has a byte that is no lower-case hexadecimal digit")]
    Digit,
}

/// A SHA-256 digest (FIPS 180-4), 32 bytes: the name of a blob.
#[derive(Clone, Copy, Debug, PartialEq, Eq, PartialOrd, Ord, Hash)]
pub struct Digest {
    bytes: [u8; 32],
}

impl Model for Digest {
    ghost use Rattle.std.specs.Prelude.{ℕ, List, IsTrue};
    ghost use Rattle.ovl_inode.specs.Bytes.{is_digest};

    ghost Value = { List ℕ };

    ghost view = { λ a. a.bytes };

    ghost invariant = { λ a. IsTrue (is_digest a.bytes) };

    ghost inverse = { λ bytes. record { bytes = bytes } };
}

impl Digest {
    /// The digest that 64 lower-case hexadecimal digits spell, or the first fault in the order of
    /// [`DigestFault`].
    ///
    /// The digits again, or the text of the fault:
    ///
    /// ```
    /// match Digest::parse(text) {
    ///     Ok(digest) => String::from_str(alloc, digest.digits().as_str()),
    ///     Err(fault) => fault.to_string(alloc),
    /// }
    /// ```
    pub fn parse(text: &str) -> Result<Digest, DigestFault>
        ensures { MatchResult result
            (λ digest. digest_of_text text.now ≡ Some digest)
            (λ fault. digest_fault text.now ≡ Some fault) }
    {
        let digits = text.as_bytes();
        if digits.len() != 64 {
            return Err(DigestFault::Length);
        }
        if !are_lower_digits(digits) {
            return Err(DigestFault::Digit);
        }
        let bytes = bytes_of_digits(digits);
        Ok(Digest { bytes })
    }

    /// The 32 bytes.
    pub fn as_bytes(&self) -> &[u8; 32]
        ensures value { result.now ≡ self.now }
        ensures digest { IsTrue (is_digest self.now) }
    {
        &self.bytes
    }

    /// The 64 lower-case hexadecimal digits that spell it.
    pub fn digits(&self) -> Digits
        ensures value { result ≡ encode_lower self.now }
        ensures digest { IsTrue (is_digest self.now) }
    {
        let bytes = digits_of_bytes(&self.bytes);
        Digits { bytes }
    }
}

impl From<&[u8; 32]> for Digest {
    ghost from_gives = { λ bytes digest. digest ≡ bytes.now };

    fn from(bytes: &[u8; 32]) -> Digest {
        let mut own = [0; 32];
        own.copy_from_slice(bytes);
        Digest { bytes: own }
    }
}

/// The digits of a digest, as a text that needs no memory.
#[derive(Clone, Copy)]
pub struct Digits {
    bytes: [u8; 64],
}

impl Model for Digits {
    ghost use Rattle.std.specs.Prelude.{ℕ, List};
    ghost use Rattle.std.specs.Str.{IsUtf8};

    ghost Value = { List ℕ };

    ghost view = { λ a. a.bytes };

    ghost invariant = { λ a. IsUtf8 a.bytes };

    ghost inverse = { λ bytes. record { bytes = bytes } };
}

impl Digits {
    /// The digits as a text.
    pub fn as_str(&self) -> &str
        ensures { result.now ≡ self.now }
    {
        match simdutf8::basic::from_utf8(&self.bytes) {
            Ok(text) => text,
            Err(_) => unreachable!(),
        }
    }
}
