//! The digest of a place, by which its number is sought, and a number under its digest. A digest only makes a search short: places are compared themselves.
//! It is the low half of SipHash-1-3 of both texts, so that nobody finds many places of one digest without trying billions. 32 bits keep a key at 8 bytes, and
//! of 200,000 places some five pairs share a digest.
ghost use Rattle.std.specs.Prelude.{◌≡◌};
ghost use Rattle.fts_heads.specs.Digests.{digest_of};

use fts_tables::Place;
use ordered::Key;
use std::hash::{DefaultHasher, Hash, Hasher};

/// The number of a place, under the digest of the place.
#[derive(Clone, Copy)]
pub struct Digested {
    pub digest: u32,
    pub number: u32,
}

// By the digest, then by the number.
impl Key for Digested {
    ghost use Rattle.fts_heads.specs.Digests.{is_digested_before, digests_in_order};

    ghost before = { is_digested_before };

    fn is_before(&self, other: &Digested) -> bool {
        self.digest < other.digest || (self.digest == other.digest && self.number < other.number)
    }

    ghost order = { digests_in_order };
}

/// The digest of a place.
pub fn digest_of(place: &Place) -> u32
    ensures digest { result ≡ digest_of place.now }
{
    let mut hasher = DefaultHasher::new();
    place.endpoint.as_str().hash(&mut hasher);
    place.path.as_str().hash(&mut hasher);
    (hasher.finish() % (1 << 32)) as u32
}
