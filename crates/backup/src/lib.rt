// A bucket's backup, image and map, as every store and load meets it: whether the two may be used, and whether two signatures are the same.
#![tactic(auto)]

ghost use Rattle.std.specs.Prelude.{◌≡◌};
ghost use Rattle.backup.specs.Openings.{opening};
ghost use Rattle.backup.specs.Backups.{same as backup_same};

use map::Header;
use signature::Signature;
use units::{Bytes, Refusal};

// The map is read, and two buckets are held against its bucket bytes.
#[tactic(auto, using(crate::proofs::Opened::one_unmatched, crate::proofs::Opened::other_unmatched, crate::proofs::Opened::both_matched))]
pub fn open(one: Bytes, other: Bytes, map: &[u8]) -> Result<Header, Refusal>
    ensures { result ≡ opening one.count other.count map.now }
{
    let h = map::read(map)?;
    if one.count != h.bucket.count || other.count != h.bucket.count {
        return Err(Refusal::Match);
    }
    Ok(h)
}

// The derived comparison; this stays for what is promised of it, `same_one_answer`.
#[tactic(auto, using(crate::proofs::Sameness::same_by_parts))]
pub fn same(a: Signature, b: Signature) -> bool
    ensures { result ≡ backup_same a b }
{
    a == b
}
