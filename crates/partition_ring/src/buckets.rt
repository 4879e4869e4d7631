//! The partition of a value.

ghost use Rattle.std.specs.Prelude.{◌≡◌, ◌<◌, ◌≤◌};
ghost use Rattle.partition_ring.specs.Buckets as ring;

use volt_base::PartNo;

/// How many buckets there are.
const BUCKETS: u64 = 1024;

/// Where the hash begins, and by what it is multiplied after each byte.
const FNV_BASIS: u64 = 14695981039346656037;

const FNV_PRIME: u64 = 1099511628211;

/// The FNV-1a hash of the bytes, of 64 bits.
fn hash(bytes: &[u8]) -> u64
    ensures { result ≡ ring.hash_of bytes.now }
{
    let mut hash = FNV_BASIS;
    for byte in bytes {
        hash = (hash ^ *byte as u64).wrapping_mul(FNV_PRIME);
    }
    hash
}

/// The bucket that the bytes fall into, from 0 to 1,023.
pub(crate) fn bucket(bytes: &[u8]) -> u64
    ensures { result ≡ ring.bucket_of bytes.now }
{
    hash(bytes) % BUCKETS
}

/// The partition in which a value with this spelling lies, of 1 to 32 partitions. The bytes' FNV-1a
/// hash modulo 1,024 is their bucket, and the buckets are dealt out in ranges: the partition is the
/// bucket times the number of partitions, divided by 1,024 and rounded down.
pub fn partition_of(canonical: &[u8], parts: u8) -> PartNo
    requires some { 1 ≤ parts }
    requires few { parts ≤ 32 }
    ensures exact { result ≡ ring.partition_of canonical.now parts }
    ensures within { result < parts }
{
    (bucket(canonical) * parts as u64 / BUCKETS) as u8
}
