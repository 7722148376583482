ghost use Rattle.std.specs.Prelude.{◌≡◌};
ghost use Rattle.alpha_names.specs.Hashes.{quick_hash, slow_hash};

use std::hash::{DefaultHasher, FoldHasher, Hasher};

/// A hash of a name that is quick to compute, and for which names with one hash are easy to find.
pub(crate) fn quick_hash(name: &[u8]) -> u64
    ensures { result ≡ quick_hash name.now }
{
    let mut hasher = FoldHasher::default();
    hasher.write(name);
    hasher.finish()
}

/// A hash of a name by SipHash-1-3, for which no way to many names with one hash is known.
pub(crate) fn slow_hash(name: &[u8]) -> u64
    ensures { result ≡ slow_hash name.now }
{
    let mut hasher = DefaultHasher::new();
    hasher.write(name);
    hasher.finish()
}
