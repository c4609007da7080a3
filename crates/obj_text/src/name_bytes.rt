//! The bytes of a name that a text lends, as what a set of names is searched by.

ghost use Rattle.std.specs.Prelude.{nat_eq};
ghost use Rattle.std.specs.Cmp.Lexicographic.{pointwise, bytes_decides, nat_list_eq_equiv};
ghost use Rattle.std.specs.Hash as fed;
ghost use Rattle.std.proofs.Common.{ap};

use indexmap::Equivalent;
use outside::Name;

/// Bytes that stand for the name that has them.
#[derive(Clone, Copy, PartialEq, Eq, Hash)]
pub struct NameBytes<'a> {
    pub bytes: &'a [u8],
}

impl<'a> Equivalent<Name> for NameBytes<'a> {
    ghost equivalent = { λ name other. pointwise nat_eq name.bytes.now other };

    ghost respects_hash = { λ name other same. ap (fed.slice fed.u8) ((bytes_decides name.bytes.now other).0 same) };

    ghost respects_eq = { λ name x y. nat_list_eq_equiv.congr name.bytes.now x y };

    fn equivalent(&self, key: &Name) -> bool {
        self.bytes == key.bytes()
    }
}
