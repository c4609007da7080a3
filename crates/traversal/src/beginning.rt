//! Where every walk begins: at the child that is the whole tree.

ghost use Rattle.std.specs.Prelude.{◌≡◌, ◌-◌, ◌<◌, length, None, IfSome};
ghost use Rattle.radix_tree.specs.Ranges.{HasRange};
ghost use Rattle.radix_tree.specs.Table.{IsTable};
ghost use Rattle.radix_tree.specs.Filling.{IsChild};

use radix_tree::{Child, Tree};

/// The whole tree as a child, if it has a key.
pub fn root(t: &Tree) -> Option<Child>
    ensures none { result ≡ None → length t.now.keys ≡ 0 }
    ensures child { IfSome result (IsChild t.now) }
    ensures range { IfSome result (λ child. HasRange t.now.keys child 0 (length t.now.keys - 1)) }
    ensures some { IfSome result (λ child. 0 < length t.now.keys) }
    ensures table { IsTable t.now }
{
    let count = t.keys().len();
    if count == 0 {
        None
    } else if count == 1 {
        Some(Child::Leaf(0))
    } else {
        Some(Child::Inner(0))
    }
}
