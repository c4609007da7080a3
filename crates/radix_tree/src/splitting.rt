//! Where a range of keys is parted.
//! Up to the split a position shares more with the first than the last does, and behind it not, so halving finds it.

ghost use Rattle.std.specs.Prelude.{◌≡◌, ◌<◌, ◌≤◌, length};
ghost use Rattle.morton_key.specs.Keys.{IsLawful};
ghost use Rattle.radix_tree.specs.Split.{split};

use morton_key::{Key, common_prefix};

/// The split of the range from `first` to `last`, both ends in it: the last position that shares more with the first
/// than the last one does.
///
/// It is found by halving, and takes no memory (Karras, HPG 2012, section 3).
pub fn split_of(keys: &[Key], first: usize, last: usize) -> usize
    requires lawful { IsLawful keys.now }
    requires order { first < last }
    requires within { last < length keys.now }
    ensures value { result ≡ split keys.now first last }
    ensures low { first ≤ result }
    ensures high { result < last }
{
    let whole = common_prefix(keys, first, last);
    let mut near = first;
    let mut far = last;
    while near + 1 < far {
        let middle = near + (far - near) / 2;
        if common_prefix(keys, first, middle) > whole {
            near = middle;
        } else {
            far = middle;
        }
    }
    near
}
