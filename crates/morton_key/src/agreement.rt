//! How near two keys stand, by the length of the prefix that their codes share.
//! Equal codes are told apart by their positions, as if each code went on with its position's bits.

ghost use Rattle.std.specs.Prelude.{◌≡◌, ℕ, ◌+◌, ◌<◌, ◌≤◌, length, ◌≤ℤ◌, ◌<ℤ◌, pos, negsuc};
ghost use Rattle.morton_key.specs.Keys.{IsLawful};
ghost use Rattle.morton_key.specs.Measure.{measure};

use crate::{Key, POSITION_WIDTH, WIDTH};

/// The length of the prefix that two keys share, in bits, where both are positions of the list.
///
/// It is what `delta` answers for them, and at most `WIDTH + POSITION_WIDTH`. It takes no memory.
pub fn common_prefix(keys: &[Key], i: usize, j: usize) -> u32
    requires lawful { IsLawful keys.now }
    requires first { i < length keys.now }
    requires second { j < length keys.now }
    ensures value { result ≡ measure keys.now i j }
    ensures most { result ≤ WIDTH + POSITION_WIDTH }
{
    let one = keys[i].code;
    let other = keys[j].code;
    if one == other {
        (i as u32 ^ j as u32).leading_zeros() + WIDTH - (u32::BITS - POSITION_WIDTH)
    } else {
        (one ^ other).leading_zeros() - (u64::BITS - WIDTH)
    }
}

/// The length of the prefix that two keys share, in bits: -1 where `j` is no position of the list.
///
/// It is the length of the common prefix of their codes, from 0 to `WIDTH - 1`. Where the codes are equal it is
/// `WIDTH` and the length of the common prefix of the positions, of `POSITION_WIDTH` bits each, so `delta(keys, i, i)`
/// is `WIDTH + POSITION_WIDTH` and no other answer is. It takes no memory (Karras, HPG 2012, section 4).
pub fn delta(keys: &[Key], i: i64, j: i64) -> i32
    requires lawful { IsLawful keys.now }
    requires low { pos 0 ≤ℤ i }
    requires high { i <ℤ pos (length keys.now) }
    ensures inside { (a b : ℕ) → i ≡ pos a → j ≡ pos b → b < length keys.now → result ≡ pos (measure keys.now a b) }
    ensures below { j <ℤ pos 0 → result ≡ negsuc 0 }
    ensures above { pos (length keys.now) ≤ℤ j → result ≡ negsuc 0 }
{
    if j < 0 || j >= keys.len() as i64 {
        return -1;
    }
    common_prefix(keys, i as usize, j as usize) as i32
}
