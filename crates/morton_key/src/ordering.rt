//! The keys of all triangles in order.
//! No two keys are equal, since no two triangles have one number, so a sort that is not stable serves.

ghost use Rattle.std.specs.Prelude.{◌≡◌, ◌^◌, ◌≤◌, length, All, IfOk};
ghost use Rattle.fixed_box.specs.World.{BoxInWorld};
ghost use Rattle.morton_key.specs.Keys.{IsLawful};
ghost use Rattle.morton_key.specs.Order.{keys_from, IsOrderOf, order_of};

use crate::{Key, POSITION_WIDTH, code};
use fixed_box::Box3;
use outside::Memory;
use std::alloc::{AllocError, Global};

/// The keys one after another, as the triangles come.
fn listed(alloc: Global, boxes: &[Box3]) -> Result<Vec<Key>, AllocError>
    requires few { length boxes.now ≤ 2 ^ POSITION_WIDTH }
    requires world { All BoxInWorld boxes.now }
    ensures { IfOk result (λ keys. keys.items ≡ keys_from 1 boxes.now) }
{
    let mut keys = Vec::with_capacity(alloc, boxes.len())?;
    for (i, b) in boxes.iter().enumerate() {
        keys.push(Key {
            code: code(b),
            tri: i as u32 + 1,
        })?;
    }
    Ok(keys)
}

/// The keys in the order of the triangles' numbers, for a sort: that of `order` or another one.
///
/// `boxes[t - 1]` is the box of triangle `t`; there are at most `2 ^ POSITION_WIDTH` of them, all in the world. It takes
/// memory for the keys alone.
pub fn unsorted(alloc: Global, boxes: &[Box3]) -> Result<Vec<Key>, Memory>
    requires few { length boxes.now ≤ 2 ^ POSITION_WIDTH }
    requires world { All BoxInWorld boxes.now }
    ensures { IfOk result (λ keys. keys.items ≡ keys_from 1 boxes.now) }
{
    listed(alloc, boxes).map_err(|_| Memory)
}

/// The keys of the triangles in order: by code, and where codes are equal by number.
///
/// `boxes[t - 1]` is the box of triangle `t`; there are at most `2 ^ POSITION_WIDTH` of them, all in the world. The
/// keys are lawful. It takes memory for the keys alone.
pub fn order(alloc: Global, boxes: &[Box3]) -> Result<Vec<Key>, Memory>
    requires few { length boxes.now ≤ 2 ^ POSITION_WIDTH }
    requires world { All BoxInWorld boxes.now }
    ensures order { IfOk result (λ keys. IsOrderOf boxes.now keys.items) }
    ensures value { IfOk result (λ keys. keys.items ≡ order_of boxes.now) }
    ensures lawful { IfOk result (λ keys. IsLawful keys.items) }
    ensures count { IfOk result (λ keys. length keys.items ≡ length boxes.now) }
{
    let mut keys = unsorted(alloc, boxes)?;
    keys.sort_unstable();
    Ok(keys)
}
