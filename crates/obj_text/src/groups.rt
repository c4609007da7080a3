//! The groups of faces: a name becomes a group with its first face.

ghost use Rattle.std.specs.Prelude.{◌≡◌, ◌≤◌, ◌+◌, ◌++◌, length, replicate, OnOk, IfOk};
ghost use Rattle.std.specs.List.{position_or_len};
ghost use Rattle.std.specs.Str.{bytes_eq};
ghost use Rattle.obj_text.specs.Groups.{with_name};
ghost use Rattle.obj_text.specs.Steps.{groups_with};

use crate::limits::MOST_FACES;
use crate::name_bytes::NameBytes;
use indexmap::IndexSet;
use outside::Name;
use std::alloc::{AllocError, Global};

/// The position of a name's group, which is made where there is none.
pub fn group_number(
    alloc: Global,
    groups: &mut IndexSet<Name>,
    name: &[u8],
) -> Result<usize, AllocError>
    ensures number { IfOk result (λ number. number ≡ position_or_len (bytes_eq name.now) groups.new.keys) }
    ensures within { IfOk result (λ number. number ≤ length groups.old.keys) }
    ensures names { OnOk result (groups.new.keys ≡ with_name groups.old.keys name.now) }
{
    if let Some(number) = groups.get_index_of(NameBytes { bytes: name }) {
        return Ok(number);
    }
    let name = Name::new(name.to_vec(alloc)?);
    match groups.insert_full(name) {
        Ok((number, _)) => Ok(number),
        Err(_) => Err(AllocError),
    }
}

/// Puts so many faces more into the group of a name.
pub fn group_faces(
    alloc: Global,
    groups: &mut IndexSet<Name>,
    group_of: &mut Vec<u32>,
    name: &[u8],
    faces: usize,
) -> Result<(), AllocError>
    requires few { length group_of.now.items + faces ≤ MOST_FACES }
    requires few_groups { length groups.now.keys ≤ length group_of.now.items }
    ensures names { OnOk result (groups.new.keys ≡ groups_with groups.old.keys name.now faces) }
    ensures places { OnOk result (group_of.new.items ≡ group_of.old.items
        ++ replicate faces (position_or_len (bytes_eq name.now) groups.new.keys)) }
{
    if faces == 0 {
        return Ok(());
    }
    let group = group_number(alloc, groups, name)? as u32;
    group_of.resize(group_of.len() + faces, group)
}
