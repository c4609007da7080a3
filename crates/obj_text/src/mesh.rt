//! A mesh: its points, its faces and their groups. What every mesh keeps stands on the type, so no reader of one tests
//! it again.

use crate::face::Face;
use fixed_box::Point;
use indexmap::IndexSet;
use outside::Name;
use std::marker::Model;

/// Triangles over points of the world, in named groups. A triangle's number is its position in `faces` and one more.
///
/// It has at most `MOST_POINTS` points and `MOST_FACES` faces, and each face names points that are there. `group_of`
/// has for each face the position of its group in `groups`.
#[derive(Drop)]
pub struct Mesh {
    pub points: Vec<Point>,
    pub faces: Vec<Face>,
    pub group_of: Vec<u32>,
    pub groups: IndexSet<Name>,
}

impl Model for Mesh {
    ghost use Rattle.obj_text.specs.Meshes.{MeshLists, IsMesh};

    ghost Value = { MeshLists };

    ghost view = { λ m. record {
      points = m.points.items;
      faces = m.faces.items;
      names = m.groups.keys;
      group_of = m.group_of.items;
    } };

    ghost invariant = { λ m. IsMesh (record {
      points = m.points.items;
      faces = m.faces.items;
      names = m.groups.keys;
      group_of = m.group_of.items;
    }) };
}

impl Mesh {
    ghost use Rattle.std.specs.Prelude.{◌≡◌};
    ghost use Rattle.obj_text.specs.Meshes.{IsMesh};

    /// The points, lent.
    pub fn points(&self) -> &[Point]
        ensures points { result.now ≡ self.now.points }
        ensures mesh { IsMesh self.now }
    {
        &self.points
    }

    /// The faces, lent.
    pub fn faces(&self) -> &[Face]
        ensures faces { result.now ≡ self.now.faces }
        ensures mesh { IsMesh self.now }
    {
        &self.faces
    }

    /// For each face the position of its group in `groups`, lent.
    pub fn group_of(&self) -> &[u32]
        ensures group_of { result.now ≡ self.now.group_of }
        ensures mesh { IsMesh self.now }
    {
        &self.group_of
    }

    /// The names of the groups, lent.
    pub fn groups(&self) -> &IndexSet<Name>
        ensures names { result.now.keys ≡ self.now.names }
        ensures mesh { IsMesh self.now }
    {
        &self.groups
    }

    /// The points, the faces, the group of each face and the groups' names, taken.
    pub fn into_parts(self) -> (Vec<Point>, Vec<Face>, Vec<u32>, IndexSet<Name>)
        ensures points { result.0.items ≡ self.points }
        ensures faces { result.1.items ≡ self.faces }
        ensures group_of { result.2.items ≡ self.group_of }
        ensures names { result.3.keys ≡ self.names }
        ensures mesh { IsMesh self }
    {
        let Mesh {
            points,
            faces,
            group_of,
            groups,
        } = self;
        (points, faces, group_of, groups)
    }
}
