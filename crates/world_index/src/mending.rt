//! The boxes of the triangles that use moved vertices, made anew from the points now. All others stay as they are.

ghost use Rattle.std.specs.Prelude.{◌≡◌, ℕ, ◌<◌, length, All};
ghost use Rattle.obj_text.specs.Meshes.{IsFaceOf};
ghost use Rattle.world_index.specs.Worlds.{boxes_at};
ghost use Rattle.world_index.specs.Fans.{HasVertex, face_at, AreFans};
ghost use Rattle.world_index.specs.Live.{IsStill};
ghost use Rattle.world_index.specs.Kept.{IsRight};

use crate::corners::triangle;
use crate::fans::Fans;
use fixed_box::{Box3, Point, box_of};
use obj_text::Face;

/// Fits the boxes of the triangles that use the vertex.
fn fit_fan(points: &[Point], faces: &[Face], fans: &Fans, vertex: u32, boxes: &mut [Box3])
    requires named { All (IsFaceOf (length points.now)) faces.now }
    requires fans { AreFans fans.now faces.now (length points.now) }
    requires within { vertex < length points.now }
    requires room { length boxes.old ≡ length faces.now }
    ensures made { (t : ℕ) → t < length faces.now → HasVertex (face_at faces.now t) vertex →
        IsRight points.now faces.now boxes.new t }
    ensures kept { (t : ℕ) → t < length faces.now → IsRight points.now faces.now boxes.old t →
        IsRight points.now faces.now boxes.new t }
{
    let mut next = fans.latest[vertex as usize];
    while next > 0 {
        let position = next as usize - 1;
        let face = &faces[position];
        boxes[position] = box_of(&triangle(points, face));
        next = fans.before(position, face, vertex);
    }
}

/// Fits the boxes of the triangles that use any of these vertices, where those of all others are fitted.
pub fn fit_moved(points: &[Point], faces: &[Face], fans: &Fans, moved: &[u32], boxes: &mut [Box3])
    requires named { All (IsFaceOf (length points.now)) faces.now }
    requires fans { AreFans fans.now faces.now (length points.now) }
    requires within { All (λ v. v < length points.now) moved.now }
    requires room { length boxes.old ≡ length faces.now }
    requires still { (t : ℕ) → t < length faces.now → IsStill moved.now (face_at faces.now t) →
        IsRight points.now faces.now boxes.old t }
    ensures { boxes.new ≡ boxes_at points.now faces.now }
{
    for vertex in moved {
        fit_fan(points, faces, fans, *vertex, boxes);
    }
}
