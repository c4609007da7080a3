//! What the lines of a part gave so far.

use crate::face::Face;
use fixed_box::Point;

/// The points and the faces so far, and the current name: none where it is the one before the part.
#[derive(Drop)]
pub struct Gathered<'a> {
    pub points: Vec<Point>,
    pub faces: Vec<Face>,
    pub name: Option<&'a [u8]>,
}
