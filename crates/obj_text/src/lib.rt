//! Meshes as text: Wavefront OBJ, read into points of the grid, faces over them, and named groups of faces.
//!
//! What a text's mesh is, or which of its lines has the first fault, is defined over the whole text at once.
#![tactic(auto)]

mod array_fault;
mod arrays;
mod coordinates;
mod face;
mod fault;
mod gathered;
mod groups;
mod height_field;
mod limits;
mod line_fault;
mod mesh;
mod name_bytes;
mod part;
mod place;
mod plain_rows;
mod read;
mod references;
mod rows;
mod sections;
mod split;
mod vertex_count;
mod vertex_lines;

pub use array_fault::ArrayFault;
pub use arrays::one_group;
pub use decimals::{GREATEST, MOST_DIGITS, NumberFault, grid, whole};
pub use face::Face;
pub use fault::{MeshFault, Why};
pub use height_field::{FIELD_CORNER, FIELD_SPACING, grid_mesh};
pub use limits::{LEAST_GRID, MOST_BYTES, MOST_FACES, MOST_GRID, MOST_POINTS};
pub use mesh::Mesh;
pub use read::{read_mesh, read_mesh_by_threads};

#[cfg(test)]
mod tests;
