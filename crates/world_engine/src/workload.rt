//! What the large workload asks: a pass of eight queries over its height field, and eight moves of its vertices.

ghost use Rattle.std.specs.Prelude.{◌≡◌, ◌≤◌, ◌<◌, ◌++◌, length, IfOk, OnOk, All};
ghost use Rattle.fixed_box.specs.World.{IsCoordinate, InWorld};
ghost use Rattle.obj_text.specs.HeightFields.{field_points};
ghost use Rattle.query_script.specs.Asks.{IsAskable};
ghost use Rattle.world_engine.specs.Workload.{spread, over_place, far_corner, query_box, query_asks, pass_asks, moved_place, raised, move_ask, move_asks};

use fixed_box::{Box3, Point};
use obj_text::{FIELD_CORNER, FIELD_SPACING, LEAST_GRID, MOST_GRID};
use query_script::Ask;
use std::alloc::{AllocError, Global};

/// How many queries a pass asks, and how many vertices are moved.
pub const QUERIES: u32 = 8;

/// The segment of a query begins at this height.
pub const SEGMENT_TOP: i32 = 2000;

/// It ends at this one.
pub const SEGMENT_FOOT: i32 = -1000;

/// The box of a query reaches so far along x and along y.
pub const BOX_REACH: i32 = 1024;

/// It reaches from 0 to this height.
pub const BOX_TOP: i32 = 500;

/// The first vertex is moved to this height.
pub const MOVE_TOP: i32 = 1000;

/// Each one behind it goes lower by this.
pub const MOVE_STEP: u32 = 10;

/// A number, brought into the width of a field, as a coordinate along it.
fn spread(side: u32, number: u32) -> i32
    requires least { LEAST_GRID ≤ side }
    requires most { side ≤ MOST_GRID }
    ensures value { result ≡ spread side number }
    ensures world { IsCoordinate result }
{
    (number % (FIELD_SPACING * side)) as i32 - FIELD_CORNER
}

/// The point at a height over the place of a query.
fn over_place(side: u32, query: u32, height: i32) -> Point
    requires least { LEAST_GRID ≤ side }
    requires most { side ≤ MOST_GRID }
    requires query { query < QUERIES }
    requires height { IsCoordinate height }
    ensures value { result ≡ over_place side query height }
    ensures world { InWorld result }
{
    Point {
        x: spread(side, 131 * query * query + 17),
        y: spread(side, 57 * query * query + 91 * query),
        z: height,
    }
}

/// The highest corner of a box, from its lowest one.
fn far_corner(near: &Point) -> Point
    requires { InWorld near.now }
    ensures { result ≡ far_corner near.now }
{
    Point {
        x: near.x + BOX_REACH,
        y: near.y + BOX_REACH,
        z: BOX_TOP,
    }
}

fn query_box(side: u32, query: u32) -> Box3
    requires least { LEAST_GRID ≤ side }
    requires most { side ≤ MOST_GRID }
    requires query { query < QUERIES }
    ensures { result ≡ query_box side query }
{
    let near = over_place(side, query, 0);
    Box3::of_corners(near, far_corner(&near))
}

/// Adds what a query asks.
fn add_query(asks: &mut Vec<Ask>, side: u32, query: u32) -> Result<(), AllocError>
    requires least { LEAST_GRID ≤ side }
    requires most { side ≤ MOST_GRID }
    requires query { query < QUERIES }
    requires askable { All IsAskable asks.old.items }
    ensures asks { OnOk result (asks.new.items ≡ asks.old.items ++ query_asks side query) }
    ensures askable { OnOk result (All IsAskable asks.new.items) }
{
    let p = over_place(side, query, SEGMENT_TOP);
    let q = over_place(side, query, SEGMENT_FOOT);
    asks.push(Ask::Seg { p, q })?;
    asks.push(Ask::Overlap {
        around: query_box(side, query),
    })?;
    asks.push(Ask::Work)?;
    Ok(())
}

/// What a pass asks.
pub fn pass_asks(alloc: Global, side: u32) -> Result<Vec<Ask>, AllocError>
    requires least { LEAST_GRID ≤ side }
    requires most { side ≤ MOST_GRID }
    ensures asks { IfOk result (λ asks. asks.items ≡ pass_asks side) }
    ensures askable { IfOk result (λ asks. All IsAskable asks.items) }
{
    let mut asks = Vec::new(alloc);
    for query in 0..QUERIES {
        add_query(&mut asks, side, query)?;
    }
    Ok(asks)
}

/// Where a move takes a vertex: its column and row stay.
fn raised(p: &Point, number: u32) -> Point
    requires world { InWorld p.now }
    requires few { number < QUERIES }
    ensures value { result ≡ raised p.now number }
    ensures world { InWorld result }
{
    Point {
        x: p.x,
        y: p.y,
        z: MOVE_TOP - (MOVE_STEP * number) as i32,
    }
}

fn move_ask(points: &[Point], side: u32, number: u32) -> Ask
    requires most { side ≤ MOST_GRID }
    requires few { number < QUERIES }
    requires world { All InWorld points.now }
    requires points { points.now ≡ field_points side }
    ensures value { result ≡ move_ask points.now side number }
    ensures askable { IsAskable result }
{
    let place = 5 * number % ((side + 1) * (side + 1));
    Ask::Move {
        vertex: u64::from(place + 1),
        to: raised(&points[place as usize], number),
    }
}

/// What the moves ask, over the points of a field.
pub fn move_asks(alloc: Global, side: u32, points: &[Point]) -> Result<Vec<Ask>, AllocError>
    requires most { side ≤ MOST_GRID }
    requires world { All InWorld points.now }
    requires points { points.now ≡ field_points side }
    ensures asks { IfOk result (λ asks. asks.items ≡ move_asks side) }
    ensures askable { IfOk result (λ asks. All IsAskable asks.items) }
{
    let mut asks = Vec::new(alloc);
    for number in 0..QUERIES {
        asks.push(move_ask(points, side, number))?;
    }
    Ok(asks)
}
