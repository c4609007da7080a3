//! The boxes of all nodes, fitted from the leaves up by fork and join.
//! Below a node with range [a, b] and split s the nodes of the left half have the numbers a + 1 to s and those of the
//! right half s + 1 to b - 1, so the list is cut in two and no node is lent twice.

ghost use Rattle.std.specs.Prelude.{◌≡◌, ◌+◌, ◌-◌, ◌<◌, length, IfOk};
ghost use Rattle.std.specs.Thread.{IsSync};
ghost use Rattle.fixed_box.specs.Boxes.{IsLeastBox};
ghost use Rattle.morton_key.specs.Keys.{tri_at, IsLawful};
ghost use Rattle.radix_tree.specs.Table.{IsTable};
ghost use Rattle.radix_tree.specs.Fit.{box_of_triangle, boxes_in, IsFitted, table_of};
ghost use Rattle.karras_build.specs.Spans.{AreSpans};
ghost use Rattle.karras_build.specs.Parts.{AreInputs, HasRows, IsPart};
ghost use Rattle.karras_build.specs.Halves.{IsLeftHalf, IsRightHalf, AreHalves};
ghost use Rattle.karras_build.specs.Halves.{IsLeftFitted, IsRightFitted, AreHalvesFitted};

use crate::Span;
use crate::inputs::{Cut, Inputs};
use fixed_box::{Box3, union};
use morton_key::Key;
use outside::Memory;
use radix_tree::{Node, Tree};
use std::alloc::{AllocError, Global};
use std::thread::{Threads, join_mut};

/// How few nodes a half may have to be fitted in a thread of its own.
const LEAST_HALF: usize = 8192;

/// The box of the triangle at a position.
fn box_at(inputs: &Inputs<'_>, position: usize) -> Box3
    requires inputs { AreInputs inputs.now }
    requires within { position < length inputs.now.keys.now }
    ensures { result ≡ box_of_triangle inputs.now.boxes.now (tri_at inputs.now.keys.now position) }
{
    radix_tree::box_at(inputs.keys, inputs.boxes, position)
}

/// Fits a left child and all below it, and answers the box round its range. Its number is its last position, and its
/// part of the list has the numbers behind its first position up to that.
#[cycle(parts)]
fn fit_left<R: Threads + Sync>(
    rt: &R,
    inputs: &Inputs<'_>,
    first: usize,
    last: usize,
    part: &mut [Node],
) -> Box3
    requires inputs { AreInputs inputs.now }
    requires part { IsPart inputs.now.keys.now last first last (length part.old) }
    ensures rows { HasRows inputs.now (first + 1) part.new }
    ensures fit { IsLeastBox (boxes_in inputs.now.boxes.now inputs.now.keys.now first last) result }
{
    let Some((own, below)) = part.split_last_mut() else {
        return box_at(inputs, first);
    };
    let split = inputs.spans[last].split as usize;
    let fit = fit_below(rt, inputs, Cut { first, split, last }, below);
    *own = Node {
        first: first as u32,
        last: last as u32,
        split: split as u32,
        fit,
    };
    fit
}

/// Fits a right child or the root and all below it, and answers the box round its range. Its number is its first
/// position, and its part of the list has the numbers from that up to the one before its last position.
#[cycle(parts)]
fn fit_right<R: Threads + Sync>(
    rt: &R,
    inputs: &Inputs<'_>,
    first: usize,
    last: usize,
    part: &mut [Node],
) -> Box3
    requires inputs { AreInputs inputs.now }
    requires part { IsPart inputs.now.keys.now first first last (length part.old) }
    ensures rows { HasRows inputs.now first part.new }
    ensures fit { IsLeastBox (boxes_in inputs.now.boxes.now inputs.now.keys.now first last) result }
{
    let Some((own, below)) = part.split_first_mut() else {
        return box_at(inputs, first);
    };
    let split = inputs.spans[first].split as usize;
    let fit = fit_below(rt, inputs, Cut { first, split, last }, below);
    *own = Node {
        first: first as u32,
        last: last as u32,
        split: split as u32,
        fit,
    };
    fit
}

/// Fits all below a node, and answers the box round the node's range.
#[inline(always)]
#[cycle(parts)]
fn fit_below<R: Threads + Sync>(rt: &R, inputs: &Inputs<'_>, cut: Cut, below: &mut [Node]) -> Box3
    requires inputs { AreInputs inputs.now }
    requires halves { AreHalves inputs.now.keys.now cut (cut.split - cut.first) (cut.last - (cut.split + 1)) }
    requires room { length below.old ≡ cut.last - cut.first - 1 }
    ensures rows { HasRows inputs.now (cut.first + 1) below.new }
    ensures fit { IsLeastBox (boxes_in inputs.now.boxes.now inputs.now.keys.now cut.first cut.last) result }
{
    let (left, right) = below.split_at_mut(cut.split - cut.first);
    let (low, high) = fit_halves(rt, inputs, cut, left, right);
    union(&low, &high)
}

/// Fits both halves below a node and answers their boxes: at the same time, where both are large enough for that.
#[inline(always)]
#[cycle(parts)]
fn fit_halves<R: Threads + Sync>(
    rt: &R,
    inputs: &Inputs<'_>,
    cut: Cut,
    left: &mut [Node],
    right: &mut [Node],
) -> (Box3, Box3)
    requires inputs { AreInputs inputs.now }
    requires halves { AreHalves inputs.now.keys.now cut (length left.old) (length right.old) }
    ensures { AreHalvesFitted inputs.now cut left.new right.new result.0 result.1 }
{
    if left.len().min(right.len()) >= LEAST_HALF {
        return fit_joined_halves(rt, inputs, cut, left, right);
    }
    let low = fit_left(rt, inputs, cut.first, cut.split, left);
    let high = fit_right(rt, inputs, cut.split + 1, cut.last, right);
    (low, high)
}

/// Fits both halves at the same time. It stands apart, so that the recursion in one thread has a small frame.
#[inline(never)]
#[cycle(parts)]
fn fit_joined_halves<R: Threads + Sync>(
    rt: &R,
    inputs: &Inputs<'_>,
    cut: Cut,
    left: &mut [Node],
    right: &mut [Node],
) -> (Box3, Box3)
    requires inputs { AreInputs inputs.now }
    requires halves { AreHalves inputs.now.keys.now cut (length left.old) (length right.old) }
    ensures { AreHalvesFitted inputs.now cut left.new right.new result.0 result.1 }
{
    let mut low = || -> Box3
        requires { IsSync R.row × AreInputs inputs.now × IsLeftHalf inputs.now.keys.now cut.first cut.split (length left.now) }
        ensures { IsLeftFitted inputs.entry.now cut.first cut.split left.exit.now result }
    { fit_left(rt, inputs, cut.first, cut.split, left) };
    let mut high = || -> Box3
        requires { IsSync R.row × AreInputs inputs.now × IsRightHalf inputs.now.keys.now cut.split cut.last (length right.now) }
        ensures { IsRightFitted inputs.entry.now cut.split cut.last right.exit.now result }
    { fit_right(rt, inputs, cut.split + 1, cut.last, right) };
    join_mut(rt, &mut low, &mut high)
}

/// A node for each number, still to be fitted: one fewer than boxes, and none for no box.
pub(crate) fn blank_nodes(alloc: Global, boxes: &[Box3]) -> Result<Vec<Node>, AllocError>
    ensures { IfOk result (λ nodes. length nodes.items ≡ length boxes.now - 1) }
{
    let Some(any) = boxes.first() else {
        return Ok(Vec::new(alloc));
    };
    let nothing = Node {
        first: 0,
        last: 0,
        split: 0,
        fit: *any,
    };
    vec![in alloc; nothing; boxes.len() - 1]
}

/// The table of the keys, fitted to the boxes, in the room of these nodes.
fn table<R: Threads + Sync>(rt: &R, inputs: &Inputs<'_>, mut nodes: Vec<Node>) -> Vec<Node>
    requires inputs { AreInputs inputs.now }
    requires room { length nodes.items ≡ length inputs.now.keys.now - 1 }
    ensures table { IsTable (record { keys = inputs.now.keys.now; nodes = result.items }) }
    ensures fitted { IsFitted (record { keys = inputs.now.keys.now; nodes = result.items }) inputs.now.boxes.now }
    ensures value { result.items ≡ table_of inputs.now.keys.now inputs.now.boxes.now }
{
    let last = nodes.len();
    if last > 0 {
        let _whole = fit_right(rt, inputs, 0, last, &mut nodes);
    }
    nodes
}

/// The tree of the keys, fitted to the boxes, in the room of these nodes.
pub(crate) fn fit_nodes<R: Threads + Sync>(
    rt: &R,
    keys: Vec<Key>,
    spans: &[Span],
    boxes: &[Box3],
    nodes: Vec<Node>,
) -> Tree
    requires lawful { IsLawful keys.items }
    requires spans { AreSpans keys.items spans.now }
    requires count { length boxes.now ≡ length keys.items }
    requires room { length nodes.items ≡ length keys.items - 1 }
    ensures keys { result.keys ≡ keys.items }
    ensures table { IsTable result }
    ensures fitted { IsFitted result boxes.now }
    ensures value { result.nodes ≡ table_of keys.items boxes.now }
{
    let inputs = Inputs {
        keys: &keys,
        spans,
        boxes,
    };
    let nodes = table(rt, &inputs, nodes);
    Tree::of(keys, nodes)
}

/// The tree of the keys, fitted to the boxes: `boxes[t - 1]` is the box of triangle `t`.
///
/// The spans are those that `spans` answers for the keys. Nothing is searched: it takes time in proportion to the keys,
/// shared among threads where both halves below a node are large, and memory for one list of nodes. After `Memory` the
/// keys are dropped.
pub fn fit_joined<R: Threads + Sync>(
    rt: &R,
    alloc: Global,
    keys: Vec<Key>,
    spans: &[Span],
    boxes: &[Box3],
) -> Result<Tree, Memory>
    requires lawful { IsLawful keys.items }
    requires spans { AreSpans keys.items spans.now }
    requires count { length boxes.now ≡ length keys.items }
    ensures keys { IfOk result (λ t. t.keys ≡ keys.items) }
    ensures table { IfOk result IsTable }
    ensures fitted { IfOk result (λ t. IsFitted t boxes.now) }
    ensures value { IfOk result (λ t. t.nodes ≡ table_of keys.items boxes.now) }
{
    let nodes = blank_nodes(alloc, boxes).map_err(|_| Memory)?;
    Ok(fit_nodes(rt, keys, spans, boxes, nodes))
}
