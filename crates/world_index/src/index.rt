//! What a world keeps so that queries need not look at each triangle: the triangles' boxes, the tree over them, and the
//! tree's triangles as a list for walks. While points are moved these stay as they are; the next call that looks at them
//! fits them first.

ghost use Rattle.std.specs.Prelude.{◌≡◌, ◌≤◌, [], length, IsOk, IfOk, OnOk, OnErr, All};
ghost use Rattle.fixed_box.specs.World.{InWorld};
ghost use Rattle.obj_text.specs.Meshes.{IsFaceOf};
ghost use Rattle.world_index.specs.Worlds.{boxes_at};
ghost use Rattle.world_index.specs.Kept.{IsIndex, IsCountable, last_work};
ghost use Rattle.world_index.specs.declared.last_work.LastWork.{LastWork};

use crate::builds::{fit_tree, tree_of};
use crate::corners::boxes_of;
use crate::fans::Fans;
use crate::last_work::LastWork;
use crate::live::live_of;
use crate::marks::Marks;
use crate::mending::fit_moved;
use crate::ways::BuiltWays;
use command_line::{Build, MOST_WORKERS};
use fixed_box::{Box3, Point};
use karras_build::order_by_threads;
use obj_text::{Face, MOST_FACES};
use outside::{Gate, Memory};
use radix_tree::Tree;
use std::alloc::Global;
use std::snapshot::Snapshot;
use std::thread::Threads;
use traversal::work;
use walk_list::{WalkList, flatten};

/// The boxes of triangles, and the tree over them, built over some points and fitted to those or to later ones.
#[derive(Drop)]
pub struct Index {
    pub boxes: Vec<Box3>,
    pub tree: Tree,
    /// The tree laid flat, which boxes and segments are answered by.
    pub list: WalkList,
    /// The work of the last box, over boxes and tree as they stand.
    pub work: LastWork,
    /// The points of the build. Only proofs read them.
    pub built: Snapshot<Vec<Point>>,
    /// The vertices that were moved since boxes and tree were fitted.
    pub marks: Marks,
    /// The triangles that use each vertex, once they were needed.
    pub fans: Option<Fans>,
    /// The way up in the tree, once it was needed.
    pub ways: Option<BuiltWays>,
    /// The position of each triangle in the order of the tree, once it was needed: that of triangle `t` at `t - 1`.
    pub positions: Option<Vec<u32>>,
}

impl Index {
    /// The index of these points: the tree by the build that is named, fitted by so many workers, who pass the gate; all
    /// else by as many threads as it is worth.
    pub fn build<R: Threads + Sync, G: Gate>(
        rt: &R,
        alloc: Global,
        points: &Vec<Point>,
        faces: &[Face],
        build: Build,
        workers: u32,
        gate: &G,
    ) -> Result<Index, Memory>
        requires world { All InWorld points.now.items }
        requires named { All (IsFaceOf (length points.now.items)) faces.now }
        requires few { length faces.now ≤ MOST_FACES }
        requires some_workers { 1 ≤ workers }
        requires few_workers { workers ≤ MOST_WORKERS }
        ensures index { IfOk result (λ index. IsIndex index points.now.items faces.now) }
        ensures still { IfOk result (λ index. index.marks.moved ≡ []) }
        ensures built { IfOk result (λ index. index.built.value.items ≡ points.now.items) }
        ensures work { IfOk result (λ index. last_work index ≡ 0) }
    {
        let boxes = boxes_of(rt, alloc, points, faces)?;
        let keys = order_by_threads(rt, alloc, &boxes)?;
        let tree = tree_of(rt, alloc, build, keys, &boxes, workers, gate)?;
        let list = flatten(alloc, &tree, &boxes)?;
        let marks = Marks::none(alloc, points.len())?;
        Ok(Index {
            boxes,
            tree,
            list,
            work: LastWork::Counted(0),
            built: Snapshot::of(points),
            marks,
            fans: None,
            ways: None,
            positions: None,
        })
    }

    /// The work of the last box, counted now if it was not yet. It takes no memory.
    pub fn last_work(&self) -> u64
        requires { IsCountable self.now.work self.now.tree self.now.boxes.items }
        ensures { result ≡ last_work self.now }
    {
        match self.work {
            LastWork::Counted(count) => count,
            LastWork::Uncounted(around) => work(&self.tree, &self.boxes, &around),
        }
    }

    /// Counts the work of the last box while its boxes stand, and fits the boxes of triangles that use moved vertices.
    fn fit_boxes(&mut self, alloc: Global, points: &[Point], faces: &[Face]) -> Result<(), Memory>
        requires named { All (IsFaceOf (length points.now)) faces.now }
        requires few { length faces.now ≤ MOST_FACES }
        requires index { IsIndex self.old points.now faces.now }
        ensures index { IsIndex self.new points.now faces.now }
        ensures boxes { OnOk result (self.new.boxes.items ≡ boxes_at points.now faces.now) }
        ensures marks { self.new.marks ≡ self.old.marks }
        ensures built { self.new.built.value.items ≡ self.old.built.value.items }
        ensures work { self.new.work ≡ LastWork.Counted (last_work self.old) }
    {
        self.work = LastWork::Counted(self.last_work());
        if self.marks.is_empty() {
            return Ok(());
        }
        let fans = match self.fans.take() {
            Some(fans) => fans,
            None => Fans::of(alloc, points.len(), faces)?,
        };
        fit_moved(points, faces, &fans, self.marks.moved(), &mut self.boxes);
        self.fans = Some(fans);
        Ok(())
    }

    /// Fits boxes, tree and list to the points now, where vertices were moved: the tree by so many workers, who pass the
    /// gate. After `Memory` the next call does.
    pub fn mend<R: Threads + Sync, G: Gate>(
        &mut self,
        rt: &R,
        alloc: Global,
        points: &[Point],
        faces: &[Face],
        build: Build,
        workers: u32,
        gate: &G,
    ) -> Result<(), Memory>
        requires world { All InWorld points.now }
        requires named { All (IsFaceOf (length points.now)) faces.now }
        requires few { length faces.now ≤ MOST_FACES }
        requires some_workers { 1 ≤ workers }
        requires few_workers { workers ≤ MOST_WORKERS }
        requires index { IsIndex self.old points.now faces.now }
        ensures index { IsIndex self.new points.now faces.now }
        ensures mended { OnOk result (self.new.marks.moved ≡ []) }
        ensures free { self.old.marks.moved ≡ [] → IsOk result }
        ensures built { self.new.built.value.items ≡ self.old.built.value.items }
        ensures work { last_work self.new ≡ last_work self.old }
    {
        if self.marks.is_empty() {
            return Ok(());
        }
        self.fit_boxes(alloc, points, faces)?;
        let live = live_of(
            alloc,
            faces,
            self.tree.keys(),
            &self.marks,
            &self.fans,
            &mut self.positions,
        )?;
        fit_tree(
            rt,
            alloc,
            build,
            &mut self.tree,
            &self.boxes,
            &live,
            &mut self.ways,
            workers,
            gate,
        )?;
        self.list.refit(&self.boxes, &live);
        self.marks.clear();
        Ok(())
    }

    /// Builds tree and list anew over the points now, as `build` does. After `Memory` the old ones stand.
    pub fn rebuild<R: Threads + Sync, G: Gate>(
        &mut self,
        rt: &R,
        alloc: Global,
        points: &Vec<Point>,
        faces: &[Face],
        build: Build,
        workers: u32,
        gate: &G,
    ) -> Result<(), Memory>
        requires world { All InWorld points.now.items }
        requires named { All (IsFaceOf (length points.now.items)) faces.now }
        requires few { length faces.now ≤ MOST_FACES }
        requires some_workers { 1 ≤ workers }
        requires few_workers { workers ≤ MOST_WORKERS }
        requires index { IsIndex self.old points.now.items faces.now }
        ensures index { IsIndex self.new points.now.items faces.now }
        ensures still { OnOk result (self.new.marks.moved ≡ []) }
        ensures rest { self.old.marks.moved ≡ [] → self.new.marks.moved ≡ [] }
        ensures built { OnOk result (self.new.built.value.items ≡ points.now.items) }
        ensures memory { OnErr result (self.new.built.value.items ≡ self.old.built.value.items) }
        ensures work { last_work self.new ≡ last_work self.old }
    {
        self.fit_boxes(alloc, points, faces)?;
        let keys = order_by_threads(rt, alloc, &self.boxes)?;
        let tree = tree_of(rt, alloc, build, keys, &self.boxes, workers, gate)?;
        self.list = flatten(alloc, &tree, &self.boxes)?;
        self.tree = tree;
        self.ways = None;
        self.positions = None;
        self.marks.clear();
        self.built = Snapshot::of(points);
        Ok(())
    }
}
