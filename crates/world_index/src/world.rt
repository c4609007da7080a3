//! The world that a mesh opens. It keeps the points as they were moved, and the triangles' boxes with the tree over
//! them, which the next query fits where points were moved. Queries walk the tree laid flat as a list, and a box query
//! leaves behind its work, which is counted over the tree when it is asked.

ghost use Rattle.std.specs.Prelude.{◌≡◌, IfOk};
ghost use Rattle.world_index.specs.Worlds.{node_reply, is_vertex};

use crate::corners::Corners;
use crate::grouping::group_list;
use crate::index::Index;
use crate::last_work::LastWork;
use command_line::{Build, MOST_WORKERS};
use fixed_box::{Box3, Point};
use morton_key::LEVELS;
use obj_text::Mesh;
use octree_cells::{cells, count};
use outside::{Gate, Memory};
use query_script::{Ask, HitFraction, LineFault, Reply};
use radix_tree::{Node, height};
use std::alloc::Global;
use std::marker::Model;
use std::thread::Threads;
use walk_list::{nearest_among, overlaps};

/// A world of triangles, which answers asks. Contracts see it as its state: its mesh, the points now and those of the
/// last build, its last work, and whether no vertex was moved since it was opened, refitted or built anew.
#[derive(Drop)]
pub struct World {
    mesh: Mesh,
    points: Vec<Point>,
    /// How trees are built, and by how many workers: at the opening and at each rebuild.
    build: Build,
    workers: u32,
    index: Index,
    settled: bool,
}

impl Model for World {
    ghost use Rattle.world_index.specs.Worlds.{WorldState};
    ghost use Rattle.world_index.specs.Kept.{IsKept, last_work};

    ghost Value = { WorldState };

    ghost view = { λ w. record {
      mesh = w.mesh;
      now = w.points.items;
      built = w.index.built.value.items;
      work = last_work w.index;
      settled = w.settled;
    } };

    ghost invariant = { λ w. IsKept w.mesh w.points.items w.workers w.index w.settled };
}

impl World {
    ghost use Rattle.std.specs.Prelude.{◌≡◌, ◌≤◌, true, IsOk, IfOk, OnOk, OnErr};
    ghost use Rattle.fixed_box.specs.World.{InWorld};
    ghost use Rattle.query_script.specs.Asks.{IsAskable};
    ghost use Rattle.world_index.specs.Worlds.{world_of, reply_to, state_after, is_free};

    /// The world that the mesh opens, its last work 0.
    ///
    /// `workers` is 1 to 64. Here, at each `Rebuild` and where moved leaves are fitted so many workers carry the boxes up the tree, each in a thread of
    /// its own where there is one: a worker goes through all batches of 64 leaves, passes the gate before each, and
    /// carries up the leaves of those that no other worker took. Where there are fewer than two triangles nobody works.
    /// What else a build does is shared by as many threads as it is worth, whatever `workers` says. The world is the same
    /// for either `build` and any `workers`. After `Memory` the mesh is dropped.
    pub fn new<R: Threads + Sync, G: Gate>(
        rt: &R,
        alloc: Global,
        mesh: Mesh,
        build: Build,
        workers: u32,
        gate: &G,
    ) -> Result<World, Memory>
        requires some { 1 ≤ workers }
        requires few { workers ≤ MOST_WORKERS }
        ensures { IfOk result (λ world. world ≡ world_of mesh) }
    {
        let points = mesh.points().to_vec(alloc).map_err(|_| Memory)?;
        let index = Index::build(rt, alloc, &points, mesh.faces(), build, workers, gate)?;
        Ok(World {
            mesh,
            points,
            build,
            workers,
            index,
            settled: true,
        })
    }

    /// Answers what is asked; the points of a `Seg` and of a `Move` have to be in the world.
    ///
    /// `Refused` is answered to no ask but `Move`, with `NoSuchVertex`, exactly where the number is no vertex's (they
    /// begin with 1), `NodeOf`, with `NoSuchNode`, exactly where the number is not below the count of inner nodes, and
    /// `Cells`, with `NoSuchLevel`, exactly where the level is above `LEVELS`; the world is then as before.
    ///
    /// `Nothing`, `Move`, `Stat`, `Work` and every refused ask take no memory; nor do `Seg` and `NodeOf` where no vertex
    /// was moved since the world was opened, refitted or built anew. After `Memory` the world is as before, and the next
    /// ask that looks at boxes fits those that are still to be fitted.
    pub fn answer<R: Threads + Sync, G: Gate>(
        &mut self,
        rt: &R,
        alloc: Global,
        gate: &G,
        ask: &Ask,
    ) -> Result<Reply, Memory>
        requires { IsAskable ask.now }
        ensures reply { IfOk result (λ reply. reply ≡ reply_to self.old ask.now) }
        ensures state { OnOk result (self.new ≡ state_after self.old ask.now) }
        ensures memory { OnErr result (self.new ≡ self.old) }
        ensures free { is_free self.old ask.now ≡ true → IsOk result }
    {
        match ask {
            Ask::Nothing => Ok(Reply::Nothing),
            Ask::Overlap { around } => self.overlap(rt, alloc, gate, around),
            Ask::Seg { p, q } => self.segment(rt, alloc, gate, *p, *q),
            Ask::Move { vertex, to } => Ok(self.displace(*vertex, *to)),
            Ask::Refit => self.refit(rt, alloc, gate),
            Ask::Rebuild => self.rebuild(rt, alloc, gate),
            Ask::NodeOf { number } => self.node(rt, alloc, gate, *number),
            Ask::Cells { level } => self.cells(alloc, *level),
            Ask::Groups => self.groups(alloc),
            Ask::Stat => Ok(self.stat()),
            Ask::Work => Ok(Reply::WorkIs(self.index.last_work())),
        }
    }

    fn overlap<R: Threads + Sync, G: Gate>(
        &mut self,
        rt: &R,
        alloc: Global,
        gate: &G,
        around: &Box3,
    ) -> Result<Reply, Memory>
        ensures reply { IfOk result (λ reply. reply ≡ reply_to self.old (Ask.Overlap around.now)) }
        ensures state { OnOk result (self.new ≡ state_after self.old (Ask.Overlap around.now)) }
        ensures memory { OnErr result (self.new ≡ self.old) }
    {
        self.index.mend(
            rt,
            alloc,
            &self.points,
            self.mesh.faces(),
            self.build,
            self.workers,
            gate,
        )?;
        let numbers = overlaps(alloc, &self.index.list, around)?;
        self.index.work = LastWork::Uncounted(*around);
        Ok(Reply::Overlaps(numbers))
    }

    fn segment<R: Threads + Sync, G: Gate>(
        &mut self,
        rt: &R,
        alloc: Global,
        gate: &G,
        p: Point,
        q: Point,
    ) -> Result<Reply, Memory>
        requires p { InWorld p }
        requires q { InWorld q }
        ensures reply { IfOk result (λ reply. reply ≡ reply_to self.old (Ask.Seg p q)) }
        ensures state { self.new ≡ self.old }
        ensures free { self.old.settled ≡ true → IsOk result }
    {
        self.index.mend(
            rt,
            alloc,
            &self.points,
            self.mesh.faces(),
            self.build,
            self.workers,
            gate,
        )?;
        let corners = Corners {
            points: &self.points,
            faces: self.mesh.faces(),
        };
        Ok(match nearest_among(&self.index.list, &corners, p, q) {
            Some((tri, frac)) => Reply::Hit {
                tri,
                at: HitFraction::new(frac),
            },
            None => Reply::Miss,
        })
    }

    /// Gives the vertex of that number another place, and marks it. Boxes are fitted when they are next needed.
    fn displace(&mut self, vertex: u64, to: Point) -> Reply
        requires { InWorld to }
        ensures reply { result ≡ reply_to self.old (Ask.Move vertex to) }
        ensures state { self.new ≡ state_after self.old (Ask.Move vertex to) }
    {
        if is_vertex(self.points.len(), vertex) {
            let position = vertex as usize - 1;
            self.points[position] = to;
            self.index.marks.mark(position as u32);
            self.settled = false;
            Reply::Moved(vertex)
        } else {
            Reply::Refused(LineFault::NoSuchVertex)
        }
    }

    fn refit<R: Threads + Sync, G: Gate>(
        &mut self,
        rt: &R,
        alloc: Global,
        gate: &G,
    ) -> Result<Reply, Memory>
        ensures reply { IfOk result (λ reply. reply ≡ reply_to self.old Ask.Refit) }
        ensures state { OnOk result (self.new ≡ state_after self.old Ask.Refit) }
        ensures memory { OnErr result (self.new ≡ self.old) }
    {
        self.index.mend(
            rt,
            alloc,
            &self.points,
            self.mesh.faces(),
            self.build,
            self.workers,
            gate,
        )?;
        self.settled = true;
        Ok(Reply::Refitted)
    }

    fn rebuild<R: Threads + Sync, G: Gate>(
        &mut self,
        rt: &R,
        alloc: Global,
        gate: &G,
    ) -> Result<Reply, Memory>
        ensures reply { IfOk result (λ reply. reply ≡ reply_to self.old Ask.Rebuild) }
        ensures state { OnOk result (self.new ≡ state_after self.old Ask.Rebuild) }
        ensures memory { OnErr result (self.new ≡ self.old) }
    {
        let (build, workers) = (self.build, self.workers);
        self.index.rebuild(
            rt,
            alloc,
            &self.points,
            self.mesh.faces(),
            build,
            workers,
            gate,
        )?;
        self.settled = true;
        Ok(Reply::Rebuilt)
    }

    /// The cells of a level, by the last build.
    fn cells(&self, alloc: Global, level: u64) -> Result<Reply, Memory>
        ensures reply { IfOk result (λ reply. reply ≡ reply_to self.now (Ask.Cells level)) }
        ensures free { is_free self.now (Ask.Cells level) ≡ true → IsOk result }
    {
        if u64::from(LEVELS) < level {
            return Ok(Reply::Refused(LineFault::NoSuchLevel));
        }
        let list = cells(alloc, &self.index.tree, level as u32)?;
        Ok(Reply::CellsAre { level, list })
    }

    /// The counts of the tree and its height, by the last build.
    fn stat(&self) -> Reply
        ensures { result ≡ reply_to self.now Ask.Stat }
    {
        let tree = &self.index.tree;
        Reply::StatIs {
            triangles: tree.keys().len() as u32,
            nodes: tree.nodes().len() as u32,
            height: height(tree),
            cells: count(tree),
        }
    }

    fn groups(&self, alloc: Global) -> Result<Reply, Memory>
        ensures { IfOk result (λ reply. reply ≡ reply_to self.now Ask.Groups) }
    {
        Ok(Reply::GroupsAre(group_list(alloc, &self.mesh)?))
    }

    fn node<R: Threads + Sync, G: Gate>(
        &mut self,
        rt: &R,
        alloc: Global,
        gate: &G,
        number: u64,
    ) -> Result<Reply, Memory>
        ensures reply { IfOk result (λ reply. reply ≡ reply_to self.old (Ask.NodeOf number)) }
        ensures state { self.new ≡ self.old }
        ensures free { is_free self.old (Ask.NodeOf number) ≡ true → IsOk result }
    {
        // A refusal takes no memory, so it comes before any fit.
        if self.index.tree.nodes().len() as u64 <= number {
            return Ok(Reply::Refused(LineFault::NoSuchNode));
        }
        self.index.mend(
            rt,
            alloc,
            &self.points,
            self.mesh.faces(),
            self.build,
            self.workers,
            gate,
        )?;
        Ok(node_reply(self.index.tree.nodes(), number))
    }
}

/// Whether the number is a vertex's, of so many.
fn is_vertex(count: usize, vertex: u64) -> bool
    ensures { result ≡ is_vertex count vertex }
{
    0 < vertex && vertex <= count as u64
}

/// The node of that number, or that there is none.
fn node_reply(nodes: &[Node], number: u64) -> Reply
    ensures { result ≡ node_reply nodes.now number }
{
    if number < nodes.len() as u64 {
        Reply::NodeIs {
            number,
            node: nodes[number as usize],
        }
    } else {
        Reply::Refused(LineFault::NoSuchNode)
    }
}
