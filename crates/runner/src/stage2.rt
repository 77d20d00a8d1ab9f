// Stage 2, merges and the output order, after `stage_2` of builder.rs.
ghost use Rattle.std.specs.Prelude.{◌≡◌, true, List, ℕ, ◌+◌, ◌*◌, ◌≤◌, ◌<◌, length};
ghost use Rattle.rules.specs.Run.{stage1, stage2};
ghost use Rattle.rules.specs.Layout.{slot_width, InTable};
ghost use Rattle.runner.specs.Types.{config_of};
ghost use Rattle.runner.specs.Code.Lists.{of_input, of_work, of_run, SameLists, SameRun};
ghost use Rattle.runner.specs.Code.Queue.{SameQueue};
ghost use Rattle.runner.specs.Code.Stage2.{Prepared, PreparedSlot, CanPut, Put, goes_out};
ghost use Rattle.runner.specs.Code.Stage2.{CanGrow, Grown, Between, Chosen, Visiting, Aimed, Deepening, Visited};
ghost use Rattle.runner.specs.Code.Stage2.{Entered, Staged};

use super::builder::Builder;
use super::cluster::Nearest;
use super::input::Input;
use super::queue::{Entry, Queue};
use super::{cluster, geometry, queue, slot};
use crate::RunnerConfig;

// What both stages work on: the clusters, what stage 2 has beside them, for room = w × h + 1 slots, and what is given.
// Stage 2 has the ends of the hole lists (room), the queue of pending slots (3 × room), the marks of the neighbours
// (room), and the outputs before any is dropped (2 × room). Clusters and queue are lent, with a lifetime for the slices
// of each: of a struct that is moved into another it is not known what its slices hold in the end.
#[derive(Drop)]
pub(crate) struct Run<'a, 'b, 'c, 'd> {
    pub(crate) lists: &'b mut Builder<'a>,
    pub(crate) hole_ends: &'c mut [u32],
    pub(crate) queue: &'b mut Queue<'c>,
    pub(crate) marks: &'c mut [u32],
    pub(crate) staged: &'c mut [u32],
    pub(crate) input: &'d Input<'d>,
}

// What stage 2 carries from turn to turn: outputs, turns made, and the largest pixel count.
#[derive(Clone, Copy)]
pub(crate) struct Turns {
    pub(crate) m: u32,
    pub(crate) turns: u32,
    pub(crate) largest: u32,
}

// Each residue is set to its sum, and each slot with pixels is pending; answers the largest pixel count.
#[tactic(auto, using(crate::proofs::Prepare::prepare_done))]
fn prepare_stage_2(b: &mut Builder, queue: &mut Queue) -> u32
    requires { slot_width * queue.old.n ≤ length b.old.table.now }
    ensures lists { SameLists b.old b.new }
    ensures same { SameQueue queue.old queue.new }
    ensures kept { (b.new.labels.now ≡ b.old.labels.now) × (b.new.links.now ≡ b.old.links.now)
        × (b.new.ends.now ≡ b.old.ends.now) }
    ensures prepared { let q = queue.old in
        Prepared q.n b.old.table.now q.numbers.now b.new.table.now queue.new.numbers.now result }
{
    let table = &mut *b.table;
    let mut largest = 0;
    for k in 0..queue.n as u32 {
        largest = largest.max(prepare_slot(table, queue, k));
    }
    largest
}

// The same of slot k; answers its pixel count.
fn prepare_slot(table: &mut [u32], queue: &mut Queue, k: u32) -> u32
    requires { (InTable k table.old) × (k < queue.old.n) }
    ensures same { SameQueue queue.old queue.new }
    ensures prepared { PreparedSlot k table.old queue.old.numbers.now table.new queue.new.numbers.now result }
{
    let s = slot::load_head(table, k);
    slot::save_residue(table, k, s.sum);
    queue.numbers[k as usize] = if s.count == 0 { queue::NONE } else { s.count };
    s.count
}

// Cluster k is put out.
fn put_out(staged: &mut [u32], t: Turns, k: u32) -> Turns
    requires { CanPut t.m staged.old }
    ensures { Put true k t result staged.old staged.new }
{
    staged[t.m as usize] = k;
    Turns { m: t.m + 1, ..t }
}

// The target's new pixel count: it is pending again, and may be the largest.
fn grown(b: &Builder, queue: &mut Queue, t: Turns, to: u32) -> Turns
    requires { CanGrow queue.old.n to b.now.table.now queue.old.numbers.now }
    ensures same { SameQueue queue.old queue.new }
    ensures grown { let q = queue.old in
        Grown q.n to t result b.now.table.now q.numbers.now queue.new.numbers.now }
{
    let count = b.count_of(to);
    queue.set_key(to as usize, count);
    Turns {
        largest: t.largest.max(count),
        ..t
    }
}

// A cluster without neighbours is put out if none is larger, or if keying is on with Discard; else it is passed over.
#[tactic(auto, unfolding(rules::specs::Color::discards))]
fn isolated(staged: &mut [u32], o: RunnerConfig, t: Turns, e: Entry) -> Turns
    requires { CanPut t.m staged.old }
    ensures { Put (goes_out (config_of o) t.largest e.key) e.slot t result staged.old staged.new }
{
    if t.largest <= e.key || (o.keying_on() && o.is_discard()) {
        put_out(staged, t, e.slot)
    } else {
        t
    }
}

impl<'a, 'b, 'c, 'd> Run<'a, 'b, 'c, 'd> {
    // A deepening merge of k into the nearest neighbour.
    fn deepen_into_nearest(&mut self, t: Turns, k: u32, near: Nearest) -> Turns
        requires { (t₀ : List ℕ) × (a : ℕ) × of_run Deepening t₀ self.old t k a near }
        ensures same { SameRun self.old self.new }
        ensures visited { (t₀ : List ℕ) (a : ℕ) → of_run Deepening t₀ self.old t k a near
            → of_run Visited t₀ self.new t result k }
    {
        let to = near.target;
        let put = put_out(self.staged, t, k);
        self.lists.deepen_cluster_into(k, to);
        if near.count <= self.input.o.hollow_neighbours {
            self.lists.append_hole(self.hole_ends, k, to);
            return grown(self.lists, self.queue, put, to);
        }
        grown(self.lists, self.queue, put, to)
    }

    // The cluster of an entry goes into the nearest of its neighbours.
    fn merge_into_nearest(&mut self, t: Turns, e: Entry, near: Nearest) -> Turns
        requires by_index { (t₀ : List ℕ) × of_run Visiting t₀ self.old t e.slot e.key (t.turns + 1) }
        requires aimed { of_input Aimed self.old.input.now t.turns e.slot near }
        ensures same { SameRun self.old self.new }
        ensures visited { (t₀ : List ℕ) → of_run Visiting t₀ self.old t e.slot e.key (t.turns + 1)
            → of_run Visited t₀ self.new t result e.slot }
    {
        if geometry::deepens(self.lists, self.input, e.slot, near.diff) {
            return self.deepen_into_nearest(t, e.slot, near);
        }
        self.lists.merge_cluster_into(e.slot, near.target);
        grown(self.lists, self.queue, t, near.target)
    }

    // The slot of an entry is visited. A cluster of all pixels has no neighbour, and its list need not be read.
    fn visit(&mut self, t: Turns, e: Entry) -> Turns
        requires { (t₀ : List ℕ) × of_run Visiting t₀ self.old t e.slot e.key t.turns }
        ensures same { SameRun self.old self.new }
        ensures visited { (t₀ : List ℕ) → of_run Visiting t₀ self.old t e.slot e.key t.turns
            → of_run Visited t₀ self.new t result e.slot }
    {
        if self.input.o.hierarchical < e.key {
            return put_out(self.staged, t, e.slot);
        }
        if e.key == self.input.w * self.input.h {
            return isolated(self.staged, self.input.o, t, e);
        }
        let near = cluster::neighbours(self.lists, self.marks, self.input, e.slot, t.turns + 1);
        if near.count == 0 {
            return isolated(self.staged, self.input.o, t, e);
        }
        self.merge_into_nearest(t, e, near)
    }

    // One turn: the first pending slot is taken off the queue and visited.
    fn turn(&mut self, t: Turns, e: Entry) -> Turns
        requires by_index { (t₀ : List ℕ) × of_run Between t₀ self.old t }
        requires chosen { of_input Chosen self.old.input.now t.turns e.slot e.key }
        ensures same { SameRun self.old self.new }
        ensures turned { (t₀ : List ℕ) → of_run Between t₀ self.old t → of_run Between t₀ self.new result }
        ensures turns { result.turns ≡ t.turns + 1 }
    {
        self.queue.set_key(e.slot as usize, queue::NONE);
        let v = self.visit(t, e);
        Turns {
            turns: v.turns + 1,
            ..v
        }
    }

    // Until no slot is pending.
    pub(crate) fn stage_2(&mut self, n: u32) -> Turns
        requires { (t₀ : List ℕ) × of_work (of_input Entered self.old.input.now t₀) self.old n }
        ensures same { SameRun self.old self.new }
        ensures staged { let p = self.old.input.now in (t₀ : List ℕ) → of_work (of_input Entered p t₀) self.old n
            → of_work
            (Staged (p.w * p.h)
            (stage2 (config_of p.o) p.w p.h (stage1 (config_of p.o) p.w p.h p.image.now)) t₀)
            self.new n result.m }
    {
        self.queue.n = n as usize;
        let largest = prepare_stage_2(self.lists, self.queue);
        self.queue.build();
        let mut t = Turns {
            m: 0,
            turns: 0,
            largest,
        };
        while let Some(e) = self.queue.first() {
            t = self.turn(t, e);
        }
        t
    }
}
