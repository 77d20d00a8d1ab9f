// The queue of pending slots, a tournament tree over their pixel counts.
//
// It lies in a part of the work buffer: the keys of the n slots, then for each node of the tree the key and the slot
// that it holds, side by side. A slot that is not pending has the key NONE. Leaf k stands at position n + k of the
// tree, the children of position x at 2x and 2x + 1, and the root at 1.
ghost use Rattle.std.specs.Prelude.{◌≡◌, ◌+◌, ◌*◌, ◌-◌, ◌/◌, ◌%◌, ◌≤◌, ◌<◌, length, eqb, if◌then◌else◌};
ghost use Rattle.rules.specs.Code.Bounds.{count_bound, sum_bound};

// The key of a slot that is not pending.
pub(crate) const NONE: u32 = 4294967295;

// A slot with its key.
#[derive(Clone, Copy)]
pub(crate) struct Entry {
    pub(crate) key: u32,
    pub(crate) slot: u32,
}

impl Entry {
    ghost use Rattle.runner.specs.Code.Queue.{order_of, first_entry};

    // A number for it, in the order of keys and then of slots.
    fn order(self) -> u64
        ensures { result ≡ order_of self }
    {
        4294967296 * self.key as u64 + self.slot as u64
    }

    // The smaller key, of equal keys the smaller slot. One comparison, since which of two entries comes first is hard
    // to foretell.
    #[tactic(auto, unfolding(crate::specs::Code::Queue::first_entry))]
    fn first(self, other: Entry) -> Entry
        ensures { result ≡ first_entry self other }
    {
        if self.order() < other.order() {
            self
        } else {
            other
        }
    }
}

// The position that has the same node above it as x.
fn beside(x: usize) -> usize
    requires { (1 < x) × (x < sum_bound) }
    ensures { result ≡ (if eqb (x % 2) 0 then x + 1 else x - 1) }
{
    if x % 2 == 0 { x + 1 } else { x - 1 }
}

// The numbers of the queue, and how many slots it has.
#[derive(Drop)]
pub(crate) struct Queue<'a> {
    pub(crate) numbers: &'a mut [u32],
    pub(crate) n: usize,
    ghost fits: { 3 * n ≤ length numbers.now },
    ghost small: { n ≤ count_bound },
}

impl<'a> Queue<'a> {
    ghost use Rattle.runner.specs.Code.Queue.{SameQueue, node, entry_at, with_node, Tree, Refreshed, Built};
    ghost use Rattle.runner.specs.Code.Queue.{KeySet, NextPending};

    // What node j holds.
    fn node(&self, j: usize) -> Entry
        requires { j < self.now.n }
        ensures { result ≡ node self.now.numbers.now self.now.n j }
    {
        let p = self.n + 2 * j;
        Entry {
            key: self.numbers[p],
            slot: self.numbers[p + 1],
        }
    }

    // What stands at position x: a leaf's key and slot, or what a node holds.
    #[tactic(auto, unfolding(crate::specs::Code::Queue::entry_at))]
    fn at(&self, x: usize) -> Entry
        requires { x < 2 * self.now.n }
        ensures { result ≡ entry_at self.now.numbers.now self.now.n x }
    {
        if self.n <= x {
            let k = x - self.n;
            return Entry {
                key: self.numbers[k],
                slot: k as u32,
            };
        }
        self.node(x)
    }

    // Node j holds e from now on.
    fn hold(&mut self, j: usize, e: Entry)
        requires { j < self.old.n }
        ensures same { SameQueue self.old self.new }
        ensures held { self.new.numbers.now ≡ with_node self.old.numbers.now self.old.n j e }
    {
        let p = self.n + 2 * j;
        self.numbers[p] = e.key;
        self.numbers[p + 1] = e.slot;
    }

    // Makes every node of the tree from the keys.
    #[tactic(auto, using(crate::proofs::Tournament::builds))]
    pub(crate) fn build(&mut self)
        ensures same { SameQueue self.old self.new }
        ensures built { Built self.old.numbers.now self.new.numbers.now self.old.n }
    {
        for j in (1..self.n).rev() {
            let first = self.at(2 * j).first(self.at(2 * j + 1));
            self.hold(j, first);
        }
    }

    // The node above position x, where e stands, takes the first of its children; answers it, or None where the node
    // held it already: then no node above changes either. Key and slot are compared without a branch between: it is
    // hard to foretell.
    #[tactic(auto, using(crate::proofs::Tournament::takes_first))]
    fn refresh(&mut self, x: usize, e: Entry) -> Option<Entry>
        requires lt_x { (1 < x) × (x < 2 * self.old.n) }
        requires e_value { e ≡ entry_at self.old.numbers.now self.old.n x }
        ensures same { SameQueue self.old self.new }
        ensures refreshed { Refreshed self.old.numbers.now self.new.numbers.now self.old.n (x / 2) result }
    {
        let first = e.first(self.at(beside(x)));
        let old = self.node(x / 2);
        if (old.key == first.key) & (old.slot == first.slot) {
            return None;
        }
        self.hold(x / 2, first);
        Some(first)
    }

    // Changes the key of slot k.
    pub(crate) fn set_key(&mut self, k: usize, key: u32)
        requires k_lt_n { k < self.old.n }
        requires tree { Tree self.old.numbers.now self.old.n }
        ensures same { SameQueue self.old self.new }
        ensures set { KeySet self.old.numbers.now self.new.numbers.now self.old.n k key }
    {
        self.numbers[k] = key;
        let mut x = self.n + k;
        let mut e = Entry {
            key,
            slot: k as u32,
        };
        while 1 < x {
            let Some(above) = self.refresh(x, e) else {
                return;
            };
            x /= 2;
            e = above;
        }
    }

    // The pending slot with the least key, of several the least slot; None where no slot is pending.
    #[tactic(auto, using(crate::proofs::Tournament::root_first))]
    pub(crate) fn first(&self) -> Option<Entry>
        requires some { 0 < self.now.n }
        requires tree { Tree self.now.numbers.now self.now.n }
        ensures { NextPending self.now.numbers.now self.now.n result }
    {
        let e = self.at(1);
        if e.key == NONE { None } else { Some(e) }
    }
}
