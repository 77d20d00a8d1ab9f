// Stage 1, the label of each pixel, after `stage_1` of builder.rs.
ghost use Rattle.std.specs.Prelude.{◌≡◌, ◌&&◌, List, ℕ, suc, ◌+◌, ◌-◌, ◌*◌, ◌≤◌, ◌<◌, eqb, ltb, length};
ghost use Rattle.std.specs.Prelude.{if◌then◌else◌};
ghost use Rattle.rules.specs.Grid as grid;
ghost use Rattle.rules.specs.Color.{RunnerConfig as Config};
ghost use Rattle.rules.specs.State.{State};
ghost use Rattle.rules.specs.Stage1 as rules;
ghost use Rattle.rules.specs.Run as run;
ghost use Rattle.rules.specs.Layout.{InTable};
ghost use Rattle.rules.specs.Code.Bounds.{count_bound};
ghost use Rattle.runner.specs.Types.{config_of};
ghost use Rattle.runner.specs.Code.Spans.{LimitsOf};
ghost use Rattle.runner.specs.Code.Stage1.{SeenAt, Holding, meets, joined, goes_into, Opened};
ghost use Rattle.runner.specs.Code.Stage1.{Placing, Meeting, Sided, Taking, Blank};
ghost use Rattle.runner.specs.Code.Lists.{of_lists, of_here, SameLists};

use super::builder::Builder;
use super::input::{Here, Input, Pixel};
use super::{slot, spans};
use color::Color;

// What a pixel is compared with: its own colour, and the pixels to the left of it, above it, and to the left of that
// one; none off the image. Each is read once.
#[derive(Clone, Copy)]
struct Seen<'a> {
    here: Here<'a>,
    own: Color,
    left: Option<Color>,
    up: Option<Color>,
    up_left: Option<Color>,
    ghost seen: { SeenAt here.input.now.w here.input.now.image.now here.at.i own left up up_left },
}

// The next free number, and the number of slots.
#[derive(Clone, Copy)]
pub(crate) struct Slots {
    pub(crate) next_index: u32,
    pub(crate) count: u32,
}

impl Slots {
    // Slot next is taken: next rises by one, and so does the number of slots where the slot is new.
    fn taken(self) -> Slots
        requires { self.next_index < count_bound }
        ensures { (result.next_index ≡ self.next_index + 1)
            × (result.count ≡ (if ltb self.next_index self.count then self.count else self.next_index + 1)) }
    {
        let next_index = self.next_index + 1;
        Slots {
            next_index,
            count: self.count.max(next_index),
        }
    }

    // Next falls by one where l was the number just below it and next equals the slot count.
    fn lowered(self, l: u32) -> Slots
        requires { l < count_bound }
        ensures { (result.next_index ≡ (if eqb (l + 1) self.next_index && eqb self.next_index self.count
            then self.next_index - 1 else self.next_index)) × (result.count ≡ self.count) }
    {
        if l + 1 == self.next_index && self.next_index == self.count {
            return Slots {
                next_index: l,
                ..self
            };
        }
        self
    }
}

// The labels of left and up as steps 2 to 5 read them.
#[derive(Clone, Copy)]
struct Sides {
    left: u32,
    up: u32,
    slots: Slots,
}

// Where a pixel goes: into cluster 0, up's, left's, or a fresh one.
#[derive(Clone, Copy)]
enum Into {
    Zero,
    Up,
    Left,
    Fresh,
}

// The slot that it goes to.
#[derive(Clone, Copy)]
struct Target {
    slot: u32,
    slots: Slots,
}

impl<'a> Seen<'a> {
    // What is seen from a pixel. It is on the image, so its own colour is never none.
    #[tactic(auto, using(crate::proofs::Spots::own_pixels))]
    fn of(here: Here<'a>) -> Seen<'a>
        ensures { result.here ≡ here.entry }
    {
        let Here { input, at } = here;
        let Some(own) = color::pixel_at(input.image, input.w, input.h, at.x, at.y) else {
            unreachable!()
        };
        Seen {
            here,
            own,
            left: here.left(),
            up: here.up(),
            up_left: here.up_left(),
        }
    }

    // Step 1, the condition, with l and u for the labels of left and up.
    #[tactic(auto, using(crate::proofs::Spots::color_there))]
    fn left_meets_up(self, l: u32, u: u32) -> bool
        ensures { let s = self.entry.here in let p = s.input.now in
            result ≡ meets (config_of p.o) p.w p.image.now s.at.i l u }
    {
        let input = self.here.input;
        let c = Some(self.own);
        l != u
            && input.is_same(self.left, self.up)
            && input.is_same(c, self.left)
            && input.is_same(c, self.up)
    }

    // Steps 3 to 5: which cluster the pixel joins.
    #[tactic(auto, using(crate::proofs::Spots::color_there))]
    fn joins(self) -> Into
        ensures { let s = self.entry.here in let p = s.input.now in
            result ≡ joined (config_of p.o) p.w p.image.now s.at.i }
    {
        let input = self.here.input;
        let c = Some(self.own);
        if input.is_same(c, self.up_left) {
            if input.is_same(c, self.up) {
                return Into::Up;
            }
            if input.is_same(c, self.left) {
                return Into::Left;
            }
        }
        Into::Fresh
    }

    // Steps 2 to 5: where the pixel goes; nowhere where it is discarded.
    fn goes_into(self) -> Option<Into>
        ensures { let s = self.entry.here in let p = s.input.now in
            result ≡ goes_into (config_of p.o) p.w p.image.now s.at.i }
    {
        let o = self.here.input.o;
        if o.is_key(self.own) {
            if o.is_discard() {
                return None;
            }
            return Some(Into::Zero);
        }
        Some(self.joins())
    }
}

// The slot for a pixel; a fresh one is cleared.
fn slot_for(table: &mut [u32], to: Into, v: Sides) -> Target
    requires { (InTable v.slots.next_index table.old) × (v.slots.next_index < count_bound) }
    ensures { Opened to v.left v.up v.slots.next_index v.slots.count table.old
        table.new result.slot result.slots.next_index result.slots.count }
{
    let slots = v.slots;
    match to {
        Into::Zero => Target { slot: 0, slots },
        Into::Up => Target { slot: v.up, slots },
        Into::Left => Target {
            slot: v.left,
            slots,
        },
        Into::Fresh => {
            slot::clear_slot(table, slots.next_index);
            Target {
                slot: slots.next_index,
                slots: slots.taken(),
            }
        }
    }
}

// Steps 2 to 5.
fn place(b: &mut Builder, p: Seen, v: Sides) -> Slots
    requires { (st : State) × (t₀ : List ℕ)
        × of_lists (of_here Placing p.here v.left v.up st t₀) b.old v.slots.next_index v.slots.count }
    ensures loans { SameLists b.old b.new }
    ensures holding { let q = p.entry.here in let e = q.input.now in (st : State) (t₀ : List ℕ)
        → of_lists (of_here Placing q v.left v.up st t₀) b.old v.slots.next_index v.slots.count
        → of_lists (Holding (e.w * e.h)
        (rules.place (config_of e.o) e.w e.image.now q.at.i v.left v.up st) t₀)
        b.new result.next_index result.count }
{
    let Some(to) = p.goes_into() else {
        return v.slots;
    };
    let t = slot_for(b.table, to, v);
    b.add(t.slot, p.here.at, p.own);
    t.slots
}

// Step 1, the merge: the smaller cluster goes into the larger, left into up on equal counts. Both sides then have the
// survivor's number.
#[tactic(auto, using(crate::proofs::Stage1Steps::sides))]
fn combine_sides(b: &mut Builder, l: u32, u: u32, s: Slots) -> Sides
    requires { (o : Config) × (w : ℕ) × (h : ℕ) × (image : List ℕ) × (shift : ℕ) × (i : ℕ) × (x : ℕ) × (y : ℕ)
        × (st : State) × (t₀ : List ℕ)
        × of_lists (Meeting o w h image shift i x y l u st t₀) b.old s.next_index s.count }
    ensures loans { SameLists b.old b.new }
    ensures sided { (o : Config) (w h : ℕ) (image : List ℕ) (shift i x y : ℕ) (st : State) (t₀ : List ℕ)
        → of_lists (Meeting o w h image shift i x y l u st t₀) b.old s.next_index s.count
        → of_lists (Sided o w h image shift i x y (rules.combine_then_place o w image i l u st) t₀)
        b.new result.left result.up result.slots.next_index result.slots.count }
{
    if b.count_of(l) <= b.count_of(u) {
        b.combine_clusters(l, u);
        return Sides {
            left: u,
            up: u,
            slots: s.lowered(l),
        };
    }
    b.combine_clusters(u, l);
    Sides {
        left: l,
        up: l,
        slots: s,
    }
}

// The label of the pixel above and of the one to the left, 0 off the image.
#[tactic(auto, unfolding(rules::specs::Stage1::label_at), using(crate::proofs::Spots::up_places))]
fn up_label(b: &Builder, here: Here) -> u32
    requires { here.at.i < length b.now.labels.now }
    ensures { let q = here.entry in (st : State) → b.now.labels.now ≡ st.labels
        → result ≡ rules.label_at st (grid.up q.input.now.w q.at.i) }
{
    let Here { input, at } = here;
    if at.y == 0 {
        return 0;
    }
    b.labels[(at.i - input.w) as usize]
}

fn left_label(b: &Builder, here: Here) -> u32
    requires { here.at.i < length b.now.labels.now }
    ensures { let q = here.entry in (st : State) → b.now.labels.now ≡ st.labels
        → result ≡ rules.label_at st (grid.left q.input.now.w q.at.i) }
{
    let Here { at, .. } = here;
    if at.x == 0 {
        return 0;
    }
    b.labels[(at.i - 1) as usize]
}

// Step 1: the labels of left and up, whose clusters are combined where they meet.
fn meet(b: &mut Builder, p: Seen, s: Slots) -> Sides
    requires { (t₀ : List ℕ) × of_lists (of_here Taking p.here t₀) b.old s.next_index s.count }
    ensures loans { SameLists b.old b.new }
    ensures sided { let q = p.entry.here in let e = q.input.now in (t₀ : List ℕ)
        → of_lists (of_here Taking q t₀) b.old s.next_index s.count
        → of_lists (of_here Sided q
        (rules.taken (config_of e.o) e.w e.image.now (e.w * e.h) (suc q.at.i)) t₀)
        b.new result.left result.up result.slots.next_index result.slots.count }
{
    let u = up_label(b, p.here);
    let l = left_label(b, p.here);
    if p.left_meets_up(l, u) {
        return combine_sides(b, l, u, s);
    }
    Sides {
        left: l,
        up: u,
        slots: s,
    }
}

// A pixel is taken.
fn take_pixel(b: &mut Builder, here: Here, s: Slots) -> Slots
    requires { (t₀ : List ℕ) × of_lists (of_here Taking here t₀) b.old s.next_index s.count }
    ensures loans { SameLists b.old b.new }
    ensures holding { let q = here.entry in let e = q.input.now in (t₀ : List ℕ)
        → of_lists (of_here Taking q t₀) b.old s.next_index s.count
        → of_lists (Holding (e.w * e.h)
        (rules.taken (config_of e.o) e.w e.image.now (e.w * e.h) (suc q.at.i)) t₀)
        b.new result.next_index result.count }
{
    let p = Seen::of(here);
    let v = meet(b, p, s);
    place(b, p, v)
}

// Next and count after a step, and how many pixels it took.
#[derive(Clone, Copy)]
struct Step {
    slots: Slots,
    pixels: u32,
}

// A pixel is taken, and with it the rest of its span.
fn take_pixels(b: &mut Builder, here: Here, limits: &[u8; 16], s: Slots) -> Step
    requires limits_of { LimitsOf (config_of here.input.now.o) limits.now }
    requires taking { (t₀ : List ℕ) × of_lists (of_here Taking here t₀) b.old s.next_index s.count }
    ensures loans { SameLists b.old b.new }
    ensures pixels { let q = here.entry in (0 < result.pixels) × (q.at.x + result.pixels ≤ q.input.now.w) }
    ensures holding { let q = here.entry in let e = q.input.now in (t₀ : List ℕ)
        → of_lists (of_here Taking q t₀) b.old s.next_index s.count
        → of_lists (Holding (e.w * e.h)
        (rules.taken (config_of e.o) e.w e.image.now (e.w * e.h) (q.at.i + result.pixels)) t₀)
        b.new result.slots.next_index result.slots.count }
{
    let n = spans::span_length(here, b, limits);
    if n == 0 {
        return Step {
            slots: take_pixel(b, here, s),
            pixels: 1,
        };
    }
    let k = b.labels[(here.at.i - 1) as usize];
    spans::add_span(b, here, k, n);
    Step {
        slots: s,
        pixels: n,
    }
}

// All pixels, row by row.
pub(crate) fn stage_1(b: &mut Builder, input: &Input) -> Slots
    requires { of_lists (Blank (input.now.w * input.now.h)) b.old }
    ensures loans { SameLists b.old b.new }
    ensures holding { let e = input.now in
        of_lists (Holding (e.w * e.h) (run.stage1 (config_of e.o) e.w e.h e.image.now) b.old.table.now)
        b.new result.next_index result.count }
{
    slot::clear_slot(b.table, 0);
    let size = input.w * input.h;
    let limits = spans::limits_of(input.o);
    let mut s = Slots {
        next_index: 1,
        count: 1,
    };
    let mut at = Pixel { i: 0, x: 0, y: 0 };
    while at.i < size {
        let here = Here { input: &*input, at };
        let t = take_pixels(b, here, &limits, s);
        s = t.slots;
        at = here.past(t.pixels);
    }
    s
}
