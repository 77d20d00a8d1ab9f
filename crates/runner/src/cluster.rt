// The neighbours of a cluster, after cluster.rs.
ghost use Rattle.std.specs.Prelude.{◌≡◌, ◌≢◌, ℕ, ◌+◌, ◌*◌, ◌<◌, ◌≤◌, length, get_or};
ghost use Rattle.rules.specs.Color.{average};
ghost use Rattle.rules.specs.Code.Bounds.{count_bound};
ghost use Rattle.color.specs.Colors.{color_of};
ghost use Rattle.runner.specs.Code.Slots.{sum_at};
ghost use Rattle.runner.specs.Code.Neighbours.{with_neighbour, Averaged, Scannable, Found};

use super::builder::Builder;
use super::input::Input;
use super::list::Pixels;
use super::slot;
use color::Color;
use image::layout;

// The average of the sum of cluster k; it has one.
#[tactic(auto, using(color::proofs::Averages::has_one))]
pub(crate) fn color(table: &[u32], k: u32) -> Color
    requires { Averaged table.now k }
    ensures { color_of result ≡ average (sum_at table.now k) }
{
    let s = color::sum_in(slot::numbers(table, k), layout::SUM_R);
    let Some(c) = s.average() else { unreachable!() };
    c
}

// The neighbours found so far: how many, the nearest, and its difference.
#[derive(Clone, Copy, Default)]
pub(crate) struct Nearest {
    pub(crate) count: u32,
    pub(crate) target: u32,
    pub(crate) diff: u32,
}

impl Nearest {
    // With one more neighbour, of number l and difference d.
    #[tactic(auto, unfolding(crate::specs::Code::Neighbours::with_neighbour))]
    fn with(self, l: u32, d: u32) -> Nearest
        requires { self.count < 4294967295 }
        ensures { result ≡ with_neighbour self l d }
    {
        let n = self.count + 1;
        if self.count == 0 || d < self.diff || (d == self.diff && l < self.target) {
            return Nearest {
                count: n,
                target: l,
                diff: d,
            };
        }
        Nearest { count: n, ..self }
    }
}

// A visit of a cluster: what is read for its neighbours, its number, and the label and the colour of the cluster.
#[derive(Clone, Copy)]
struct Visit<'a> {
    input: &'a Input<'a>,
    labels: &'a [u32],
    table: &'a [u32],
    number: u32,
    own: u32,
    mine: Color,
    ghost labelled: { input.now.w * input.now.h ≤ length labels.now },
    ghost averaged: { (q : ℕ) → q < input.now.w * input.now.h → get_or labels.now q 0 ≢ 0
        → Averaged table.now (get_or labels.now q 0) },
}

impl<'a> Visit<'a> {
    ghost use Rattle.std.specs.Prelude.{true};
    ghost use Rattle.runner.specs.Code.Neighbours.{around, Notable, Scan};
    ghost use Rattle.runner.specs.Code.Visits.{noted_by, looked_by};

    // The labels up, down, left and right of pixel p, 0 off the image.
    #[tactic(auto, unfolding(rules::specs::Grid::sides))]
    fn four_labels(self, p: u32) -> [u32; 4]
        requires { p < self.input.now.w * self.input.now.h }
        ensures { let v = self.entry in result ≡ around v.labels.now v.input.now.w v.input.now.h p }
    {
        let (w, h) = (self.input.w, self.input.h);
        let labels = self.labels;
        let x = p % w;
        [
            if w <= p { labels[(p - w) as usize] } else { 0 },
            if p + w < w * h {
                labels[(p + w) as usize]
            } else {
                0
            },
            if 0 < x { labels[(p - 1) as usize] } else { 0 },
            if x + 1 < w {
                labels[(p + 1) as usize]
            } else {
                0
            },
        ]
    }

    // The label l counts as a neighbour if it is neither 0 nor own, nor marked in this visit.
    #[tactic(auto, unfolding(crate::specs::Code::Neighbours::noted))]
    fn note(self, marks: &mut [u32], l: u32, found: Nearest) -> Nearest
        requires notable { l ≢ 0 → Notable self.table.now (length marks.old) l }
        requires count_bound { found.count < 4294967295 }
        ensures { record { marks = marks.new; nearest = result }
            ≡ noted_by self.entry l (record { marks = marks.old; nearest = found }) }
    {
        if l == 0 || l == self.own || marks[l as usize] == self.number {
            return found;
        }
        marks[l as usize] = self.number;
        found.with(l, color::color_diff(self.mine, color(self.table, l)))
    }

    // Whether the pixels before and after p, and those a row above and below it, are all of the cluster: then p has no
    // neighbour to note, wherever the image ends. It saves the division by w for most pixels; with one branch for both
    // ends of the image the tests of `four_labels` stay out of that path.
    fn is_inside(self, p: u32) -> bool
        requires { p < self.input.now.w * self.input.now.h }
        ensures { result ≡ true → (s : Scan) → looked_by self.entry p s ≡ s }
    {
        let labels = self.labels;
        let i = p as usize;
        let row = self.input.w as usize;
        if (i < row) | (labels.len() <= i + row) {
            return false;
        }
        (labels[i - row] == self.own)
            & (labels[i - 1] == self.own)
            & (labels[i + 1] == self.own)
            & (labels[i + row] == self.own)
    }

    // The labels around pixel p are noted, in turn.
    fn look(self, marks: &mut [u32], p: u32, found: Nearest) -> Nearest
        requires pixel { p < self.input.now.w * self.input.now.h }
        requires marked { (q : ℕ) → q < self.input.now.w * self.input.now.h → get_or self.labels.now q 0 ≢ 0
            → get_or self.labels.now q 0 < length marks.old }
        requires count_bound { found.count + 4 ≤ 4294967295 }
        ensures { record { marks = marks.new; nearest = result }
            ≡ looked_by self.entry p (record { marks = marks.old; nearest = found }) }
    {
        if self.is_inside(p) {
            return found;
        }
        let mut near = found;
        for label in self.four_labels(p) {
            near = self.note(marks, label, near);
        }
        near
    }
}

// The neighbours of cluster k, each marked with the number of the visit.
#[tactic(auto, unfolding(rules::specs::Stage2::labels_around), using(crate::proofs::Pixels::readable_wider))]
pub(crate) fn neighbours(
    b: &Builder,
    marks: &mut [u32],
    input: &Input,
    k: u32,
    visit: u32,
) -> Nearest
    requires { Scannable b.now.labels.now b.now.links.now b.now.table.now marks.old input.now.w input.now.h k visit }
    ensures { Found b.now.labels.now b.now.links.now b.now.table.now input.now.w input.now.h k visit result
        marks.new }
{
    let v = Visit {
        input,
        labels: &*b.labels,
        table: &*b.table,
        number: visit,
        own: k,
        mine: color(b.table, k),
    };
    let list = slot::list(b.table, k);
    let pixels = Pixels {
        links: &*b.links,
        next: &list.first,
        left: list.count,
    };
    let mut found = Nearest::default();
    for p in pixels {
        found = v.look(marks, p, found);
    }
    found
}
