// Spans of stage 1: pixels of a row that go into the cluster of the pixel before them, found and then added at once.
ghost use Rattle.std.specs.Prelude.{◌≡◌, true, false, ℕ, ◌+◌, ◌-◌, ◌*◌, ◌/◌, ◌≤◌, ◌<◌, pos, length, get_or};
ghost use Rattle.rules.specs.Base.{apart};
ghost use Rattle.rules.specs.Stage1.{is_key};
ghost use Rattle.rules.specs.Code.Spans.{sum_from, Extends, AllExtend};
ghost use Rattle.rules.specs.Refusals.{limit};
ghost use Rattle.rules.specs.Code.Bounds.{count_bound};
ghost use Rattle.color.specs.Colors.{sum_of};
ghost use Rattle.runner.specs.Types.{config_of};
ghost use Rattle.runner.specs.Code.Spans.{linked_from, CanAddSpan, AddedSpan, FoundSpan, LimitsOf, ManyNear};
ghost use Rattle.runner.specs.Code.Lists.{of_lists, SameLists};

use super::bound::BoundingRect;
use super::builder::Builder;
use super::input::{Here, Input};
use super::slot::Head;
use super::{builder, slot};
use crate::RunnerConfig;
use color::{Color, ColorSum};

// Each of n pixels from i on is linked to the one after it.
#[tactic(auto, unfolding(crate::specs::Code::Spans::linked_from))]
fn chain_links(links: &mut [u32], i: u32, n: u32)
    requires { (i + n ≤ length links.old) × (i + n < count_bound) }
    ensures { links.new ≡ linked_from links.old i n }
{
    for j in i..i + n {
        links[j as usize] = j + 2;
    }
}

// The colours of pixels, of four bytes each, summed.
#[tactic(auto, unfolding(rules::specs::Color::pixel, rules::specs::Code::Spans::sum_from), using(crate::proofs::SpanLaws::summed))]
fn sum_colors(bytes: &[u8]) -> ColorSum
    requires { length bytes.now < 4 * count_bound }
    ensures { sum_of result ≡ sum_from bytes.now 0 (length bytes.now / 4) }
{
    let mut s = ColorSum::default();
    for &[r, g, b, a] in bytes.as_chunks::<4>().0 {
        let _ = s.add(Color { r, g, b, a });
    }
    s
}

// n pixels from a pixel on are added to cluster k.
pub(crate) fn add_span(b: &mut Builder, here: Here, k: u32, n: u32)
    requires { of_lists (CanAddSpan here.input.now.image.now k here.at.i here.at.x here.at.y n) b.old }
    ensures loans { SameLists b.old b.new }
    ensures added { let q = here.entry in
        of_lists (of_lists (AddedSpan q.input.now.image.now k q.at.i q.at.x q.at.y n) b.old) b.new }
{
    let Here { input, at } = here;
    let labels = &mut *b.labels;
    let links = &mut *b.links;
    let table = &mut *b.table;
    let ends = &mut *b.ends;
    let s = slot::load_head(table, k);
    let span = Head {
        first: at.i + 1,
        count: n,
        rect: BoundingRect {
            left: at.x,
            top: at.y,
            right: at.x + n,
            bottom: at.y + 1,
        },
        sum: sum_colors(&input.image[4 * at.i as usize..4 * (at.i + n) as usize]),
    };
    builder::link_after(links, s.count, ends[k as usize], at.i + 1);
    chain_links(links, at.i, n - 1);
    labels[at.i as usize..(at.i + n) as usize].fill(k);
    ends[k as usize] = at.i + n;
    slot::save_head(table, k, s.with_cluster(span));
}

// How far apart two channels that count may be, as far as a byte goes.
fn bound_of(t: i32) -> u8
    ensures { (n : ℕ) → t ≡ pos n → result ≤ n }
{
    t.clamp(0, 255) as u8
}

// The same for each byte of four pixels; alpha may be anything.
pub(crate) fn limits_of(o: RunnerConfig) -> [u8; 16]
    ensures { LimitsOf (config_of o) result }
{
    let d = bound_of(o.is_same_color_b);
    [d, d, d, 255, d, d, d, 255, d, d, d, 255, d, d, d, 255]
}

// 1 where two numbers are further apart than the limit, else 0.
fn far(x: u8, y: u8, limit: u8) -> u8
    ensures { (result ≤ 1) × (result ≡ 0 → apart x y ≤ limit) }
{
    u8::from(limit < color::distance(x, y))
}

// The tests of pixels that may extend cluster k: what they read, and the limits of the settings.
#[derive(Clone, Copy)]
struct Reach<'a> {
    input: &'a Input<'a>,
    labels: &'a [u32],
    limits: &'a [u8; 16],
    k: u32,
    ghost labelled: { input.now.w * input.now.h ≤ length labels.now },
    ghost limited: { LimitsOf (config_of input.now.o) limits.now },
}

impl<'a> Reach<'a> {
    // Whether pixel i, behind the first column and the first row, extends the cluster.
    #[tactic(auto, using(crate::proofs::Spots::color_there))]
    fn extends(self, i: u32) -> bool
        requires { (self.input.now.w + 1 ≤ i) × (i < self.input.now.w * self.input.now.h) }
        ensures { let s = self.entry in let p = s.input.now in
            result ≡ true → Extends (config_of p.o) p.w p.image.now s.labels.now s.k i }
    {
        let input = self.input;
        let c = Some(input.color_at(i));
        self.labels[(i - input.w) as usize] == self.k
            && input.is_same(c, Some(input.color_at(i - input.w)))
            && input.is_same(c, Some(input.color_at(i - input.w - 1)))
            && !input.is_key(i)
    }

    // Whether the four labels from i on are the cluster's.
    fn four_in_cluster(self, i: u32) -> bool
        requires { i + 4 ≤ self.input.now.w * self.input.now.h }
        ensures { let s = self.entry in
            result ≡ true → (j : ℕ) → j < 4 → get_or s.labels.now (i + j) 0 ≡ s.k }
    {
        let p = i as usize;
        self.labels[p..p + 4].iter().all(|l| *l == self.k)
    }

    // Whether none of the four pixels from i on is a key pixel.
    fn four_free(self, i: u32) -> bool
        requires { i + 4 ≤ self.input.now.w * self.input.now.h }
        ensures { let p = self.entry.input.now in
            result ≡ true → (j : ℕ) → j < 4 → is_key (config_of p.o) p.image.now (i + j) ≡ false }
    {
        (0..4).all(|j: u32| !self.input.is_key(i + j))
    }

    // How many bytes of the four pixels from i on, behind the first column and the first row, are further than their
    // limit from those of the four above, and from those of the four to the left of these. They are counted, without a
    // branch, so that the compiler takes all at once.
    fn four_far(self, i: u32) -> u8
        requires { (self.input.now.w + 1 ≤ i) × (i + 4 ≤ self.input.now.w * self.input.now.h) }
        ensures { let s = self.entry in let p = s.input.now in
            result ≡ 0 → ManyNear p.shift s.limits.now p.image.now i (i - p.w) 16 }
    {
        let Input {
            image,
            shift,
            w,
            ..
        } = *self.input;
        let p = 4 * (i as usize);
        let q = 4 * ((i - w) as usize);
        let mut n: u8 = 0;
        for j in 0..16 {
            let x = image[p + j] >> shift;
            let d = self.limits[j];
            n += far(x, image[q + j] >> shift, d) + far(x, image[q + j - 4] >> shift, d);
        }
        n
    }

    // Whether the four pixels from i on, behind the first column and the first row, extend it.
    fn four_extend(self, i: u32) -> bool
        requires { (self.input.now.w + 1 ≤ i) × (i + 4 ≤ self.input.now.w * self.input.now.h) }
        ensures { let s = self.entry in let p = s.input.now in
            result ≡ true → (t : ℕ) → p.o.is_same_color_b ≡ pos t
            → AllExtend (config_of p.o) p.w p.image.now s.labels.now s.k i 4 }
    {
        if self.four_in_cluster(i - self.input.w) && self.four_far(i) == 0 {
            return self.four_free(i);
        }
        false
    }

    // How many pixels from i on, of `room`, extend it, as far as they do so by fours.
    fn fours(self, i: u32, room: u32) -> u32
        requires { (self.input.now.w + 1 ≤ i) × (i + room ≤ self.input.now.w * self.input.now.h) }
        ensures { let s = self.entry in let p = s.input.now in
            (result ≤ room) × ((t : ℕ) → p.o.is_same_color_b ≡ pos t
            → AllExtend (config_of p.o) p.w p.image.now s.labels.now s.k i result) }
    {
        for four in 0..room / 4 {
            let n = 4 * four;
            if !self.four_extend(i + n) {
                return n;
            }
        }
        4 * (room / 4)
    }
}

// How many pixels from a pixel on extend the cluster of the pixel to its left.
#[tactic(auto, using(crate::proofs::SpanLaws::row_places))]
pub(crate) fn span_length(here: Here, b: &Builder, limits: &[u8; 16]) -> u32
    requires labelled { here.input.now.w * here.input.now.h ≤ length b.now.labels.now }
    requires limits_of { LimitsOf (config_of here.input.now.o) limits.now }
    ensures { let q = here.entry in let p = q.input.now in
        FoundSpan (config_of p.o) p.w p.image.now b.now.labels.now q.at.i q.at.x q.at.y result }
{
    let Here { input, at } = here;
    if at.x == 0 || at.y == 0 {
        return 0;
    }
    let i = at.i;
    let labels = &*b.labels;
    let k = labels[(i - 1) as usize];
    let reach = Reach {
        input,
        labels,
        limits,
        k,
    };
    if !reach.extends(i) {
        return 0;
    }
    let room = input.w - at.x;
    let found = 1 + reach.fours(i + 1, room - 1);
    for n in found..room {
        if !reach.extends(i + n) {
            return n;
        }
    }
    room
}
