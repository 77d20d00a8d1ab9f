// Whether a cluster deepens, after `patch_good` of runner.rs and the boundary test of geometry.rs. With a smallest area
// of 1 or more the boundary is smaller than the area exactly if some pixel of the list has its four neighbours in the
// list, so nothing is counted and the scan stops at the first such pixel.
ghost use Rattle.std.specs.Prelude.{◌≡◌, ◌*◌, ◌≤◌, ◌<◌, length};
ghost use Rattle.rules.specs.Grid.{sides};
ghost use Rattle.rules.specs.Layout.{InTable};
ghost use Rattle.rules.specs.Stage2.{all_in};
ghost use Rattle.runner.specs.Types.{config_of};
ghost use Rattle.runner.specs.Code.Slots.{list_in};
ghost use Rattle.runner.specs.Code.Pixels.{pixels, Readable};
ghost use Rattle.runner.specs.Code.Interior.{in_list, some_inside};
ghost use Rattle.runner.specs.Code.Stage2.{patch_good_at, deepens_at};

use super::builder::Builder;
use super::input::Input;
use super::list::Pixels;
use super::slot;
use crate::HIERARCHICAL_MAX;
use image::PixelList;

// The cluster of a slot and what is read of it: the labels, and its list along the links.
#[derive(Clone, Copy)]
struct Candidate<'a> {
    input: &'a Input<'a>,
    labels: &'a [u32],
    links: &'a [u32],
    slot: u32,
    list: PixelList,
    ghost labelled: { input.now.w * input.now.h ≡ length labels.now },
    ghost linked: { input.now.w * input.now.h ≤ length links.now },
    ghost listed: { Readable (input.now.w * input.now.h) links.now list },
}

impl<'a> Candidate<'a> {
    // Whether pixel q is in the list, by its label.
    fn in_list(self, q: u32) -> bool
        requires { q < self.input.now.w * self.input.now.h }
        ensures { let c = self.entry in let p = c.input.now in
            result ≡ in_list (config_of p.o) p.image.now c.labels.now c.slot q }
    {
        self.labels[q as usize] == self.slot && !self.input.is_discarded(q)
    }

    // Whether pixel p has its four neighbours in the list.
    #[tactic(auto, unfolding(rules::specs::Grid::sides, rules::specs::Stage2::all_in))]
    fn surrounded(self, p: u32) -> bool
        requires { p < self.input.now.w * self.input.now.h }
        ensures { let c = self.entry in let i = c.input.now in
            result ≡ all_in (in_list (config_of i.o) i.image.now c.labels.now c.slot) (sides i.w i.h p) }
    {
        let (w, h) = (self.input.w, self.input.h);
        let x = p % w;
        w <= p
            && p + w < w * h
            && 0 < x
            && x + 1 < w
            && self.in_list(p - w)
            && self.in_list(p + w)
            && self.in_list(p - 1)
            && self.in_list(p + 1)
    }

    // Whether some pixel of the list has its four neighbours in it.
    #[tactic(auto, unfolding(crate::specs::Code::Interior::some_inside), using(crate::proofs::Pixels::readable_wider))]
    fn has_interior(self) -> bool
        ensures { let c = self.entry in let p = c.input.now in
            result ≡ some_inside (config_of p.o) p.image.now c.labels.now p.w p.h c.slot
            (pixels c.links.now c.list) }
    {
        let mut pixels = Pixels {
            links: self.links,
            next: &self.list.first,
            left: self.list.count,
        };
        pixels.any(|p| self.surrounded(p))
    }

    // Whether it may stay a patch: a boundary smaller than the area is told by one pixel inside.
    #[tactic(auto, unfolding(crate::specs::Code::Stage2::patch_good_at))]
    fn patch_good(self) -> bool
        ensures { let c = self.entry in let p = c.input.now in
            result ≡ patch_good_at (config_of p.o) p.image.now c.labels.now c.links.now p.w p.h c.slot c.list }
    {
        let o = &self.input.o;
        let area = self.list.count;
        o.good_min_area < area
            && area < o.good_max_area
            && (o.good_min_area == 0 || self.has_interior())
    }
}

// Whether cluster k deepens into a neighbour of difference diff.
#[tactic(auto, unfolding(crate::specs::Code::Stage2::deepens_at))]
pub(crate) fn deepens(b: &Builder, input: &Input, k: u32, diff: u32) -> bool
    requires slot { InTable k b.now.table.now }
    requires lengths { let size = input.now.w * input.now.h in
        (size ≡ length b.now.labels.now) × (size ≤ length b.now.links.now) }
    requires list { Readable (input.now.w * input.now.h) b.now.links.now (list_in b.now.table.now k) }
    requires diff_bound { diff < 2147483648 }
    ensures { let p = input.now in result
        ≡ deepens_at (config_of p.o) p.image.now b.now.labels.now b.now.links.now p.w p.h k
        (list_in b.now.table.now k) diff }
{
    let o = &input.o;
    let candidate = Candidate {
        input,
        labels: &*b.labels,
        links: &*b.links,
        slot: k,
        list: slot::list(b.table, k),
    };
    o.hierarchical == HIERARCHICAL_MAX && o.deepen_diff < diff as i32 && candidate.patch_good()
}
