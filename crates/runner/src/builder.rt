// Adding a pixel to a cluster and merging clusters, after builder.rs: lists by links, labels, sums and rectangles.
//
// `ends` holds for each slot the last pixel of its list, plus one.
ghost use Rattle.std.specs.Prelude.{◌≡◌, ◌+◌, ◌-◌, ◌*◌, ◌≤◌, ◌<◌, eqb, length, get_or, set, if◌then◌else◌};
ghost use Rattle.rules.specs.Layout.{InTable, slot_width, pixel_count_place};
ghost use Rattle.rules.specs.Code.Bounds.{count_bound};
ghost use Rattle.color.specs.Colors.{color_of};
ghost use Rattle.runner.specs.Code.Rep.{link_after};
ghost use Rattle.runner.specs.Code.Ops.{CanAdd, Added, CanAppend, Appended, Combined, CanMerge, Merged};
ghost use Rattle.runner.specs.Code.Ops.{CanDeepen, Deepened, CanHollow, hole_link, Hollowed};
ghost use Rattle.runner.specs.Code.Lists.{of_lists, SameLists};

use super::input::Pixel;
use super::{labelling, slot};
use color::Color;
use image::layout;

// Links the list that ends at pixel tail - 1 to the pixel first - 1, where neither that list nor the one that follows
// is empty.
#[tactic(auto, unfolding(crate::specs::Code::Rep::link_after))]
pub(crate) fn link_after(links: &mut [u32], count: u32, tail: u32, first: u32)
    requires { 0 < count → (0 < tail) × (tail ≤ length links.old) }
    ensures { links.new ≡ link_after links.old count tail first }
{
    if count == 0 {
        return;
    }
    if first == 0 {
        return;
    }
    links[(tail - 1) as usize] = first;
}

// The list of t ends where the list of f, of count pixels, ends.
fn move_tail(ends: &mut [u32], f: u32, t: u32, count: u32)
    requires { (f < length ends.old) × (t < length ends.old) }
    ensures { ends.new
        ≡ (if eqb count 0 then ends.old else set ends.old t (get_or ends.old f 0)) }
{
    if count == 0 {
        return;
    }
    ends[t as usize] = ends[f as usize];
}

// The link of the hole list of t to its new child f: from t where there was none, else from the last child.
fn link_hole(table: &mut [u32], holes: u32, tail: u32, f: u32, t: u32)
    requires { (InTable t table.old) × (f < count_bound)
        × (0 < holes → (0 < tail) × (InTable (tail - 1) table.old)) }
    ensures { table.new ≡ set table.old (hole_link holes tail t) (f + 1) }
{
    if holes == 0 {
        slot::set_number(table, t, layout::FIRST_HOLE, f + 1);
        return;
    }
    slot::set_number(table, tail - 1, layout::NEXT_HOLE, f + 1);
}

// The clusters under construction: labels, links and table, and the ends of the lists.
#[derive(Drop)]
pub(crate) struct Builder<'a> {
    pub(crate) labels: &'a mut [u32],
    pub(crate) links: &'a mut [u32],
    pub(crate) table: &'a mut [u32],
    pub(crate) ends: &'a mut [u32],
}

impl<'a> Builder<'a> {
    // The pixel count of slot k.
    pub(crate) fn count_of(&self, k: u32) -> u32
        requires { InTable k self.now.table.now }
        ensures { result ≡ get_or self.now.table.now (slot_width * k + pixel_count_place) 0 }
    {
        slot::numbers(self.table, k)[layout::PIXEL_COUNT]
    }

    // A pixel of colour c is added to cluster k.
    pub(crate) fn add(&mut self, k: u32, at: Pixel, c: Color)
        requires { of_lists (CanAdd k at.i at.x at.y (color_of c)) self.old }
        ensures loans { SameLists self.old self.new }
        ensures added { of_lists (of_lists (Added k at.i at.x at.y (color_of c)) self.old) self.new }
    {
        let labels = &mut *self.labels;
        let links = &mut *self.links;
        let table = &mut *self.table;
        let ends = &mut *self.ends;
        let s = slot::load_head(table, k);
        link_after(links, s.count, ends[k as usize], at.i + 1);
        labels[at.i as usize] = k;
        ends[k as usize] = at.i + 1;
        slot::save_head(table, k, s.with_pixel(at, c));
    }

    // The list, sum and rectangle of f are added to t's, and its pixels are relabelled: first, so that nothing but the
    // list is held meanwhile.
    #[tactic(auto, unfolding(crate::specs::Code::Slots::head_at))]
    fn combine_clusters_clone(&mut self, f: u32, t: u32)
        requires { of_lists (CanAppend f t) self.old }
        ensures loans { SameLists self.old self.new }
        ensures appended { of_lists (of_lists (Appended f t) self.old) self.new }
    {
        let labels = &mut *self.labels;
        let links = &mut *self.links;
        let table = &mut *self.table;
        let ends = &mut *self.ends;
        labelling::relabel(labels, links, slot::list(table, f), t);
        let from = slot::load_head(table, f);
        let to = slot::load_head(table, t);
        link_after(links, to.count, ends[t as usize], from.first);
        move_tail(ends, f, t, from.count);
        slot::save_head(table, t, to.with_cluster(from));
    }

    // A merge of stage 1: f goes into t.
    pub(crate) fn combine_clusters(&mut self, f: u32, t: u32)
        requires { of_lists (CanAppend f t) self.old }
        ensures loans { SameLists self.old self.new }
        ensures combined { of_lists (of_lists (Combined f t) self.old) self.new }
    {
        self.combine_clusters_clone(f, t);
        let table = &mut *self.table;
        slot::save_head(table, f, slot::load_head(table, f).cleared());
    }

    // A plain merge of stage 2: f's residue is added to t's too.
    pub(crate) fn merge_cluster_into(&mut self, f: u32, t: u32)
        requires { of_lists (CanMerge f t) self.old }
        ensures loans { SameLists self.old self.new }
        ensures merged { of_lists (of_lists (Merged f t) self.old) self.new }
    {
        let table = &mut *self.table;
        let r = slot::load_residue(table, t).plus(slot::load_residue(table, f));
        slot::save_residue(table, t, r);
        self.combine_clusters(f, t);
    }

    // A deepening merge, without its hole: f keeps what it has.
    pub(crate) fn deepen_cluster_into(&mut self, f: u32, t: u32)
        requires { of_lists (CanDeepen f t) self.old }
        ensures loans { SameLists self.old self.new }
        ensures deepened { of_lists (of_lists (Deepened f t) self.old) self.new }
    {
        let table = &mut *self.table;
        let depth = slot::numbers(table, t)[layout::DEPTH];
        self.combine_clusters_clone(f, t);
        slot::set_number(self.table, f, layout::MERGED_INTO, t);
        slot::set_number(self.table, t, layout::DEPTH, depth + 1);
    }

    // f is appended to the hole children of t, of which `hole_ends` holds for each slot the last, plus one.
    pub(crate) fn append_hole(&mut self, hole_ends: &mut [u32], f: u32, t: u32)
        requires { CanHollow f t self.old.table.now hole_ends.old }
        ensures loans { SameLists self.old self.new }
        ensures lists { (self.new.labels.now ≡ self.old.labels.now) × (self.new.links.now ≡ self.old.links.now)
            × (self.new.ends.now ≡ self.old.ends.now) }
        ensures hollowed { Hollowed f t self.old.table.now hole_ends.old self.new.table.now hole_ends.new }
    {
        let table = &mut *self.table;
        let holes = slot::numbers(table, t)[layout::NUM_HOLES];
        let tail = hole_ends[t as usize];
        hole_ends[t as usize] = f + 1;
        slot::set_number(table, t, layout::NUM_HOLES, holes + 1);
        link_hole(table, holes, tail, f, t);
    }
}
