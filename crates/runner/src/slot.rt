// Slots of the cluster table. A slot has 21 numbers: first pixel, pixel count, left, top, right, bottom, sum (5),
// residue (5), merged_into, depth, num_holes, first hole child, next hole child.
ghost use Rattle.std.specs.Prelude.{◌≡◌, List, ℕ, ◌++◌, ◌+◌, ◌*◌, ◌≤◌, ◌<◌, length, get_or, set};
ghost use Rattle.rules.specs.Color.{sum_of_one};
ghost use Rattle.rules.specs.State.{Cluster, new_cluster, pixel_rect, with_pixel, with_cluster};
ghost use Rattle.rules.specs.Layout.{first_of, slot_width, InTable};
ghost use Rattle.rules.specs.Code.Bounds.{count_bound, sum_bound};
ghost use Rattle.color.specs.Colors.{color_of, sum_of};
ghost use Rattle.runner.specs.Code.Slots.{Adds, set_numbers, list_in, head_at, saved_head, residue_at, saved_residue};
ghost use Rattle.runner.specs.Code.Slots.{cleared_slot, head_of};

use super::bound::BoundingRect;
use super::input::Pixel;
use color::{Color, ColorSum};
use image::{PixelList, layout};

// The first eleven numbers of a slot: list, rectangle, sum.
#[derive(Clone, Copy, Default)]
pub(crate) struct Head {
    pub(crate) first: u32,
    pub(crate) count: u32,
    pub(crate) rect: BoundingRect,
    pub(crate) sum: ColorSum,
}

// The numbers of slot k, an index for each place.
#[tactic(auto, using(color::proofs::Chunks::in_chunk))]
pub(crate) fn numbers(table: &[u32], k: u32) -> &[u32; layout::SLOT_WIDTH]
    requires { InTable k table.now }
    ensures { (place : ℕ) → place < slot_width
        → get_or result.now place 0 ≡ get_or table.now (slot_width * k + place) 0 }
{
    &table.as_chunks::<{ layout::SLOT_WIDTH }>().0[k as usize]
}

// The number at a place of slot k becomes x.
pub(crate) fn set_number(table: &mut [u32], k: u32, place: usize, x: u32)
    requires slot { InTable k table.old }
    requires place { place < slot_width }
    ensures { table.new ≡ set table.old (slot_width * k + place) x }
{
    table[layout::SLOT_WIDTH * (k as usize) + place] = x;
}

// The numbers from a place of slot k on become others.
#[tactic(auto, using(crate::proofs::Slots::at_once))]
fn set_numbers<const N: usize>(table: &mut [u32], k: u32, place: usize, numbers: [u32; N])
    requires slot { InTable k table.old }
    requires place { place + N ≤ slot_width }
    ensures { table.new ≡ set_numbers table.old (slot_width * k) place numbers.entry }
{
    let from = layout::SLOT_WIDTH * (k as usize) + place;
    table[from..from + N].copy_from_slice(&numbers);
}

// The list of slot k.
pub(crate) fn list(table: &[u32], k: u32) -> PixelList
    requires { InTable k table.now }
    ensures { result ≡ list_in table.now k }
{
    let [first, count, ..] = *numbers(table, k);
    PixelList { first, count }
}

// The head of slot k.
#[tactic(auto, unfolding(crate::specs::Code::Slots::head_at))]
pub(crate) fn load_head(table: &[u32], k: u32) -> Head
    requires { InTable k table.now }
    ensures { result ≡ head_at table.now k }
{
    let slot = numbers(table, k);
    Head {
        first: slot[layout::FIRST_PIXEL],
        count: slot[layout::PIXEL_COUNT],
        rect: BoundingRect {
            left: slot[layout::LEFT],
            top: slot[layout::TOP],
            right: slot[layout::RIGHT],
            bottom: slot[layout::BOTTOM],
        },
        sum: ColorSum {
            r: slot[layout::SUM_R],
            g: slot[layout::SUM_G],
            b: slot[layout::SUM_B],
            a: slot[layout::SUM_A],
            counter: slot[layout::SUM_COUNT],
        },
    }
}

// The head of slot k is written, all eleven numbers at once: part by part takes more instructions.
#[tactic(auto, unfolding(crate::specs::Code::Slots::saved_head))]
pub(crate) fn save_head(table: &mut [u32], k: u32, s: Head)
    requires { InTable k table.old }
    ensures { table.new ≡ saved_head table.old k s }
{
    let (r, c) = (s.rect, s.sum);
    let numbers = [
        s.first, s.count, r.left, r.top, r.right, r.bottom, c.r, c.g, c.b, c.a, c.counter,
    ];
    set_numbers(table, k, layout::FIRST_PIXEL, numbers);
}

// The residue of slot k.
#[tactic(auto, unfolding(crate::specs::Code::Slots::residue_at))]
pub(crate) fn load_residue(table: &[u32], k: u32) -> ColorSum
    requires { InTable k table.now }
    ensures { result ≡ residue_at table.now k }
{
    color::sum_in(numbers(table, k), layout::RESIDUE_R)
}

// The residue of slot k is written.
#[tactic(auto, unfolding(crate::specs::Code::Slots::saved_residue))]
pub(crate) fn save_residue(table: &mut [u32], k: u32, s: ColorSum)
    requires { InTable k table.old }
    ensures { table.new ≡ saved_residue table.old k s }
{
    set_numbers(table, k, layout::RESIDUE_R, [s.r, s.g, s.b, s.a, s.counter]);
}

// The numbers of slot k become zero.
#[tactic(auto, unfolding(crate::specs::Code::Slots::cleared_slot))]
pub(crate) fn clear_slot(table: &mut [u32], k: u32)
    requires { InTable k table.old }
    ensures { table.new ≡ cleared_slot table.old k }
{
    set_numbers(table, k, 0, [0; layout::SLOT_WIDTH]);
}

// The first pixel, plus one, of two lists one after the other: of count pixels from first, and from second.
#[tactic(auto, unfolding(rules::specs::Layout::first_of))]
fn first_of(count: u32, first: u32, second: u32) -> u32
    ensures { (ps qs : List ℕ) → count ≡ length ps → first ≡ first_of ps → second ≡ first_of qs → result
        ≡ first_of (ps ++ qs) }
{
    if count == 0 { second } else { first }
}

impl Head {
    // With every number 0, as that of a new cluster.
    #[tactic(auto, unfolding(rules::specs::Layout::first_of), using(crate::proofs::Slots::head_is))]
    pub(crate) fn cleared(self) -> Head
        ensures { result ≡ head_of new_cluster }
    {
        let mut sum = self.sum;
        sum.clear();
        Head {
            sum,
            ..Head::default()
        }
    }

    // With a pixel of colour c after the list.
    pub(crate) fn with_pixel(self, at: Pixel, c: Color) -> Head
        requires { (at.i < count_bound) × (at.x < count_bound) × (at.y < count_bound) × (self.count < count_bound)
            × Adds (sum_of self.sum) (sum_of_one (color_of c)) }
        ensures { (k : Cluster) → self ≡ head_of k
            → result ≡ head_of (with_pixel at.i (color_of c) (pixel_rect at.x at.y) k) }
    {
        let mut head = Head {
            first: first_of(self.count, self.first, at.i + 1),
            count: self.count + 1,
            rect: self.rect.add_x_y(at.x, at.y),
            ..self
        };
        let _ = head.sum.add(c);
        head
    }

    // With the list of another cluster after the list.
    pub(crate) fn with_cluster(self, other: Head) -> Head
        requires { (self.count + other.count < sum_bound) × Adds (sum_of self.sum) (sum_of other.sum) }
        ensures { (t f : Cluster) → self ≡ head_of t → other ≡ head_of f → result ≡ head_of (with_cluster f t) }
    {
        Head {
            first: first_of(self.count, self.first, other.first),
            count: self.count + other.count,
            rect: self.rect.merge(other.rect),
            sum: self.sum.plus(other.sum),
        }
    }
}
