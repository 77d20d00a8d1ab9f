// Checks that can only say that entries pass; where they do not, the plain check decides.
ghost use Rattle.std.specs.Prelude.{◌≡◌, true, List, ℕ, ◌≤◌, ◌<◌, length, get_or};
ghost use Rattle.container.specs.Code.Quick.{NumbersPass, ListPasses, LanePasses, LanesPass, RestsPass};

use crate::checked::Sheet;
use crate::numbered::Numbered;
use crate::whole::Walk;
use image::PixelList;

impl Sheet<'_> {
    // Whether slot k is below n, its residue has an average, and its count is at most size.
    pub(crate) fn slot_passes(self, k: u32) -> bool
        ensures { let s = self.entry in result ≡ true → NumbersPass s.size s.n s.table.now k }
    {
        if self.n <= k {
            return false;
        }
        if !self.residue(k).has_average() {
            return false;
        }
        self.list(k).count <= self.size
    }
}

// The rests of four lists, which are read at once: their next pixels, plus one, and how many pixels they have. `left`
// entries have not been taken.
#[derive(Clone, Copy)]
struct Lanes {
    at: [u32; 4],
    count: [u32; 4],
    left: usize,
}

impl Numbered<'_> {
    // The rest of a list, with how many entries are left; where it has no pixel, the next list that has one, from the
    // last of `left` entries down.
    #[tactic(auto, using(crate::proofs::Passes::takes))]
    fn filled(self, rest: PixelList, left: usize) -> (PixelList, usize)
        requires { left ≤ length self.sheet.outputs.now }
        ensures left { result.1 ≤ left }
        ensures passes { let s = self.entry.sheet in
            LanePasses s.table.now s.outputs.now rest left result.0 result.1 }
    {
        if rest.count != 0 {
            return (rest, left);
        }
        for before in (0..left).rev() {
            let list = self.sheet.list(self.sheet.outputs[before]);
            if list.count != 0 {
                return (list, before);
            }
        }
        (rest, 0)
    }

    // The four lanes, each filled.
    fn all_filled(self, lanes: Lanes) -> Lanes
        requires { lanes.left ≤ length self.sheet.outputs.now }
        ensures left { result.left ≤ lanes.left }
        ensures pass { let s = self.entry.sheet in
            (size : ℕ) (links : List ℕ) (m : ℕ) → LanesPass size links s.table.now s.outputs.now m lanes
            → LanesPass size links s.table.now s.outputs.now m result }
    {
        let Lanes {
            mut at,
            mut count,
            mut left,
        } = lanes;
        for i in 0..4 {
            let rest = PixelList {
                first: at[i],
                count: count[i],
            };
            let (list, before) = self.filled(rest, left);
            at[i] = list.first;
            count[i] = list.count;
            left = before;
        }
        Lanes { at, count, left }
    }

    // The four lanes after the links that all of them have, as long as each is at a pixel of the sheet.
    fn walked(self, lanes: Lanes) -> Lanes
        ensures left { result.left ≡ lanes.left }
        ensures pass { let s = self.entry.sheet in
            (table outputs : List ℕ) (m : ℕ) → LanesPass s.size s.links.now table outputs m lanes
            → LanesPass s.size s.links.now table outputs m result }
    {
        let Lanes { at, count, left } = lanes;
        let [a, b, c, d] = count;
        let Walk { at, moved } = self.sheet.walk(0, 0, at, a.min(b).min(c.min(d)));
        let count = [a - moved, b - moved, c - moved, d - moved];
        Lanes { at, count, left }
    }

    // Whether the lists of m entries can be read: four at a time as long as entries are taken, and then the rests one
    // after another.
    pub(crate) fn lists_pass(self, m: usize) -> bool
        requires { m ≤ length self.sheet.outputs.now }
        ensures { let s = self.entry.sheet in
            result ≡ true → (i : ℕ) → i < m → ListPasses s.size s.links.now s.table.now (get_or s.outputs.now i 0) }
    {
        let mut before = m;
        let mut lanes = self.all_filled(Lanes {
            at: [0; 4],
            count: [0; 4],
            left: m,
        });
        while lanes.left < before {
            before = lanes.left;
            lanes = self.all_filled(self.walked(lanes));
        }
        (lanes.left == 0) && self.rests_pass(lanes)
    }

    // Whether the rests of the lanes can be read.
    fn rests_pass(self, lanes: Lanes) -> bool
        ensures { let s = self.entry.sheet in result ≡ true → RestsPass s.size s.links.now lanes }
    {
        (0..4).all(|i: usize| {
            self.sheet.is_listed(PixelList {
                first: lanes.at[i],
                count: lanes.count[i],
            })
        })
    }
}
