// Painting: checks 8, 9 and 10 of every entry in their order, and the entries painted.
ghost use Rattle.std.specs.Prelude.{◌≡◌, ◌*◌, ◌/◌, ◌≤◌, ◌<◌, T, length};
ghost use Rattle.rules.specs.Base.{each_back};
ghost use Rattle.rules.specs.Color.{has_average, average};
ghost use Rattle.rules.specs.Paint as rules;
ghost use Rattle.refusal.specs.Refusal.{answer_of};
ghost use Rattle.color.specs.Colors.{color_of, sum_of};
ghost use Rattle.container.specs.Code.Leads.{Leads};
ghost use Rattle.container.specs.Code.Checked.{entries_answer, Listed, Passed, EntriesPass};
ghost use Rattle.container.specs.Code.Stretch.{FirstHalf};

use crate::checked::Sheet;
use color::{Color, ColorSum};
use image::{PixelList, layout};
use refusal::Refusal;

impl Sheet<'_> {
    // The residue of slot k.
    #[tactic(auto, unfolding(rules::specs::Paint::five_from))]
    pub(crate) fn residue(self, k: u32) -> ColorSum
        requires { k < self.n }
        ensures { sum_of result ≡ rules.slot_residue self.entry.table.now k }
    {
        color::sum_in(self.slot(k), layout::RESIDUE_R)
    }

    // Its average; it has one.
    #[tactic(auto, using(color::proofs::Averages::has_one))]
    pub(crate) fn average(self, k: u32) -> Color
        requires slot { k < self.n }
        requires average { T (has_average (rules.slot_residue self.table.now k)) }
        ensures { color_of result ≡ average (rules.slot_residue self.entry.table.now k) }
    {
        let Some(c) = self.residue(k).average() else {
            unreachable!()
        };
        c
    }

    // Whether the pixels of a list can be listed: no link is 0 or above size.
    #[tactic(auto, using(crate::proofs::Stretches::reads_turned))]
    pub(crate) fn is_listed(self, list: PixelList) -> bool
        ensures { result ≡ rules.reads self.entry.size self.entry.links.now list.first list.count }
    {
        let mut at = list.first;
        for _step in 0..list.count {
            if (at == 0) | (self.size < at) {
                return false;
            }
            at = self.links[(at - 1) as usize];
        }
        true
    }

    // The list of slot k.
    pub(crate) fn list(self, k: u32) -> PixelList
        requires { k < self.n }
        ensures first { result.first ≡ rules.slot_number self.entry.table.now k 0 }
        ensures count { result.count ≡ rules.slot_number self.entry.table.now k 1 }
    {
        let slot = self.slot(k);
        PixelList {
            first: slot[layout::FIRST_PIXEL],
            count: slot[layout::PIXEL_COUNT],
        }
    }

    // Checks 8, 9 and 10 of an entry that names slot k of n.
    #[tactic(auto, unfolding(rules::specs::Paint::entry_answer))]
    fn check_entry(self, k: u32) -> Result<(), Refusal>
        ensures { let s = self.entry in
            answer_of result ≡ rules.entry_answer s.size s.n s.links.now s.table.now k }
    {
        if self.n <= k {
            return Err(Refusal::NoSlot);
        }
        if !self.residue(k).has_average() {
            return Err(Refusal::NoAverage);
        }
        let list = self.list(k);
        if (self.size < list.count) || !self.is_listed(list) {
            return Err(Refusal::BadList);
        }
        Ok(())
    }

    // Checks 8, 9 and 10 of the entries, from last to first.
    #[tactic(auto, using(crate::proofs::Entries::checks))]
    pub(crate) fn check_entries(self) -> Result<(), Refusal>
        ensures { answer_of result ≡ entries_answer self.entry }
    {
        for k in self.outputs.iter().rev() {
            self.check_entry(*k)?;
        }
        Ok(())
    }

    // The first half of the list of the last entry; nothing where there is none.
    #[tactic(auto, using(crate::proofs::Stretches::reads_half))]
    fn first_half(self, entries: &[u32]) -> PixelList
        requires { EntriesPass self entries.now }
        ensures half { FirstHalf self.entry.table.now entries.now result }
        ensures listed { Listed self.entry result }
    {
        let [.., k] = entries else {
            return PixelList { first: 0, count: 0 };
        };
        let list = self.list(*k);
        PixelList {
            count: list.count / 2,
            ..list
        }
    }

    // Paints the cluster of slot k, whose middle is mid, with its residue average, and answers where ahead ends.
    #[tactic(auto, unfolding(rules::specs::Paint::paint_slot, crate::specs::Code::Stretch::paint_along))]
    fn render_to_color_image(self, picture: &mut [u8], k: u32, mid: u32, ahead: PixelList) -> u32
        requires long { 4 * self.size ≤ length picture.old }
        requires passed { Passed self k }
        requires mid { let s = self in Leads s.size s.links.now
            (rules.slot_number s.table.now k 0) (rules.slot_number s.table.now k 1 / 2) mid }
        requires ahead { Listed self ahead }
        ensures ahead { let s = self.entry in Leads s.size s.links.now ahead.first ahead.count result }
        ensures painted { let s = self.entry in picture.new
            ≡ rules.paint_slot s.links.now s.table.now k picture.old }
    {
        self.paint_halves(picture, self.list(k), mid, ahead, self.average(k))
    }

    // Paints the entries from last to first.
    #[tactic(auto, using(crate::proofs::Entries::paints))]
    pub(crate) fn paint_entries(self, picture: &mut [u8], entries: &[u32])
        requires long { length picture.old ≡ 4 * self.size }
        requires passed { EntriesPass self entries.now }
        ensures { let s = self.entry in picture.new
            ≡ each_back entries.now (rules.paint_slot s.links.now s.table.now) picture.old }
    {
        let mut mid = self.look(self.first_half(entries));
        let mut left = entries;
        while let [before @ .., k] = left {
            let ahead = self.first_half(before);
            mid = self.render_to_color_image(picture, *k, mid, ahead);
            left = before;
        }
    }
}
