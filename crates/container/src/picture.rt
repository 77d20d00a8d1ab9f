// The picture: the quick checks, the plain one where they do not decide, and then the entries.
ghost use Rattle.std.specs.Prelude.{◌≡◌, true, ℕ, ◌*◌, ◌≤◌, ◌<◌, length, get_or};
ghost use Rattle.refusal.specs.Refusal.{answer_of};
ghost use Rattle.container.specs.Code.Checked.{entries_answer, painting};
ghost use Rattle.container.specs.Code.Quick.{ListPasses};
ghost use Rattle.container.specs.Code.Covered.{Whole};

use crate::checked::Sheet;
use crate::fill;
use crate::numbered::Numbered;
use refusal::Refusal;

impl Numbered<'_> {
    // Checks the entries, whose lists pass from entry `rest` on.
    #[tactic(auto, using(crate::proofs::Passes::quick_zero))]
    fn check_lists(self, rest: usize) -> Result<(), Refusal>
        requires rest { rest ≤ length self.sheet.outputs.now }
        requires lists { let s = self.sheet in (i : ℕ) → rest ≤ i → i < length s.outputs.now
            → ListPasses s.size s.links.now s.table.now (get_or s.outputs.now i 0) }
        ensures { answer_of result ≡ entries_answer self.entry.sheet }
    {
        if self.lists_pass(rest) {
            return Ok(());
        }
        self.sheet.check_entries()
    }

    // Whether the last entry's list is found to be all pixels.
    fn is_covered(self) -> bool
        ensures { let s = self.entry.sheet in
            result ≡ true → Whole s.size s.links.now s.table.now s.outputs.now }
    {
        let Some(k) = self.sheet.outputs.last() else {
            return false;
        };
        let list = self.sheet.list(*k);
        list.count == self.sheet.size && self.is_all(list.first)
    }
}

impl Sheet<'_> {
    // Paints the entries over zeros.
    #[tactic(auto, using(crate::proofs::Pictures::paints_all))]
    fn paint_over_zeros(self, picture: &mut [u8])
        requires long { length picture.old ≡ 4 * self.size }
        requires passed { entries_answer self ≡ 0 }
        ensures { record { answer = 0; picture = picture.new } ≡ painting self.entry picture.old }
    {
        picture.fill(0);
        self.paint_entries(picture, self.outputs);
    }

    // Paints the other entries over the last one, which is all pixels.
    #[tactic(auto, using(crate::proofs::Pictures::paints_others))]
    fn paint_over_last(self, picture: &mut [u8])
        requires long { length picture.old ≡ 4 * self.size }
        requires passed { entries_answer self ≡ 0 }
        requires whole { let s = self in Whole s.size s.links.now s.table.now s.outputs.now }
        ensures { record { answer = 0; picture = picture.new } ≡ painting self.entry picture.old }
    {
        let rest = self.outputs.len() - 1;
        fill::fill(picture, self.average(self.outputs[rest]));
        self.paint_entries(picture, &self.outputs[..rest]);
    }

    // Paints when every entry passes, and else answers the first check that failed.
    #[tactic(auto, using(crate::proofs::Pictures::refuses))]
    pub(crate) fn paint(self, picture: &mut [u8]) -> Result<(), Refusal>
        requires { length picture.old ≡ 4 * self.size }
        ensures { record { answer = answer_of result; picture = picture.new } ≡ painting self.entry picture.old }
    {
        let Some(numbered) = Numbered::checked(self) else {
            self.check_entries()?;
            self.paint_over_zeros(picture);
            return Ok(());
        };
        if !numbered.is_covered() {
            numbered.check_lists(self.outputs.len())?;
            self.paint_over_zeros(picture);
            return Ok(());
        }
        numbered.check_lists(self.outputs.len() - 1)?;
        self.paint_over_last(picture);
        Ok(())
    }
}
