// The sheet that is painted: clusters whose size, buffers and counts have passed the checks that come before the
// entries.
ghost use Rattle.std.specs.Prelude.{◌≡◌, ℕ, ◌*◌, ◌≤◌, ◌<◌, length, get_or, IfOk};
ghost use Rattle.rules.specs.Refusals.{limit, paint_answer};
ghost use Rattle.rules.specs.Layout.{slot_width};
ghost use Rattle.rules.specs.Paint.{slot_number};
ghost use Rattle.refusal.specs.Refusal.{answer_of};

use image::{Clusters, layout};
use refusal::Refusal;

// A sheet of size pixels with n slots; outputs are the entries that are painted.
#[derive(Clone, Copy)]
pub(crate) struct Sheet<'a> {
    pub(crate) links: &'a [u32],
    pub(crate) table: &'a [u32],
    pub(crate) outputs: &'a [u32],
    pub(crate) size: u32,
    pub(crate) n: u32,
    ghost some: { 0 < size },
    ghost small: { size ≤ limit },
    ghost links_fit: { size ≤ length links.now },
    ghost table_fits: { slot_width * n ≤ length table.now },
}

impl<'a> Sheet<'a> {
    ghost use Rattle.container.specs.Code.Checked.{IsSheetOf};

    // The sheet of clusters, where the checks before those of the entries pass.
    #[tactic(auto, using(crate::proofs::Accepted::answers))]
    pub(crate) fn checked(clusters: Clusters<'a>, picture: &[u8]) -> Result<Sheet<'a>, Refusal>
        ensures answer { let s = clusters.entry in
            answer_of result ≡ paint_answer s.size.w s.size.h (length s.links.now) (length s.table.now)
            (length s.outputs.now) (length picture.now) s.counts.n s.counts.m }
        ensures sheet { IfOk result (IsSheetOf clusters.entry (length picture.now)) }
    {
        let size = clusters.pixels()?;
        if !layout::four_each(picture.len(), size) {
            return Err(Refusal::PictureLength);
        }
        Ok(Sheet {
            links: clusters.links,
            table: clusters.table,
            outputs: &clusters.outputs[..clusters.counts.m as usize],
            size,
            n: clusters.counts.n,
        })
    }

    // The numbers of slot k.
    #[tactic(auto, using(image::proofs::Slots::in_slot))]
    pub(crate) fn slot(self, k: u32) -> &'a [u32; layout::SLOT_WIDTH]
        requires { k < self.n }
        ensures { (place : ℕ) → place < slot_width
            → get_or result.now place 0 ≡ slot_number self.entry.table.now k place }
    {
        let (slots, _) = self.table.as_chunks();
        &slots[k as usize]
    }
}
