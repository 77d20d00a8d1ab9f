// The picture of the clusters, after container.rs. The buffers may be any, also such that no run made: a refused call
// answers the first check that failed, and changes nothing.
#![tactic(auto)]

mod checked;
mod fill;
mod halves;
mod numbered;
mod paint;
mod picture;
mod quick;
mod whole;

ghost use Rattle.std.specs.Prelude.{◌≡◌};
ghost use Rattle.rules.specs.Calls.{paint_call};
ghost use Rattle.refusal.specs.Refusal.{answer_of};

use checked::Sheet;
use image::Clusters;
use refusal::Refusal;

// Paints the m outputs, from last to first, each cluster with its residue average; the rest of the picture is zero.
// Nothing is painted unless every entry passes.
#[tactic(auto, using(crate::proofs::Pictures::calls))]
pub fn to_color_image(clusters: Clusters, picture: &mut [u8]) -> Result<(), Refusal>
    ensures { let s = clusters.entry in record { answer = answer_of result; picture = picture.new }
        ≡ paint_call s.size.w s.size.h s.links.now s.table.now s.outputs.now picture.old s.counts.n s.counts.m }
{
    Sheet::checked(clusters, picture)?.paint(picture)
}
