// Rows of a picture, and the stored sheet. The buffers may be any, also such that no run made: a refused call answers
// the first check that failed, and changes nothing.
#![tactic(auto)]

mod stored;

ghost use Rattle.std.specs.Prelude.{◌≡◌, length};
ghost use Rattle.rules.specs.Refusals.{row_answer};
ghost use Rattle.rules.specs.Calls.{row_call, store_call};
ghost use Rattle.refusal.specs.Refusal.{answer_of};

use image::{Clusters, Size, layout};
use refusal::Refusal;
use stored::Stored;

// Whether `row` gives a row on the same inputs.
#[tactic(auto, unfolding(rules::specs::Refusals::row_answer))]
pub fn row_check(size: Size, picture: &[u8], y: u32) -> Result<(), Refusal>
    ensures { answer_of result ≡ row_answer size.w size.h (length picture.now) y }
{
    let pixels = size.pixels()?;
    if !layout::four_each(picture.len(), pixels) {
        return Err(Refusal::PictureLength);
    }
    if size.h <= y {
        return Err(Refusal::NoRow);
    }
    Ok(())
}

// Row y of the picture, as that part of it; where the call is refused, its first zero bytes.
#[tactic(auto, unfolding(rules::specs::Calls::row_call), using(crate::proofs::Accepted::row_laws))]
pub fn row(size: Size, picture: &[u8], y: u32) -> &[u8]
    ensures { result.now ≡ row_call size.w size.h picture.now y }
{
    if row_check(size, picture, y).is_err() {
        return &picture[..0];
    }
    let width = 4 * size.w as usize;
    let from = width * y as usize;
    &picture[from..from + width]
}

// Stores the sheet in two-byte numbers, low byte first: w, h, n, m; label and link of each pixel; first pixel and count
// of each slot; the outputs.
#[tactic(auto, unfolding(rules::specs::Calls::store_call), using(refusal::proofs::Laws::refused_number))]
pub fn store(clusters: Clusters, labels: &[u32], destination: &mut [u8]) -> Result<(), Refusal>
    ensures { let s = clusters.entry in record { answer = answer_of result; destination = destination.new }
        ≡ store_call s.size.w s.size.h labels.now s.links.now s.table.now s.outputs.now
        destination.old s.counts.n s.counts.m }
{
    Stored::checked(clusters, labels, destination)?.write(destination);
    Ok(())
}
