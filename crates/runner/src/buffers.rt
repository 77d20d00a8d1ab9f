// The buffers that a run is lent, and its checks.
ghost use Rattle.std.specs.Prelude.{◌≡◌, ◌||◌, ◌*◌, ltb, IfOk};
ghost use Rattle.rules.specs.Calls.{run_number};
ghost use Rattle.rules.specs.Refusals.{bad_shift, short_sheet, work_length, run_answer};
ghost use Rattle.refusal.specs.Refusal.{answer_of};
ghost use Rattle.runner.specs.Types.{config_of, buffers_of};

use crate::RunnerConfig;
use image::{Size, layout};
use refusal::Refusal;

// What a run writes. The first four hold what it leaves; work is zero after it.
#[derive(Drop)]
pub struct Buffers<'a> {
    pub labels: &'a mut [u32],
    pub links: &'a mut [u32],
    pub table: &'a mut [u32],
    pub outputs: &'a mut [u32],
    pub work: &'a mut [u32],
}

// How long the image and the buffers of a run are.
#[derive(Clone, Copy)]
pub struct Lengths {
    pub image: usize,
    pub labels: usize,
    pub links: usize,
    pub table: usize,
    pub outputs: usize,
    pub work: usize,
}

// Check 1: whether the shift is outside 0 to 7.
fn bad_shift(shift: i32) -> bool
    ensures { result ≡ bad_shift shift }
{
    !(0..=7).contains(&shift)
}

impl Lengths {
    // Check 5 of `run`: whether a buffer is too short for size pixels.
    fn short(self, size: u32) -> bool
        ensures { result ≡ (ltb self.labels size || short_sheet size self.links self.table self.outputs
            || ltb self.work (work_length size)) }
    {
        (self.labels < size as usize)
            | layout::short(size, self.links, self.table, self.outputs)
            | (self.work < 8 * size as usize + 8)
    }
}

// The number of pixels, where all checks of `run` pass with an image and buffers of these lengths.
#[tactic(auto, unfolding(rules::specs::Refusals::run_answer))]
pub fn run_answer(o: RunnerConfig, size: Size, lengths: Lengths) -> Result<u32, Refusal>
    ensures answer { let l = lengths in answer_of result
        ≡ run_answer size.w size.h (config_of o) l.image l.labels l.links l.table l.outputs l.work }
    ensures pixels { IfOk result (λ pixels. pixels ≡ size.w * size.h) }
{
    if bad_shift(o.is_same_color_a) {
        return Err(Refusal::Shift);
    }
    let pixels = size.pixels()?;
    if !layout::four_each(lengths.image, pixels) {
        return Err(Refusal::ImageLength);
    }
    if lengths.short(pixels) {
        return Err(Refusal::BufferLength);
    }
    Ok(pixels)
}

impl<'a> Buffers<'a> {
    // The number of pixels, where all checks of `run` pass.
    #[tactic(auto, unfolding(rules::specs::Calls::run_number))]
    pub fn pixels(&self, o: RunnerConfig, size: Size, image: &[u8]) -> Result<u32, Refusal>
        ensures answer { answer_of result ≡ run_number (config_of o) size.w size.h image.now (buffers_of self.now) }
        ensures pixels { IfOk result (λ pixels. pixels ≡ size.w * size.h) }
    {
        let lengths = Lengths {
            image: image.len(),
            labels: self.labels.len(),
            links: self.links.len(),
            table: self.table.len(),
            outputs: self.outputs.len(),
            work: self.work.len(),
        };
        run_answer(o, size, lengths)
    }
}
