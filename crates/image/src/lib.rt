// The size of an image: checks 2 and 3, which every call makes; what a run left, as the calls after it read it; and the
// layout of the cluster table.
#![tactic(auto)]

pub mod layout;

ghost use Rattle.std.specs.Prelude.{◌≡◌, ◌∷◌, [], ◌++◌, ◌||◌, ◌*◌, length, IfOk};
ghost use Rattle.rules.specs.Refusals.{first_failed, refusal, size_checks, short_sheet, bad_counts};
ghost use Rattle.refusal.specs.Refusal.{answer_of};

use refusal::Refusal;

// The largest image, in pixels.
const LIMIT: u64 = 65000;

// Columns and rows of an image.
#[derive(Clone, Copy, Debug, PartialEq, Eq)]
pub struct Size {
    pub w: u32,
    pub h: u32,
}

// How many slots and outputs a run made.
#[derive(Clone, Copy, Debug, PartialEq, Eq)]
pub struct Counts {
    pub n: u32,
    pub m: u32,
}

// A list of pixels, or the rest of one: its first pixel, plus one, and how many pixels it has along the links.
#[derive(Clone, Copy, Debug, PartialEq, Eq)]
pub struct PixelList {
    pub first: u32,
    pub count: u32,
}

// What a run left for the calls after it. It may be anything, also what no run made.
#[derive(Clone, Copy)]
pub struct Clusters<'a> {
    pub size: Size,
    pub counts: Counts,
    pub links: &'a [u32],
    pub table: &'a [u32],
    pub outputs: &'a [u32],
}

impl Size {
    // The number of pixels.
    pub fn area(self) -> u64
        ensures { result ≡ self.w * self.h }
    {
        self.w as u64 * self.h as u64
    }

    // The number of pixels, where checks 2 and 3 pass.
    pub fn pixels(self) -> Result<u32, Refusal>
        ensures answer { answer_of result ≡ first_failed (size_checks self.w self.h) }
        ensures pixels { IfOk result (λ pixels. pixels ≡ self.w * self.h) }
    {
        if (self.w == 0) | (self.h == 0) {
            return Err(Refusal::NoPixels);
        }
        if LIMIT < self.area() {
            return Err(Refusal::TooManyPixels);
        }
        Ok(self.w * self.h)
    }
}

impl<'a> Clusters<'a> {
    // The number of pixels, where checks 2, 3 and 5 pass.
    pub fn pixels(self) -> Result<u32, Refusal>
        ensures answer { let s = self.entry in
            answer_of result ≡ first_failed (size_checks s.size.w s.size.h ++ (refusal 5
            (short_sheet (s.size.w * s.size.h) (length s.links.now) (length s.table.now) (length s.outputs.now)
            || bad_counts (s.size.w * s.size.h) s.counts.n s.counts.m) ∷ [])) }
        ensures pixels { IfOk result (λ pixels. pixels ≡ self.entry.size.w * self.entry.size.h) }
    {
        let pixels = self.size.pixels()?;
        if layout::short(
            pixels,
            self.links.len(),
            self.table.len(),
            self.outputs.len(),
        ) | layout::bad_counts(pixels, self.counts)
        {
            return Err(Refusal::BufferLength);
        }
        Ok(pixels)
    }
}
