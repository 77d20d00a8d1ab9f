// The layout of the cluster table: how many numbers a slot has, and the place of each; and what the buffers of a sheet,
// an image and a picture must hold.
ghost use Rattle.std.specs.Prelude.{◌≡◌, ◌*◌, eqb};
ghost use Rattle.rules.specs.Refusals.{short_sheet, bad_counts};

use crate::Counts;

pub const SLOT_WIDTH: usize = 21;

pub const FIRST_PIXEL: usize = 0;

pub const PIXEL_COUNT: usize = 1;

pub const LEFT: usize = 2;

pub const TOP: usize = 3;

pub const RIGHT: usize = 4;

pub const BOTTOM: usize = 5;

pub const SUM_R: usize = 6;

pub const SUM_G: usize = 7;

pub const SUM_B: usize = 8;

pub const SUM_A: usize = 9;

pub const SUM_COUNT: usize = 10;

pub const RESIDUE_R: usize = 11;

pub const RESIDUE_G: usize = 12;

pub const RESIDUE_B: usize = 13;

pub const RESIDUE_A: usize = 14;

pub const RESIDUE_COUNT: usize = 15;

pub const MERGED_INTO: usize = 16;

pub const DEPTH: usize = 17;

pub const NUM_HOLES: usize = 18;

pub const FIRST_HOLE: usize = 19;

pub const NEXT_HOLE: usize = 20;

// Checks 4 and 6: whether so many bytes are four for each of so many pixels.
pub fn four_each(bytes: usize, pixels: u32) -> bool
    ensures { result ≡ eqb bytes (4 * pixels) }
{
    bytes == 4 * pixels as usize
}

// Check 5: whether a buffer is too short for size pixels; links, table and outputs are lengths.
pub fn short(size: u32, links: usize, table: usize, outputs: usize) -> bool
    ensures { result ≡ short_sheet size links table outputs }
{
    (links < size as usize)
        | (table < SLOT_WIDTH * (size as usize + 1))
        | (outputs < 2 * size as usize)
}

// Check 5 too: whether a caller's count is too large.
pub fn bad_counts(size: u32, counts: Counts) -> bool
    ensures { result ≡ bad_counts size counts.n counts.m }
{
    (size as usize + 1 < counts.n as usize) | (2 * (size as usize) < counts.m as usize)
}
