// The recorded cases: each is run, painted and stored, and compared.
ghost use Rattle.std.specs.Prelude.{◌≤◌};
ghost use Rattle.replay.specs.declared.cases.TheConstants.{LARGEST};

use crate::buffers::{Lists, are_filled, filled};
use crate::numbers::is_answer;
use crate::reading::{Numbers, Reader, Window};
use crate::sheets::{SLOT, is_picture, is_sheet};
use crate::tally::Tally;
use crate::trials::{Call, Trial};
use image::{Counts, Size};
use runner::RunnerConfig;
use std::alloc::{AllocError, Global};
use std::fmt;
use std::io::{self, Read};

// The largest image that is replayed, in pixels.
const LARGEST: u64 = 2400;

// How many numbers more than a call asks for each buffer has. A run has to leave them alone.
const MARGIN: usize = 2;

// A case: what a run is given, and what is recorded of it.
#[derive(Clone, Copy)]
struct Case<'a> {
    config: RunnerConfig,
    size: Size,
    image: &'a [u8],
    counts: Counts,
    lists: Lists<Numbers<'a>>,
    picture: &'a [u8],
    ghost is_small: { lists.labels.count ≤ LARGEST },
}

// Whether a buffer begins with these numbers, and was left alone after them.
fn holds(buffer: &[u32], numbers: Numbers<'_>) -> bool {
    let n = numbers.len();
    buffer.split_at_checked(n).is_some_and(|(written, rest)| {
        numbers.eq(written.iter().copied()) & are_filled(rest, n)
    })
}

impl<'a> Case<'a> {
    // The next case. One that is too large is none.
    fn read(reader: &mut Reader<'a>) -> Option<Self> {
        let config = reader.config()?;
        let size = reader.size()?;
        let area = size.area();
        if LARGEST < area {
            return None;
        }
        let area = area as usize;
        let image = reader.bytes(4 * area)?;
        let counts = Counts {
            n: reader.number()?,
            m: reader.number()?,
        };
        // More than the buffers have room for.
        if (area + 1 < counts.n as usize) | (2 * area + MARGIN < counts.m as usize) {
            return None;
        }
        Some(Case {
            config,
            size,
            image,
            counts,
            lists: Lists {
                labels: reader.numbers(area)?,
                links: reader.numbers(area)?,
                table: reader.numbers(SLOT * counts.n as usize)?,
                outputs: reader.numbers(counts.m as usize)?,
            },
            picture: reader.bytes(4 * area)?,
        })
    }

    // The call of the case.
    fn trial(&self, call: Call) -> Trial<'a> {
        let area = self.lists.labels.len();
        Trial {
            call,
            config: self.config,
            size: self.size,
            image: self.image,
            lengths: Lists {
                labels: area + MARGIN,
                links: area + MARGIN,
                table: SLOT * (area + 1) + MARGIN,
                outputs: 2 * area + MARGIN,
            },
            work: 8 * area + 8 + MARGIN,
            picture: 4 * area,
        }
    }

    // Whether the buffers hold the sheet that is recorded.
    fn is_run(&self, buffers: &Lists<Vec<u32>>) -> bool {
        holds(&buffers.labels, self.lists.labels)
            & holds(&buffers.links, self.lists.links)
            & holds(&buffers.table, self.lists.table)
            & holds(&buffers.outputs, self.lists.outputs)
    }

    // Whether a picture is the recorded one.
    fn is_shown(&self, picture: &[u8]) -> bool {
        is_picture(picture, self.size, self.picture)
    }

    // Whether painting from the buffers of a run gives the picture that is recorded.
    fn is_painted(&self, alloc: Global, buffers: &Lists<Vec<u32>>) -> Result<bool, AllocError> {
        let mut picture = filled(alloc, self.picture.len())?;
        let clusters = buffers.clusters(self.size, self.counts);
        let answer = container::to_color_image(clusters, &mut picture);
        Ok(is_answer(answer, Ok(())) & self.is_shown(&picture))
    }

    // Whether storing from the buffers of a run gives their numbers.
    fn is_kept(&self, alloc: Global, buffers: &Lists<Vec<u32>>) -> Result<bool, AllocError> {
        let numbers = 4
            + 2 * self.lists.labels.len()
            + 2 * self.counts.n as usize
            + self.counts.m as usize;
        let mut sheet = filled(alloc, 2 * numbers)?;
        let clusters = buffers.clusters(self.size, self.counts);
        let answer = sheet::store(clusters, &buffers.labels, &mut sheet);
        Ok(is_answer(answer, Ok(())) & is_sheet(&sheet, clusters, &buffers.labels))
    }

    // Whether a call of the case leaves what is recorded, and whether that can be painted and stored.
    fn is_replayed(&self, alloc: Global, call: Call) -> Result<bool, AllocError> {
        let left = self.trial(call).make(alloc)?;
        let is_shown = match call {
            Call::Run => are_filled(&left.picture, 0),
            Call::RunAndPaint => self.is_shown(&left.picture),
        };
        Ok(
            (left.numbers() == [0, self.counts.n, self.counts.m])
                & left.work.iter().all(|value| *value == 0)
                & self.is_run(&left.buffers)
                & is_shown
                & self.is_painted(alloc, &left.buffers)?
                & self.is_kept(alloc, &left.buffers)?,
        )
    }
}

// What came of a replay: the cases that are recorded, those that were not run, those that differ, and the bytes after
// the last.
#[derive(Clone, Copy)]
pub(crate) struct Replayed {
    cases: u32,
    skipped: u32,
    differ: u64,
    left: usize,
}

impl fmt::Display for Replayed {
    // The counts in words.
    fn fmt<W: fmt::Write>(&self, f: &mut fmt::Formatter<W>) -> fmt::Result {
        let Replayed {
            cases,
            skipped,
            differ,
            left,
        } = *self;
        write!(
            f,
            "{cases} recorded cases, {skipped} skipped, {differ} differ, {left} bytes left over"
        )
    }
}

// Replays all cases, each by `run` and by `run_and_paint`. After one that is not whole, or too large, none is run, and
// no bytes count as left over; of those that are left over no more count than the window holds.
pub(crate) fn replay<R: Read>(alloc: Global, input: &mut R) -> io::Result<Replayed> {
    let mut window = Window::new(alloc, input)?;
    let cases = window.first_number()?;
    let mut tally = Tally::default();
    for done in 0..cases {
        window.refill(input)?;
        let mut reader = Reader::new(window.rest());
        let Some(case) = Case::read(&mut reader) else {
            return Ok(Replayed {
                cases,
                skipped: cases - done,
                differ: tally.wrong,
                left: 0,
            });
        };
        tally.count(
            case.is_replayed(alloc, Call::Run)? & case.is_replayed(alloc, Call::RunAndPaint)?,
        );
        let left = reader.left_over();
        window.keep(left);
    }
    window.refill(input)?;
    Ok(Replayed {
        cases,
        skipped: 0,
        differ: tally.wrong,
        left: window.rest().len(),
    })
}
