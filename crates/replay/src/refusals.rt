// The refusals of `run` and `run_and_paint` at their edges: the answer, and that a refused call changes nothing.
use crate::buffers::{Lists, are_filled, filled};
use crate::numbers::number;
use crate::tally::Tally;
use crate::trials::{Call, Trial};
use color::Color;
use image::Size;
use refusal::Refusal;
use runner::{KeyingAction, RunnerConfig};
use std::alloc::{AllocError, Global};

// A call: the shift, the size, the lengths that are lent, and what it has to answer.
#[derive(Clone, Copy)]
struct RunEdge {
    shift: i32,
    size: Size,
    image: usize,
    lengths: Lists<usize>,
    work: usize,
    expected: Result<(), Refusal>,
}

// 3 × 2 pixels, lent exactly what they ask for.
const WHOLE: RunEdge = RunEdge {
    shift: 4,
    size: Size { w: 3, h: 2 },
    image: 24,
    lengths: Lists {
        labels: 6,
        links: 6,
        table: 147,
        outputs: 12,
    },
    work: 56,
    expected: Ok(()),
};

// The same size, with nothing lent.
const EMPTY: RunEdge = RunEdge {
    image: 0,
    lengths: Lists {
        labels: 0,
        links: 0,
        table: 0,
        outputs: 0,
    },
    work: 0,
    ..WHOLE
};

impl RunEdge {
    // The same with this shift.
    fn shifted(self, shift: i32) -> Self {
        RunEdge { shift, ..self }
    }

    // The same of w × h pixels.
    fn sized(self, w: u32, h: u32) -> Self {
        let size = Size { w, h };
        RunEdge { size, ..self }
    }

    // The same with an image of so many bytes.
    fn image(self, image: usize) -> Self {
        RunEdge { image, ..self }
    }

    // The same with buffers of these lengths.
    fn lent(self, labels: usize, links: usize, table: usize, outputs: usize, work: usize) -> Self {
        let lengths = Lists {
            labels,
            links,
            table,
            outputs,
        };
        RunEdge {
            lengths,
            work,
            ..self
        }
    }

    // The same, where it is refused.
    fn refused(self, refusal: Refusal) -> Self {
        let expected = Err(refusal);
        RunEdge { expected, ..self }
    }
}

// Each refusal where it first appears, and the last call before it that is accepted.
fn edges() -> [RunEdge; 24] {
    [
        WHOLE,
        WHOLE.shifted(0),
        WHOLE.shifted(7),
        WHOLE.shifted(8).refused(Refusal::Shift),
        WHOLE.shifted(-1).refused(Refusal::Shift),
        WHOLE.shifted(2147483647).refused(Refusal::Shift),
        WHOLE.shifted(-2147483648).refused(Refusal::Shift),
        WHOLE.sized(0, 2).refused(Refusal::NoPixels),
        WHOLE.sized(3, 0).refused(Refusal::NoPixels),
        WHOLE.sized(0, 0).refused(Refusal::NoPixels),
        WHOLE.sized(65001, 1).refused(Refusal::TooManyPixels),
        WHOLE.sized(1, 65001).refused(Refusal::TooManyPixels),
        WHOLE.sized(65536, 65536).refused(Refusal::TooManyPixels),
        WHOLE
            .sized(4294967295, 4294967295)
            .refused(Refusal::TooManyPixels),
        WHOLE.sized(65000, 1).refused(Refusal::ImageLength),
        WHOLE.image(23).refused(Refusal::ImageLength),
        WHOLE.image(25).refused(Refusal::ImageLength),
        WHOLE.image(0).refused(Refusal::ImageLength),
        WHOLE.lent(5, 6, 147, 12, 56).refused(Refusal::BufferLength),
        WHOLE.lent(6, 5, 147, 12, 56).refused(Refusal::BufferLength),
        WHOLE.lent(6, 6, 146, 12, 56).refused(Refusal::BufferLength),
        WHOLE.lent(6, 6, 147, 11, 56).refused(Refusal::BufferLength),
        WHOLE.lent(6, 6, 147, 12, 55).refused(Refusal::BufferLength),
        WHOLE.lent(7, 8, 149, 14, 58),
    ]
}

// Several faults at once.
fn faults() -> [RunEdge; 7] {
    [
        WHOLE
            .image(23)
            .lent(5, 6, 147, 12, 56)
            .refused(Refusal::ImageLength),
        WHOLE.lent(5, 5, 146, 11, 55).refused(Refusal::BufferLength),
        EMPTY.shifted(8).sized(0, 1).refused(Refusal::Shift),
        EMPTY.shifted(-1).sized(65001, 1).refused(Refusal::Shift),
        EMPTY.sized(0, 65001).refused(Refusal::NoPixels),
        EMPTY.sized(65001, 1).refused(Refusal::TooManyPixels),
        EMPTY.sized(65000, 1).refused(Refusal::ImageLength),
    ]
}

// Settings with this shift.
fn settings(shift: i32) -> RunnerConfig {
    RunnerConfig {
        is_same_color_a: shift,
        is_same_color_b: 1,
        hierarchical: 4294967295,
        good_min_area: 16,
        good_max_area: 65536,
        hollow_neighbours: 1,
        deepen_diff: 64,
        key_color: Color::default(),
        keying_action: KeyingAction::Keep,
    }
}

// How long the picture of 3 × 2 pixels is.
const PICTURE: usize = 24;

impl RunEdge {
    // What the call has to answer with a picture of so many bytes: one of another length than 3 × 2 pixels ask for is
    // refused where nothing comes before that.
    fn answer(self, call: Call, picture: usize) -> Result<(), Refusal> {
        self.expected?;
        match call {
            Call::RunAndPaint if picture != PICTURE => Err(Refusal::PictureLength),
            _ => Ok(()),
        }
    }

    // Makes the call on an image of any bytes, and tells whether it answered what it has to and, where that is a
    // refusal, left every buffer as it was filled. The picture is so too, unless it was painted.
    fn is_right(self, alloc: Global, call: Call, picture: usize) -> Result<bool, AllocError> {
        let image = filled(alloc, self.image)?;
        let trial = Trial {
            call,
            config: settings(self.shift),
            size: self.size,
            image: &image,
            lengths: self.lengths,
            work: self.work,
            picture,
        };
        let left = trial.make(alloc)?;
        Ok(match self.answer(call, picture) {
            Err(refusal) => {
                (left.answer == Err(refusal))
                    & (left.numbers() == [number(refusal), 0, 0])
                    & left.is_untouched()
            }
            Ok(()) => {
                (left.numbers()[0] == 0)
                    & ((call == Call::RunAndPaint) | are_filled(&left.picture, 0))
            }
        })
    }
}

// Makes every call without a picture, and with one that is a byte too short, right, and a byte too long.
pub(crate) fn all(alloc: Global) -> Result<Tally, AllocError> {
    let mut tally = Tally::default();
    for edge in edges().into_iter().chain(faults()) {
        tally.count(edge.is_right(alloc, Call::Run, 22)?);
        tally.count(edge.is_right(alloc, Call::RunAndPaint, 23)?);
        tally.count(edge.is_right(alloc, Call::RunAndPaint, 24)?);
        tally.count(edge.is_right(alloc, Call::RunAndPaint, 25)?);
    }
    Ok(tally)
}
