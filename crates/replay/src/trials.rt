// A call of `run` or of `run_and_paint` in buffers that hold the pattern.
use crate::buffers::{Lists, are_filled, filled};
use color_clusters::exports::Answer;
use image::{Counts, Size};
use refusal::Refusal;
use runner::{Buffers, RunnerConfig};
use std::alloc::{AllocError, Global};

// Which call is made, so that both are tried in the same way.
#[derive(Clone, Copy, PartialEq, Eq)]
pub(crate) enum Call {
    Run,
    RunAndPaint,
}

// A call: which, what it is given, and the lengths of the buffers that it is lent.
#[derive(Clone, Copy)]
pub(crate) struct Trial<'a> {
    pub call: Call,
    pub config: RunnerConfig,
    pub size: Size,
    pub image: &'a [u8],
    pub lengths: Lists<usize>,
    pub work: usize,
    pub picture: usize,
}

// What a call answered, and what it left in the buffers.
#[derive(Drop)]
pub(crate) struct Outcome {
    pub answer: Result<Counts, Refusal>,
    pub buffers: Lists<Vec<u32>>,
    pub work: Vec<u32>,
    pub picture: Vec<u8>,
}

impl Trial<'_> {
    // Makes the call. `run` is not lent the picture, which lies beside the buffers all the same.
    pub fn make(self, alloc: Global) -> Result<Outcome, AllocError> {
        let mut buffers = Lists::filled(alloc, self.lengths)?;
        let mut work = filled(alloc, self.work)?;
        let mut picture = filled(alloc, self.picture)?;
        let mut lent = Buffers {
            labels: &mut buffers.labels,
            links: &mut buffers.links,
            table: &mut buffers.table,
            outputs: &mut buffers.outputs,
            work: &mut work,
        };
        let answer = match self.call {
            Call::Run => runner::run(self.config, self.size, self.image, &mut lent),
            Call::RunAndPaint => color_clusters::run_and_paint(
                self.config,
                self.size,
                self.image,
                &mut lent,
                &mut picture,
            ),
        };
        Ok(Outcome {
            answer,
            buffers,
            work,
            picture,
        })
    }
}

impl Outcome {
    // What the call answers from C: the number of the refusal or 0, and the counts of slots and outputs.
    pub fn numbers(&self) -> [u32; 3] {
        let Answer { number, n, m } = Answer::from(self.answer);
        [number, n, m]
    }

    // Whether every buffer is as it was before the call.
    pub fn is_untouched(&self) -> bool {
        self.buffers.are_untouched() & are_filled(&self.work, 0) & are_filled(&self.picture, 0)
    }
}
