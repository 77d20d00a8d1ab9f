// Colour clusters of an image over buffers that the caller lends: `Runner::run` of visioncortex with `diagonal` off.
#![tactic(auto)]

mod bound;
mod buffers;
mod builder;
mod calls;
mod cluster;
mod geometry;
mod input;
mod keying;
mod labelling;
mod list;
mod outputs;
mod queue;
mod slot;
mod spans;
mod stage1;
mod stage2;

ghost use Rattle.std.specs.Prelude.{◌≡◌};
ghost use Rattle.rules.specs.Calls.{run_call};
ghost use Rattle.runner.specs.Types.{action_of, action_at, config_of, buffers_of, SameLoans, ran_of};

pub use buffers::{Buffers, Lengths, run_answer};
use color::Color;
use image::{Counts, Size};
use refusal::Refusal;

// What is done with pixels of the key colour.
#[derive(Clone, Copy, Debug, PartialEq, Eq)]
pub enum KeyingAction {
    Keep,
    Discard,
}

impl From<u32> for KeyingAction {
    ghost from_gives = { λ number action. action_of action ≡ action_at number };

    // 0 keeps pixels of the key colour, any other number discards them.
    fn from(number: u32) -> KeyingAction {
        match number {
            0 => KeyingAction::Keep,
            _ => KeyingAction::Discard,
        }
    }
}

// `hierarchical` of a run that deepens.
pub const HIERARCHICAL_MAX: u32 = 4294967295;

// The settings, with the Rust's names. The shift is `is_same_color_a`; the key (0,0,0,0) turns keying off.
#[derive(Clone, Copy)]
pub struct RunnerConfig {
    pub is_same_color_a: i32,
    pub is_same_color_b: i32,
    pub hierarchical: u32,
    pub good_min_area: u32,
    pub good_max_area: u32,
    pub hollow_neighbours: u32,
    pub deepen_diff: i32,
    pub key_color: Color,
    pub keying_action: KeyingAction,
}

// Clusters the pixels of the image into the buffers. A call that is refused changes nothing.
#[tactic(auto, unfolding(rules::specs::Calls::run_call), using(refusal::proofs::Laws::refused_number))]
pub fn run(
    o: RunnerConfig,
    size: Size,
    image: &[u8],
    buffers: &mut Buffers,
) -> Result<Counts, Refusal>
    ensures loans { SameLoans buffers.old buffers.new }
    ensures call { ran_of result (buffers_of buffers.new)
        ≡ run_call (config_of o) size.w size.h image.now (buffers_of buffers.old) }
{
    buffers.pixels(o, size, image)?;
    Ok(calls::accepted(o, size, image, buffers))
}
