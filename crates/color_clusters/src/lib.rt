// A run and its picture in one call, with demand 3 of what they leave, and the calls for C and Rust over all of the
// library.
#![tactic(auto)]

pub mod exports;

ghost use Rattle.std.specs.Prelude.{◌≡◌, ◌*◌, IfOk};
ghost use Rattle.rules.specs.Run.{run};
ghost use Rattle.rules.specs.Picture.{paint};
ghost use Rattle.rules.specs.Calls.{answered, with_picture, run_and_paint_number, run_and_paint_call};
ghost use Rattle.rules.specs.Calls as rules;
ghost use Rattle.rules.specs.Demand3.{Demand3Left};
ghost use Rattle.runner.specs.Types.{config_of, buffers_of, SameLoans, ran_of};

use image::{Clusters, Counts, Size, layout};
use refusal::Refusal;
use runner::{Buffers, RunnerConfig};

// A run and then its picture, all checks passed: none of the two calls is refused.
fn run_then_paint(
    o: RunnerConfig,
    size: Size,
    image: &[u8],
    buffers: &mut Buffers,
    picture: &mut [u8],
) -> Counts
    requires { run_and_paint_number (config_of o) size.w size.h image.now (buffers_of buffers.old) picture.old ≡ 0 }
    ensures loans { SameLoans buffers.old buffers.new }
    ensures run { answered 0 result.n result.m (buffers_of buffers.new)
        ≡ rules.accepted (config_of o) size.w size.h image.now (buffers_of buffers.old) }
    ensures picture { picture.new ≡ paint (size.w * size.h) (run (config_of o) size.w size.h image.now) }
{
    let counts = runner::run(o, size, image, buffers).unwrap();
    let links = &mut *buffers.links;
    let table = &mut *buffers.table;
    let outputs = &mut *buffers.outputs;
    let clusters = Clusters {
        size,
        counts,
        links,
        table,
        outputs,
    };
    container::to_color_image(clusters, picture).unwrap();
    counts
}

// `run`, and then its picture: demand 3 of what is left. A call that is refused changes nothing; no check refuses the
// painting of a run.
pub fn run_and_paint(
    o: RunnerConfig,
    size: Size,
    image: &[u8],
    buffers: &mut Buffers,
    picture: &mut [u8],
) -> Result<Counts, Refusal>
    ensures loans { SameLoans buffers.old buffers.new }
    ensures call { with_picture (ran_of result (buffers_of buffers.new)) picture.new
        ≡ run_and_paint_call (config_of o) size.w size.h image.now (buffers_of buffers.old) picture.old }
    ensures demand3 { IfOk result (λ counts. Demand3Left (config_of o) size.w size.h image.now counts.n
        buffers.new.labels.now buffers.new.links.now buffers.new.table.now picture.new) }
{
    let pixels = buffers.pixels(o, size, image)?;
    if !layout::four_each(picture.len(), pixels) {
        return Err(Refusal::PictureLength);
    }
    Ok(run_then_paint(o, size, image, buffers, picture))
}
