// An accepted run: stage 1, stage 2, and what is left at the end.
ghost use Rattle.std.specs.Prelude.{◌≡◌, ◌*◌, ◌≤◌, length};
ghost use Rattle.rules.specs.Run.{run};
ghost use Rattle.rules.specs.Calls.{answered};
ghost use Rattle.rules.specs.Calls as rules;
ghost use Rattle.rules.specs.Code.Accepted.{Accepted};
ghost use Rattle.runner.specs.Types.{config_of, buffers_of, SameLoans};
ghost use Rattle.runner.specs.Code.Lists.{of_work, of_input, SameLists, SameRun};
ghost use Rattle.runner.specs.Code.Stage2.{Entered};
ghost use Rattle.runner.specs.Code.Calls.{Blanked, CanRun, Lent, Clustered};

use super::builder::Builder;
use super::input::Input;
use super::queue::Queue;
use super::stage2::Run;
use super::{outputs, stage1};
use crate::{Buffers, RunnerConfig};
use image::{Counts, Size};

impl<'a, 'b, 'c, 'd> Run<'a, 'b, 'c, 'd> {
    // Labels, links and marks of zeros.
    fn blank(&mut self)
        ensures same { SameRun self.old self.new }
        ensures blanked { of_work (of_work Blanked self.old) self.new }
    {
        let lists = &mut *self.lists;
        lists.labels.fill(0);
        lists.links.fill(0);
        self.marks.fill(0);
    }

    // Stage 1 from blank buffers; answers the number of slots.
    fn label_image(&mut self) -> u32
        requires { of_work (CanRun (self.old.input.now.w * self.old.input.now.h)) self.old }
        ensures same { SameRun self.old self.new }
        ensures entered { of_work (of_input Entered self.new.input.now self.old.lists.now.table.now) self.new result }
    {
        self.blank();
        stage1::stage_1(self.lists, self.input).count
    }

    // Both stages; the outputs that still count something are copied.
    fn both_stages(&mut self, outputs: &mut [u32]) -> Counts
        requires can_run { of_work (CanRun (self.old.input.now.w * self.old.input.now.h)) self.old }
        requires outputs { 2 * (self.old.input.now.w * self.old.input.now.h) ≤ length outputs.old }
        ensures builder { self.new.lists.ghost_name ≡ self.old.lists.ghost_name }
        ensures lists { SameLists self.old.lists.now self.new.lists.now }
        ensures clustered { let p = self.old.input.now in
            Clustered (run (config_of p.o) p.w p.h p.image.now) self.old.lists.now.table.now outputs.old
            self.new.lists.now.labels.now self.new.lists.now.links.now self.new.lists.now.table.now outputs.new result.n
            result.m }
    {
        let n = self.label_image();
        let t = self.stage_2(n);
        let staged = &mut *self.staged;
        let m = outputs::drop_empty(self.lists, &staged[..t.m as usize], outputs);
        Counts { n, m }
    }
}

// The same over the buffers, with the work buffer cut into its parts.
fn clustered(
    labels: &mut [u32],
    links: &mut [u32],
    table: &mut [u32],
    outputs: &mut [u32],
    work: &mut [u32],
    input: &Input,
) -> Counts
    requires { Lent (input.now.w * input.now.h) labels.old links.old table.old outputs.old work.old }
    ensures { let p = input.now in
        Clustered (run (config_of p.o) p.w p.h p.image.now) table.old outputs.old labels.new links.new table.new
        outputs.new result.n result.m }
{
    let room = (input.w * input.h) as usize + 1;
    let (queue, rest) = work.split_at_mut(3 * room);
    let (ends, rest) = rest.split_at_mut(room);
    let (hole_ends, rest) = rest.split_at_mut(room);
    let (marks, rest) = rest.split_at_mut(room);
    let mut lists = Builder {
        labels,
        links,
        table,
        ends,
    };
    let mut queue = Queue {
        numbers: queue,
        n: 0,
    };
    let mut run = Run {
        lists: &mut lists,
        hole_ends,
        queue: &mut queue,
        marks,
        staged: &mut rest[0..2 * room],
        input: &*input,
    };
    run.both_stages(outputs)
}

// A run whose checks are passed, over the beginnings of the buffers, which may be longer. The work buffer is cleared in
// its whole length.
pub(crate) fn accepted(o: RunnerConfig, size: Size, image: &[u8], buffers: &mut Buffers) -> Counts
    requires { let b = buffers.old in
        Accepted (config_of o) size.w size.h (length image.now) (length b.labels.now) (length b.links.now)
        (length b.table.now) (length b.outputs.now) (length b.work.now) }
    ensures loans { SameLoans buffers.old buffers.new }
    ensures call { answered 0 result.n result.m (buffers_of buffers.new)
        ≡ rules.accepted (config_of o) size.w size.h image.now (buffers_of buffers.old) }
{
    let input = Input {
        o,
        shift: o.is_same_color_a as u32,
        image,
        w: size.w,
        h: size.h,
    };
    let pixels = (size.w * size.h) as usize;
    let labels = &mut buffers.labels[0..pixels];
    let links = &mut buffers.links[0..pixels];
    let table = &mut *buffers.table;
    let outputs = &mut *buffers.outputs;
    let work = &mut *buffers.work;
    let counts = clustered(labels, links, table, outputs, work, &input);
    work.fill(0);
    counts
}
