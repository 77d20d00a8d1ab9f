// The calls for C and Rust, settings one by one: `color_clusters_c` exports each under its name.
ghost use Rattle.std.specs.Prelude.{◌≡◌, length};
ghost use Rattle.rules.specs.Refusals.{row_answer};
ghost use Rattle.rules.specs.Calls.{as_buffers, answered, with_picture, run_call, paint_call, run_and_paint_call};
ghost use Rattle.rules.specs.Calls.{store_call};
ghost use Rattle.rules.specs.Calls as rules;
ghost use Rattle.rules.specs.Demand3.{Demand3Left};
ghost use Rattle.runner.specs.Types.{config_of, ran_of};
ghost use Rattle.color_clusters.specs.Exports.{settings};

use color::Color;
use image::{Clusters, Counts, Size};
use refusal::Refusal;
use runner::{Buffers, KeyingAction, RunnerConfig};

// The number of the first check that failed, or 0; the numbers of slots and of outputs, 0 where the call is refused.
#[repr(C)]
#[derive(Clone, Copy)]
pub struct Answer {
    pub number: u32,
    pub n: u32,
    pub m: u32,
}

impl From<Result<Counts, Refusal>> for Answer {
    ghost from_gives = { λ ran a. (b : rules.Buffers) → answered a.number a.n a.m b ≡ ran_of ran b };

    fn from(ran: Result<Counts, Refusal>) -> Answer {
        match ran {
            Ok(counts) => Answer {
                number: 0,
                n: counts.n,
                m: counts.m,
            },
            Err(refusal) => Answer {
                number: refusal.number(),
                n: 0,
                m: 0,
            },
        }
    }
}

// The settings, put together.
fn config(
    is_same_color_a: i32,
    is_same_color_b: i32,
    hierarchical: u32,
    good_min_area: u32,
    good_max_area: u32,
    hollow_neighbours: u32,
    deepen_diff: i32,
    key_r: u8,
    key_g: u8,
    key_b: u8,
    key_a: u8,
    action: u32,
) -> RunnerConfig
    ensures { config_of result
        ≡ settings is_same_color_a is_same_color_b hierarchical good_min_area good_max_area hollow_neighbours
        deepen_diff key_r key_g key_b key_a action }
{
    let key_color = Color {
        r: key_r,
        g: key_g,
        b: key_b,
        a: key_a,
    };
    let keying_action = KeyingAction::from(action);
    RunnerConfig {
        is_same_color_a,
        is_same_color_b,
        hierarchical,
        good_min_area,
        good_max_area,
        hollow_neighbours,
        deepen_diff,
        key_color,
        keying_action,
    }
}

// What a run left, put together.
fn clusters<'a>(
    w: u32,
    h: u32,
    links: &'a [u32],
    table: &'a [u32],
    outputs: &'a [u32],
    n: u32,
    m: u32,
) -> Clusters<'a>
    ensures size { (result.size.w ≡ w) × (result.size.h ≡ h) }
    ensures counts { (result.counts.n ≡ n) × (result.counts.m ≡ m) }
    ensures buffers { (result.links.now ≡ links.now) × (result.table.now ≡ table.now)
        × (result.outputs.now ≡ outputs.now) }
{
    Clusters {
        size: Size { w, h },
        counts: Counts { n, m },
        links,
        table,
        outputs,
    }
}

// `runner::run`, with the settings one by one.
pub fn color_clusters_run(
    is_same_color_a: i32,
    is_same_color_b: i32,
    hierarchical: u32,
    good_min_area: u32,
    good_max_area: u32,
    hollow_neighbours: u32,
    deepen_diff: i32,
    key_r: u8,
    key_g: u8,
    key_b: u8,
    key_a: u8,
    action: u32,
    w: u32,
    h: u32,
    image: &[u8],
    labels: &mut [u32],
    links: &mut [u32],
    table: &mut [u32],
    outputs: &mut [u32],
    work: &mut [u32],
) -> Answer
    ensures { answered result.number result.n result.m
        (as_buffers labels.new links.new table.new outputs.new
        work.new)
        ≡ run_call (settings is_same_color_a is_same_color_b hierarchical good_min_area good_max_area
        hollow_neighbours deepen_diff key_r key_g key_b key_a action) w h image.now
        (as_buffers labels.old links.old table.old outputs.old
        work.old) }
{
    let o = config(
        is_same_color_a,
        is_same_color_b,
        hierarchical,
        good_min_area,
        good_max_area,
        hollow_neighbours,
        deepen_diff,
        key_r,
        key_g,
        key_b,
        key_a,
        action,
    );
    let mut buffers = Buffers {
        labels,
        links,
        table,
        outputs,
        work,
    };
    Answer::from(runner::run(o, Size { w, h }, image, &mut buffers))
}

// `run_and_paint`, with the settings one by one.
pub fn color_clusters_run_and_paint(
    is_same_color_a: i32,
    is_same_color_b: i32,
    hierarchical: u32,
    good_min_area: u32,
    good_max_area: u32,
    hollow_neighbours: u32,
    deepen_diff: i32,
    key_r: u8,
    key_g: u8,
    key_b: u8,
    key_a: u8,
    action: u32,
    w: u32,
    h: u32,
    image: &[u8],
    labels: &mut [u32],
    links: &mut [u32],
    table: &mut [u32],
    outputs: &mut [u32],
    work: &mut [u32],
    picture: &mut [u8],
) -> Answer
    ensures call { with_picture (answered result.number result.n result.m
        (as_buffers labels.new links.new table.new outputs.new
        work.new)) picture.new
        ≡ run_and_paint_call (settings is_same_color_a is_same_color_b hierarchical good_min_area good_max_area
        hollow_neighbours deepen_diff key_r key_g key_b key_a action) w h image.now
        (as_buffers labels.old links.old table.old outputs.old
        work.old) picture.old }
    ensures demand3 { result.number ≡ 0
        → Demand3Left (settings is_same_color_a is_same_color_b hierarchical good_min_area good_max_area
        hollow_neighbours deepen_diff key_r key_g key_b key_a action) w h image.now
        result.n labels.new links.new table.new picture.new }
{
    let o = config(
        is_same_color_a,
        is_same_color_b,
        hierarchical,
        good_min_area,
        good_max_area,
        hollow_neighbours,
        deepen_diff,
        key_r,
        key_g,
        key_b,
        key_a,
        action,
    );
    let mut lent = Buffers {
        labels,
        links,
        table,
        outputs,
        work,
    };
    Answer::from(crate::run_and_paint(o, Size { w, h }, image, &mut lent, picture))
}

// `container::to_color_image`.
pub fn color_clusters_paint(
    w: u32,
    h: u32,
    links: &[u32],
    table: &[u32],
    outputs: &[u32],
    picture: &mut [u8],
    n: u32,
    m: u32,
) -> u32
    ensures { record { answer = result; picture = picture.new }
        ≡ paint_call w h links.now table.now outputs.now picture.old n m }
{
    let painted = container::to_color_image(clusters(w, h, links, table, outputs, n, m), picture);
    refusal::answer_of(&painted)
}

// `sheet::row_check`.
pub fn color_clusters_row_check(w: u32, h: u32, picture: &[u8], y: u32) -> u32
    ensures { result ≡ row_answer w h (length picture.now) y }
{
    refusal::answer_of(&sheet::row_check(Size { w, h }, picture, y))
}

// `sheet::store`.
pub fn color_clusters_store(
    w: u32,
    h: u32,
    labels: &[u32],
    links: &[u32],
    table: &[u32],
    outputs: &[u32],
    destination: &mut [u8],
    n: u32,
    m: u32,
) -> u32
    ensures { record { answer = result; destination = destination.new }
        ≡ store_call w h labels.now links.now table.now outputs.now
        destination.old n m }
{
    let kept = clusters(w, h, links, table, outputs, n, m);
    let stored = sheet::store(kept, labels, destination);
    refusal::answer_of(&stored)
}
