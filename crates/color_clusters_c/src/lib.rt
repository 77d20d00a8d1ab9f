// The calls for C and Rust over the library `color_clusters`: include/color_clusters.h declares them. Each exports the
// function of the same name there, with its promise. A slice is a pointer and then a length.
#![tactic(auto)]

ghost use Rattle.std.specs.Prelude.{◌≡◌, length};
ghost use Rattle.rules.specs.Refusals.{row_answer};
ghost use Rattle.rules.specs.Calls.{as_buffers, answered, with_picture, run_call, paint_call, run_and_paint_call};
ghost use Rattle.rules.specs.Calls.{store_call};
ghost use Rattle.rules.specs.Demand3.{Demand3Left};
ghost use Rattle.color_clusters.specs.Exports.{settings};

use color_clusters::exports;
use color_clusters::exports::Answer;

// A run.
#[unsafe(no_mangle)]
pub extern "C" fn color_clusters_run(
    is_same_color_a: i32,
    is_same_color_b: i32,
    hierarchical: u32,
    good_min_area: u32,
    good_max_area: u32,
    hollow_neighbours: u32,
    deepen_diff: i32,
    key_r: u8,
    key_g: u8,
    key_b: u8,
    key_a: u8,
    action: u32,
    w: u32,
    h: u32,
    image: &[u8],
    labels: &mut [u32],
    links: &mut [u32],
    table: &mut [u32],
    outputs: &mut [u32],
    work: &mut [u32],
) -> Answer
    ensures { answered result.number result.n result.m
        (as_buffers labels.new links.new table.new outputs.new
        work.new)
        ≡ run_call (settings is_same_color_a is_same_color_b hierarchical good_min_area good_max_area
        hollow_neighbours deepen_diff key_r key_g key_b key_a action) w h image.now
        (as_buffers labels.old links.old table.old outputs.old
        work.old) }
{
    exports::color_clusters_run(
        is_same_color_a,
        is_same_color_b,
        hierarchical,
        good_min_area,
        good_max_area,
        hollow_neighbours,
        deepen_diff,
        key_r,
        key_g,
        key_b,
        key_a,
        action,
        w,
        h,
        image,
        labels,
        links,
        table,
        outputs,
        work,
    )
}

// A run and then its picture.
#[unsafe(no_mangle)]
pub extern "C" fn color_clusters_run_and_paint(
    is_same_color_a: i32,
    is_same_color_b: i32,
    hierarchical: u32,
    good_min_area: u32,
    good_max_area: u32,
    hollow_neighbours: u32,
    deepen_diff: i32,
    key_r: u8,
    key_g: u8,
    key_b: u8,
    key_a: u8,
    action: u32,
    w: u32,
    h: u32,
    image: &[u8],
    labels: &mut [u32],
    links: &mut [u32],
    table: &mut [u32],
    outputs: &mut [u32],
    work: &mut [u32],
    picture: &mut [u8],
) -> Answer
    ensures call { with_picture (answered result.number result.n result.m
        (as_buffers labels.new links.new table.new outputs.new
        work.new)) picture.new
        ≡ run_and_paint_call (settings is_same_color_a is_same_color_b hierarchical good_min_area good_max_area
        hollow_neighbours deepen_diff key_r key_g key_b key_a action) w h image.now
        (as_buffers labels.old links.old table.old outputs.old
        work.old) picture.old }
    ensures demand3 { result.number ≡ 0
        → Demand3Left (settings is_same_color_a is_same_color_b hierarchical good_min_area good_max_area
        hollow_neighbours deepen_diff key_r key_g key_b key_a action) w h image.now
        result.n labels.new links.new table.new picture.new }
{
    exports::color_clusters_run_and_paint(
        is_same_color_a,
        is_same_color_b,
        hierarchical,
        good_min_area,
        good_max_area,
        hollow_neighbours,
        deepen_diff,
        key_r,
        key_g,
        key_b,
        key_a,
        action,
        w,
        h,
        image,
        labels,
        links,
        table,
        outputs,
        work,
        picture,
    )
}

// The picture.
#[unsafe(no_mangle)]
pub extern "C" fn color_clusters_paint(
    w: u32,
    h: u32,
    links: &[u32],
    table: &[u32],
    outputs: &[u32],
    picture: &mut [u8],
    n: u32,
    m: u32,
) -> u32
    ensures { record { answer = result; picture = picture.new }
        ≡ paint_call w h links.now table.now outputs.now picture.old n m }
{
    exports::color_clusters_paint(w, h, links, table, outputs, picture, n, m)
}

// Whether the picture has a row.
#[unsafe(no_mangle)]
pub extern "C" fn color_clusters_row_check(w: u32, h: u32, picture: &[u8], y: u32) -> u32
    ensures { result ≡ row_answer w h (length picture.now) y }
{
    exports::color_clusters_row_check(w, h, picture, y)
}

// The stored sheet.
#[unsafe(no_mangle)]
pub extern "C" fn color_clusters_store(
    w: u32,
    h: u32,
    labels: &[u32],
    links: &[u32],
    table: &[u32],
    outputs: &[u32],
    destination: &mut [u8],
    n: u32,
    m: u32,
) -> u32
    ensures { record { answer = result; destination = destination.new }
        ≡ store_call w h labels.now links.now table.now outputs.now
        destination.old n m }
{
    exports::color_clusters_store(w, h, labels, links, table, outputs, destination, n, m)
}
