// Labels written for many pixels at once.
ghost use Rattle.std.specs.Prelude.{◌≡◌, List, ℕ, ◌<◌};
ghost use Rattle.rules.specs.State as rules;
ghost use Rattle.rules.specs.Code.Spans.{Consecutive};
ghost use Rattle.runner.specs.Code.Pixels.{pixels};
ghost use Rattle.runner.specs.Code.Labelling.{CanRelabel, Relabels};

use image::PixelList;

// How many links of what is left of a list, its first ones, each lead to the next pixel of the image.
fn stretch(links: &[u32], rest: PixelList) -> u32
    requires by_index { (L : List ℕ) × CanRelabel L links.now rest }
    requires some_left { 0 < rest.count }
    ensures { (result < rest.count) × Consecutive links.now rest.first result }
{
    let PixelList { first, count } = rest;
    for n in 0..count - 1 {
        if links[(first - 1 + n) as usize] != first + n + 1 {
            return n;
        }
    }
    count - 1
}

// Labels the first pixel of what is left of a list with t, and those that follow it both in the list and in the image;
// answers what is left then. Their places do not wait for their links.
fn relabel_stretch(labels: &mut [u32], links: &[u32], rest: PixelList, t: u32) -> PixelList
    requires can_relabel { CanRelabel labels.old links.now rest }
    requires some_left { 0 < rest.count }
    ensures { (result.count < rest.count) × Relabels t labels.old links.now rest labels.new result }
{
    let PixelList { first, count } = rest;
    let after = links[(first - 1) as usize];
    if after == first + 1 {
        let n = stretch(links, rest);
        labels[(first - 1) as usize..(first + n) as usize].fill(t);
        return PixelList {
            first: links[(first - 1 + n) as usize],
            count: count - (n + 1),
        };
    }
    labels[(first - 1) as usize] = t;
    PixelList {
        first: after,
        count: count - 1,
    }
}

// Labels the pixels of the list with t.
#[tactic(auto, using(rules::proofs::Walks::walk_none))]
pub(crate) fn relabel(labels: &mut [u32], links: &[u32], mut list: PixelList, t: u32)
    requires { CanRelabel labels.old links.now list }
    ensures { labels.new ≡ rules.relabel t (pixels links.now list) labels.old }
{
    while 0 < list.count {
        list = relabel_stretch(labels, links, list, t);
    }
}
