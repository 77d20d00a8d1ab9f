// Walking along a list of pixels.
ghost use Rattle.std.specs.Prelude.{length};
ghost use Rattle.std.specs.Iterator.{at_most, YieldsFirst};
ghost use Rattle.runner.specs.Code.Pixels.{pixels, Readable};

// The pixels of what is left of a list, in its order. `next` is where the first of them stands, plus one: a link is
// read only when its pixel is asked for.
#[derive(Clone, Copy)]
pub(crate) struct Pixels<'a> {
    pub(crate) links: &'a [u32],
    pub(crate) next: &'a u32,
    pub(crate) left: u32,
    ghost readable: { Readable (length links.now) links.now (record { first = next.now; count = left }) },
}

impl Iterator for Pixels<'_> {
    type Item = u32;

    ghost next_gives = { YieldsFirst (λ s. pixels s.links.now (record { first = s.next.now; count = s.left })) };

    ghost remaining = { λ s. at_most s.left };

    // The next pixel.
    #[tactic(auto, using(rules::proofs::Walks::step, rules::proofs::Walks::walk_none))]
    fn next(&mut self) -> Option<u32> {
        if self.left == 0 {
            return None;
        }
        let p = *self.next - 1;
        self.next = &self.links[p as usize];
        self.left -= 1;
        Some(p)
    }
}
