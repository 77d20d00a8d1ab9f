// What a run is given, once its checks are passed: settings, image and size; and what is read of its pixels.
ghost use Rattle.std.specs.Prelude.{◌≡◌, ◌&&◌, ℕ, ◌+◌, ◌*◌, ◌≤◌, ◌<◌};
ghost use Rattle.std.proofs.Math.Option.{Option};
ghost use Rattle.rules.specs.Color.{pixel, is_discard};
ghost use Rattle.rules.specs.Grid as grid;
ghost use Rattle.rules.specs.Stage1 as rules;
ghost use Rattle.color.specs.Colors.{color_of, option_of};
ghost use Rattle.runner.specs.Types.{action_of, config_of};
ghost use Rattle.runner.specs.Code.Given.{Given, Spot};

use crate::RunnerConfig;
use color::Color;

// The settings, their shift as a number, and the image of w columns and h rows.
#[derive(Clone, Copy)]
pub(crate) struct Input<'a> {
    pub(crate) o: RunnerConfig,
    pub(crate) shift: u32,
    pub(crate) image: &'a [u8],
    pub(crate) w: u32,
    pub(crate) h: u32,
    ghost given: { Given (config_of o) w h image.now shift },
}

impl<'a> Input<'a> {
    // The colour of pixel i. It is read here, and not by a call of `color`, which is compiled to one load that is taken
    // apart again: a run over flat regions then takes a quarter more instructions.
    #[tactic(auto, unfolding(rules::specs::Color::pixel), using(color::proofs::Chunks::in_chunk))]
    pub(crate) fn color_at(&self, i: u32) -> Color
        requires { i < self.now.w * self.now.h }
        ensures { color_of result ≡ pixel self.now.image.now i }
    {
        let (pixels, _) = self.image.as_chunks::<4>();
        let [r, g, b, a] = &pixels[i as usize];
        Color {
            r: *r,
            g: *g,
            b: *b,
            a: *a,
        }
    }

    // Whether pixel i is a key pixel.
    pub(crate) fn is_key(&self, i: u32) -> bool
        requires { i < self.now.w * self.now.h }
        ensures { result ≡ rules.is_key (config_of self.now.o) self.now.image.now i }
    {
        self.o.is_key(self.color_at(i))
    }

    // Whether pixel i is discarded.
    pub(crate) fn is_discarded(&self, i: u32) -> bool
        requires { i < self.now.w * self.now.h }
        ensures { let p = self.now in
            result ≡ (rules.is_key (config_of p.o) p.image.now i && is_discard (action_of p.o.keying_action)) }
    {
        self.is_key(i) & self.o.is_discard()
    }

    // Whether two pixels are like under the settings.
    #[tactic(auto, unfolding(rules::specs::Stage1::same_at))]
    pub(crate) fn is_same(&self, a: Option<Color>, b: Option<Color>) -> bool
        ensures { (p q : Option ℕ) → option_of a ≡ rules.color_at self.now.image.now p
            → option_of b ≡ rules.color_at self.now.image.now q
            → result ≡ rules.same_at (config_of self.now.o) self.now.image.now p q }
    {
        color::is_same(a, b, self.shift, self.o.is_same_color_b)
    }
}

// A pixel: its number, its column and its row.
#[derive(Clone, Copy)]
pub(crate) struct Pixel {
    pub(crate) i: u32,
    pub(crate) x: u32,
    pub(crate) y: u32,
}

// A pixel of the image of a run.
#[derive(Clone, Copy)]
pub(crate) struct Here<'a> {
    pub(crate) input: &'a Input<'a>,
    pub(crate) at: Pixel,
    ghost there: { Spot input.now.w input.now.h at.i at.x at.y },
}

impl<'a> Here<'a> {
    // The pixel to the left; none at the border.
    #[tactic(auto, using(crate::proofs::Spots::left_pixels))]
    pub(crate) fn left(self) -> Option<Color>
        ensures { let s = self.entry in let p = s.input.now in
            option_of result ≡ rules.color_at p.image.now (grid.left p.w s.at.i) }
    {
        let Here { input, at } = self;
        if at.x == 0 {
            return None;
        }
        color::pixel_at(input.image, input.w, input.h, at.x - 1, at.y)
    }

    // The pixel above.
    #[tactic(auto, unfolding(rules::specs::Stage1::color_at), using(crate::proofs::Spots::up_pixels))]
    pub(crate) fn up(self) -> Option<Color>
        ensures { let s = self.entry in let p = s.input.now in
            option_of result ≡ rules.color_at p.image.now (grid.up p.w s.at.i) }
    {
        let Here { input, at } = self;
        if at.y == 0 {
            return None;
        }
        color::pixel_at(input.image, input.w, input.h, at.x, at.y - 1)
    }

    // The pixel to the left of the one above.
    pub(crate) fn up_left(self) -> Option<Color>
        ensures { let s = self.entry in let p = s.input.now in
            option_of result ≡ rules.color_at p.image.now (grid.up_left p.w s.at.i) }
    {
        let Here { input, at } = self;
        if at.y == 0 {
            return None;
        }
        let above = Pixel {
            i: at.i - input.w,
            x: at.x,
            y: at.y - 1,
        };
        Here { input, at: above }.left()
    }

    // The pixel n after it, in a row that goes so far, or the first one of the next row.
    pub(crate) fn past(self, n: u32) -> Pixel
        requires { (0 < n) × (self.at.x + n ≤ self.input.now.w) }
        ensures { let s = self.entry in let w = s.input.now.w in (result.i ≡ s.at.i + n) × (result.x < w)
            × (result.i ≡ w * result.y + result.x) }
    {
        let Here { input, at } = self;
        let i = at.i + n;
        if at.x + n == input.w {
            return Pixel {
                i,
                x: 0,
                y: at.y + 1,
            };
        }
        Pixel {
            i,
            x: at.x + n,
            y: at.y,
        }
    }
}
