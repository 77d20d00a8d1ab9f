// Painting of a list from its first pixel and from its middle at once, while the middle of the next list is looked for.
ghost use Rattle.std.specs.Prelude.{◌≡◌, ◌+◌, ◌*◌, ◌/◌, ◌≤◌, ◌<◌, ℕ, T, All, length, get_or};
ghost use Rattle.rules.specs.Picture.{paint_pixel};
ghost use Rattle.rules.specs.Paint.{reads};
ghost use Rattle.color.specs.Colors.{color_of};
ghost use Rattle.container.specs.Code.Checked.{Listed};
ghost use Rattle.container.specs.Code.Leads.{Leads};
ghost use Rattle.container.specs.Code.Stretch.{paint_along};

use crate::checked::Sheet;
use color::Color;
use image::PixelList;

// Paints pixel p.
pub(crate) fn paint_pixel(picture: &mut [u8], p: usize, c: Color)
    requires { 4 * p + 4 ≤ length picture.old }
    ensures { picture.new ≡ paint_pixel (color_of c) p picture.old }
{
    let b = 4 * p;
    picture[b..b + 4].copy_from_slice(&[c.r, c.g, c.b, c.a]);
}

impl Sheet<'_> {
    // Where the links of a list lead: behind its last pixel.
    pub(crate) fn look(self, list: PixelList) -> u32
        requires { Listed self list }
        ensures { let s = self.entry in Leads s.size s.links.now list.first list.count result }
    {
        let mut at = list.first;
        for _step in 0..list.count {
            at = self.links[(at - 1) as usize];
        }
        at
    }

    // Paints count pixels from the first place and count from the second, while all of them go count links on.
    #[tactic(auto, using(crate::proofs::Stretches::going))]
    fn paint_two<const N: usize>(
        self,
        picture: &mut [u8],
        from: [u32; N],
        count: u32,
        c: Color,
    ) -> [u32; N]
        requires two { 2 ≤ N }
        requires long { 4 * self.size ≤ length picture.old }
        requires read { All (λ v. T (reads self.size self.links.now v count)) from }
        ensures ends { let s = self.entry in (i : ℕ) → i < N
            → Leads s.size s.links.now (get_or from.entry i 0) count (get_or result i 0) }
        ensures painted { let s = self.entry in picture.new
            ≡ paint_along (color_of c) s.links.now (get_or from.entry 1 0) count
            (paint_along (color_of c) s.links.now (get_or from.entry 0 0) count picture.old) }
    {
        let mut at = from;
        for _step in 0..count {
            paint_pixel(picture, (at[0] - 1) as usize, c);
            paint_pixel(picture, (at[1] - 1) as usize, c);
            self.follow(&mut at);
        }
        at
    }

    // Paints a list whose middle is mid, and answers where the links of ahead lead.
    pub(crate) fn paint_halves(
        self,
        picture: &mut [u8],
        list: PixelList,
        mid: u32,
        ahead: PixelList,
        c: Color,
    ) -> u32
        requires long { 4 * self.size ≤ length picture.old }
        requires list { Listed self list }
        requires middle { Leads self.size self.links.now list.first (list.count / 2) mid }
        requires ahead { Listed self ahead }
        ensures ahead { let s = self.entry in Leads s.size s.links.now ahead.first ahead.count result }
        ensures painted { let s = self.entry in picture.new
            ≡ paint_along (color_of c) s.links.now list.first list.count picture.old }
    {
        let half = list.count / 2;
        let both = half.min(ahead.count);
        let [x, y, first] = self.paint_two(picture, [list.first, mid, ahead.first], both, c);
        let [_, y] = self.paint_two(picture, [x, y], half - both, c);
        let end = self.look(PixelList {
            first,
            count: ahead.count - both,
        });
        if half + half < list.count {
            paint_pixel(picture, (y - 1) as usize, c);
        }
        end
    }
}
