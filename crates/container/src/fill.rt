// A picture of one colour.
ghost use Rattle.std.specs.Prelude.{◌≡◌, ◌*◌, ◌/◌, length};
ghost use Rattle.color.specs.Colors.{color_of};
ghost use Rattle.container.specs.Code.Uniform.{uniform};

use super::halves;
use color::Color;

// Paints every pixel of a picture in their order: the compiler then writes several at a time.
#[tactic(auto, using(crate::proofs::Covered::fills))]
pub(crate) fn fill(picture: &mut [u8], c: Color)
    requires { length picture.old ≡ 4 * (length picture.old / 4) }
    ensures { picture.new ≡ uniform (color_of c) (length picture.old / 4) }
{
    for p in 0..picture.len() / 4 {
        halves::paint_pixel(picture, p, c);
    }
}
