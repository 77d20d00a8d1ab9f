// Bounding rectangles, after bound.rs. Right and bottom lie one past the last pixel.
ghost use Rattle.std.specs.Prelude.{◌≡◌};
ghost use Prim.Native.Nat.{◌<◌};
ghost use Rattle.rules.specs.State.{is_empty, merge_rect, pixel_rect};
ghost use Rattle.rules.specs.Code.Bounds.{count_bound};
ghost use Rattle.runner.specs.Types.{rect_of};

// All zero by default, the empty rectangle.
#[derive(Clone, Copy, Default)]
pub(crate) struct BoundingRect {
    pub(crate) left: u32,
    pub(crate) top: u32,
    pub(crate) right: u32,
    pub(crate) bottom: u32,
}

impl BoundingRect {
    // Whether it has neither width nor height.
    #[tactic(auto, unfolding(rules::specs::State::is_empty))]
    pub(crate) fn is_empty(self) -> bool
        ensures { result ≡ is_empty (rect_of self) }
    {
        (self.right == self.left) & (self.bottom == self.top)
    }

    // The smallest rectangle around both; an empty one does not count.
    #[tactic(auto, unfolding(rules::specs::State::merge_rect))]
    pub(crate) fn merge(self, other: BoundingRect) -> Self
        ensures { rect_of result ≡ merge_rect (rect_of self) (rect_of other) }
    {
        if other.is_empty() {
            return self;
        }
        if self.is_empty() {
            return other;
        }
        BoundingRect {
            left: self.left.min(other.left),
            top: self.top.min(other.top),
            right: self.right.max(other.right),
            bottom: self.bottom.max(other.bottom),
        }
    }

    // The rectangle with the pixel at column x, row y.
    #[tactic(auto, unfolding(rules::specs::State::pixel_rect))]
    pub(crate) fn add_x_y(self, x: u32, y: u32) -> Self
        requires { (x < count_bound) × (y < count_bound) }
        ensures { rect_of result ≡ merge_rect (rect_of self) (pixel_rect x y) }
    {
        self.merge(BoundingRect {
            left: x,
            top: y,
            right: x + 1,
            bottom: y + 1,
        })
    }
}
