// What the settings say of key pixels, after runner.rs and builder.rs.
ghost use Rattle.std.specs.Prelude.{◌≡◌, List, ℕ};
ghost use Rattle.rules.specs.Color.{pixel, keying_on, is_discard};
ghost use Rattle.rules.specs.Stage1.{is_key};
ghost use Rattle.color.specs.Colors.{color_of};
ghost use Rattle.runner.specs.Types.{action_of, config_of};

use crate::{KeyingAction, RunnerConfig};
use color::Color;

impl RunnerConfig {
    // Whether keying is on: the key is not (0,0,0,0).
    #[tactic(auto, unfolding(rules::specs::Color::keying_on))]
    pub(crate) fn keying_on(self) -> bool
        ensures { result ≡ keying_on (config_of self) }
    {
        self.key_color != Color::default()
    }

    // Whether pixels of the key colour are discarded.
    pub(crate) fn is_discard(self) -> bool
        ensures { result ≡ is_discard (action_of self.keying_action) }
    {
        self.keying_action == KeyingAction::Discard
    }

    // Whether a pixel of colour c is a key pixel: it has the key colour, with keying on.
    #[tactic(auto, unfolding(rules::specs::Stage1::is_key))]
    pub(crate) fn is_key(self, c: Color) -> bool
        ensures { (image : List ℕ) (i : ℕ) → color_of c ≡ pixel image i → result ≡ is_key (config_of self) image i }
    {
        self.keying_on() & (c == self.key_color)
    }
}
