//! One who plays runs.

ghost use Rattle.std.specs.Prelude.{◌≡◌, IfOk, OnOk};
ghost use Rattle.nm_explore_each.specs.Game.{Game, Goes};

use nm_base::NoMemory;
use nm_explore_ways::Put;

/// One who plays runs: what the run that goes a way comes to doesn't depend on the runs before it.
pub trait Player<E> {
    /// How many places and faults there are, and what the run that goes a way comes to.
    ghost game: { Self → Game E };

    /// It can play.
    ghost ready: { Self → Type 0 };

    /// Plays the run that goes a way, from the start.
    fn play(&mut self, way: &[Put]) -> Result<E, NoMemory>
        requires ready { ready self.old }
        requires goes { Goes (game self.old) way.now }
        ensures ended { IfOk result (λ end. end ≡ (game self.old).comes_to way.now) }
        ensures same { OnOk result (game self.new ≡ game self.old) }
        ensures ready { OnOk result (ready self.new) };
}
