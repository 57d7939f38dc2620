//! Drawing until the bound is reached.
ghost use Rattle.net.specs.Settling.{Rests, Settles};

use super::Net;
use daemon::Daemon;
use refusal::Refusal;
use silent::Silent;

impl<P: Silent> Net<'_, P> {
    /// Draws until the complete rounds have reached the bound. Where a draw is declined before that, declines as it does;
    /// the draws before it stand.
    pub fn settle<D: Daemon>(&mut self, daemon: &mut D) -> Result<(), Refusal>
        ensures settles { Settles P.Silent D.Daemon self.old daemon.old result self.new daemon.new }
        ensures rests { Rests P.Silent D.Daemon self.old daemon.old result self.new daemon.new }
    {
        let bound = self.bound();
        // A `while`: the net counts the rounds, and no count stands here.
        while self.rounds() < bound {
            self.draw(daemon)?;
        }
        Ok(())
    }
}
