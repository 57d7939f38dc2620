//! Holds taken, lifted and cancelled.
ghost use Rattle.std.specs.Prelude.{◌≡◌, ◌==◌, ◌&&◌};
ghost use Rattle.promise.specs.Nets.{cancel as Cancel, hold as TakeHold, lift as Lift};
ghost use Rattle.net.specs.Calls.{Does, given_back, owed, taken};

use super::Net;
use crate::hold::Hold;
use promise::Lifted;
use refusal::Refusal;
use silent::Silent;

impl<P: Silent> Net<'_, P> {
    /// Takes a hold with the net's mark and this badge. Declines, and changes nothing: `Held` if one is open.
    pub fn hold(&mut self, badge: u16) -> Result<Hold, Refusal>
        ensures { Does P.Silent self.old (TakeHold badge) (taken result) self.new }
    {
        if self.held {
            return Err(Refusal::Held);
        }
        self.held = true;
        Ok(Hold {
            mark: self.mark,
            badge,
        })
    }

    /// Lifts a hold once the complete rounds have reached the bound; then none is open.
    /// Declines, hands the hold back and changes nothing: `Foreign` if the mark is not the net's or no hold is open, then `Early`.
    pub fn lift(&mut self, hold: Hold) -> Result<Lifted, (Refusal, Hold)>
        ensures { Does P.Silent self.old (Lift (owed hold)) (given_back result) self.new }
    {
        if !self.owns(&hold) {
            return Err((Refusal::Foreign, hold));
        }
        let bound = self.protocol.bound(self.site);
        if self.counters.rounds < bound {
            return Err((Refusal::Early, hold));
        }
        hold.close();
        self.held = false;
        Ok(Lifted {
            bound,
            last_change: self.counters.last_change,
        })
    }

    /// Gives a hold up; then none is open.
    /// Declines, hands the hold back and changes nothing: `Foreign` if the mark is not the net's or no hold is open.
    pub fn cancel(&mut self, hold: Hold) -> Result<(), (Refusal, Hold)>
        ensures { Does P.Silent self.old (Cancel (owed hold)) (given_back result) self.new }
    {
        if self.owns(&hold) {
            hold.close();
            self.held = false;
            return Ok(());
        }
        Err((Refusal::Foreign, hold))
    }

    // Whether a hold is open, and this one has the net's mark.
    fn owns(&self, hold: &Hold) -> bool
        ensures { result ≡ (self.now.held && hold.now.mark == self.now.mark) }
    {
        self.held && hold.mark == self.mark
    }
}
