//! Two protocols of one site, side by side.
ghost use Rattle.std.specs.Prelude.{◌≡◌, ◌++◌};
ghost use Rattle.graph.specs.Model.{Model};
ghost use Rattle.protocol.specs.Beside.{beside};
ghost use Rattle.protocol.proofs.BesideLaws.{beside_laws};
ghost use Rattle.protocol.proofs.LayerTurns.{registers_append};

use crate::over::SIZE_CLIP;
use protocol::Output;
use refusal::Refusal;
use silent::Silent;
use site::site::Site;

/// Two protocols side by side: mates are the right's, all else is the left's.
#[derive(Drop)]
pub struct Beside<L, R> {
    left: L,
    right: R,
}

impl<L: Silent, R: Silent> Beside<L, R> {
    /// These two side by side, as they are.
    pub fn new(left: L, right: R) -> Beside<L, R>
        ensures plans { (L.Silent.plan result.left ≡ L.Silent.plan left) × (R.Silent.plan result.right ≡ R.Silent.plan right) }
        ensures registers { (m : Model) → L.Silent.registers result.left m ++ R.Silent.registers result.right m ≡ L.Silent.registers left m ++ R.Silent.registers right m }
    {
        Beside { left, right }
    }
}

impl<L: Silent, R: Silent> Silent for Beside<L, R> {
    ghost Plan = { L.Silent.Plan × R.Silent.Plan };

    ghost plan = { λ s. (L.Silent.plan s.left, R.Silent.plan s.right) };

    ghost meaning = { λ p m. beside (L.Silent.meaning p.0 m) (R.Silent.meaning p.1 m) };

    ghost registers = { λ s m. L.Silent.registers s.left m ++ R.Silent.registers s.right m };

    ghost sized = { λ s m ok. registers_append _ _ (L.Silent.registers s.left m) (R.Silent.registers s.right m) (L.Silent.sized s.left m ok) (R.Silent.sized s.right m ok) };

    ghost laws = { λ p m ok. beside_laws m _ _ ok (L.Silent.laws p.0 m ok) (R.Silent.laws p.1 m ok) };

    fn turn(&mut self, site: &Site, v: usize) -> Result<bool, Refusal> {
        let moved = self.left.turn(site, v)?;
        let joined = self.right.turn(site, v)?;
        Ok(moved | joined)
    }

    fn write(&mut self, site: &Site, place: u64, value: u16) -> Result<(), Refusal> {
        // Each call declines by itself, as in `Over`.
        if place >= self.size(site) {
            return Err(Refusal::Place);
        }
        match place.checked_sub(self.left.size(site)) {
            None => self.left.write(site, place, value),
            Some(i) => self.right.write(site, i, value),
        }
    }

    fn read(&self, site: &Site, place: u64) -> Result<u16, Refusal> {
        if place >= self.size(site) {
            return Err(Refusal::Place);
        }
        match place.checked_sub(self.left.size(site)) {
            None => self.left.read(site, place),
            Some(i) => self.right.read(site, i),
        }
    }

    fn output(&self, site: &Site, v: usize) -> Result<Output, Refusal> {
        let output = self.left.output(site, v)?;
        let other = self.right.output(site, v)?;
        Ok(Output {
            mate: other.mate,
            ..output
        })
    }

    fn size(&self, site: &Site) -> u64 {
        (self.left.size(site) + self.right.size(site)).min(SIZE_CLIP)
    }

    fn bound(&self, site: &Site) -> u32 {
        self.left.bound(site).max(self.right.bound(site))
    }

    fn height(&self, site: &Site) -> u32 {
        self.left.height(site)
    }
}
