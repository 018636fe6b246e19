ghost use Rattle.std.specs.Prelude.{◌≡◌, [], ◌∷◌, nat_le};
ghost use Rattle.model.specs.Refusals.{refusal};
ghost use Rattle.model.specs.Entries.{entry_causes, limit as limiting, claim as claiming, bar as barring};
ghost use Rattle.model.specs.Fits.{group_causes};
ghost use Rattle.board.specs.Model.{board};
ghost use Rattle.board.specs.Numbers.{outcome};

use crate::domains::Domains;
use crate::refusal::Refusal;
use masks::is_below;

// Whether what a call names is on the board. The box does not count.
impl Domains {
    // A sensor.
    pub fn fit_sensor(&self, sensor: u8) -> Result<(), Refusal>
        ensures { outcome result ≡ refusal ((2, nat_le (board self.now).sensors sensor) ∷ []) }
    {
        if sensor >= self.sensors {
            return Err(Refusal::Sensor);
        }
        Ok(())
    }

    // A sensor, and slots for it.
    pub fn fit_limit(&self, sensor: u8, mask: u64) -> Result<(), Refusal>
        ensures { outcome result ≡ refusal (entry_causes (board self.now) (limiting sensor mask)) }
    {
        self.fit_sensor(sensor)?;
        if !is_below(mask, self.slots) {
            return Err(Refusal::Mask);
        }
        Ok(())
    }

    // A set.
    pub fn fit_set(&self, set: u8) -> Result<(), Refusal>
        ensures { outcome result ≡ refusal ((3, nat_le (board self.now).sets set) ∷ []) }
    {
        if set >= self.sets {
            return Err(Refusal::Set);
        }
        Ok(())
    }

    // A set, and numbers of its kind, to be claimed or barred.
    pub fn fit_bound(&self, set: u8, mask: u64) -> Result<(), Refusal>
        ensures claim { outcome result ≡ refusal (entry_causes (board self.now) (claiming set mask)) }
        ensures bar { outcome result ≡ refusal (entry_causes (board self.now) (barring set mask)) }
    {
        self.fit_set(set)?;
        if !is_below(mask, self.room(set)) {
            return Err(Refusal::Mask);
        }
        Ok(())
    }

    // Sensors, a set of sensors and a set of slots.
    pub fn fit_group(&self, g: u64, s: u8, t: u8) -> Result<(), Refusal>
        ensures { outcome result ≡ refusal (group_causes (board self.now) g s t) }
    {
        self.fit_set(s)?;
        self.fit_set(t)?;
        if !is_below(g, self.sensors) {
            return Err(Refusal::Mask);
        }
        if self.of_slots(s) || !self.of_slots(t) {
            return Err(Refusal::Kind);
        }
        Ok(())
    }
}
