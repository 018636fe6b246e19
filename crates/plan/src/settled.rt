ghost use Rattle.std.specs.Prelude.{◌≡◌, true, false, not, [], ◌∷◌, IfOk, nat_le};
ghost use Rattle.model.specs.Box.{cand, lo as low_of, hi as high_of, live};
ghost use Rattle.model.specs.Refusals.{refusal};
ghost use Rattle.board.specs.Numbers.{outcome};
ghost use Rattle.board.specs.Model.{board, model};
ghost use Rattle.text.specs.Lines.{listing as listing_text};
ghost use Rattle.text.specs.Printed.{Printed};
ghost use Rattle.model.specs.Calls.{does, reopen as reopening};
ghost use Rattle.plan.specs.States.{state_of, settled_of};

use crate::draft::Draft;
use board::domains::Domains;
use board::refusal::Refusal;
use rule::Rule;
use text::listing::listing;

// A plan at rest. It can be read, and takes no entries. It has the fields of a draft and is a type of its own, since the type says what may be asked.
#[derive(Drop)]
pub struct Settled<'a, R> {
    pub(crate) plan: Domains,
    pub(crate) places: &'a mut [R],
    pub(crate) count: usize,
}

// The bounds of a set: what every layout left takes in, and what some layout left may take in.
#[derive(Clone, Copy, PartialEq, Eq, Debug)]
pub struct Bounds {
    pub lower: u64,
    pub upper: u64,
}

impl<'a, R> Settled<'a, R> {
    // The candidates of a sensor.
    pub fn candidates(&self, sensor: u8) -> Result<u64, Refusal>
        ensures answer { outcome result ≡ refusal ((2, nat_le (board self.now.plan).sensors sensor) ∷ []) }
        ensures value { IfOk result (λ m. m ≡ cand (model self.now.plan) sensor) }
    {
        self.plan.fit_sensor(sensor)?;
        Ok(self.plan.candidates(sensor))
    }

    // The bounds of a set.
    pub fn bounds(&self, set: u8) -> Result<Bounds, Refusal>
        ensures answer { outcome result ≡ refusal ((3, nat_le (board self.now.plan).sets set) ∷ []) }
        ensures value { IfOk result (λ b. (b.lower ≡ low_of (model self.now.plan) set) × (b.upper ≡ high_of (model self.now.plan) set)) }
    {
        self.plan.fit_set(set)?;
        Ok(Bounds {
            lower: self.plan.lower(set),
            upper: self.plan.upper(set),
        })
    }

    // Whether no layout is left.
    pub fn dead(&self) -> bool
        ensures { result ≡ not (live (board self.now.plan) (model self.now.plan)) }
    {
        self.plan.is_dead()
    }

    // Writes the listing at the front of the output and tells its length; an output that is too short is refused and left as it was.
    pub fn listing(&self, out: &mut [u8]) -> Result<usize, Refusal>
        ensures { Printed (listing_text (board self.now.plan) (model self.now.plan)) result out.old out.new }
    {
        listing(&self.plan, out)
    }
}

impl<'a, R: Rule> Settled<'a, R> {
    // Makes it a draft again, with the same box and table. Never refuses.
    pub fn reopen(self) -> Draft<'a, R>
        ensures lent { result.places.ghost_name ≡ self.entry.places.ghost_name }
        ensures places { (result.places.now ≡ self.entry.places.now) × (result.count ≡ self.entry.count) }
        ensures plan { state_of result ≡ does R.fault R.run reopening (settled_of self.entry) }
    {
        Draft {
            plan: self.plan,
            places: self.places,
            count: self.count,
        }
    }
}
