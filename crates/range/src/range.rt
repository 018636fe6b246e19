ghost use Rattle.std.specs.Prelude.{◌≡◌, true, MatchResult, Decides};
ghost use Rattle.model.specs.Box.{slotted};
ghost use Rattle.model.specs.Settled.{Progress};
ghost use Rattle.model.specs.Tight.{Supported};
ghost use Rattle.board.specs.Model.{board, model};
ghost use Rattle.board.specs.Numbers.{number};
ghost use Rattle.range.specs.Ranges.{range_fault, range_holds, range_run};
ghost use Rattle.model.proofs.Asked.{tight-lawful, tight-restful};

use board::domains::Domains;
use board::refusal::Refusal;
use covering::cover::{cover, spare};
use masks::{contains, is_within};
use rule::Rule;

// Set s lies within the sensors of g, and set t is exactly the set of the slots of the sensors in s.
#[derive(Clone, Copy)]
pub struct Range {
    pub g: u64,
    pub s: u8,
    pub t: u8,
}

impl Rule for Range {
    ghost fault = { range_fault };

    ghost holds = { range_holds };

    // the tight box: a choice remains exactly where some support uses it
    ghost run = { range_run };

    ghost lawful = { tight-lawful range_fault range_holds };

    ghost restful = { tight-restful range_fault range_holds };

    fn fit(&self, d: &Domains) -> Result<(), Refusal> {
        d.fit_group(self.g, self.s, self.t)
    }

    #[tactic(auto, unfolding(model::specs::Laws::asked))]
    fn narrow(&self, d: &mut Domains) -> bool {
        self.fit(d).is_ok() && self.squeeze(d)
    }
}

// That the rule fits is asked of two methods and of `supported`: a type that lends the rule and the box together to carry it would be no plainer.
impl Range {
    // Reads all that it needs, then writes. The able sensors are those of g and hi s with a candidate in hi t; a covering gives each slot of
    // lo t an able sensor of its own that has the slot as a candidate. Where lo s has a sensor that is not able, or there is no covering, there is
    // no support. Else this is left:
    // - of candidates: to a sensor that every covering uses the slots that coverings give it; to another one in lo s those in hi t; to the rest all
    // - of hi s the able sensors, and lo s gains those that every covering uses
    // - of hi t lo t and the candidates of able sensors that some covering leaves out
    // - lo t gains the slots that are the only candidate in hi t of a sensor in lo s
    fn squeeze(&self, d: &mut Domains) -> bool
        requires { range_fault (board d.old) self.now ≡ 0 }
        ensures board { board d.new ≡ board d.old }
        ensures model { model d.new ≡ range_run (board d.old) self.now (model d.old) }
        ensures moved { Progress (board d.old) result (model d.old) (model d.new) }
    {
        let was = self.read(d);
        if !is_within(was.lower, was.sensors) {
            return d.limit(0, 0);
        }
        match was.judge() {
            None => d.limit(0, 0),
            Some(verdict) => self.enter(d, &was, &verdict),
        }
    }

    // Whether some support of a rule that fits gives the sensor the slot.
    fn gives(&self, d: &Domains, sensor: u8, slot: u8) -> bool
        requires { range_fault (board d.now) self.now ≡ 0 }
        ensures { Decides result (Supported (board d.now) (range_holds (board d.now) self.now) (model d.now) (slotted sensor slot)) }
    {
        let was = self.read(d);
        if !is_within(was.lower, was.sensors) {
            return false;
        }
        let Ok(notes) = cover(&was.cands, was.sensors, was.claimed) else {
            return false;
        };
        let kept = was.kept(spare(&notes, sensor), d.candidates(sensor), sensor);
        contains(kept, slot)
    }
}

// Whether some support gives the sensor the slot.
pub fn supported(d: &Domains, rule: &Range, sensor: u8, slot: u8) -> bool
    requires { range_fault (board d.now) rule.now ≡ 0 }
    ensures used { result ≡ true → Supported (board d.now) (range_holds (board d.now) rule.now) (model d.now) (slotted sensor slot) }
    ensures found { Supported (board d.now) (range_holds (board d.now) rule.now) (model d.now) (slotted sensor slot) → result ≡ true }
{
    rule.gives(d, sensor, slot)
}

// The same, or the refusal of a rule that does not fit. A sensor or slot off the board has no support.
pub fn checked_supported(d: &Domains, rule: &Range, sensor: u8, slot: u8) -> Result<bool, Refusal>
    ensures { MatchResult result (λ b. (range_fault (board d.now) rule.now ≡ 0) × Decides b (Supported (board d.now) (range_holds (board d.now) rule.now) (model d.now) (slotted sensor slot))) (λ e. number e ≡ range_fault (board d.now) rule.now) }
{
    rule.fit(d)?;
    Ok(rule.gives(d, sensor, slot))
}
