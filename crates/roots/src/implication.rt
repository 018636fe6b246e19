ghost use Rattle.std.specs.Prelude.{◌≡◌, ◌^◌, ◌<◌};
ghost use Rattle.model.specs.Entries.{narrow, narrowed};
ghost use Rattle.model.specs.Refusals.{refusal};
ghost use Rattle.model.specs.Settled.{Progress};
ghost use Rattle.board.specs.Numbers.{outcome};
ghost use Rattle.board.specs.Model.{board, model};
ghost use Rattle.roots.specs.Implications.{implication_fault, implied, implication_run, excluded_causes, linked_causes, subject, entries, implies_entries, implied_by_entries, unsure};
ghost use Rattle.model.proofs.Asked.{tight-lawful, tight-restful};

use board::domains::Domains;
use board::refusal::Refusal;
use masks::{contains, is_single, take_out};
use rule::Rule;

// What a sensor and its slot have to do with two sets.
#[derive(Clone, Copy)]
pub enum Implication {
    // the sensor is not in set s
    Excluded { sensor: u8, s: u8 },
    // if the sensor is in set s, its slot is in set t
    Implies { sensor: u8, s: u8, t: u8 },
    // if its slot is in set t, the sensor is in set s
    ImpliedBy { sensor: u8, s: u8, t: u8 },
}

// What a list of implications has at a place that is not used.
impl Default for Implication {
    ghost use Rattle.roots.specs.declared.implication.Implication.TheVariants.{Excluded};

    ghost is_default = { λ q. q ≡ Excluded 0 0 };

    fn default() -> Implication {
        Implication::Excluded { sensor: 0, s: 0 }
    }
}

impl Rule for Implication {
    ghost fault = { implication_fault };

    ghost holds = { implied };

    ghost run = { implication_run };

    ghost lawful = { tight-lawful implication_fault implied };

    ghost restful = { tight-restful implication_fault implied };

    fn fit(&self, d: &Domains) -> Result<(), Refusal> {
        match *self {
            Implication::Excluded { sensor, s } => fit_excluded(d, sensor, s),
            Implication::Implies { sensor, s, t } | Implication::ImpliedBy { sensor, s, t } => {
                fit_linked(d, sensor, s, t)
            }
        }
    }

    #[tactic(auto, using(crate::proofs::Runs::implication_runs), unfolding(model::specs::Laws::asked))]
    fn narrow(&self, d: &mut Domains) -> bool {
        self.fit(d).is_ok() && self.infer(d)
    }
}

impl Implication {
    // What an implication that fits says of the box.
    fn infer(&self, d: &mut Domains) -> bool
        requires { subject self.now < 64 }
        ensures board { board d.new ≡ board d.old }
        ensures model { model d.new ≡ narrowed (narrow (board d.old)) (entries self.now (model d.old)) (model d.old) }
        ensures moved { Progress (board d.old) result (model d.old) (model d.new) }
    {
        match *self {
            Implication::Excluded { sensor, s } => d.bar(s, only(sensor)),
            Implication::Implies { sensor, s, t } => Link { sensor, s, t }.forward(d),
            Implication::ImpliedBy { sensor, s, t } => Link { sensor, s, t }.backward(d),
        }
    }
}

// Whether a sensor and a set of sensors are named.
fn fit_excluded(d: &Domains, sensor: u8, s: u8) -> Result<(), Refusal>
    ensures { outcome result ≡ refusal (excluded_causes (board d.now) sensor s) }
{
    d.fit_sensor(sensor)?;
    d.fit_set(s)?;
    if d.of_slots(s) {
        return Err(Refusal::Kind);
    }
    Ok(())
}

// Whether a sensor, a set of sensors and a set of slots are named.
fn fit_linked(d: &Domains, sensor: u8, s: u8, t: u8) -> Result<(), Refusal>
    ensures { outcome result ≡ refusal (linked_causes (board d.now) sensor s t) }
{
    d.fit_sensor(sensor)?;
    d.fit_set(s)?;
    d.fit_set(t)?;
    if d.of_slots(s) || !d.of_slots(t) {
        return Err(Refusal::Kind);
    }
    Ok(())
}

// A sensor with a set of sensors and a set of slots.
#[derive(Clone, Copy)]
pub(crate) struct Link {
    pub(crate) sensor: u8,
    pub(crate) s: u8,
    pub(crate) t: u8,
    ghost small: { sensor < 64 },
}

impl Link {
    // Whether the sensor may be in s or not, and its slot in t or not: its implications then say nothing.
    pub(crate) fn is_unsure(self, d: &Domains) -> bool
        ensures { result ≡ unsure self.sensor self.s self.t (model d.now) }
    {
        let own = d.candidates(self.sensor);
        !contains(d.lower(self.s), self.sensor)
            && contains(d.upper(self.s), self.sensor)
            && own & d.upper(self.t) != 0
            && take_out(own, d.lower(self.t)) != 0
    }

    // A sensor surely in s has its slot in t; one that has no candidate for t is not in s.
    // `backward` is the mirror image in every call: one function for both would take four steps as parameters, and be no plainer.
    pub(crate) fn forward(self, d: &mut Domains) -> bool
        ensures board { board d.new ≡ board d.old }
        ensures model { model d.new ≡ narrowed (narrow (board d.old)) (implies_entries self.sensor self.s self.t (model d.old)) (model d.old) }
        ensures moved { Progress (board d.old) result (model d.old) (model d.new) }
    {
        let left = d.candidates(self.sensor) & d.upper(self.t);
        if !contains(d.lower(self.s), self.sensor) {
            return left == 0 && d.bar(self.s, only(self.sensor));
        }
        let cut = d.limit(self.sensor, left);
        if !is_single(left) {
            return cut;
        }
        let sole = d.claim(self.t, left);
        cut | sole
    }

    // A sensor surely not in s has its slot outside t; one whose candidates are all surely in t is in s.
    pub(crate) fn backward(self, d: &mut Domains) -> bool
        ensures board { board d.new ≡ board d.old }
        ensures model { model d.new ≡ narrowed (narrow (board d.old)) (implied_by_entries self.sensor self.s self.t (model d.old)) (model d.old) }
        ensures moved { Progress (board d.old) result (model d.old) (model d.new) }
    {
        let left = take_out(d.candidates(self.sensor), d.lower(self.t));
        if contains(d.upper(self.s), self.sensor) {
            return left == 0 && d.claim(self.s, only(self.sensor));
        }
        let cut = d.limit(self.sensor, left);
        if !is_single(left) {
            return cut;
        }
        let sole = d.bar(self.t, left);
        cut | sole
    }
}

// The mask of one sensor. It asks for a number below 64, where `single` of covering counts modulo 64.
pub(crate) fn only(sensor: u8) -> u64
    requires { sensor < 64 }
    ensures { result ≡ 2 ^ sensor }
{
    1 << sensor
}
