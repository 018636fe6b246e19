ghost use Rattle.std.specs.Prelude.{◌≡◌, ◌<◌, ◌≤◌};
ghost use Rattle.model.specs.Settled.{Progress, round as once, settled};
ghost use Rattle.board.specs.Model.{board, model};
ghost use Rattle.roots.specs.Roots.{roots_fault, roots_holds, roots_run, own, implications, asking, RootsSplits};
ghost use Rattle.roots.specs.Exact.{DecidedExact};
ghost use Rattle.roots.specs.Parts.{roots_lawful, roots_restful};

use crate::implication::{Implication, Link, only};
use arrayvec::ArrayVec;
use board::domains::Domains;
use board::refusal::Refusal;
use masks::contains;
use rule::Rule;
use settle::settle;

// Set s is exactly the set of the sensors of g whose slot is in set t.
#[derive(Clone, Copy)]
pub struct Roots {
    pub g: u64,
    pub s: u8,
    pub t: u8,
}

// A Roots rule has at most two implications for each sensor.
const MOST_PARTS: usize = 128;

impl Rule for Roots {
    ghost fault = { roots_fault };

    ghost holds = { roots_holds };

    ghost run = { roots_run };

    ghost lawful = { roots_lawful };

    ghost restful = { roots_restful };

    fn fit(&self, d: &Domains) -> Result<(), Refusal> {
        d.fit_group(self.g, self.s, self.t)
    }

    #[tactic(auto, unfolding(model::specs::Laws::asked))]
    fn narrow(&self, d: &mut Domains) -> bool {
        self.fit(d).is_ok() && self.rest(d)
    }
}

// That the rule fits is asked of three methods here: a type that lends the rule and the box together to carry it would be no plainer.
impl Roots {
    // Brings the box to rest under the implications. Most runs find it at rest; one sweep tells, and spares them the list.
    fn rest(&self, d: &mut Domains) -> bool
        requires { roots_fault (board d.old) self.now ≡ 0 }
        ensures board { board d.new ≡ board d.old }
        ensures model { model d.new ≡ roots_run (board d.old) self.now (model d.old) }
        ensures moved { Progress (board d.old) result (model d.old) (model d.new) }
    {
        let stirred = self.sweep(d);
        if stirred {
            self.settle_parts(d);
        }
        stirred
    }

    // Each implication once, in place.
    fn sweep(&self, d: &mut Domains) -> bool
        requires { roots_fault (board d.old) self.now ≡ 0 }
        ensures board { board d.new ≡ board d.old }
        ensures model { model d.new ≡ once (asking (board d.old) (implications self.now (board d.old).sensors)) (model d.old) }
        ensures moved { Progress (board d.old) result (model d.old) (model d.new) }
    {
        let mut moved = false;
        for sensor in 0..d.sensors() {
            moved |= self.stir(d, sensor);
        }
        moved
    }

    // Those of one sensor.
    fn stir(&self, d: &mut Domains, sensor: u8) -> bool
        requires fit { roots_fault (board d.old) self.now ≡ 0 }
        requires sensor { sensor < (board d.old).sensors }
        ensures board { board d.new ≡ board d.old }
        ensures model { model d.new ≡ once (asking (board d.old) (own self.now sensor)) (model d.old) }
        ensures moved { Progress (board d.old) result (model d.old) (model d.new) }
    {
        if !contains(self.g, sensor) {
            return d.bar(self.s, only(sensor));
        }
        let link = Link {
            sensor,
            s: self.s,
            t: self.t,
        };
        if link.is_unsure(d) {
            return false;
        }
        let forth = link.forward(d);
        let back = link.backward(d);
        forth | back
    }

    // Settles the implications that the rule is made of.
    fn settle_parts(&self, d: &mut Domains) -> bool
        ensures board { board d.new ≡ board d.old }
        ensures model { model d.new ≡ settled (board d.old) (asking (board d.old) (implications self.now (board d.old).sensors)) (model d.old) }
        ensures moved { Progress (board d.old) result (model d.old) (model d.new) }
    {
        let parts = self.list_parts(d.sensors());
        settle(&parts, d)
    }

    // The implications, those of the first sensor first.
    fn list_parts(&self, sensors: u8) -> ArrayVec<Implication, MOST_PARTS>
        requires { sensors ≤ 64 }
        ensures { result.items ≡ implications self.now sensors }
    {
        let s = self.s;
        let t = self.t;
        let mut parts = ArrayVec::new();
        for sensor in 0..sensors {
            if contains(self.g, sensor) {
                parts.push(Implication::Implies { sensor, s, t });
                parts.push(Implication::ImpliedBy { sensor, s, t });
            } else {
                parts.push(Implication::Excluded { sensor, s });
            }
        }
        parts
    }
}

// A Roots rule holds exactly where all its implications do.
pub fn roots_split()
    ensures { RootsSplits }
{}

// After a settle that is not a dead end, a Roots rule whose slot set is decided supports every choice left.
pub fn decided_stands()
    ensures { DecidedExact }
{}
