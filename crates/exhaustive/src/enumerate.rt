// What the runs of rules make of a box, by going through its layouts one by one. Nothing here calls the planner.
use crate::reads::{is_in, meets, only};
use crate::relations::Relation;
use crate::small::{Layout, NOTHING, Small};
use kinds::SheetRule;
use roots::implication::Implication;
use roots::roots::Roots;

// The three slots as masks.
const SLOTS: [u64; 3] = [0b001, 0b010, 0b100];

// A box has at most 9 candidates and 12 members to lose or gain, so it comes to rest in fewer rounds.
const MOST_ROUNDS: u8 = 24;

// An enumeration for boards of so many sensors.
#[derive(Clone, Copy)]
pub struct Enumeration {
    pub sensors: u8,
    // The first mask that the first set is given. From 1 on the layouts where it is empty are forgotten: it shows that a difference is seen.
    pub first: u64,
}

impl Enumeration {
    // The hull of the layouts in the box at which the rule holds.
    pub fn tight<R: Relation>(self, rule: &R, b: &Small) -> Small {
        let mut hull = NOTHING;
        for u in SLOTS {
            for v in SLOTS {
                for w in SLOTS {
                    let slots = [u, v, w];
                    if is_open(b, &slots) {
                        self.add_sets(rule, b, slots, &mut hull);
                    }
                }
            }
        }
        hull
    }

    // Adds the layouts with these slots.
    fn add_sets<R: Relation>(self, rule: &R, b: &Small, slots: [u64; 3], hull: &mut Small) {
        for s in self.first..8 {
            if is_in(b.lo[0], s) && is_in(s, b.hi[0]) {
                for t in 0..8 {
                    if is_in(b.lo[1], t) && is_in(t, b.hi[1]) {
                        let x = Layout {
                            slots,
                            sets: [s, t],
                        };
                        if rule.holds(&x) {
                            add(hull, &x);
                        }
                    }
                }
            }
        }
    }

    // The run of a rule: its tight box; for Roots those of its implications, brought to rest.
    pub fn run(self, rule: &SheetRule, b: &Small) -> Small {
        match *rule {
            SheetRule::Roots(r) => at_rest(b, |at| self.round_of_parts(r, at)),
            _ => self.tight(rule, b),
        }
    }

    fn round_of_parts(self, r: Roots, b: Small) -> Small {
        let mut at = b;
        for sensor in 0..self.sensors {
            let (s, t) = (r.s, r.t);
            if meets(r.g, only(sensor)) {
                at = self.tight(&Implication::Implies { sensor, s, t }, &at);
                at = self.tight(&Implication::ImpliedBy { sensor, s, t }, &at);
            } else {
                at = self.tight(&Implication::Excluded { sensor, s }, &at);
            }
        }
        at
    }

    // The runs of the rules in turn, until nothing changes.
    pub fn rest(self, rules: &[SheetRule], b: &Small) -> Small {
        at_rest(b, |at| self.round_of_rules(rules, at))
    }

    fn round_of_rules(self, rules: &[SheetRule], b: Small) -> Small {
        let mut at = b;
        for rule in rules {
            at = self.run(rule, &at);
        }
        at
    }
}

// The box after rounds until one changes nothing.
fn at_rest<F: Fn(Small) -> Small>(b: &Small, round: F) -> Small
    requires { F.IsAlwaysCallable round }
{
    let mut at = *b;
    for _ in 0..MOST_ROUNDS {
        let next = round(at);
        if next == at {
            return at;
        }
        at = next;
    }
    at
}

// Whether these slots are candidates.
fn is_open(b: &Small, slots: &[u64; 3]) -> bool {
    b.cands[0] & slots[0] != 0 && b.cands[1] & slots[1] != 0 && b.cands[2] & slots[2] != 0
}

// Adds a layout to a hull.
fn add(hull: &mut Small, x: &Layout) {
    for (cands, slot) in hull.cands.iter_mut().zip(&x.slots) {
        *cands |= slot;
    }
    for (lo, members) in hull.lo.iter_mut().zip(&x.sets) {
        *lo &= members;
    }
    for (hi, members) in hull.hi.iter_mut().zip(&x.sets) {
        *hi |= members;
    }
}
