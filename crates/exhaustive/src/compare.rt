// The planner and the enumeration side by side, box by box.
use crate::enumerate::Enumeration;
use crate::planned::{enter, read};
use crate::reads::is_in;
use crate::small::{NOTHING, Size, Small};
use board::domains::Domains;
use board::refusal::Refusal;
use kinds::SheetRule;
use roots::implication::Implication;
use rule::Rule;
use settle::settle;

// How many settles are tried on each box.
const SETTLES: u8 = 6;

// What was seen: boxes, those that were tried, comparisons, those that came out different, and the box of the first of them.
#[derive(Clone, Copy, Default)]
pub struct Tally {
    pub boxes: u64,
    pub tried: u64,
    pub comparisons: u64,
    pub differences: u64,
    pub first: Option<u64>,
}

impl Tally {
    fn note(&mut self, planned: &Small, enumerated: &Small) {
        self.comparisons = self.comparisons.saturating_add(1);
        if planned != enumerated {
            self.first = self.first.or(Some(self.boxes));
            self.differences = self.differences.saturating_add(1);
        }
    }
}

// A board with its rules, which of its boxes are tried (every so many), and what they are compared with.
#[derive(Clone, Copy)]
pub struct Trial<'a> {
    pub size: Size,
    pub rules: &'a [SheetRule],
    pub parts: &'a [Implication],
    pub every: u64,
    pub search: Enumeration,
}

impl<'a> Trial<'a> {
    // Goes through the live boxes: the candidates of each sensor,
    pub fn all_boxes(&self, tally: &mut Tally) -> Result<(), Refusal> {
        for a in 1..self.cands_end(0) {
            for b in 1..self.cands_end(1) {
                for c in 1..self.cands_end(2) {
                    self.all_bounds([a, b, c], tally)?;
                }
            }
        }
        Ok(())
    }

    // A sensor that the board does not have stands on slot 0.
    fn cands_end(&self, sensor: u8) -> u64 {
        if sensor < self.size.sensors {
            self.size.slots_end()
        } else {
            2
        }
    }

    // .. the bounds of the first set
    fn all_bounds(&self, cands: [u64; 3], tally: &mut Tally) -> Result<(), Refusal> {
        for hi in 0..self.size.set_end(0) {
            for lo in 0..self.size.set_end(0) {
                if is_in(lo, hi) {
                    self.all_second(cands, lo, hi, tally)?;
                }
            }
        }
        Ok(())
    }

    // .. and those of the second.
    fn all_second(
        &self,
        cands: [u64; 3],
        lo: u64,
        hi: u64,
        tally: &mut Tally,
    ) -> Result<(), Refusal> {
        for h in 0..self.size.set_end(1) {
            for l in 0..self.size.set_end(1) {
                if is_in(l, h) {
                    let b = Small {
                        cands,
                        lo: [lo, l],
                        hi: [hi, h],
                    };
                    self.one_box(&b, tally)?;
                }
            }
        }
        Ok(())
    }

    // Each rule and each implication alone, and some rules together.
    fn one_box(&self, b: &Small, tally: &mut Tally) -> Result<(), Refusal> {
        let at = tally.boxes;
        tally.boxes = at.saturating_add(1);
        if self.every == 0 || at % self.every != 0 {
            return Ok(());
        }
        tally.tried = tally.tried.saturating_add(1);
        let d = enter(self.size, b)?;
        tally.note(&read(&d), b);
        for rule in self.rules {
            self.one_rule(rule, d, b, tally);
        }
        for part in self.parts {
            self.one_part(part, d, b, tally);
        }
        self.several(d, b, at, tally);
        Ok(())
    }

    fn one_rule(&self, rule: &SheetRule, was: Domains, b: &Small, tally: &mut Tally) {
        let mut d = was;
        rule.narrow(&mut d);
        let planned = read(&d);
        tally.note(&planned, &self.search.run(rule, b));
        if let SheetRule::Roots(_) = rule {
            self.roots_exact(rule, b, &planned, tally);
        }
    }

    // Roots is tight where its result is dead or its slot set is decided: then there is no support, or the result is its own tight box.
    fn roots_exact(&self, rule: &SheetRule, b: &Small, planned: &Small, tally: &mut Tally) {
        if *planned == NOTHING {
            tally.note(planned, &self.search.tight(rule, b));
        } else if planned.lo[1] == planned.hi[1] {
            tally.note(planned, &self.search.tight(rule, planned));
        }
    }

    fn one_part(&self, part: &Implication, was: Domains, b: &Small, tally: &mut Tally) {
        let mut d = was;
        part.narrow(&mut d);
        tally.note(&read(&d), &self.search.tight(part, b));
    }

    // Settles three rules at a time, drawn by the number of the box; a rule may be drawn twice.
    fn several(&self, was: Domains, b: &Small, at: u64, tally: &mut Tally) {
        let mut seed = at;
        for _ in 0..SETTLES {
            let first = next(seed);
            let second = next(first);
            let third = next(second);
            let drawn = [
                pick(self.rules, first),
                pick(self.rules, second),
                pick(self.rules, third),
            ];
            let mut d = was;
            settle(&drawn, &mut d);
            tally.note(&read(&d), &self.search.rest(&drawn, b));
            seed = third;
        }
    }
}

// The next number of a simple generator.
fn next(seed: u64) -> u64 {
    seed.wrapping_mul(6364136223846793005)
        .wrapping_add(1442695040888963407)
}

fn pick(rules: &[SheetRule], random: u64) -> SheetRule {
    if rules.is_empty() {
        return SheetRule::default();
    }
    rules[(random >> 33) as usize % rules.len()]
}
