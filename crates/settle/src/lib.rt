#![tactic(auto)]

ghost use Rattle.std.specs.Prelude.{◌≡◌, map};
ghost use Rattle.model.specs.Laws.{asked};
ghost use Rattle.model.specs.Settled.{Progress, round as once, settled};
ghost use Rattle.board.specs.Model.{board, model};

use board::domains::Domains;
use rule::Rule;

// Brings the box to rest: the largest box inside it that no fitting rule's run changes; whether that changed the box.
// Each rule's fit is asked anew at each run, and a misfit skipped. The order of the runs is free; the result does not show it.
pub fn settle<R: Rule>(rules: &[R], d: &mut Domains) -> bool
    ensures board { board d.new ≡ board d.old }
    ensures model { model d.new ≡ settled (board d.old) (map (asked R.fault R.run (board d.old)) rules.now) (model d.old) }
    ensures moved { Progress (board d.old) result (model d.old) (model d.new) }
{
    let mut moved = false;
    while round(rules, d) {
        moved = true;
    }
    moved
}

// Each rule once, in the order of the table; whether that changed the box.
fn round<R: Rule>(rules: &[R], d: &mut Domains) -> bool
    ensures board { board d.new ≡ board d.old }
    ensures model { model d.new ≡ once (map (asked R.fault R.run (board d.old)) rules.now) (model d.old) }
    ensures moved { Progress (board d.old) result (model d.old) (model d.new) }
{
    let mut changed = false;
    for rule in rules {
        changed |= step(rule, d);
    }
    changed
}

// One rule, if it fits. A dead box has nothing to lose.
#[tactic(auto, unfolding(model::specs::Laws::asked))]
fn step<R: Rule>(rule: &R, d: &mut Domains) -> bool
    ensures board { board d.new ≡ board d.old }
    ensures model { model d.new ≡ asked R.fault R.run (board d.old) rule.now (model d.old) }
    ensures moved { Progress (board d.old) result (model d.old) (model d.new) }
{
    if d.is_dead() {
        return false;
    }
    rule.fit(d).is_ok() && rule.narrow(d)
}
