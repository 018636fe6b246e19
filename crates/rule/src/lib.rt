#![tactic(auto)]

ghost use Rattle.std.specs.Prelude.{◌≡◌, ℕ, Bool};
ghost use Rattle.model.specs.Board.{Board};
ghost use Rattle.model.specs.Layout.{Layout};
ghost use Rattle.model.specs.Box.{Box};
ghost use Rattle.model.specs.Laws.{Lawful, Restful, asked};
ghost use Rattle.model.specs.Settled.{Progress};
ghost use Rattle.board.specs.Numbers.{outcome};
ghost use Rattle.board.specs.Model.{board, model};

use board::domains::Domains;
use board::refusal::Refusal;

// A kind of rule.
pub trait Rule {
    // the number of the refusal where the rule does not fit the board, else 0
    ghost fault: { Board → Self → ℕ };

    // at which layouts the rule holds
    ghost holds: { Board → Self → Layout → Bool };

    // what its run makes of a box
    ghost run: { Board → Self → Box → Box };

    // Whether the rule fits the board, by rule and board alone.
    fn fit(&self, d: &Domains) -> Result<(), Refusal>
        ensures { outcome result ≡ fault (board d.now) self.now };

    // Runs the rule, in place; whether that changed the box. A rule that does not fit changes nothing. Each kind asks its fit itself: a body here
    // would call a public method that requires it.
    fn narrow(&self, d: &mut Domains) -> bool
        ensures board { board d.new ≡ board d.old }
        ensures model { model d.new ≡ asked fault run (board d.old) self.now (model d.old) }
        ensures moved { Progress (board d.old) result (model d.old) (model d.new) };

    // shrinks, keeps-supports, monotone, decides-single: all that settling and mixes of calls rest on
    ghost lawful: { Lawful fault holds run };

    // at-rest
    ghost restful: { Restful fault run };
}
