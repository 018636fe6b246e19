ghost use Rattle.std.specs.Prelude.{◌≡◌};
ghost use Rattle.model.specs.Refusals.{refusal};
ghost use Rattle.board.specs.Numbers.{outcome};
ghost use Rattle.board.specs.Model.{board};
ghost use Rattle.sets.specs.Fits.{set_causes, pair_causes};

use board::domains::Domains;
use board::refusal::Refusal;

// Whether a set is named.
pub fn fit_set(d: &Domains, a: u8) -> Result<(), Refusal>
    ensures { outcome result ≡ refusal (set_causes (board d.now) a) }
{
    d.fit_set(a)
}

// Whether two sets of one kind are named.
pub fn fit_pair(d: &Domains, a: u8, b: u8) -> Result<(), Refusal>
    ensures { outcome result ≡ refusal (pair_causes (board d.now) a b) }
{
    fit_set(d, a)?;
    fit_set(d, b)?;
    if d.of_slots(a) != d.of_slots(b) {
        return Err(Refusal::Kind);
    }
    if a == b {
        return Err(Refusal::Twice);
    }
    Ok(())
}
