//! Any mix of calls on a draft, played from a list.
#![tactic(auto)]

ghost use Rattle.std.specs.Prelude.{◌≡◌, ℕ, ◌<◌, false, List, ◌++◌, length, map, slice_set};
ghost use Rattle.model.specs.Calls.{Call, after};
ghost use Rattle.board.specs.Numbers.{outcome};
ghost use Rattle.plan.specs.States.{SameLoan, state_of};
ghost use Rattle.plan.specs.Trust.{Leads};
ghost use Rattle.mix.specs.Played.{calls_of, calls_all, answer_of, Answered};

use board::refusal::Refusal;
use plan::draft::Draft;
use rule::Rule;

// One step of a mix of calls on a draft. Settle is a settle and a reopen.
// A list of its own beside the acts of a file: a mix settles, a file names sensors.
#[derive(Clone, Copy)]
pub enum Step<R> {
    Limit { sensor: u8, mask: u64 },
    Claim { set: u8, mask: u64 },
    Bar { set: u8, mask: u64 },
    Post(R),
    Settle,
}

// How an answer is kept: as the result of its call, or as a number.
pub trait Answer {
    // 0, or the number of the refusal
    ghost number: { Self → ℕ };

    fn told(answer: Result<(), Refusal>) -> Self
        ensures { number result ≡ outcome answer };
}

impl Answer for Result<(), Refusal> {
    ghost number = { outcome };

    fn told(answer: Result<(), Refusal>) -> Result<(), Refusal> {
        answer
    }
}

impl Answer for u8 {
    ghost number = { λ n. n };

    fn told(answer: Result<(), Refusal>) -> u8 {
        answer.err().map_or(0, u8::from)
    }
}

// Makes the calls of the steps one after the other, and gives the answers one for one.
// If a mix of calls led to the draft, that mix and these calls lead to the one that is given back, so that settling it keeps every promise on mixes.
pub fn play<'a, R: Rule + Copy, A: Answer + Drop>(
    draft: Draft<'a, R>,
    steps: &[Step<R>],
    answers: &mut [A],
) -> Draft<'a, R>
    ensures lent { SameLoan draft.entry result }
    ensures plan { state_of result ≡ after R.fault R.run (calls_all steps.now) (state_of draft.entry) }
    ensures answered { Answered R.fault R.run steps.now (state_of draft.entry) (map A.number answers.new) }
    ensures leads { (h : List (Call R)) → Leads R.fault R.holds R.run h (state_of draft.entry) → Leads R.fault R.holds R.run (h ++ calls_all steps.now) (state_of result) }
{
    let mut held = draft;
    for (i, step) in steps.iter().enumerate() {
        let mut answer = Ok(());
        held = act(held, step, &mut answer);
        write(answers, i, A::told(answer));
    }
    held
}

// Writes an answer, where there is a place for it. By its index: what `get_mut` ensures says nothing of the slice after a write.
fn write<A: Drop>(answers: &mut [A], i: usize, answer: A)
    ensures { answers.new ≡ slice_set answers.old i answer }
{
    if i < answers.len() {
        answers[i] = answer;
    }
}

// One step. The answer has a place of its own: the borrow checker does not cover a pair with a draft in it.
fn act<'a, R: Rule + Copy>(
    mut draft: Draft<'a, R>,
    step: &Step<R>,
    answer: &mut Result<(), Refusal>,
) -> Draft<'a, R>
    ensures lent { SameLoan draft.entry result }
    ensures plan { state_of result ≡ after R.fault R.run (calls_of step.now) (state_of draft.entry) }
    ensures answer { outcome answer.new ≡ answer_of R.fault R.run step.now (state_of draft.entry) }
{
    *answer = match *step {
        Step::Limit { sensor, mask } => draft.limit(sensor, mask),
        Step::Claim { set, mask } => draft.claim(set, mask),
        Step::Bar { set, mask } => draft.bar(set, mask),
        Step::Post(rule) => draft.post(rule),
        Step::Settle => {
            draft = draft.settle().reopen();
            Ok(())
        }
    };
    draft
}
