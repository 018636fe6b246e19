//! A job is a list of steps, and is built, settled and listed.
use crate::NO_RULE;
use board::domains::Domains;
use board::refusal::Refusal;
use kinds::SheetRule;
use plan::draft::{Draft, MOST_PLACES};
use range::range::Range;
use roots::roots::Roots;
use sets::apart::Apart;
use sets::count::Count;
use sets::row::Row;
use sets::within::Within;
use settle::settle;

// One call of a plan, as C lays it out. `op` says which, by a number of the C interface, and what the other fields are:
//   0 new: a sensors, b slots, c sets, the kind word in `kinds`
//   1 limit sensor a to the mask    2 claim the mask for set a    3 bar the mask from set a
//   4 post Range and 5 post Roots: the sensors of the mask, set a of sensors, set b of slots
//   6 post Within a b    7 post Apart a b    8 post Count of a, from b to c    9 post Row of a
// Any other number does nothing.
#[repr(C)]
pub struct Step {
    pub mask: u64,
    pub kinds: u32,
    pub op: u8,
    pub a: u8,
    pub b: u8,
    pub c: u8,
}

// What a step asks of a plan. A list of its own beside a file's and a mix's: it names no sensor and settles nothing, and new is one of it.
enum Act {
    New { n: u8, m: u8, k: u8, kinds: u32 },
    Limit { sensor: u8, mask: u64 },
    Claim { set: u8, mask: u64 },
    Bar { set: u8, mask: u64 },
    Post(SheetRule),
}

// The number of a step is no call's.
struct NoCall;

impl TryFrom<&Step> for Act {
    type Error = NoCall;

    fn try_from(step: &Step) -> Result<Act, NoCall> {
        let Step {
            mask,
            kinds,
            op,
            a,
            b,
            c,
        } = *step;
        Ok(match op {
            0 => Act::New {
                n: a,
                m: b,
                k: c,
                kinds,
            },
            1 => Act::Limit { sensor: a, mask },
            2 => Act::Claim { set: a, mask },
            3 => Act::Bar { set: a, mask },
            4 => Act::Post(SheetRule::Range(Range {
                g: mask,
                s: a,
                t: b,
            })),
            5 => Act::Post(SheetRule::Roots(Roots {
                g: mask,
                s: a,
                t: b,
            })),
            6 => Act::Post(SheetRule::Within(Within { a, b })),
            7 => Act::Post(SheetRule::Apart(Apart { a, b })),
            8 => Act::Post(SheetRule::Count(Count {
                a,
                least: b,
                most: c,
            })),
            9 => Act::Post(SheetRule::Row(Row { a })),
            _ => return Err(NoCall),
        })
    }
}

// Makes the calls on a new draft, settles it, and writes the listing at the front of the output; the listing's length, or 0 where the output is too short.
// The answer to each call goes into `answers`, as far as that reaches: 0, or the number of the refusal.
// Numbers, since C calls it.
pub fn slotplan_listing(job: &[Step], answers: &mut [u8], out: &mut [u8]) -> usize {
    let mut places = [NO_RULE; MOST_PLACES];
    let mut draft = Draft::begin(&mut places);
    for (i, step) in job.iter().enumerate() {
        let answer = call(&mut draft, step);
        if let Some(place) = answers.get_mut(i) {
            *place = answer.err().map_or(0, u8::from);
        }
    }
    draft.settle().listing(out).unwrap_or(0)
}

// Makes the calls on a new draft and settles it, that many times; the first sensor's candidates, joined by exclusive or.
pub fn slotplan_jobs(job: &[Step], times: u32) -> u64 {
    let mut places = [NO_RULE; MOST_PLACES];
    (0..times).fold(0, |sum, _time| sum ^ settled_first(job, &mut places))
}

// Makes the calls once and settles what they give that many times; the first sensor's candidates, joined by exclusive or.
pub fn slotplan_settles(job: &[Step], times: u32) -> u64 {
    let mut rules = [NO_RULE; MOST_PLACES];
    let (start, count) = prepare(job, &mut rules);
    let used = &rules[..count.min(MOST_PLACES)];
    (0..times).fold(0, |sum, _time| {
        let mut d = start;
        settle(used, &mut d);
        sum ^ d.candidates(0)
    })
}

// The box that the entries of a job leave, and its rules, written to the front of a list; how many there are.
// The list is lent, with a count: an `ArrayVec` is made by value, which takes 6 KiB more of the stack.
fn prepare(job: &[Step], rules: &mut [SheetRule]) -> (Domains, usize) {
    let mut start = Domains::least();
    let mut count = 0;
    for step in job {
        match Act::try_from(step) {
            Ok(Act::New { n, m, k, kinds }) => start = Domains::new(
                n,
                m,
                k,
                u64::from(kinds),
            ).unwrap_or(start),
            Ok(Act::Limit { sensor, mask }) => {
                start.limit(sensor, mask);
            }
            Ok(Act::Claim { set, mask }) => {
                start.claim(set, mask);
            }
            Ok(Act::Bar { set, mask }) => {
                start.bar(set, mask);
            }
            Ok(Act::Post(rule)) => {
                if count < rules.len() {
                    rules[count] = rule;
                    count += 1;
                }
            }
            Err(NoCall) => {}
        }
    }
    (start, count)
}

fn settled_first(job: &[Step], places: &mut [SheetRule]) -> u64 {
    let mut draft = Draft::begin(places);
    for step in job {
        let _ = call(&mut draft, step);
    }
    draft.settle().candidates(0).unwrap_or(0)
}

fn call(draft: &mut Draft<'_, SheetRule>, step: &Step) -> Result<(), Refusal> {
    match Act::try_from(step) {
        Ok(Act::New { n, m, k, kinds }) => draft.new(n, m, k, kinds),
        Ok(Act::Limit { sensor, mask }) => draft.limit(sensor, mask),
        Ok(Act::Claim { set, mask }) => draft.claim(set, mask),
        Ok(Act::Bar { set, mask }) => draft.bar(set, mask),
        Ok(Act::Post(rule)) => draft.post(rule),
        Err(NoCall) => Ok(()),
    }
}
