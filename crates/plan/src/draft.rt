ghost use Rattle.std.specs.Prelude.{◌≡◌, ◌<◌, true, false, map, length, min, take, set, if◌then◌else◌, nat_le, ◌≢◌};
ghost use Rattle.masks.specs.Masks.{has};
ghost use Rattle.model.specs.Capacity.{most_places};
ghost use Rattle.model.specs.Board.{board_of, room as room_of};
ghost use Rattle.model.specs.Box.{full};
ghost use Rattle.model.specs.Laws.{asked};
ghost use Rattle.model.specs.Settled.{settled};
ghost use Rattle.model.specs.Refusals.{refusal};
ghost use Rattle.model.specs.Entries.{limit as limiting, claim as claiming, bar as barring};
ghost use Rattle.model.specs.Calls.{answer, does, draft as drafted, enter, post as posting, settle as settling, new_causes, no_place, MixesStand};
ghost use Rattle.board.specs.Numbers.{outcome};
ghost use Rattle.board.specs.Model.{board, model};
ghost use Rattle.plan.specs.States.{SameLoan, state_of, settled_of, posted_places, free_places};
ghost use Rattle.plan.specs.Trust.{Trusted};

use crate::settled::Settled;
use board::domains::Domains;
use board::refusal::{Refusal, earlier};
use rule::Rule;
use settle::settle;

// The most places of a rule table that are used.
pub const MOST_PLACES: usize = 256;

// The word that says which sets hold slots.
pub type KindWord = u32;

// A plan that takes entries and rules. Its board may be read; what is left of it only after it is settled.
// The first `count` of the places hold its rules: the places are lent, and no vector may grow here, since there is no heap.
#[derive(Drop)]
pub struct Draft<'a, R> {
    pub(crate) plan: Domains,
    pub(crate) places: &'a mut [R],
    pub(crate) count: usize,
}

// What a call leaves of the lent places it says in clauses of its own: a model of a draft would have no place for a loan and for what lies beyond the rules.
impl<'a, R: Rule> Draft<'a, R> {
    // A draft for one sensor, one slot and no set, over any places.
    pub fn begin(places: &'a mut [R]) -> Draft<'a, R>
        ensures lent { result.places.ghost_name ≡ places.entry.ghost_name }
        ensures places { result.places.now ≡ places.old }
        ensures plan { state_of result ≡ drafted (board_of 1 1 0 0) (length places.old) (full (board_of 1 1 0 0)) }
    {
        Draft {
            plan: Domains::least(),
            places,
            count: 0,
        }
    }

    // Makes it a new plan: n sensors, m slots and k sets, and an empty table.
    pub fn new(&mut self, n: u8, m: u8, k: u8, kinds: KindWord) -> Result<(), Refusal>
        ensures lent { SameLoan self.old self.new }
        ensures places { self.new.places.now ≡ self.old.places.now }
        ensures answer { outcome result ≡ refusal (new_causes n m k kinds) }
        ensures accepted { outcome result ≡ 0 → state_of self.new ≡ drafted (board_of n m k kinds) (length self.old.places.now) (full (board_of n m k kinds)) }
        ensures refused { (outcome result ≢ 0) → (self.new.plan ≡ self.old.plan) × (self.new.count ≡ self.old.count) }
    {
        // `?` copies the new plan once more, and then takes half as long again.
        match Domains::new(n, m, k, u64::from(kinds)) {
            Ok(plan) => {
                self.plan = plan;
                self.count = 0;
                Ok(())
            }
            Err(refusal) => Err(refusal),
        }
    }

    // Keeps the candidates of a sensor that are in the mask.
    // Limit, claim and bar are three calls: each names its own entry in its contract, and what they share is `board`'s.
    pub fn limit(&mut self, sensor: u8, mask: u64) -> Result<(), Refusal>
        ensures lent { SameLoan self.old self.new }
        ensures places { (self.new.places.now ≡ self.old.places.now) × (self.new.count ≡ self.old.count) }
        ensures answer { outcome result ≡ answer R.fault R.run (enter (limiting sensor mask)) (state_of self.old) }
        ensures plan { state_of self.new ≡ does R.fault R.run (enter (limiting sensor mask)) (state_of self.old) }
    {
        self.plan.fit_limit(sensor, mask)?;
        let mut plan = self.plan;
        plan.limit(sensor, mask);
        self.plan = plan;
        Ok(())
    }

    // Adds the mask to the lower bound of a set.
    pub fn claim(&mut self, set: u8, mask: u64) -> Result<(), Refusal>
        ensures lent { SameLoan self.old self.new }
        ensures places { (self.new.places.now ≡ self.old.places.now) × (self.new.count ≡ self.old.count) }
        ensures answer { outcome result ≡ answer R.fault R.run (enter (claiming set mask)) (state_of self.old) }
        ensures plan { state_of self.new ≡ does R.fault R.run (enter (claiming set mask)) (state_of self.old) }
    {
        self.plan.fit_bound(set, mask)?;
        let mut plan = self.plan;
        plan.claim(set, mask);
        self.plan = plan;
        Ok(())
    }

    // Takes the mask out of the upper bound of a set.
    pub fn bar(&mut self, set: u8, mask: u64) -> Result<(), Refusal>
        ensures lent { SameLoan self.old self.new }
        ensures places { (self.new.places.now ≡ self.old.places.now) × (self.new.count ≡ self.old.count) }
        ensures answer { outcome result ≡ answer R.fault R.run (enter (barring set mask)) (state_of self.old) }
        ensures plan { state_of self.new ≡ does R.fault R.run (enter (barring set mask)) (state_of self.old) }
    {
        self.plan.fit_bound(set, mask)?;
        let mut plan = self.plan;
        plan.bar(set, mask);
        self.plan = plan;
        Ok(())
    }

    // Settles the plan: its box becomes the largest box inside it that no rule of the table changes. Never refuses.
    // Whatever mix of calls led here, the result depends only on the entries and rules that were accepted,
    // no layout that keeps them all is lost, and a layout that alone is left keeps them all.
    pub fn settle(self) -> Settled<'a, R>
        ensures lent { result.places.ghost_name ≡ self.entry.places.ghost_name }
        ensures places { (result.places.now ≡ self.entry.places.now) × (result.count ≡ self.entry.count) }
        ensures plan { settled_of result ≡ does R.fault R.run settling (state_of self.entry) }
        ensures trusted { Trusted R.fault R.holds R.run (state_of self.entry) (model result.plan) }
        ensures mixes { MixesStand R.fault R.holds R.run }
    {
        let Draft {
            mut plan,
            places,
            count,
        } = self;
        settle_table(places, count, &mut plan);
        Settled {
            plan,
            places,
            count,
        }
    }

    // How many places the table has.
    pub fn places(&self) -> usize
        ensures { result ≡ length self.now.places.now }
    {
        self.places.len()
    }

    // How many sensors, slots and sets the board has. The board may be read before the plan is settled; the box may not.
    pub fn sensors(&self) -> u8
        ensures { result ≡ (board self.now.plan).sensors }
    {
        self.plan.sensors()
    }

    pub fn slots(&self) -> u8
        ensures { result ≡ (board self.now.plan).slots }
    {
        self.plan.slots()
    }

    pub fn sets(&self) -> u8
        ensures { result ≡ (board self.now.plan).sets }
    {
        self.plan.sets()
    }

    // Whether a set holds slots.
    pub fn of_slots(&self, set: u8) -> bool
        ensures { result ≡ has (board self.now.plan).kinds set }
    {
        self.plan.of_slots(set)
    }

    // How many numbers there are of the kind that a set holds.
    pub fn kind_size(&self, set: u8) -> u8
        ensures { result ≡ room_of (board self.now.plan) set }
    {
        self.plan.room(set)
    }

    // How many more rules the table has places for.
    pub fn free(&self) -> usize
        ensures { result ≡ free_places (state_of self.now) }
    {
        MOST_PLACES.min(self.places()).saturating_sub(self.count)
    }

    // Whether there is a place for one more rule.
    fn room(&self) -> Result<(), Refusal>
        ensures { outcome result ≡ (if no_place (state_of self.now) then 8 else 0) }
    {
        fit_count(self.places(), self.count)
    }
}

impl<'a, R: Rule + Drop> Draft<'a, R> {
    // Adds a rule to the table.
    pub fn post(&mut self, rule: R) -> Result<(), Refusal>
        ensures lent { SameLoan self.old self.new }
        ensures places { self.new.places.now ≡ posted_places (outcome result) self.old.places.now self.old.count rule }
        ensures answer { outcome result ≡ answer R.fault R.run (posting rule) (state_of self.old) }
        ensures plan { state_of self.new ≡ does R.fault R.run (posting rule) (state_of self.old) }
    {
        earlier(rule.fit(&self.plan), self.room())?;
        put(self.places, self.count, rule);
        self.count += 1;
        Ok(())
    }
}

// Whether a table with so many places and rules has a place for one more.
pub fn fit_count(places: usize, count: usize) -> Result<(), Refusal>
    ensures { outcome result ≡ (if nat_le (min places most_places) count then 8 else 0) }
{
    if count >= MOST_PLACES.min(places) {
        return Err(Refusal::Room);
    }
    Ok(())
}

// Settles a box under the first `count` rules of the places.
fn settle_table<R: Rule>(places: &[R], count: usize, d: &mut Domains)
    ensures board { board d.new ≡ board d.old }
    ensures model { model d.new ≡ settled (board d.old) (map (asked R.fault R.run (board d.old)) (take count places.now)) (model d.old) }
{
    settle(&places[..count.min(places.len())], d);
}

// Writes one place.
fn put<R: Drop>(places: &mut [R], at: usize, rule: R)
    requires { at < length places.old }
    ensures { places.new ≡ set places.old at rule }
{
    places[at] = rule;
}
