//! What a program in C or Rust links with to run the planner: each call of `driver`, with its contract. The C header is include/slotplan.h.
#![tactic(auto)]

ghost use Rattle.std.specs.Prelude.{◌≡◌, ◌≤◌, length};
ghost use Rattle.text.specs.Lines.{longest_listing};
ghost use Rattle.driver.specs.Exports.{text_of, Exported, accepted_of, first_of, joined};

use driver::job::Step;

// How many bytes the longest listing has.
#[unsafe(no_mangle)]
pub extern "C" fn slotplan_longest() -> usize
    ensures { result ≡ longest_listing }
{
    driver::slotplan_longest()
}

// Loads a sheet file, settles it, and writes the listing, or the line of the refusal, at the front of the output; the text's length.
// Where the output is too short, 0, and the output is left as it was. One of the longest listing's length never is.
#[unsafe(no_mangle)]
pub extern "C" fn slotplan_print(file: &[u8], out: &mut [u8]) -> usize
    ensures printed { Exported (text_of file.now) result out.old out.new }
    ensures enough { length (text_of file.now) ≤ longest_listing }
{
    driver::slotplan_print(file, out)
}

// Loads and settles a sheet file so many times, for timing; the candidates that it leaves to sensor 0, none where it is refused, joined by exclusive or.
#[unsafe(no_mangle)]
pub extern "C" fn slotplan_runs(file: &[u8], times: u32) -> u64
    ensures { result ≡ joined times (first_of file.now) }
{
    driver::slotplan_runs(file, times)
}

// Loads a sheet file so many times and settles it never, for timing; how many of the loads were accepted.
#[unsafe(no_mangle)]
pub extern "C" fn slotplan_loads(file: &[u8], times: u32) -> u32
    ensures { result ≡ accepted_of file.now times }
{
    driver::slotplan_loads(file, times)
}

// Makes the calls on a new draft, settles it, and writes the listing at the front of the output; the listing's length, or 0 where the output is too short.
// The answer to each call goes into `answers`, as far as that reaches: 0, or the number of the refusal.
#[unsafe(no_mangle)]
pub extern "C" fn slotplan_listing(job: &[Step], answers: &mut [u8], out: &mut [u8]) -> usize {
    driver::job::slotplan_listing(job, answers, out)
}

// Makes the calls on a new draft and settles it, that many times; the first sensor's candidates, joined by exclusive or.
#[unsafe(no_mangle)]
pub extern "C" fn slotplan_jobs(job: &[Step], times: u32) -> u64 {
    driver::job::slotplan_jobs(job, times)
}

// Makes the calls once and settles what they give that many times; the first sensor's candidates, joined by exclusive or.
#[unsafe(no_mangle)]
pub extern "C" fn slotplan_settles(job: &[Step], times: u32) -> u64 {
    driver::job::slotplan_settles(job, times)
}
