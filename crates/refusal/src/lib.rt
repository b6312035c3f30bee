// The refusals of each call, strictly in the order of the list: the first that applies is answered.
#![tactic(auto)]

ghost use Rattle.std.specs.Prelude.{◌≡◌};
ghost use Rattle.protocol.specs.Calls.{unless, sizes_right, request_fits, answer_refusal, finish_refusal, format_refusal, housekeep_refusal, check_of};
ghost use Rattle.protocol.specs.Visits.{visit_unless};
ghost use Rattle.protocol.specs.Refusals.{refusal_number, number_of_result};

use protocol::{LAST_TIME, Refusal};

// A rung of the list: refused where its test fails.
fn unless(right: bool, refusal: Refusal) -> Result<(), Refusal>
    ensures { number_of_result result ≡ unless right (refusal_number refusal) 0 }
{
    if right { Ok(()) } else { Err(refusal) }
}

// The lengths of what a request only lends, none of which is read before they are judged.
#[derive(Clone, Copy)]
pub struct Sizes {
    pub target: usize,
    pub body: usize,
    pub random: usize,
    pub out: usize,
    pub cookie_out: usize,
}

impl Sizes {
    fn right(&self) -> bool
        ensures { result ≡ sizes_right self.now.out self.now.cookie_out self.now.random }
    {
        (8192 <= self.out) & (64 <= self.cookie_out) & (self.random == 48)
    }

    fn request_fits(&self) -> bool
        ensures { result ≡ request_fits self.now.target self.now.body }
    {
        (self.target <= 2048) & (self.body <= 1024)
    }
}

// Check: 1, 2, which begin the list of every call that reads a table.
#[tactic(auto, using(crate::proofs::Laws::rung_no, crate::proofs::Laws::rung_yes), unfolding(protocol::specs::Calls::check_of))]
pub fn of_check(table: &[u8]) -> Result<(), Refusal>
    ensures { number_of_result result ≡ check_of table.now }
{
    unless(table_judge::shape_right(table.len()), Refusal::TableShape)?;
    unless(table_judge::table_lawful(table), Refusal::Table)
}

// Answer: 1 to 6. Here and below the time is judged and not handed out: what is answered is the refusal alone, as `answer_refusal` of protocol, which
// may not change, has it, and who calls makes the `Time`.
#[tactic(auto, using(crate::proofs::Laws::judged_no, crate::proofs::Laws::judged_yes, crate::proofs::Laws::rung_no, crate::proofs::Laws::rung_yes), unfolding(protocol::specs::Calls::check_of, protocol::specs::Calls::answer_refusal))]
pub fn of_answer(table: &[u8], register: &[u8], time: u64, sizes: Sizes) -> Result<(), Refusal>
    ensures { number_of_result result
        ≡ answer_refusal table.now register.now sizes.target sizes.body time sizes.random sizes.out sizes.cookie_out }
{
    of_check(table)?;
    unless(register::register_lawful(register), Refusal::Register)?;
    unless(sizes.right(), Refusal::Sizes)?;
    unless(sizes.request_fits(), Refusal::TooLong)?;
    unless(time <= LAST_TIME, Refusal::Time)
}

// Finish: 1, 2, 4 for the output only, 6.
#[tactic(auto, using(crate::proofs::Laws::judged_no, crate::proofs::Laws::judged_yes, crate::proofs::Laws::rung_no, crate::proofs::Laws::rung_yes), unfolding(protocol::specs::Calls::check_of, protocol::specs::Calls::finish_refusal))]
pub fn of_finish(table: &[u8], time: u64, out: usize) -> Result<(), Refusal>
    ensures { number_of_result result ≡ finish_refusal table.now time out }
{
    of_check(table)?;
    unless(8192 <= out, Refusal::Sizes)?;
    unless(time <= LAST_TIME, Refusal::Time)
}

// A visit: 1, 2, 4 for the output and the random input, 6. That there is none of its number is told later.
#[tactic(auto, using(crate::proofs::Laws::judged_no, crate::proofs::Laws::judged_yes, crate::proofs::Laws::rung_no, crate::proofs::Laws::rung_yes), unfolding(protocol::specs::Calls::check_of))]
pub fn of_visit(table: &[u8], time: u64, random: usize, out: usize) -> Result<(), Refusal>
    ensures { number_of_result result ≡ visit_unless table.now time random out 0 }
{
    of_check(table)?;
    unless((8192 <= out) & (random == 48), Refusal::Sizes)?;
    unless(time <= LAST_TIME, Refusal::Time)
}

// Housekeeping: 1, 2, 6.
#[tactic(auto, using(crate::proofs::Laws::judged_no, crate::proofs::Laws::judged_yes), unfolding(protocol::specs::Calls::check_of, protocol::specs::Calls::housekeep_refusal))]
pub fn of_housekeep(table: &[u8], time: u64) -> Result<(), Refusal>
    ensures { number_of_result result ≡ housekeep_refusal table.now time }
{
    of_check(table)?;
    unless(time <= LAST_TIME, Refusal::Time)
}

// Format: 1, 6.
#[tactic(auto, using(crate::proofs::Laws::rung_no, crate::proofs::Laws::rung_yes), unfolding(protocol::specs::Calls::format_refusal))]
pub fn of_format(size: usize, time: u64) -> Result<(), Refusal>
    ensures { number_of_result result ≡ format_refusal size time }
{
    unless(table_judge::shape_right(size), Refusal::TableShape)?;
    unless(time <= LAST_TIME, Refusal::Time)
}
