// The nine calls: format a table, check a table, keep house, read username and password from a form, answer a request, finish a callback,
// tell a visit, make a register block, check a register. A host calls these and nothing else. Each takes any bytes: it is refused by
// the first of the list that applies, and then nothing is written; or it does what the protocol says.
#![tactic(auto)]

ghost use Rattle.std.specs.Prelude.{◌≡◌, [], length};
ghost use Rattle.protocol.specs.Calls.{refused_outcome, numbered, format_of, housekeep_of, check_of, form_read, form_of, inputs, result_of, answer_of, finish_of};
ghost use Rattle.protocol.specs.Refusals.{refusal_number, number_of_result};
ghost use Rattle.protocol.specs.Visits.{visit_read, visit_of};
ghost use Rattle.protocol.specs.Panels.{made, panel_of, fault_of};

use protocol::{Answer, Brings, Fault, Form, Method, Outcome, Refusal, Time, Visit};
use refusal::Sizes;

// A refused call's result: its number, all else 0.
fn refused(refusal: Refusal) -> Outcome
    ensures { result ≡ refused_outcome (refusal_number refusal) }
{
    Outcome {
        refusal: refusal.into(),
        answer: Answer::Nothing,
        status: 0,
        length: 0,
        cookie_length: 0,
        cookie_cleared: false,
        callback_serial: 0,
    }
}

// The random input, whose length was judged.
fn drawn<'a>(random: &'a [u8]) -> &'a [u8; 48]
    requires { length random.now ≡ 48 }
    ensures { result.now ≡ random.now }
{
    random.try_into().unwrap()
}

// A fresh table, whatever the bytes were.
#[tactic(auto, using(crate::proofs::Laws::format_shape, protocol::proofs::Refusals::handed, protocol::proofs::Refusals::refused_some), unfolding(protocol::specs::Calls::format_of))]
pub fn format(table: &mut [u8], time: u64) -> Result<(), Refusal>
    ensures { numbered (number_of_result result) table.new ≡ format_of table.old time }
{
    refusal::of_format(table.len(), time)?;
    table_edit::format(table, time);
    Ok(())
}

// The clock moved, and every record that is dead by then freed.
#[tactic(auto, using(crate::proofs::Laws::housekeep_lawful, crate::proofs::Laws::housekeep_time, protocol::proofs::Refusals::handed, protocol::proofs::Refusals::refused_some, protocol::proofs::Held::holds_bytes), unfolding(protocol::specs::Calls::housekeep_of))]
pub fn housekeep(table: &mut [u8], time: u64) -> Result<(), Refusal>
    ensures { numbered (number_of_result result) table.new ≡ housekeep_of table.old time }
{
    refusal::of_housekeep(table, time)?;
    table_edit::housekeep(table, Time { seconds: time });
    Ok(())
}

// Whether a table is lawful.
pub fn check(table: &[u8]) -> Result<(), Refusal>
    ensures { number_of_result result ≡ check_of table.now }
{
    refusal::of_check(table)
}

// Username and password of a login body, for the host to judge.
pub fn read_form(body: &[u8], username: &mut [u8], password: &mut [u8]) -> Form
    ensures { form_read result username.new password.new ≡ form_of body.now username.old password.old }
{
    form::read_form(body, username, password)
}

// A request, its cookie and the host's verdict on a password: the answer into `out`, a new session's cookie into `cookie_out`.
// Each parameter by itself: the nine calls, which `export` and `export_c` hand out to C, may not change.
#[tactic(auto, using(crate::proofs::Laws::answer_lawful, crate::proofs::Laws::answer_time, crate::proofs::Laws::answer_drawn, protocol::proofs::Refusals::refused_some), unfolding(protocol::specs::Calls::answer_of))]
pub fn answer(
    table: &mut [u8],
    register: &[u8],
    method: Method,
    target: &[u8],
    body: &[u8],
    cookie: &[u8],
    time: u64,
    random: &[u8],
    verdict: bool,
    out: &mut [u8],
    cookie_out: &mut [u8],
) -> Outcome
    ensures { result_of result table.new out.new cookie_out.new
        ≡ answer_of (inputs table.old register.now method target.now body.now cookie.now time
        random.now verdict out.old cookie_out.old) }
{
    let sizes = Sizes {
        target: target.len(),
        body: body.len(),
        random: random.len(),
        out: out.len(),
        cookie_out: cookie_out.len(),
    };
    if let Err(refusal) = refusal::of_answer(table, register, time, sizes) {
        return refused(refusal);
    }
    table_edit::tick(table, Time { seconds: time }); // what is dead by then stays in its slot
    let brings = Brings {
        register,
        cookie,
        random: drawn(random),
        verdict,
    };
    route::request(table, method, target, body, brings, out, cookie_out)
}

// The outcome of the callback of a serial, yes only after a good certificate and a 200.
#[tactic(auto, using(crate::proofs::Laws::finish_lawful, crate::proofs::Laws::finish_room, crate::proofs::Laws::finish_time, crate::proofs::Laws::finish_started, protocol::proofs::Refusals::refused_some), unfolding(protocol::specs::Calls::finish_of))]
pub fn finish(table: &mut [u8], serial: u32, outcome: bool, time: u64, out: &mut [u8]) -> Outcome
    ensures { result_of result table.new out.new [] ≡ finish_of table.old serial outcome time out.old }
{
    if let Err(refusal) = refusal::of_finish(table, time, out.len()) {
        return refused(refusal);
    }
    table_edit::tick(table, Time { seconds: time });
    finish::finish(table, serial, outcome, out)
}

// What a panel is to be told of sign-off: the visit of a number, from 0, of the cookie's session. The table is only read.
#[tactic(auto, using(crate::proofs::Laws::visit_fine, crate::proofs::Laws::visit_room, crate::proofs::Laws::visit_drawn, crate::proofs::Laws::visit_time, visit::proofs::Laws::visit_refused_lem, visit::proofs::Laws::visit_told, protocol::proofs::Refusals::refused_some))]
pub fn visit(
    table: &[u8],
    cookie: &[u8],
    number: u32,
    time: u64,
    random: &[u8],
    out: &mut [u8],
) -> Visit
    ensures { visit_read result table.now out.new
        ≡ visit_of table.now cookie.now number time random.now out.old }
{
    if let Err(refusal) = refusal::of_visit(table, time, random.len(), out.len()) {
        return Visit {
            refusal: refusal.into(),
            length: 0,
        };
    }
    visit::tell(
        table,
        cookie,
        number,
        Time { seconds: time },
        drawn(random),
        out,
    )
}

// The register block of a service and a callback, check included.
pub fn panel(service: &[u8], callback: &[u8], block: &mut [u8]) -> Result<(), Refusal>
    ensures { made (number_of_result result) block.new ≡ panel_of service.now callback.now block.old }
{
    register::panel(service, callback, block)
}

// Whether a register is lawful: 0, else the refusal's number and the first block at fault.
pub fn check_register(register: &[u8]) -> Fault
    ensures { result ≡ fault_of register.now }
{
    register::check(register)
}
