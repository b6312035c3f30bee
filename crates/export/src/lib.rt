// The nine calls as a host makes them: numbers as themselves, and a result as a lent list of numbers. A list of another length than the result
// has is refused: false, and nothing is written. Crate `export_c` hands them out to C.
#![tactic(auto)]

ghost use Rattle.std.specs.Prelude.{◌≡◌, [], length};
ghost use Rattle.protocol.specs.Calls.{inputs, numbered, format_of, housekeep_of, check_of};
ghost use Rattle.protocol.specs.Panels.{made, panel_of};
ghost use Rattle.export.specs.Numbers.{method_of, outcome_numbers, form_numbers, visit_numbers, fault_numbers};
ghost use Rattle.export.specs.Numbers.{handed, answer_handed, finish_handed, visit_handed, form_handed, handed_form, fault_handed, handed_fault};

use protocol::{Fault, Form, Method, Outcome, Visit};

// The eight numbers of an outcome. The list and its length are C's: each call judges it, and here and below it is a slice with a clause.
// Lengths here and below are widened by `as`: from `usize` to `u64` there is no From.
fn put_outcome(o: Outcome, list: &mut [u64])
    requires { length list.old ≡ 8 }
    ensures { list.new ≡ outcome_numbers o }
{
    list.copy_from_slice(&[
        u64::from(o.refusal),
        u64::from(reply::number_of(o.answer)),
        u64::from(o.status),
        o.length as u64,
        o.cookie_length as u64,
        u64::from(o.cookie_cleared),
        u64::from(o.callback_serial),
        u64::from(reply::data_of(o.answer)),
    ]);
}

// The three of a form.
fn put_form(f: Form, list: &mut [u64])
    requires { length list.old ≡ 3 }
    ensures { list.new ≡ form_numbers f }
{
    list.copy_from_slice(&[
        u64::from(f.refusal),
        f.username_length as u64,
        f.password_length as u64,
    ]);
}

// The two of a visit.
fn put_visit(v: Visit, list: &mut [u64])
    requires { length list.old ≡ 2 }
    ensures { list.new ≡ visit_numbers v }
{
    list.copy_from_slice(&[u64::from(v.refusal), v.length as u64]);
}

// The two of a register's check. Beside `put_visit`, since each names the fields of its own result: one function over two numbers would say
// of neither which they are, and leave that to its callers.
fn put_fault(f: Fault, list: &mut [u64])
    requires { length list.old ≡ 2 }
    ensures { list.new ≡ fault_numbers f }
{
    list.copy_from_slice(&[u64::from(f.refusal), f.block as u64]);
}

pub fn pyhtirso_format(table: &mut [u8], time: u64) -> u32
    ensures { numbered result table.new ≡ format_of table.old time }
{
    protocol::number_of(signon::format(table, time))
}

pub fn pyhtirso_housekeep(table: &mut [u8], time: u64) -> u32
    ensures { numbered result table.new ≡ housekeep_of table.old time }
{
    protocol::number_of(signon::housekeep(table, time))
}

pub fn pyhtirso_check(table: &[u8]) -> u32
    ensures { result ≡ check_of table.now }
{
    protocol::number_of(signon::check(table))
}

pub fn pyhtirso_read_form(
    body: &[u8],
    username: &mut [u8],
    password: &mut [u8],
    form: &mut [u64],
) -> bool
    ensures { handed_form result form.new username.new password.new
        ≡ form_handed form.old body.now username.old password.old }
{
    if form.len() != 3 {
        return false;
    }
    let f = signon::read_form(body, username, password);
    put_form(f, form);
    true
}

pub fn pyhtirso_answer(
    table: &mut [u8],
    register: &[u8],
    post: bool,
    target: &[u8],
    body: &[u8],
    cookie: &[u8],
    time: u64,
    random: &[u8],
    verdict: bool,
    out: &mut [u8],
    cookie_out: &mut [u8],
    outcome: &mut [u64],
) -> bool
    ensures { handed result outcome.new table.new out.new cookie_out.new
        ≡ answer_handed outcome.old
        (inputs table.old register.now (method_of post) target.now body.now cookie.now
        time random.now verdict out.old cookie_out.old) }
{
    if outcome.len() != 8 {
        return false;
    }
    let method = Method::from(post);
    let o = signon::answer(
        table, register, method, target, body, cookie, time, random, verdict, out, cookie_out,
    );
    put_outcome(o, outcome);
    true
}

pub fn pyhtirso_finish(
    table: &mut [u8],
    serial: u32,
    ok: bool,
    time: u64,
    out: &mut [u8],
    outcome: &mut [u64],
) -> bool
    ensures { handed result outcome.new table.new out.new []
        ≡ finish_handed outcome.old table.old serial ok time out.old }
{
    if outcome.len() != 8 {
        return false;
    }
    let o = signon::finish(table, serial, ok, time, out);
    put_outcome(o, outcome);
    true
}

pub fn pyhtirso_visit(
    table: &[u8],
    cookie: &[u8],
    number: u32,
    time: u64,
    random: &[u8],
    out: &mut [u8],
    visit: &mut [u64],
) -> bool
    ensures { handed result visit.new table.now out.new []
        ≡ visit_handed visit.old table.now cookie.now number time random.now out.old }
{
    if visit.len() != 2 {
        return false;
    }
    let v = signon::visit(table, cookie, number, time, random, out);
    put_visit(v, visit);
    true
}

pub fn pyhtirso_panel(service: &[u8], callback: &[u8], block: &mut [u8]) -> u32
    ensures { made result block.new ≡ panel_of service.now callback.now block.old }
{
    protocol::number_of(signon::panel(service, callback, block))
}

pub fn pyhtirso_check_register(register: &[u8], fault: &mut [u64]) -> bool
    ensures { handed_fault result fault.new ≡ fault_handed fault.old register.now }
{
    if fault.len() != 2 {
        return false;
    }
    let f = signon::check_register(register);
    put_fault(f, fault);
    true
}
