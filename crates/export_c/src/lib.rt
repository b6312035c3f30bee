// The nine calls of crate `export` for a host that links the library: a slice is a pointer and a length. Each promises what the call of its name
// there promises.
#![tactic(auto)]

ghost use Rattle.std.specs.Prelude.{◌≡◌, []};
ghost use Rattle.protocol.specs.Calls.{inputs, numbered, format_of, housekeep_of, check_of};
ghost use Rattle.protocol.specs.Panels.{made, panel_of};
ghost use Rattle.export.specs.Numbers.{method_of};
ghost use Rattle.export.specs.Numbers.{handed, answer_handed, finish_handed, visit_handed, form_handed, handed_form, fault_handed, handed_fault};

#[unsafe(no_mangle)]
pub extern "C" fn pyhtirso_format(table: &mut [u8], time: u64) -> u32
    ensures { numbered result table.new ≡ format_of table.old time }
{
    export::pyhtirso_format(table, time)
}

#[unsafe(no_mangle)]
pub extern "C" fn pyhtirso_housekeep(table: &mut [u8], time: u64) -> u32
    ensures { numbered result table.new ≡ housekeep_of table.old time }
{
    export::pyhtirso_housekeep(table, time)
}

#[unsafe(no_mangle)]
pub extern "C" fn pyhtirso_check(table: &[u8]) -> u32
    ensures { result ≡ check_of table.now }
{
    export::pyhtirso_check(table)
}

#[unsafe(no_mangle)]
pub extern "C" fn pyhtirso_read_form(
    body: &[u8],
    username: &mut [u8],
    password: &mut [u8],
    form: &mut [u64],
) -> bool
    ensures { handed_form result form.new username.new password.new
        ≡ form_handed form.old body.now username.old password.old }
{
    export::pyhtirso_read_form(body, username, password, form)
}

#[unsafe(no_mangle)]
pub extern "C" fn pyhtirso_answer(
    table: &mut [u8],
    register: &[u8],
    post: bool,
    target: &[u8],
    body: &[u8],
    cookie: &[u8],
    time: u64,
    random: &[u8],
    verdict: bool,
    out: &mut [u8],
    cookie_out: &mut [u8],
    outcome: &mut [u64],
) -> bool
    ensures { handed result outcome.new table.new out.new cookie_out.new
        ≡ answer_handed outcome.old
        (inputs table.old register.now (method_of post) target.now body.now cookie.now
        time random.now verdict out.old cookie_out.old) }
{
    export::pyhtirso_answer(
        table, register, post, target, body, cookie, time, random, verdict, out, cookie_out,
        outcome,
    )
}

#[unsafe(no_mangle)]
pub extern "C" fn pyhtirso_finish(
    table: &mut [u8],
    serial: u32,
    ok: bool,
    time: u64,
    out: &mut [u8],
    outcome: &mut [u64],
) -> bool
    ensures { handed result outcome.new table.new out.new []
        ≡ finish_handed outcome.old table.old serial ok time out.old }
{
    export::pyhtirso_finish(table, serial, ok, time, out, outcome)
}

#[unsafe(no_mangle)]
pub extern "C" fn pyhtirso_visit(
    table: &[u8],
    cookie: &[u8],
    number: u32,
    time: u64,
    random: &[u8],
    out: &mut [u8],
    visit: &mut [u64],
) -> bool
    ensures { handed result visit.new table.now out.new []
        ≡ visit_handed visit.old table.now cookie.now number time random.now out.old }
{
    export::pyhtirso_visit(table, cookie, number, time, random, out, visit)
}

#[unsafe(no_mangle)]
pub extern "C" fn pyhtirso_panel(service: &[u8], callback: &[u8], block: &mut [u8]) -> u32
    ensures { made result block.new ≡ panel_of service.now callback.now block.old }
{
    export::pyhtirso_panel(service, callback, block)
}

#[unsafe(no_mangle)]
pub extern "C" fn pyhtirso_check_register(register: &[u8], fault: &mut [u64]) -> bool
    ensures { handed_fault result fault.new ≡ fault_handed fault.old register.now }
{
    export::pyhtirso_check_register(register, fault)
}
