// Login, POST: a live login ticket is spent whatever follows; then the service, then the credentials are judged. Who is
// refused gets the form again.
#![tactic(auto)]

ghost use Rattle.std.specs.Prelude.{◌≡◌, ◌≤◌, length};
ghost use Rattle.protocol.specs.Table.{decode_table};
ghost use Rattle.protocol.specs.Request.{posted};
ghost use Rattle.protocol.specs.Steps.{admission_of, credentials, login_post};
ghost use Rattle.protocol.specs.Held.{Fine, Lent, Did};
ghost use Rattle.protocol.specs.Calls.{brought_by};
ghost use Rattle.request.specs.Value.{spelled};
ghost use Rattle.login_post.specs.Given.{slot_if, posted_by, Spent, Supplied};

use protocol::{Admission, Brings, Outcome};
use request::{LoginBody, SHORT, Value};
use ticket::Kind;

// The live login ticket of this text is removed; whether there was one is answered.
// Not inlined: its texts would stand on the stack of every way of a request.
#[inline(never)]
#[tactic(auto, using(table_find::proofs::Laws::found_is, table_find::proofs::Laws::found_low, table_find::proofs::Laws::found_none, table_find::proofs::Laws::named_slot, protocol::proofs::Held::holds_self))]
fn spend(table: &mut [u8], lt: Value<'_, SHORT>) -> bool
    requires { Fine table.old }
    ensures { Spent (spelled lt.entry) table.old table.new result }
{
    let name = lt.name();
    match table_find::find_named(table, Kind::Login, name.text()) {
        Some(k) => {
            table::free_record(table, k);
            true
        }
        None => false,
    }
}

// The service may be unknown; the login ticket was live, or not; username or password may be absent.
// Four flags: the meaning's `admission_of`, which may not change, asks these, the second as a slot or none.
#[tactic(auto, unfolding(protocol::specs::Steps::admission_of))]
fn admission_of(unknown: bool, live: bool, absent: bool, verdict: bool) -> Admission
    ensures { result ≡ admission_of unknown (slot_if live) absent verdict }
{
    match (unknown, live & !absent & verdict) {
        (true, _) => Admission::Unknown,
        (false, false) => Admission::Again,
        (false, true) => Admission::Accepted,
    }
}

// The login ticket is spent. The service is taken as the register has it: one that is not unknown is the one that was given.
#[tactic(auto, using(crate::proofs::Laws::credentials_known), unfolding(protocol::specs::Steps::entered, protocol::specs::Bytes::spliced))]
fn enter(
    table: &mut [u8],
    live: bool,
    form: LoginBody<'_>,
    brings: Brings<'_>,
    out: &mut [u8],
    cookie_out: &mut [u8],
) -> Outcome
    requires { Supplied table.old out.old cookie_out.old }
    ensures { Did (credentials (slot_if live) (posted_by form.entry)
        (brought_by brings.entry.register.now brings.entry.cookie.now brings.entry.random.now brings.entry.verdict) (decode_table table.old))
        result table.new out.old out.new cookie_out.old cookie_out.new }
{
    let service = known::service_of(brings.register, form.service.spelling);
    let unknown = known::is_unknown(form.service.spelling, service);
    let absent = form.username.spelling.is_absent() | form.password.spelling.is_absent();
    match admission_of(unknown, live, absent, brings.verdict) {
        Admission::Unknown => reply::say_page(out, 403),
        Admission::Again => issue::form(table, 401, service, brings.random, out),
        Admission::Accepted => session::accept(
            table,
            form.username,
            service,
            brings,
            out,
            cookie_out,
        ),
    }
}

// The login ticket is spent before anything else is judged.
#[tactic(auto, using(crate::proofs::Laws::any_slot), unfolding(protocol::specs::Steps::login_post, protocol::specs::Bytes::spliced))]
pub fn post(
    table: &mut [u8],
    body: &[u8],
    brings: Brings<'_>,
    out: &mut [u8],
    cookie_out: &mut [u8],
) -> Outcome
    requires { (Lent table.old brings.register.now brings.random.now out.old) × (64 ≤ length cookie_out.old) }
    ensures { Did (login_post (posted body.now)
        (brought_by brings.entry.register.now brings.entry.cookie.now brings.entry.random.now brings.entry.verdict) (decode_table table.old))
        result table.new out.old out.new cookie_out.old cookie_out.new }
{
    match request::login_body(body) {
        None => reply::say_page(out, 400),
        Some(form) => {
            let live = spend(table, form.lt);
            enter(table, live, form, brings, out, cookie_out)
        }
    }
}
