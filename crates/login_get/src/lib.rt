// Login, GET: a live session gives a ticket or the signed-in page, a gateway the redirect without ticket, and all else the form.
#![tactic(auto)]

ghost use Rattle.std.specs.Prelude.{◌≡◌, false, ◌&&◌, eqb, ltb, length};
ghost use Rattle.protocol.specs.Table.{decode_table};
ghost use Rattle.protocol.specs.Request.{Given, asking, asked};
ghost use Rattle.protocol.specs.Steps.{way_of, signed_on, login_get};
ghost use Rattle.protocol.specs.Held.{Fine, In, Lent, Done};
ghost use Rattle.protocol.specs.Calls.{brought_by};
ghost use Rattle.request.specs.Value.{spelled};
ghost use Rattle.issue.specs.Offers.{Offer};
ghost use Rattle.login_get.specs.Going.{GoesIn};

use protocol::{Brings, Outcome, Way};
use request::LoginQuery;
use ticket::Kind;

// Which way the query goes, by its service as the register has it.
// Here and below an empty service is none: so in the meaning's `way_of` and `signed_on`, which may not change.
#[tactic(auto, using(issue::proofs::Laws::none_given, table_find::proofs::Laws::found_is, table_find::proofs::Laws::found_low, table_find::proofs::Laws::found_none, table_find::proofs::Laws::named_slot), unfolding(protocol::specs::Steps::way_of))]
fn way_of(table: &[u8], query: LoginQuery<'_>, service: &[u8], cookie: &[u8]) -> Way
    requires { Fine table.now }
    ensures inside { GoesIn result table.now }
    ensures way { result ≡ way_of (ltb 0 query.entry.service.spelling.length && eqb (length service.now) 0)
        (asking service.now query.entry.renew query.entry.gateway) cookie.now (decode_table table.now) }
{
    if known::is_unknown(query.service.spelling, service) {
        return Way::Unknown;
    }
    if query.renew {
        return Way::Form;
    }
    match table_find::find_named(table, Kind::Session, cookie) {
        Some(s) => Way::SignedOn(s),
        None if query.gateway & !service.is_empty() => Way::Away,
        None => Way::Form,
    }
}

// A live session and no renew: a ticket of mark 0, since nothing was signed now.
#[tactic(auto, using(issue::proofs::Laws::none_given), unfolding(protocol::specs::Steps::signed_on))]
fn signed_on(
    table: &mut [u8],
    s: usize,
    service: &[u8],
    random: &[u8; 48],
    out: &mut [u8],
) -> Outcome
    requires { (Offer table.old service.now out.old) × (In s table.old) }
    ensures { Done (signed_on s service.now random.now (decode_table table.old)) result
        table.new out.old out.new }
{
    if service.is_empty() {
        reply::say_signed_in(out)
    } else if table_find::has_room(table, 1) {
        issue::ticket(table, 0, s, service, random, out)
    } else {
        reply::say_page(out, 503)
    }
}

// A request that is not malformed, by the way that it goes. Where the service is unknown it is not looked at.
#[tactic(auto, using(crate::proofs::Laws::get_known), unfolding(protocol::specs::Steps::taken))]
fn get_given(table: &mut [u8], query: LoginQuery<'_>, brings: Brings<'_>, out: &mut [u8]) -> Outcome
    requires { Lent table.old brings.register.now brings.random.now out.old }
    ensures { Done (login_get (Given (asking (spelled query.entry.service) query.entry.renew query.entry.gateway))
        (brought_by brings.entry.register.now brings.entry.cookie.now brings.entry.random.now false) (decode_table table.old))
        result table.new out.old out.new }
{
    let service = known::service_of(brings.register, query.service.spelling);
    match way_of(table, query, service, brings.cookie) {
        Way::Unknown => reply::say_page(out, 403),
        Way::SignedOn(s) => signed_on(table, s, service, brings.random, out),
        Way::Away => reply::say_gateway(out, service),
        Way::Form => issue::form(table, 200, service, brings.random, out),
    }
}

#[tactic(auto, unfolding(protocol::specs::Steps::login_get))]
pub fn get(table: &mut [u8], q: &[u8], brings: Brings<'_>, out: &mut [u8]) -> Outcome
    requires { Lent table.old brings.register.now brings.random.now out.old }
    ensures { Done (login_get (asked q.now)
        (brought_by brings.entry.register.now brings.entry.cookie.now brings.entry.random.now false) (decode_table table.old))
        result table.new out.old out.new }
{
    match request::login_query(q) {
        None => reply::say_page(out, 400),
        Some(query) => get_given(table, query, brings, out),
    }
}
