// Logout: the session of the cookie ends with all records that name it, the cookie is cleared even without one, and the link
// stands only if url is a registered service.
#![tactic(auto)]

ghost use Rattle.protocol.specs.Table.{decode_table};
ghost use Rattle.protocol.specs.Request as read;
ghost use Rattle.protocol.specs.Steps.{without_session, logout};
ghost use Rattle.protocol.specs.Held.{Fine, Holds, Done};
ghost use Rattle.request.specs.Value.{spelled};
ghost use Rattle.logout.specs.Leaving.{Given, leaving};

use protocol::Outcome;
use request::{LONG, Value};
use ticket::Kind;

// The cookie's live session ends, where there is one.
#[tactic(auto, using(table_find::proofs::Laws::found_is, table_find::proofs::Laws::found_low, table_find::proofs::Laws::found_none, table_find::proofs::Laws::named_slot, protocol::proofs::Held::holds_self), unfolding(protocol::specs::Steps::without_session))]
fn end_named(table: &mut [u8], cookie: &[u8])
    requires { Fine table.old }
    ensures { Holds table.new (without_session cookie.now (decode_table table.old)) }
{
    if let Some(s) = table_find::find_named(table, Kind::Session, cookie) {
        table_edit::end_session(table, s);
    }
}

// The page links back to the url where that is a registered service.
#[tactic(auto, unfolding(protocol::specs::Steps::logout, protocol::specs::Calls::outcome_with))]
fn leave_for(
    table: &mut [u8],
    register: &[u8],
    url: Value<'_, LONG>,
    cookie: &[u8],
    out: &mut [u8],
) -> Outcome
    requires { Given table.old out.old }
    ensures { Done (logout (read.Given (spelled url.entry))
        (leaving register.now cookie.now) (decode_table table.old)) result table.new
        out.old out.new }
{
    end_named(table, cookie);
    let link = known::service_of(register, url.spelling);
    reply::with_cleared(reply::say_signed_out(out, link), true)
}

// Of what comes with a request it reads the register and the cookie, so that it asks for no random input and no verdict.
#[tactic(auto, unfolding(protocol::specs::Steps::logout))]
pub fn logout(table: &mut [u8], register: &[u8], q: &[u8], cookie: &[u8], out: &mut [u8]) -> Outcome
    requires { Given table.old out.old }
    ensures { Done (logout (read.leaving q.now) (leaving register.now cookie.now)
        (decode_table table.old)) result table.new out.old out.new }
{
    match request::logout_query(q) {
        Some(url) => leave_for(table, register, url, cookie, out),
        None => reply::say_page(out, 400),
    }
}
