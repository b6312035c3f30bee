// Proxy: a grant asks for a ticket to a registered service.
#![tactic(auto)]

ghost use Rattle.std.specs.Prelude.{◌≡◌, ◌≤◌};
ghost use Rattle.protocol.specs.Tickets.{a_grant};
ghost use Rattle.protocol.specs.Table.{decode_table};
ghost use Rattle.protocol.specs.Request.{wanted};
ghost use Rattle.protocol.specs.Steps.{slot_named, proxy};
ghost use Rattle.protocol.specs.Held.{Fine, Done, Lent, bringing};
ghost use Rattle.table_find.specs.Searches.{found_at};
ghost use Rattle.request.specs.Value.{spelled};
ghost use Rattle.issue.specs.Offers.{Offer};
ghost use Rattle.proxy.specs.Asking.{proxy_under, proxy_for, Live};

use protocol::{Brings, Outcome};
use request::{ProxyQuery, SHORT, Value};
use ticket::Kind;
use xml::Code;

// Under the live grant in slot k. An empty target is one that is not registered: so it is in the meaning's `link_to`, by which `known` answers it.
#[tactic(auto, using(issue::proofs::Laws::none_given), unfolding(crate::specs::Asking::proxy_under))]
fn under(table: &mut [u8], k: usize, target: &[u8], random: &[u8; 48], out: &mut [u8]) -> Outcome
    requires { (Offer table.old target.now out.old) × (Live k table.old) }
    ensures { Done (proxy_under k target.now random.now (decode_table table.old)) result
        table.new out.old out.new }
{
    if target.is_empty() {
        reply::say_proxy_failure(out, Code::UnauthorizedService)
    } else if table_find::has_room(table, 1) {
        issue::proxy_ticket(table, k, target, random, out)
    } else {
        reply::say_proxy_failure(out, Code::InternalError)
    }
}

// The slot of the live grant that a value names.
// Not inlined, so that the grant's text is given back before an answer is written.
#[inline(never)]
fn find_given(table: &[u8], pgt: Value<'_, SHORT>) -> Option<usize>
    requires { Fine table.now }
    ensures { result ≡ found_at (slot_named a_grant (spelled pgt.entry) (decode_table table.now)) }
{
    let name = pgt.name();
    table_find::find_named(table, Kind::Grant, name.text())
}

// By the live grant of the text that pgt spells. The target, which is not absent, is compared where it lies.
#[tactic(auto, using(table_find::proofs::Laws::found_is, table_find::proofs::Laws::found_low, table_find::proofs::Laws::found_none, crate::proofs::Laws::proxy_none, crate::proofs::Laws::proxy_known), unfolding(crate::specs::Asking::proxy_for))]
fn ask(table: &mut [u8], query: ProxyQuery<'_>, brings: Brings<'_>, out: &mut [u8]) -> Outcome
    requires { (Lent table.old brings.register.now brings.random.now out.old) × (1 ≤ query.target.spelling.length) }
    ensures { Done (proxy_for (spelled query.entry.pgt) (spelled query.entry.target)
        (bringing brings.entry.register.now brings.entry.random.now) (decode_table table.old)) result table.new
        out.old out.new }
{
    match find_given(table, query.pgt) {
        Some(k) => {
            let target = known::service_of(brings.register, query.target.spelling);
            under(table, k, target, brings.random, out)
        }
        None => reply::say_proxy_failure(out, Code::BadPgt),
    }
}

#[tactic(auto, using(issue::proofs::Laws::none_given), unfolding(protocol::specs::Steps::proxy, crate::specs::Asking::proxy_for))]
pub fn proxy(table: &mut [u8], q: &[u8], brings: Brings<'_>, out: &mut [u8]) -> Outcome
    requires { Lent table.old brings.register.now brings.random.now out.old }
    ensures { Done (proxy (wanted q.now) (bringing brings.entry.register.now brings.entry.random.now)
        (decode_table table.old)) result table.new out.old out.new }
{
    let Some(query) = request::proxy_query(q) else {
        return reply::say_proxy_failure(out, Code::InvalidRequest);
    };
    if query.pgt.spelling.is_absent() | query.target.spelling.is_absent() {
        return reply::say_proxy_failure(out, Code::InvalidRequest);
    }
    ask(table, query, brings, out)
}
