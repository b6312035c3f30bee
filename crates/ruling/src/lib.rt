// The ruling on a presented ticket: what is to be said of it, found before it is spent and answered only after that.
#![tactic(auto)]

ghost use Rattle.std.specs.Prelude.{◌≡◌, not};
ghost use Rattle.protocol.specs.Steps.{takes_proxies, proxy_parent, ruling_of};
ghost use Rattle.protocol.specs.Held.{Fine, In, said_at};
ghost use Rattle.request.specs.Value.{text_of};

use protocol::{Ruling, Validator};
use request::Spelling;
use ticket::Kind;

// Only proxyValidate takes proxy tickets.
fn refuses_proxies(validator: Validator) -> bool
    ensures { result ≡ not (takes_proxies validator) }
{
    !matches!(validator, Validator::Proxy)
}

// A proxy ticket's proxies start at its parent; a service ticket has none. Parent 0 for none and the mark are numbers: so in the table's format and in
// the meaning's `proxy_parent` and `ruling_of`, which may not change.
fn proxy_parent(table: &[u8], slot: usize) -> u16
    requires { In slot table.now }
    ensures { result ≡ proxy_parent (said_at slot table.now) }
{
    if table::has_kind(table, slot, Kind::Proxy) {
        return table::parent_of(table, slot);
    }
    0
}

// The ticket in a slot, for a service: a proxy ticket where none is taken, then renew without the mark, then another service.
#[tactic(auto, using(text::proofs::Laws::same_either), unfolding(protocol::specs::Steps::ruling_of))]
pub fn ruling_of(
    table: &[u8],
    slot: usize,
    validator: Validator,
    renew: bool,
    service: Spelling<'_>,
) -> Ruling
    requires { (Fine table.now) × (In slot table.now) }
    ensures { result ≡ ruling_of validator renew (text_of service.entry) (said_at slot table.now) }
{
    let its_own = service.is_text(table::text_of(table, slot));
    if table::has_kind(table, slot, Kind::Proxy) & refuses_proxies(validator) {
        return Ruling::NoTicket;
    }
    if renew & (table::mark_of(table, slot) == 0) {
        return Ruling::NoTicket;
    }
    if its_own {
        return Ruling::Accepted {
            session: table::session_of(table, slot),
            parent: proxy_parent(table, slot),
            mark: table::mark_of(table, slot),
        };
    }
    Ruling::NoService
}
