// A ticket presented: found, ruled on, spent, and only then answered. What is spent is removed, but for an accepted service ticket, whose
// record becomes a visit.
#![tactic(auto)]

ghost use Rattle.std.specs.Prelude.{◌≡◌, ◌≤◌, length};
ghost use Rattle.protocol.specs.Table.{decode_table};
ghost use Rattle.protocol.specs.Steps.{failed, ticket_slot, grant_or_tell, is_plain, accept_ticket};
ghost use Rattle.protocol.specs.Held.{Fine, In, Said, Does, Lent, bringing, Within, Spendable};
ghost use Rattle.table_find.specs.Searches.{found_at};
ghost use Rattle.request.specs.Value.{text_of, spelled};
ghost use Rattle.xml.specs.Codes.{code_of};
ghost use Rattle.present.specs.Presented.{Stands, grants_to, burnt, spent, shown};

use protocol::{Brings, Outcome, Ruling, Validator};
use request::{SHORT, Spelling, ValidatorQuery, Value};
use table_edit::NewRecord;
use xml::Code;

// What an accepted ticket leaves to be told of: its session, where its proxies start, 0 for none, and its mark.
// `Ruling::Accepted` has the three apart, as the meaning's `ruling_of` has, which may not change; from there on they go together, up to `success_of`.
#[derive(Clone, Copy)]
struct Accepted {
    session: u16,
    parent: u16,
    mark: u8,
}

// A failure as a validator says it: `no`, or XML.
pub fn fail(validator: Validator, code: Code, out: &mut [u8]) -> Outcome
    requires { 8192 ≤ length out.old }
    ensures { Said (failed validator (code_of code)) result out.old out.new }
{
    match validator {
        Validator::Plain => reply::say_word(out, false),
        Validator::Service | Validator::Proxy => reply::say_failure(out, code),
    }
}

// Is a grant made below a parent, for a service that has this callback?
#[tactic(auto, using(issue::proofs::Laws::none_given, crate::proofs::Laws::one_deeper), unfolding(crate::specs::Presented::grants_to))]
fn may_grant(table: &[u8], parent: usize, callback: &[u8], url: Spelling<'_>) -> bool
    requires { (Fine table.now) × (Within parent table.now) }
    ensures { result ≡ grants_to parent callback.now (text_of url.entry) (decode_table table.now) }
{
    let depth = table::depth_at(table, parent);
    !url.is_absent()
        & url.is_text(callback)
        & (depth < ticket::DEEPEST)
        & table_find::has_room(table, 1)
}

// A waiting grant and its callback, or success without a grant.
#[tactic(auto, using(crate::proofs::Laws::grant_known))]
fn grant_or_tell(
    table: &mut [u8],
    accepted: Accepted,
    query: ValidatorQuery<'_>,
    brings: Brings<'_>,
    out: &mut [u8],
) -> Outcome
    requires { (Lent table.old brings.register.now brings.random.now out.old) × (Stands accepted table.old) }
    ensures { Does (grant_or_tell accepted.session accepted.parent accepted.mark
        (spelled query.entry.service) (spelled query.entry.pgt_url)
        (bringing brings.entry.register.now brings.entry.random.now)) result table.old table.new out.old out.new }
{
    let parent = usize::from(accepted.parent);
    let callback = known::callback_of(brings.register, query.service.spelling);
    if may_grant(table, parent, callback, query.pgt_url.spelling) {
        let new = NewRecord {
            mark: accepted.mark,
            parent: accepted.parent,
            session: accepted.session,
            depth: table::depth_at(table, parent) + 1,
            text: callback,
        };
        return issue::waiting(table, new, brings.random, out);
    }
    let session = usize::from(accepted.session);
    success::say_success(table, session, accepted.mark, b"", parent, out)
}

// Only /cas/validate answers with a word.
fn is_plain(validator: Validator) -> bool
    ensures { result ≡ is_plain validator }
{
    matches!(validator, Validator::Plain)
}

// A ticket accepted, which can no longer be presented.
// Validator, query and what is brought go together through `show`, `spend` and here alone, and two of them are structs already: one of all three
// would be taken apart in each.
#[tactic(auto, unfolding(protocol::specs::Steps::accept_ticket))]
fn accept(
    table: &mut [u8],
    validator: Validator,
    accepted: Accepted,
    query: ValidatorQuery<'_>,
    brings: Brings<'_>,
    out: &mut [u8],
) -> Outcome
    requires { (Lent table.old brings.register.now brings.random.now out.old) × (Stands accepted table.old) }
    ensures { Does (accept_ticket validator accepted.session accepted.parent accepted.mark
        (spelled query.entry.service) (spelled query.entry.pgt_url)
        (bringing brings.entry.register.now brings.entry.random.now)) result table.old table.new out.old out.new }
{
    if is_plain(validator) {
        return reply::say_word(out, true);
    }
    grant_or_tell(table, accepted, query, brings, out)
}

// A ticket that is not accepted is removed.
fn burn(table: &mut [u8], slot: usize, validator: Validator, code: Code, out: &mut [u8]) -> Outcome
    requires { (Fine table.old) × (In slot table.old) × (8192 ≤ length out.old) }
    ensures { Does (burnt slot (failed validator (code_of code))) result table.old table.new out.old out.new }
{
    table::free_record(table, slot);
    fail(validator, code, out)
}

// The ticket in a slot is judged and spent, whatever is then said of it.
#[tactic(auto, unfolding(protocol::specs::Steps::ruled))]
fn spend(
    table: &mut [u8],
    validator: Validator,
    slot: usize,
    query: ValidatorQuery<'_>,
    brings: Brings<'_>,
    out: &mut [u8],
) -> Outcome
    requires { (Lent table.old brings.register.now brings.random.now out.old) × (Spendable slot table.old) }
    ensures { Does (spent validator slot query.entry.renew (spelled query.entry.service) (spelled query.entry.pgt_url)
        (bringing brings.entry.register.now brings.entry.random.now)) result table.old table.new out.old out.new }
{
    match ruling::ruling_of(table, slot, validator, query.renew, query.service.spelling) {
        Ruling::NoTicket => burn(table, slot, validator, Code::InvalidTicket, out),
        Ruling::NoService => burn(table, slot, validator, Code::InvalidService, out),
        Ruling::Accepted {
            session,
            parent,
            mark,
        } => {
            table_edit::leave(table, slot);
            let accepted = Accepted {
                session,
                parent,
                mark,
            };
            accept(table, validator, accepted, query, brings, out)
        }
    }
}

// The slot of the live service or proxy ticket that a value names.
// Not inlined, so that the ticket's text is given back before an answer is written.
#[inline(never)]
fn find_given(table: &[u8], ticket: Value<'_, SHORT>) -> Option<usize>
    requires { Fine table.now }
    ensures { result ≡ found_at (ticket_slot (spelled ticket.entry) (decode_table table.now)) }
{
    let name = ticket.name();
    table_find::find_ticket(table, name.text())
}

// A ticket presented for a service, with a callback or an empty one, by what a request names.
#[tactic(auto, using(table_find::proofs::Laws::found_none), unfolding(protocol::specs::Steps::presented))]
pub fn show(
    table: &mut [u8],
    validator: Validator,
    query: ValidatorQuery<'_>,
    brings: Brings<'_>,
    out: &mut [u8],
) -> Outcome
    requires { Lent table.old brings.register.now brings.random.now out.old }
    ensures { Does (shown validator (spelled query.entry.ticket) query.entry.renew (spelled query.entry.service)
        (spelled query.entry.pgt_url) (bringing brings.entry.register.now brings.entry.random.now))
        result table.old table.new out.old out.new }
{
    match find_given(table, query.ticket) {
        Some(slot) => spend(table, validator, slot, query, brings, out),
        None => fail(validator, Code::InvalidTicket, out),
    }
}
