// The validators: /cas/validate, /cas/serviceValidate and /cas/proxyValidate. The request is read before anything is spent,
// then the ticket is shown with its values where they lie.
#![tactic(auto)]

ghost use Rattle.protocol.specs.Table.{decode_table};
ghost use Rattle.protocol.specs.Request.{shown};
ghost use Rattle.protocol.specs.Steps.{validate};
ghost use Rattle.protocol.specs.Held.{Done, Lent, bringing};

use protocol::{Brings, Outcome, Validator};
use xml::Code;

#[tactic(auto, using(protocol::proofs::Searches::empty), unfolding(protocol::specs::Steps::validate))]
pub fn validate(
    table: &mut [u8],
    validator: Validator,
    q: &[u8],
    brings: Brings<'_>,
    out: &mut [u8],
) -> Outcome
    requires { Lent table.old brings.register.now brings.random.now out.old }
    ensures { Done (validate validator (shown validator q.now)
        (bringing brings.entry.register.now brings.entry.random.now) (decode_table table.old)) result table.new
        out.old out.new }
{
    let Some(query) = request::validator_query(validator, q) else {
        return present::fail(validator, Code::InvalidRequest, out);
    };
    if query.service.spelling.is_absent() | query.ticket.spelling.is_absent() {
        return present::fail(validator, Code::InvalidRequest, out);
    }
    present::show(table, validator, query, brings, out)
}
