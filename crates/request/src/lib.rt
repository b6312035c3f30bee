// A request read once: one walk over its query or body finds the names that its path uses, each value is judged once, and the
// answer is none where it is malformed, else its values, each the part of the caller's own bytes where it lies, and what is set.
// A value is compared where it lies, and nothing is written unless it is decoded from there into a lent buffer.
#![tactic(auto)]

ghost use Rattle.std.specs.Prelude.{◌≡◌, false, length, Some, None, option_map, IfSome};
ghost use Rattle.protocol.specs.Bytes.{if};
ghost use Rattle.protocol.specs.Request.{decoded, asked, posted, leaving, shown, wanted};
ghost use Rattle.query.specs.Place.{Inside, raw_in};
ghost use Rattle.request.specs.Value.{spelled, right_by, judged_as, callback_as, callback_in};
ghost use Rattle.request.specs.Spelled.{spelled_asked, spelled_posted, spelled_leaving, spelled_shown, spelled_wanted};
ghost use Rattle.request.specs.Standing.{Taken, StandsAsked, StandsPosted, StandsLeaving, StandsShown, StandsWanted};

mod value;

use protocol::Validator;
use query::Place;
pub use value::{Spelling, Value};

// The longest decoded values: of username, lt, ticket and pgt; of password; of the others.
pub const SHORT: usize = 64;

pub const PASSWORD: usize = 128;

pub const LONG: usize = 200;

// What the names of a path ask: values, and what is set by being present.
#[derive(Clone, Copy)]
pub struct LoginQuery<'a> {
    pub service: Value<'a, LONG>,
    pub renew: bool,
    pub gateway: bool,
}

#[derive(Clone, Copy)]
pub struct LoginBody<'a> {
    pub service: Value<'a, LONG>,
    pub username: Value<'a, SHORT>,
    pub password: Value<'a, PASSWORD>,
    pub lt: Value<'a, SHORT>,
}

#[derive(Clone, Copy)]
pub struct ValidatorQuery<'a> {
    pub service: Value<'a, LONG>,
    pub ticket: Value<'a, SHORT>,
    pub renew: bool,
    pub pgt_url: Value<'a, LONG>,
}

#[derive(Clone, Copy)]
pub struct ProxyQuery<'a> {
    pub pgt: Value<'a, SHORT>,
    pub target: Value<'a, LONG>,
}

// Which bytes a value may have: those of plain text, any, or those of a name in UTF-8.
// Named, and no closure. Tried, with the function passed in: `judged` proves with two clauses more, but at the one of its fifteen calls that was
// tried two goals stayed open (`judged-requires`, `returns-clause-spells`), and `right_by`, of which the clauses speak, still tells three by name.
#[derive(Clone, Copy)]
enum Rule {
    Plain,
    Password,
    Username,
}

// The length of a value that may stand, by its rule and its limit.
#[tactic(auto, unfolding(crate::specs::Value::right_by, decode::specs::Judging::judged, decode::specs::Judging::judged_name))]
fn right_length<const MOST: usize>(raw: &[u8], in_body: bool, rule: Rule) -> Option<usize>
    ensures { result ≡ if (right_by MOST rule (decoded in_body raw.now)) (Some (length (decoded in_body raw.now))) None }
{
    match rule {
        Rule::Plain => decode::judge(raw, in_body, 32, 126, MOST),
        Rule::Password => decode::judge(raw, in_body, 0, 255, MOST),
        Rule::Username => decode::judge_name(raw, in_body, MOST),
    }
}

// A name judged by what was noted of it. One that stands twice is bad.
#[tactic(auto, using(crate::proofs::Laws::right_short, crate::proofs::Laws::right_bytes), unfolding(crate::specs::Value::judged_as))]
fn judged<'a, const MOST: usize>(
    q: &'a [u8],
    place: Place,
    in_body: bool,
    rule: Rule,
) -> Option<Value<'a, MOST>>
    requires { Inside q.now place.from place.to }
    ensures spells { option_map spelled result ≡ judged_as MOST in_body rule q.now place }
    ensures taken { IfSome result (λ v. Taken in_body (raw_in q.now place) v.spelling) }
{
    let raw = query::raw_at(q, place.from, place.to);
    let length = right_length::<MOST>(raw, in_body, rule)?;
    if 1 < place.count {
        return None;
    }
    let spelling = Spelling {
        raw,
        in_body,
        length,
    };
    Some(Value { spelling })
}

// The callback's name, which /cas/validate does not use.
#[tactic(auto, unfolding(crate::specs::Value::callback_as, protocol::specs::Request::decoded_from, protocol::specs::Bytes::all_within))]
fn judged_callback<'a>(validator: Validator, q: &'a [u8], place: Place) -> Option<Value<'a, LONG>>
    requires { Inside q.now place.from place.to }
    ensures spells { option_map spelled result ≡ callback_as validator q.now place }
    ensures taken { IfSome result (λ v. Taken false (callback_in validator q.now place) v.spelling) }
{
    match validator {
        Validator::Plain => {
            let raw = &q[..0];
            let spelling = Spelling {
                raw,
                in_body: false,
                length: 0,
            };
            Some(Value { spelling })
        }
        Validator::Service | Validator::Proxy => judged(q, place, false, Rule::Plain),
    }
}

// A walk takes four names, since its contract speaks of four: here and below the names that a path does not use are empty, and are not looked at.
pub fn login_query<'a>(q: &'a [u8]) -> Option<LoginQuery<'a>>
    ensures spells { spelled_asked result ≡ asked q.now }
    ensures stands { IfSome result (λ a. StandsAsked q.now a) }
{
    let found = query::walk(q, b"service", b"renew", b"gateway", b"");
    let service = judged(q, found.a, false, Rule::Plain)?;
    judged::<LONG>(q, found.b, false, Rule::Plain)?;
    judged::<LONG>(q, found.c, false, Rule::Plain)?;
    Some(LoginQuery {
        service,
        renew: 0 < found.b.count,
        gateway: 0 < found.c.count,
    })
}

pub fn login_body<'a>(body: &'a [u8]) -> Option<LoginBody<'a>>
    ensures spells { spelled_posted result ≡ posted body.now }
    ensures stands { IfSome result (λ p. StandsPosted body.now p) }
{
    let found = query::walk(body, b"service", b"username", b"password", b"lt");
    let service = judged(body, found.a, true, Rule::Plain)?;
    let username = judged(body, found.b, true, Rule::Username)?;
    let password = judged(body, found.c, true, Rule::Password)?;
    let lt = judged(body, found.d, true, Rule::Plain)?;
    Some(LoginBody {
        service,
        username,
        password,
        lt,
    })
}

#[tactic(auto, using(crate::proofs::Laws::leaving_told))]
pub fn logout_query<'a>(q: &'a [u8]) -> Option<Value<'a, LONG>>
    ensures spells { spelled_leaving result ≡ leaving q.now }
    ensures stands { IfSome result (λ url. StandsLeaving q.now url.spelling) }
{
    let found = query::walk(q, b"url", b"", b"", b"");
    judged(q, found.a, false, Rule::Plain)
}

pub fn validator_query<'a>(validator: Validator, q: &'a [u8]) -> Option<ValidatorQuery<'a>>
    ensures spells { spelled_shown result ≡ shown validator q.now }
    ensures stands { IfSome result (λ s. StandsShown validator q.now s) }
{
    let found = query::walk(q, b"service", b"ticket", b"renew", b"pgtUrl");
    let service = judged(q, found.a, false, Rule::Plain)?;
    let ticket = judged(q, found.b, false, Rule::Plain)?;
    judged::<LONG>(q, found.c, false, Rule::Plain)?;
    let pgt_url = judged_callback(validator, q, found.d)?;
    Some(ValidatorQuery {
        service,
        ticket,
        renew: 0 < found.c.count,
        pgt_url,
    })
}

pub fn proxy_query<'a>(q: &'a [u8]) -> Option<ProxyQuery<'a>>
    ensures spells { spelled_wanted result ≡ wanted q.now }
    ensures stands { IfSome result (λ w. StandsWanted q.now w) }
{
    let found = query::walk(q, b"pgt", b"targetService", b"", b"");
    let pgt = judged(q, found.a, false, Rule::Plain)?;
    let target = judged(q, found.b, false, Rule::Plain)?;
    Some(ProxyQuery { pgt, target })
}
