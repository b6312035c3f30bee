// A request by its method and path: each path's own step, an unknown path 404, POST to another path than login 405.
#![tactic(auto)]

ghost use Rattle.std.specs.Prelude.{false, ◌≤◌, length};
ghost use Rattle.protocol.specs.Table.{decode_table};
ghost use Rattle.protocol.specs.Request.{get_request, post_request, request_of};
ghost use Rattle.protocol.specs.Steps.{request_step};
ghost use Rattle.protocol.specs.Held.{Done, Did, Lent};
ghost use Rattle.protocol.specs.Calls.{brought_by};

use protocol::{Brings, Method, Outcome, Path};

// No such path, and no such method on it. Numbers: so a status is in the meaning's `ErrorPage`, which may not change.
const NOT_FOUND: u32 = 404;

const NOT_TAKEN: u32 = 405;

// GET reads the query.
#[tactic(auto, using(crate::proofs::Unread::logout_reads, crate::proofs::Unread::proxy_reads, validate::proofs::Laws::unread), unfolding(protocol::specs::Steps::request_step))]
fn by_get(table: &mut [u8], path: Path, q: &[u8], brings: Brings<'_>, out: &mut [u8]) -> Outcome
    requires { Lent table.old brings.register.now brings.random.now out.old }
    ensures { Done (request_step (get_request path q.now)
        (brought_by brings.entry.register.now brings.entry.cookie.now brings.entry.random.now false) (decode_table table.old))
        result table.new out.old out.new }
{
    match path {
        Path::Login => login_get::get(table, q, brings, out),
        Path::Logout => logout::logout(table, brings.register, q, brings.cookie, out),
        Path::Validate(validator) => validate::validate(table, validator, q, brings, out),
        Path::Proxy => proxy::proxy(table, q, brings, out),
        Path::Unknown => reply::say_page(out, NOT_FOUND),
    }
}

// POST reads the body, and only login takes it.
#[tactic(auto, unfolding(protocol::specs::Steps::request_step, protocol::specs::Bytes::spliced))]
fn by_post(
    table: &mut [u8],
    path: Path,
    body: &[u8],
    brings: Brings<'_>,
    out: &mut [u8],
    cookie_out: &mut [u8],
) -> Outcome
    requires { (Lent table.old brings.register.now brings.random.now out.old) × (64 ≤ length cookie_out.old) }
    ensures { Did (request_step (post_request path body.now)
        (brought_by brings.entry.register.now brings.entry.cookie.now brings.entry.random.now brings.entry.verdict) (decode_table table.old))
        result table.new out.old out.new cookie_out.old cookie_out.new }
{
    match path {
        Path::Login => login_post::post(table, body, brings, out, cookie_out),
        Path::Logout | Path::Validate(_) | Path::Proxy => reply::say_page(out, NOT_TAKEN),
        Path::Unknown => reply::say_page(out, NOT_FOUND),
    }
}

#[tactic(auto, using(crate::proofs::Unread::get_reads), unfolding(protocol::specs::Request::request_of, protocol::specs::Bytes::spliced))]
pub fn request(
    table: &mut [u8],
    method: Method,
    target: &[u8],
    body: &[u8],
    brings: Brings<'_>,
    out: &mut [u8],
    cookie_out: &mut [u8],
) -> Outcome
    requires { (Lent table.old brings.register.now brings.random.now out.old) × (64 ≤ length cookie_out.old) }
    ensures { Did (request_step (request_of method target.now body.now)
        (brought_by brings.entry.register.now brings.entry.cookie.now brings.entry.random.now brings.entry.verdict) (decode_table table.old))
        result table.new out.old out.new cookie_out.old cookie_out.new }
{
    let path = query::path_of(target);
    match method {
        Method::Get => by_get(table, path, query::query_of(target), brings, out),
        Method::Post => by_post(table, path, body, brings, out, cookie_out),
    }
}
