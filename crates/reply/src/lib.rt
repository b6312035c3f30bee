// What a step says: the reply's bytes, written from the start of the output, and the result that goes with them; and the numbers by which
// an answer is told to a host. The bytes that were written and the result say the reply, each time by one law, `said`.
#![tactic(auto, using(crate::proofs::Laws::said), unfolding(protocol::specs::Answers::reply_answer))]

ghost use Rattle.std.specs.Prelude.{◌≡◌, [], ◌≤◌, length};
ghost use Rattle.protocol.specs.Answers.{number_of, data_of, status_of, serial_of};
ghost use Rattle.protocol.specs.Answers.{ErrorPage, SignedIn, SignedOut, FormPage, RedirectTo, YesNo, Failure, ProxySuccess, ProxyFailure, CallbackTo};
ghost use Rattle.protocol.specs.Held.{Said, cookied, cleared_if};
ghost use Rattle.xml.specs.Codes.{code_of};
ghost use Rattle.reply.specs.Told.{told_of};

use protocol::{Answer, Outcome};
use xml::Code;

// The number of an answer's case: 0 none, 1 page, 2 redirect, 3 text, 4 XML, 5 callback.
// It, the data, the status and the serial are four functions and no `From`: each makes another number of one answer, by the meaning's four definitions.
pub fn number_of(a: Answer) -> u32
    ensures { result ≡ number_of a }
{
    match a {
        Answer::Nothing => 0,
        Answer::Page(_) => 1,
        Answer::Redirect(_) => 2,
        Answer::Text(_) => 3,
        Answer::Xml(_) => 4,
        Answer::Callback(_) => 5,
    }
}

// Its data: 1 where a redirect carries a ticket, text says yes, XML tells of success.
pub fn data_of(a: Answer) -> u32
    ensures { result ≡ data_of a }
{
    match a {
        Answer::Redirect(ticket) => ticket.into(),
        Answer::Text(yes) => yes.into(),
        Answer::Xml(success) => success.into(),
        Answer::Nothing | Answer::Page(_) | Answer::Callback(_) => 0,
    }
}

fn status_of(a: Answer) -> u32
    ensures { result ≡ status_of a }
{
    match a {
        Answer::Page(status) => status,
        Answer::Redirect(_) => 303,
        Answer::Text(_) | Answer::Xml(_) => 200,
        Answer::Nothing | Answer::Callback(_) => 0,
    }
}

fn serial_of(a: Answer) -> u32
    ensures { result ≡ serial_of a }
{
    match a {
        Answer::Callback(serial) => serial,
        _ => 0,
    }
}

// The result of an answer of n bytes.
#[tactic(auto, unfolding(crate::specs::Told::told_of))]
pub fn told(a: Answer, n: usize) -> Outcome
    ensures { result ≡ told_of a n }
{
    Outcome {
        refusal: 0,
        answer: a,
        status: status_of(a),
        length: n,
        cookie_length: 0,
        cookie_cleared: false,
        callback_serial: serial_of(a),
    }
}

// The same result with the length of the cookie that was written.
pub fn with_cookie(r: Outcome, n: usize) -> Outcome
    ensures { result ≡ cookied n r }
{
    Outcome {
        cookie_length: n,
        ..r
    }
}

// The same result with the cookie cleared, or not.
pub fn with_cleared(r: Outcome, ended: bool) -> Outcome
    ensures { result ≡ cleared_if ended r }
{
    Outcome {
        cookie_cleared: ended,
        ..r
    }
}

// Here and below the output is a slice, and its room a clause: C lends it, it may be longer than 8,192 bytes, and `Said` speaks of all of it.
// A text of at most 64 or 200 bytes is a slice with a clause, too: a type of such texts would ask more of who calls, and for 200 bytes there is none.
// A status is a number: so in `Outcome`, the result of document 01, and in the meaning's `ErrorPage` and `FormPage`, which may not change.
pub fn say_page(out: &mut [u8], status: u32) -> Outcome
    requires { 8192 ≤ length out.old }
    ensures { Said (ErrorPage status) result out.old out.new }
{
    let n = render::put_error_page(out, status);
    told(Answer::Page(status), n)
}

pub fn say_signed_in(out: &mut [u8]) -> Outcome
    requires { 8192 ≤ length out.old }
    ensures { Said SignedIn result out.old out.new }
{
    let n = render::put_signed_in(out);
    told(Answer::Page(200), n)
}

// An empty link is none.
pub fn say_signed_out(out: &mut [u8], link: &[u8]) -> Outcome
    requires { (8192 ≤ length out.old) × (length link.now ≤ 200) }
    ensures { Said (SignedOut link.now) result out.old out.new }
{
    let n = render::put_signed_out(out, link);
    told(Answer::Page(200), n)
}

// An empty service is none.
pub fn say_form(out: &mut [u8], status: u32, lt: &[u8], service: &[u8]) -> Outcome
    requires { (8192 ≤ length out.old) × (length lt.now ≤ 64) × (length service.now ≤ 200) }
    ensures { Said (FormPage status lt.now service.now) result out.old out.new }
{
    let n = render::put_form(out, status, lt, service);
    told(Answer::Page(status), n)
}

// To a service, with a ticket.
#[tactic(auto, using(crate::proofs::Laws::said_redirect))]
pub fn say_redirect(out: &mut [u8], service: &[u8], ticket: &[u8]) -> Outcome
    requires { (8192 ≤ length out.old) × (length service.now ≤ 200) × (1 ≤ length ticket.now) × (length ticket.now ≤ 64) }
    ensures { Said (RedirectTo service.now ticket.now) result out.old out.new }
{
    let n = render::put_redirect(out, service, ticket);
    told(Answer::Redirect(true), n)
}

// To a service alone.
pub fn say_gateway(out: &mut [u8], service: &[u8]) -> Outcome
    requires { (8192 ≤ length out.old) × (length service.now ≤ 200) }
    ensures { Said (RedirectTo service.now []) result out.old out.new }
{
    let n = render::put_redirect(out, service, b"");
    told(Answer::Redirect(false), n)
}

pub fn say_word(out: &mut [u8], yes: bool) -> Outcome
    requires { 8192 ≤ length out.old }
    ensures { Said (YesNo yes) result out.old out.new }
{
    let n = render::put_yes_no(out, yes);
    told(Answer::Text(yes), n)
}

// A failure of the validators, and one of proxy below: the meaning has `Failure` and `ProxyFailure` apart, and each says its own.
pub fn say_failure(out: &mut [u8], code: Code) -> Outcome
    requires { 8192 ≤ length out.old }
    ensures { Said (Failure (code_of code)) result out.old out.new }
{
    let n = xml::put_failure(out, code);
    told(Answer::Xml(false), n)
}

pub fn say_proxy_success(out: &mut [u8], ticket: &[u8]) -> Outcome
    requires { (8192 ≤ length out.old) × (length ticket.now ≤ 64) }
    ensures { Said (ProxySuccess ticket.now) result out.old out.new }
{
    let n = xml::put_proxy_success(out, ticket);
    told(Answer::Xml(true), n)
}

pub fn say_proxy_failure(out: &mut [u8], code: Code) -> Outcome
    requires { 8192 ≤ length out.old }
    ensures { Said (ProxyFailure (code_of code)) result out.old out.new }
{
    let n = xml::put_proxy_failure(out, code);
    told(Answer::Xml(false), n)
}

pub fn say_callback(out: &mut [u8], url: &[u8], pgt: &[u8], iou: &[u8], serial: u32) -> Outcome
    requires { (8192 ≤ length out.old) × (length url.now ≤ 200) × (length pgt.now ≤ 64) × (length iou.now ≤ 64) }
    ensures { Said (CallbackTo url.now pgt.now iou.now serial) result out.old out.new }
{
    let n = render::put_callback(out, url, pgt, iou);
    told(Answer::Callback(serial), n)
}
