// Bytes out: XML. Failures and proxy tickets are written from the start of the output; a success in parts, since its proxies
// are told by a walk from grant to parent. The rest of the output is left as it was. A text is put in pieces by small functions:
// the literals of functions that are called one after the other take the same place of the stack.
#![tactic(auto)]

ghost use Rattle.std.specs.Prelude.{◌≡◌, ◌≤◌, length};
ghost use Rattle.protocol.specs.Answers.{reply_text, code_text, mark_text, Failure, ProxySuccess, ProxyFailure};
ghost use Rattle.protocol.specs.Written.{Room, Wrote};
ghost use Rattle.xml.specs.Codes.{code_of};
ghost use Rattle.xml.specs.Response.{response_open, response_close, failure_open, code_twice, failure_close, failure_parts, proxy_ticket};
ghost use Rattle.xml.specs.Success.{success_user, date_part, token_line, login_part, attribute_parts, iou_line, success_head, success_tail, proxies_open, proxies_close, proxy_line};

use protocol::Time;

// Why a ticket is not accepted.
#[derive(Clone, Copy)]
pub enum Code {
    InvalidRequest,
    InvalidTicket,
    InvalidService,
    BadPgt,
    UnauthorizedService,
    InternalError,
}

impl Code {
    fn text(self) -> &'static [u8]
        ensures { result.now ≡ code_text (code_of self) }
    {
        match self {
            Code::InvalidRequest => b"INVALID_REQUEST",
            Code::InvalidTicket => b"INVALID_TICKET",
            Code::InvalidService => b"INVALID_SERVICE",
            Code::BadPgt => b"BAD_PGT",
            Code::UnauthorizedService => b"UNAUTHORIZED_SERVICE",
            Code::InternalError => b"INTERNAL_ERROR",
        }
    }
}

// The outer element begins every answer.
// What stands between an opening and a closing below is a date, a text, or a text escaped: one function for all would take what writes it as
// a closure, and say no more than the three calls. Texts of at most 64 or 200 bytes are slices with a clause: a type of such texts would ask
// more of who calls.
fn put_open(out: &mut [u8]) -> usize
    requires { Room out.old 0 response_open }
    ensures { Wrote out.old 0 out.new result response_open }
{
    text::put_bytes(
        out,
        0,
        b"<cas:serviceResponse xmlns:cas=\"http://www.yale.edu/tp/cas\">\n",
    )
}

fn put_close(out: &mut [u8], at: usize) -> usize
    requires { Room out.old at response_close }
    ensures { Wrote out.old at out.new result response_close }
{
    text::put_bytes(out, at, b"</cas:serviceResponse>\n")
}

fn put_proxy_ticket(out: &mut [u8], at: usize, ticket: &[u8]) -> usize
    requires { Room out.old at (proxy_ticket ticket.now) }
    ensures { Wrote out.old at out.new result (proxy_ticket ticket.now) }
{
    let name = text::put_bytes(out, at, b"  <cas:proxySuccess>\n    <cas:proxyTicket>");
    let to = text::put_bytes(out, name, ticket);
    text::put_bytes(out, to, b"</cas:proxyTicket>\n  </cas:proxySuccess>\n")
}

pub fn put_proxy_success(out: &mut [u8], ticket: &[u8]) -> usize
    requires in_bounds { 8192 ≤ length out.old }
    requires ticket_len_bound { length ticket.now ≤ 64 }
    ensures { Wrote out.old 0 out.new result (reply_text (ProxySuccess ticket.now)) }
{
    let open = put_open(out);
    let told = put_proxy_ticket(out, open, ticket);
    put_close(out, told)
}

// A failure's element, up to its code.
fn put_failure_open(out: &mut [u8], at: usize, element: &[u8]) -> usize
    requires { Room out.old at (failure_open element.now) }
    ensures { Wrote out.old at out.new result (failure_open element.now) }
{
    let name = text::put_bytes(out, at, b"  <cas:");
    let to = text::put_bytes(out, name, element);
    text::put_bytes(out, to, b" code=\"")
}

// The code, and again as the message.
fn put_code(out: &mut [u8], at: usize, code: &[u8]) -> usize
    requires { Room out.old at (code_twice code.now) }
    ensures { Wrote out.old at out.new result (code_twice code.now) }
{
    let coded = text::put_bytes(out, at, code);
    let message = text::put_bytes(out, coded, b"\">\n    ");
    let to = text::put_bytes(out, message, code);
    text::put_bytes(out, to, b"\n")
}

fn put_failure_close(out: &mut [u8], at: usize, element: &[u8]) -> usize
    requires { Room out.old at (failure_close element.now) }
    ensures { Wrote out.old at out.new result (failure_close element.now) }
{
    let name = text::put_bytes(out, at, b"  </cas:");
    let to = text::put_bytes(out, name, element);
    text::put_bytes(out, to, b">\n")
}

fn put_failure_of(out: &mut [u8], element: &[u8], code: &[u8]) -> usize
    requires { Room out.old 0 (failure_parts element.now code.now) }
    ensures { Wrote out.old 0 out.new result (failure_parts element.now code.now) }
{
    let open = put_open(out);
    let named = put_failure_open(out, open, element);
    let told = put_code(out, named, code);
    let to = put_failure_close(out, told, element);
    put_close(out, to)
}

fn put_failure_by(out: &mut [u8], element: &[u8], code: Code) -> usize
    requires { Room out.old 0 (failure_parts element.now (code_text (code_of code))) }
    ensures { Wrote out.old 0 out.new result (failure_parts element.now (code_text (code_of code))) }
{
    put_failure_of(out, element, code.text())
}

// What the validators answer, and below what proxy does: the meaning has `Failure` and `ProxyFailure` apart, and `put_failure_by` is what both share.
pub fn put_failure(out: &mut [u8], code: Code) -> usize
    requires { 8192 ≤ length out.old }
    ensures { Wrote out.old 0 out.new result (reply_text (Failure (code_of code))) }
{
    put_failure_by(out, b"authenticationFailure", code)
}

pub fn put_proxy_failure(out: &mut [u8], code: Code) -> usize
    requires { 8192 ≤ length out.old }
    ensures { Wrote out.old 0 out.new result (reply_text (ProxyFailure (code_of code))) }
{
    put_failure_by(out, b"proxyFailure", code)
}

// A success begins with the user.
fn put_user(out: &mut [u8], user: &[u8]) -> usize
    requires { Room out.old 0 (success_user user.now) }
    ensures { Wrote out.old 0 out.new result (success_user user.now) }
{
    let open = put_open(out);
    let name = text::put_bytes(out, open, b"  <cas:authenticationSuccess>\n    <cas:user>");
    let to = text::put_escaped(out, name, user);
    text::put_bytes(out, to, b"</cas:user>\n")
}

// The attributes, the first of them the date.
fn put_since(out: &mut [u8], at: usize, since: Time) -> usize
    requires { Room out.old at (date_part since.seconds) }
    ensures { Wrote out.old at out.new result (date_part since.seconds) }
{
    let date = text::put_bytes(
        out,
        at,
        b"    <cas:attributes>\n      <cas:authenticationDate>",
    );
    let to = calendar::put_date(out, date, since);
    text::put_bytes(out, to, b"</cas:authenticationDate>\n")
}

fn put_token(out: &mut [u8], at: usize) -> usize
    requires { Room out.old at token_line }
    ensures { Wrote out.old at out.new result token_line }
{
    text::put_bytes(
        out,
        at,
        b"      <cas:longTermAuthenticationRequestTokenUsed>false</cas:longTermAuthenticationRequestTokenUsed>\n",
    )
}

// The last attribute, `true` or `false`.
fn put_word(out: &mut [u8], at: usize, word: &[u8]) -> usize
    requires { Room out.old at (login_part word.now) }
    ensures { Wrote out.old at out.new result (login_part word.now) }
{
    let value = text::put_bytes(out, at, b"      <cas:isFromNewLogin>");
    let to = text::put_bytes(out, value, word);
    text::put_bytes(out, to, b"</cas:isFromNewLogin>\n    </cas:attributes>\n")
}

// The mark is a number: so in the meaning's `mark_text`, which may not change.
fn put_mark(out: &mut [u8], at: usize, mark: u8) -> usize
    requires { Room out.old at (login_part (mark_text mark)) }
    ensures { Wrote out.old at out.new result (login_part (mark_text mark)) }
{
    if mark == 0 {
        return put_word(out, at, b"false");
    }
    put_word(out, at, b"true")
}

fn put_attributes(out: &mut [u8], at: usize, since: Time, mark: u8) -> usize
    requires { Room out.old at (attribute_parts since.seconds mark) }
    ensures { Wrote out.old at out.new result (attribute_parts since.seconds mark) }
{
    let dated = put_since(out, at, since);
    let to = put_token(out, dated);
    put_mark(out, to, mark)
}

// The IOU, if it is not empty.
// An empty one is none: so in the meaning's `success_text`, which may not change.
fn put_iou(out: &mut [u8], at: usize, iou: &[u8]) -> usize
    requires { Room out.old at (iou_line iou.now) }
    ensures { Wrote out.old at out.new result (iou_line iou.now) }
{
    if iou.is_empty() {
        return at;
    }
    let value = text::put_bytes(out, at, b"    <cas:proxyGrantingTicket>");
    let to = text::put_escaped(out, value, iou);
    text::put_bytes(out, to, b"</cas:proxyGrantingTicket>\n")
}

// Success, up to the proxies: the user, the attributes, and the IOU if it is not empty.
pub fn put_success_head(out: &mut [u8], user: &[u8], since: Time, mark: u8, iou: &[u8]) -> usize
    requires in_bounds { 8192 ≤ length out.old }
    requires user_len_bound { length user.now ≤ 200 }
    requires iou_len_bound { length iou.now ≤ 64 }
    ensures { Wrote out.old 0 out.new result (success_head user.now since.seconds mark iou.now) }
{
    let named = put_user(out, user);
    let told = put_attributes(out, named, since, mark);
    put_iou(out, told, iou)
}

pub fn put_proxies_open(out: &mut [u8], at: usize) -> usize
    requires { Room out.old at proxies_open }
    ensures { Wrote out.old at out.new result proxies_open }
{
    text::put_bytes(out, at, b"    <cas:proxies>\n")
}

// The line of one proxy.
pub fn put_proxy(out: &mut [u8], at: usize, callback: &[u8]) -> usize
    requires { Room out.old at (proxy_line callback.now) }
    ensures { Wrote out.old at out.new result (proxy_line callback.now) }
{
    let value = text::put_bytes(out, at, b"      <cas:proxy>");
    let to = text::put_escaped(out, value, callback);
    text::put_bytes(out, to, b"</cas:proxy>\n")
}

pub fn put_proxies_close(out: &mut [u8], at: usize) -> usize
    requires { Room out.old at proxies_close }
    ensures { Wrote out.old at out.new result proxies_close }
{
    text::put_bytes(out, at, b"    </cas:proxies>\n")
}

pub fn put_success_tail(out: &mut [u8], at: usize) -> usize
    requires { Room out.old at success_tail }
    ensures { Wrote out.old at out.new result success_tail }
{
    text::put_bytes(
        out,
        at,
        b"  </cas:authenticationSuccess>\n</cas:serviceResponse>\n",
    )
}
