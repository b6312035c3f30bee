// Bytes out: pages, redirects, `yes` and `no`, and the callback's address. Each is written from the start of the output, the
// rest is left as it was, and none needs more than the 8,192 bytes that the output has. A text is put in pieces by small functions:
// the literals of functions that are called one after the other take the same place of the stack.
#![tactic(auto)]

ghost use Rattle.std.specs.Prelude.{[], ◌≤◌, length};
ghost use Rattle.protocol.specs.Answers.{reply_text, callback_text, extended, ErrorPage, SignedIn, SignedOut, FormPage, RedirectTo, YesNo};
ghost use Rattle.protocol.specs.Written.{Room, Wrote};
ghost use Rattle.render.specs.Parts.{title_lines, status_line, status_head, link_line, form_fields, input_open, hidden_input, service_input, form_button, form_parts, grant_parts};

// Each writer takes a place and answers the next one, and is no cursor: `Room` and `Wrote` of protocol, which may not change, speak of the two.
// What stands between an opening and a closing is a number, a text, or a text escaped: one function for all would take what writes it as
// a closure, and say no more than the three calls. A status is a number: so in the meaning's `ErrorPage` and `FormPage`, which may not change.
// Texts of at most 64 or 200 bytes are slices with a clause: a type of such texts would ask more of who calls, and for 200 bytes there is none. The room of the output
// is a clause, too, for the reason in `reply`.
fn put_title(out: &mut [u8], status: u32) -> usize
    requires { Room out.old 0 (title_lines status) }
    ensures { Wrote out.old 0 out.new result (title_lines status) }
{
    let title = text::put_bytes(out, 0, b"<!DOCTYPE html>\n<title>");
    let to = text::put_decimal(out, title, u64::from(status));
    text::put_bytes(out, to, b"</title>\n")
}

fn put_status(out: &mut [u8], at: usize, status: u32) -> usize
    requires { Room out.old at (status_line status) }
    ensures { Wrote out.old at out.new result (status_line status) }
{
    let words = text::put_bytes(out, at, b"<p>");
    let to = text::put_decimal(out, words, u64::from(status));
    text::put_bytes(out, to, b"</p>\n")
}

// The head of a page that says its status.
fn put_head(out: &mut [u8], status: u32) -> usize
    requires { Room out.old 0 (status_head status) }
    ensures { Wrote out.old 0 out.new result (status_head status) }
{
    let to = put_title(out, status);
    put_status(out, to, status)
}

pub fn put_error_page(out: &mut [u8], status: u32) -> usize
    requires { 8192 ≤ length out.old }
    ensures { Wrote out.old 0 out.new result (reply_text (ErrorPage status)) }
{
    put_head(out, status)
}

pub fn put_signed_in(out: &mut [u8]) -> usize
    requires { 8192 ≤ length out.old }
    ensures { Wrote out.old 0 out.new result (reply_text SignedIn) }
{
    text::put_bytes(
        out,
        0,
        b"<!DOCTYPE html>\n<title>200</title>\n<p>Signed in</p>\n",
    )
}

fn put_link(out: &mut [u8], at: usize, link: &[u8]) -> usize
    requires { Room out.old at (link_line link.now) }
    ensures { Wrote out.old at out.new result (link_line link.now) }
{
    let value = text::put_bytes(out, at, b"<a href=\"");
    let to = text::put_escaped(out, value, link);
    text::put_bytes(out, to, b"\">Back</a>\n")
}

// An empty link is none.
// So are an empty service and an empty ticket below: the meaning's `reply_text`, which may not change, has them so.
pub fn put_signed_out(out: &mut [u8], link: &[u8]) -> usize
    requires in_bounds { 8192 ≤ length out.old }
    requires link_len_bound { length link.now ≤ 200 }
    ensures { Wrote out.old 0 out.new result (reply_text (SignedOut link.now)) }
{
    let to = text::put_bytes(
        out,
        0,
        b"<!DOCTYPE html>\n<title>200</title>\n<p>Signed out</p>\n",
    );
    if link.is_empty() {
        return to;
    }
    put_link(out, to, link)
}

// What is filled in.
fn put_fields(out: &mut [u8], at: usize) -> usize
    requires { Room out.old at form_fields }
    ensures { Wrote out.old at out.new result form_fields }
{
    text::put_bytes(
        out,
        at,
        b"<form method=\"post\" action=\"/cas/login\">\n<input name=\"username\">\n<input name=\"password\" type=\"password\">\n",
    )
}

// A hidden input, up to its value.
fn put_input(out: &mut [u8], at: usize, name: &[u8]) -> usize
    requires { Room out.old at (input_open name.now) }
    ensures { Wrote out.old at out.new result (input_open name.now) }
{
    let open = text::put_bytes(out, at, b"<input name=\"");
    let to = text::put_bytes(out, open, name);
    text::put_bytes(out, to, b"\" type=\"hidden\" value=\"")
}

fn put_hidden(out: &mut [u8], at: usize, name: &[u8], value: &[u8]) -> usize
    requires { Room out.old at (hidden_input name.now value.now) }
    ensures { Wrote out.old at out.new result (hidden_input name.now value.now) }
{
    let named = put_input(out, at, name);
    let to = text::put_escaped(out, named, value);
    text::put_bytes(out, to, b"\">\n")
}

// An empty service is none.
fn put_service(out: &mut [u8], at: usize, service: &[u8]) -> usize
    requires { Room out.old at (service_input service.now) }
    ensures { Wrote out.old at out.new result (service_input service.now) }
{
    if service.is_empty() {
        return at;
    }
    put_hidden(out, at, b"service", service)
}

fn put_button(out: &mut [u8], at: usize) -> usize
    requires { Room out.old at form_button }
    ensures { Wrote out.old at out.new result form_button }
{
    text::put_bytes(out, at, b"<button>Sign in</button>\n</form>\n")
}

// The form behind the page's head.
fn put_inputs(out: &mut [u8], at: usize, lt: &[u8], service: &[u8]) -> usize
    requires { Room out.old at (form_parts lt.now service.now) }
    ensures { Wrote out.old at out.new result (form_parts lt.now service.now) }
{
    let fields = put_fields(out, at);
    let kept = put_hidden(out, fields, b"lt", lt);
    let to = put_service(out, kept, service);
    put_button(out, to)
}

pub fn put_form(out: &mut [u8], status: u32, lt: &[u8], service: &[u8]) -> usize
    requires in_bounds { 8192 ≤ length out.old }
    requires lt_len_bound { length lt.now ≤ 64 }
    requires service_len_bound { length service.now ≤ 200 }
    ensures { Wrote out.old 0 out.new result (reply_text (FormPage status lt.now service.now)) }
{
    let to = put_head(out, status);
    put_inputs(out, to, lt, service)
}

// An address that more is put behind: `?` after it, or `&` if it has a `?`.
fn put_marked(out: &mut [u8], url: &[u8]) -> usize
    requires { Room out.old 0 (extended url.now []) }
    ensures { Wrote out.old 0 out.new result (extended url.now []) }
{
    let to = text::put_bytes(out, 0, url);
    if text::has_byte(url, b'?') {
        return text::put_bytes(out, to, b"&");
    }
    text::put_bytes(out, to, b"?")
}

// The service alone where the ticket is empty.
pub fn put_redirect(out: &mut [u8], service: &[u8], ticket: &[u8]) -> usize
    requires in_bounds { 8192 ≤ length out.old }
    requires service_len_bound { length service.now ≤ 200 }
    requires ticket_len_bound { length ticket.now ≤ 64 }
    ensures { Wrote out.old 0 out.new result (reply_text (RedirectTo service.now ticket.now)) }
{
    if ticket.is_empty() {
        return text::put_bytes(out, 0, service);
    }
    let name = put_marked(out, service);
    let to = text::put_bytes(out, name, b"ticket=");
    text::put_bytes(out, to, ticket)
}

pub fn put_yes_no(out: &mut [u8], yes: bool) -> usize
    requires { 8192 ≤ length out.old }
    ensures { Wrote out.old 0 out.new result (reply_text (YesNo yes)) }
{
    if yes {
        return text::put_bytes(out, 0, b"yes\n");
    }
    text::put_bytes(out, 0, b"no\n")
}

fn put_grant(out: &mut [u8], at: usize, pgt: &[u8], iou: &[u8]) -> usize
    requires { Room out.old at (grant_parts pgt.now iou.now) }
    ensures { Wrote out.old at out.new result (grant_parts pgt.now iou.now) }
{
    let id = text::put_bytes(out, at, b"pgtId=");
    let told = text::put_bytes(out, id, pgt);
    let to = text::put_bytes(out, told, b"&pgtIou=");
    text::put_bytes(out, to, iou)
}

// The callback's address; its serial is told in the result.
pub fn put_callback(out: &mut [u8], url: &[u8], pgt: &[u8], iou: &[u8]) -> usize
    requires in_bounds { 8192 ≤ length out.old }
    requires url_len_bound { length url.now ≤ 200 }
    requires pgt_len_bound { length pgt.now ≤ 64 }
    requires iou_len_bound { length iou.now ≤ 64 }
    ensures { Wrote out.old 0 out.new result (callback_text url.now pgt.now iou.now) }
{
    let to = put_marked(out, url);
    put_grant(out, to, pgt, iou)
}
