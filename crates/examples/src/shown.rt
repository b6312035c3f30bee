// What a call answered, as text: its numbers on a line, then its bytes, and a line feed after them.
use lent::front;
use protocol::{Answer, Form, Outcome, Refusal, Visit};
use std::io;
use std::io::Write;

fn show_bytes(output: &mut impl Write, bytes: &[u8]) -> io::Result<()> {
    output.write_all(bytes)?;
    output.write_all(b"\n")
}

// The name of an answer's case.
// No Display: it would have to stand in `protocol`, away from the script's other words.
fn name(answer: Answer) -> &'static str {
    match answer {
        Answer::Nothing => "nothing",
        Answer::Page(_) => "page",
        Answer::Redirect(_) => "redirect",
        Answer::Text(_) => "text",
        Answer::Xml(_) => "xml",
        Answer::Callback(_) => "callback",
    }
}

// By its number: the results of document 01 have no more (`refused_outcome`).
fn show_refusal(output: &mut impl Write, refusal: u32) -> io::Result<()> {
    write!(output, "refusal {refusal}\n\n")
}

pub fn show_done(output: &mut impl Write, done: Result<(), Refusal>) -> io::Result<()> {
    show_refusal(output, protocol::number_of(done))
}

fn show_cookie(output: &mut impl Write, cookie: &[u8]) -> io::Result<()> {
    if cookie.is_empty() {
        return Ok(());
    }
    output.write_all(b" cookie ")?;
    output.write_all(cookie)
}

pub fn show_outcome(
    output: &mut impl Write,
    o: Outcome,
    out: &[u8],
    cookie: &[u8],
) -> io::Result<()> {
    if o.refusal != 0 {
        return show_refusal(output, o.refusal);
    }
    write!(output, "{} {}", name(o.answer), o.status)?;
    show_cookie(output, front(cookie, o.cookie_length))?;
    if o.cookie_cleared {
        output.write_all(b" cookie cleared")?;
    }
    if o.callback_serial != 0 {
        write!(output, " serial {}", o.callback_serial)?;
    }
    output.write_all(b"\n")?;
    show_bytes(output, front(out, o.length))
}

pub fn show_form(
    output: &mut impl Write,
    form: Form,
    username: &[u8],
    password: &[u8],
) -> io::Result<()> {
    if form.refusal != 0 {
        return show_refusal(output, form.refusal);
    }
    show_bytes(output, front(username, form.username_length))?;
    show_bytes(output, front(password, form.password_length))?;
    output.write_all(b"\n")
}

pub fn show_visit(output: &mut impl Write, visit: Visit, out: &[u8]) -> io::Result<()> {
    if visit.refusal != 0 {
        return show_refusal(output, visit.refusal);
    }
    show_bytes(output, front(out, visit.length))
}
