// The line that is written for a call: its letter, its numbers, its bytes in hex, and the sums of all that it may write. It is flushed,
// since whoever drives the program through a pipe waits for it.
ghost use Rattle.std.specs.Prelude.{◌≤◌, length};

use lent::front;
use protocol::{Form, Outcome, Refusal, Visit};
use std::io;
use std::io::Write;

// The house check's value worked over a buffer of any length: `block`'s takes at most 4,096 bytes.
fn sum(s: &[u8]) -> u64 {
    let mut a: u64 = 1;
    let mut b: u64 = 0;
    for x in s {
        a = (a + u64::from(*x)) % 65535;
        b = (b + a) % 65535;
    }
    b * 65536 + a
}

// Into room of a fixed size, whose filled part is counted: there is no heap for a text that grows, and `text::put_hex` puts into lent bytes.
fn write_digits(output: &mut impl Write, bytes: &[u8]) -> io::Result<()>
    requires { length bytes.now ≤ 256 }
{
    let mut digits = [0u8; 512];
    let n = text::put_hex(&mut digits, 0, bytes);
    output.write_all(&digits[..n])
}

// Bytes in lowercase hex, behind a space; `-` for none. No Display: that would have to show that the digits are text, or write each alone.
fn write_hex(output: &mut impl Write, bytes: &[u8]) -> io::Result<()> {
    if bytes.is_empty() {
        return output.write_all(b" -");
    }
    output.write_all(b" ")?;
    for part in bytes.chunks(256) {
        write_digits(output, part)?;
    }
    Ok(())
}

// Format, check and housekeeping: the refusal and the sum of the table.
pub fn say_table(
    output: &mut impl Write,
    letter: char,
    done: Result<(), Refusal>,
    table: &[u8],
) -> io::Result<()> {
    let refusal = protocol::number_of(done);
    writeln!(output, "{letter} {refusal} {}", sum(table))?;
    output.flush()
}

pub fn say_form(
    output: &mut impl Write,
    form: Form,
    username: &[u8],
    password: &[u8],
) -> io::Result<()> {
    let Form {
        refusal,
        username_length,
        password_length,
    } = form;
    write!(output, "R {refusal} {username_length} {password_length}")?;
    write_hex(output, front(username, username_length))?;
    write_hex(output, front(password, password_length))?;
    writeln!(output, " {} {}", sum(username), sum(password))?;
    output.flush()
}

pub fn say_visit(
    output: &mut impl Write,
    visit: Visit,
    out: &[u8],
    table: &[u8],
) -> io::Result<()> {
    let Visit { refusal, length } = visit;
    write!(output, "V {refusal} {length}")?;
    write_hex(output, front(out, length))?;
    writeln!(output, " {} {}", sum(out), sum(table))?;
    output.flush()
}

// Answer and finish: the outcome, the bytes that it reports, and the sums of all that the call may write.
pub fn say_outcome(
    output: &mut impl Write,
    letter: char,
    o: Outcome,
    out: &[u8],
    cookie: &[u8],
    table: &[u8],
) -> io::Result<()> {
    write!(
        output,
        "{letter} {} {}",
        o.refusal,
        reply::number_of(o.answer)
    )?;
    write!(output, " {} {} {}", o.status, o.length, o.cookie_length)?;
    write!(
        output,
        " {} {}",
        u8::from(o.cookie_cleared),
        o.callback_serial
    )?;
    write_hex(output, front(out, o.length))?;
    write_hex(output, front(cookie, o.cookie_length))?;
    writeln!(output, " {} {} {}", sum(out), sum(cookie), sum(table))?;
    output.flush()
}
