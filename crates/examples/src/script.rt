// A script of calls: each line is written again, and what the call answered after it. A line that begins with no call's name
// is only written.
//
//   new TIME                                 the table is formatted
//   check
//   housekeep TIME
//   get TIME TARGET COOKIE                   the cookie may be absent
//   post TIME VERDICT TARGET BODY COOKIE     the verdict is yes or no
//   finish TIME OUTCOME SERIAL               the outcome is yes or no
//   read BODY                                username and password of a form
//   visit TIME NUMBER COOKIE                 what a panel is told of sign-off
//
// The random input is always the same, so that a ticket's text is told by its serial: secrets of 9 bytes are all c3, those of
// 16 all a1, the IOU's all b2.
use super::shown::{show_done, show_form, show_outcome, show_visit};
use super::words::{number, word};
use protocol::Method;
use std::io;
use std::io::Write;

const RANDOM: [u8; 48] =
    *b"\xa1\xa1\xa1\xa1\xa1\xa1\xa1\xa1\xa1\xa1\xa1\xa1\xa1\xa1\xa1\xa1\xb2\xb2\xb2\xb2\xb2\xb2\xb2\xb2\xb2\xb2\xb2\xb2\xb2\xb2\xb2\xb2\xc3\xc3\xc3\xc3\xc3\xc3\xc3\xc3\xc3\xd4\xd4\xd4\xd4\xd4\xd4\xd4";

// What stays from call to call.
#[derive(Drop)]
pub struct Cases {
    table: [u8; 4608],
    register: [u8; 1024],
}

// A request but for its time and the host's verdict.
#[derive(Clone, Copy)]
struct Asked<'a> {
    method: Method,
    target: &'a [u8],
    body: &'a [u8],
    cookie: &'a [u8],
}

fn time_of(line: &[u8]) -> u64 {
    number(word(line, 1))
}

// The host says yes.
fn is_yes(line: &[u8]) -> bool {
    word(line, 2) == b"yes".as_slice()
}

fn serial_of(word: &[u8]) -> u32 {
    (number(word) % (1 << 32)) as u32
}

impl Cases {
    pub fn new(register: [u8; 1024]) -> Self {
        Cases {
            table: [0; 4608],
            register,
        }
    }

    pub fn run(&mut self, output: &mut impl Write, script: &[u8]) -> io::Result<()> {
        for line in script.split_inclusive(|b| *b == b'\n') {
            let line = line.strip_suffix(b"\n").unwrap_or(line);
            output.write_all(b"> ")?;
            output.write_all(line)?;
            output.write_all(b"\n")?;
            self.step(output, line)?;
        }
        Ok(())
    }

    fn step(&mut self, output: &mut impl Write, line: &[u8]) -> io::Result<()> {
        match line.first() {
            Some(b'n') => show_done(output, signon::format(&mut self.table, time_of(line))),
            Some(b'c') => show_done(output, signon::check(&self.table)),
            Some(b'h') => show_done(output, signon::housekeep(&mut self.table, time_of(line))),
            Some(b'g') => self.get(output, line),
            Some(b'p') => self.post(output, line),
            Some(b'f') => self.finish(output, line),
            Some(b'r') => read(output, line),
            Some(b'v') => self.visit(output, line),
            _ => Ok(()),
        }
    }

    fn ask(
        &mut self,
        output: &mut impl Write,
        asked: Asked,
        time: u64,
        verdict: bool,
    ) -> io::Result<()> {
        let mut out = [0u8; 8192];
        let mut cookie_out = [0u8; 64];
        let o = signon::answer(
            &mut self.table,
            &self.register,
            asked.method,
            asked.target,
            asked.body,
            asked.cookie,
            time,
            &RANDOM,
            verdict,
            &mut out,
            &mut cookie_out,
        );
        show_outcome(output, o, &out, &cookie_out)
    }

    fn get(&mut self, output: &mut impl Write, line: &[u8]) -> io::Result<()> {
        let asked = Asked {
            method: Method::Get,
            target: word(line, 2),
            body: b"",
            cookie: word(line, 3),
        };
        self.ask(output, asked, time_of(line), false)
    }

    fn post(&mut self, output: &mut impl Write, line: &[u8]) -> io::Result<()> {
        let asked = Asked {
            method: Method::Post,
            target: word(line, 3),
            body: word(line, 4),
            cookie: word(line, 5),
        };
        self.ask(output, asked, time_of(line), is_yes(line))
    }

    fn finish(&mut self, output: &mut impl Write, line: &[u8]) -> io::Result<()> {
        let mut out = [0u8; 8192];
        let serial = serial_of(word(line, 3));
        let o = signon::finish(
            &mut self.table,
            serial,
            is_yes(line),
            time_of(line),
            &mut out,
        );
        show_outcome(output, o, &out, b"")
    }

    fn visit(&self, output: &mut impl Write, line: &[u8]) -> io::Result<()> {
        let mut out = [0u8; 8192];
        let which = serial_of(word(line, 2));
        let v = signon::visit(
            &self.table,
            word(line, 3),
            which,
            time_of(line),
            &RANDOM,
            &mut out,
        );
        show_visit(output, v, &out)
    }
}

fn read(output: &mut impl Write, line: &[u8]) -> io::Result<()> {
    let mut username = [0u8; 64];
    let mut password = [0u8; 128];
    let form = signon::read_form(word(line, 1), &mut username, &mut password);
    show_form(output, form, &username, &password)
}
