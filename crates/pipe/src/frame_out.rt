// The frame out: its fields put one behind the other. The first four bytes are its length, put last. What is put is said by specs/Frames.antt.
ghost use Rattle.std.specs.Prelude.{◌≡◌, ◌∷◌, [], ◌+◌, ◌≤◌, length};
ghost use Rattle.protocol.specs.Bytes.{bytes_of};
ghost use Rattle.protocol.specs.Refusals.{number_of_result};
ghost use Rattle.protocol.specs.Written.{Wrote};
ghost use Rattle.lent.specs.Reasons.{reason_of};
ghost use Rattle.pipe.specs.Frames.{letter_alone, refused, sized, fault_frame, panel_frame, table_frame, bad_frame, form_frame, visit_frame, outcome_numbers, outcome_frame};

use lent::{Bad, front};
use protocol::{Fault, Form, Outcome, Refusal, Visit};
use std::io;
use std::io::Write;

#[derive(Drop)]
pub struct FrameOut {
    pub bytes: [u8; 131072],
    // where the fields end that were put so far
    pub end: usize,
    pub ghost fits: { end ≤ 131072 },
}

impl FrameOut {
    fn put_byte(&mut self, v: u8)
        requires { self.old.end + 1 ≤ 131072 }
        ensures next { self.new.end ≡ self.old.end + 1 }
        ensures wrote { Wrote self.old.bytes self.old.end self.new.bytes self.new.end (v ∷ []) }
    {
        self.bytes[self.end] = v;
        self.end += 1;
    }

    fn put_number(&mut self, v: u64)
        requires { self.old.end + 4 ≤ 131072 }
        ensures next { self.new.end ≡ self.old.end + 4 }
        ensures wrote { Wrote self.old.bytes self.old.end self.new.bytes self.new.end (bytes_of 4 v) }
    {
        block::put(&mut self.bytes, self.end, 4, v);
        self.end += 4;
    }

    fn put_text(&mut self, s: &[u8])
        requires { self.old.end + (4 + length s.now) ≤ 131072 }
        ensures next { self.new.end ≡ self.old.end + (4 + length s.now) }
        ensures wrote { Wrote self.old.bytes self.old.end self.new.bytes self.new.end (sized s.now) }
    {
        self.put_number(s.len() as u64);
        self.end = text::put_bytes(&mut self.bytes, self.end, s);
    }

    // The letter, behind the four bytes of the length.
    fn begin(&mut self, letter: u8)
        ensures next { self.new.end ≡ 5 }
        ensures wrote { Wrote self.old.bytes 4 self.new.bytes self.new.end (letter_alone letter) }
    {
        self.end = 4;
        self.put_byte(letter);
    }

    // Letter and refusal. Its number: `Fault`, `Form`, `Visit` and `Outcome` of document 01 have no more (`refused_outcome`).
    pub fn put_refusal(&mut self, letter: u8, refusal: u32)
        ensures next { self.new.end ≡ 9 }
        ensures wrote { Wrote self.old.bytes 4 self.new.bytes self.new.end (refused letter refusal) }
    {
        self.begin(letter);
        self.put_number(u64::from(refusal));
    }

    // Letter and the number of what a call's result says.
    pub fn put_done(&mut self, letter: u8, done: Result<(), Refusal>)
        ensures next { self.new.end ≡ 9 }
        ensures wrote { Wrote self.old.bytes 4 self.new.bytes self.new.end (refused letter (number_of_result done)) }
    {
        self.put_refusal(letter, protocol::number_of(done));
    }

    pub fn reply_fault(&mut self, fault: Fault)
        ensures { Wrote self.old.bytes 4 self.new.bytes self.new.end (fault_frame fault) }
    {
        self.put_refusal(b'G', fault.refusal);
        self.put_number(fault.block as u64);
    }

    pub fn reply_panel(&mut self, done: Result<(), Refusal>, block: &[u8])
        requires { length block.now ≤ 512 }
        ensures { Wrote self.old.bytes 4 self.new.bytes self.new.end (panel_frame (number_of_result done) block.now) }
    {
        self.put_refusal(b'B', protocol::number_of(done));
        self.put_text(block);
    }

    pub fn reply_table(&mut self, table: &[u8])
        requires { length table.now ≤ 65536 }
        ensures { Wrote self.old.bytes 4 self.new.bytes self.new.end (table_frame table.now) }
    {
        self.begin(b'T');
        self.put_text(table);
    }

    pub fn reply_bad(&mut self, bad: Bad)
        ensures { Wrote self.old.bytes 4 self.new.bytes self.new.end (bad_frame (reason_of bad)) }
    {
        self.begin(b'X');
        self.put_text(bad.reason().as_bytes());
    }

    pub fn reply_form(&mut self, form: Form, username: &[u8], password: &[u8])
        requires username_len_bound { length username.now ≤ 4096 }
        requires password_len_bound { length password.now ≤ 4096 }
        ensures { Wrote self.old.bytes 4 self.new.bytes self.new.end (form_frame form username.now password.now) }
    {
        self.put_refusal(b'R', form.refusal);
        self.put_text(front(username, form.username_length));
        self.put_text(front(password, form.password_length));
    }

    pub fn reply_visit(&mut self, visit: Visit, text: &[u8])
        requires { length text.now ≤ 16384 }
        ensures { Wrote self.old.bytes 4 self.new.bytes self.new.end (visit_frame visit text.now) }
    {
        self.put_refusal(b'V', visit.refusal);
        self.put_text(front(text, visit.length));
    }

    // What an outcome says beside its bytes.
    fn put_outcome(&mut self, letter: u8, o: Outcome)
        ensures next { self.new.end ≡ 20 }
        ensures wrote { Wrote self.old.bytes 4 self.new.bytes self.new.end (outcome_numbers letter o) }
    {
        self.put_refusal(letter, o.refusal);
        self.put_byte((reply::number_of(o.answer) % 256) as u8);
        self.put_byte((reply::data_of(o.answer) % 256) as u8);
        self.put_number(u64::from(o.status));
        self.put_byte(u8::from(o.cookie_cleared));
        self.put_number(u64::from(o.callback_serial));
    }

    // Answer and finish, up to what they changed.
    pub fn reply_outcome(&mut self, letter: u8, o: Outcome, text: &[u8], cookie: &[u8])
        requires text_len_bound { length text.now ≤ 16384 }
        requires cookie_len_bound { length cookie.now ≤ 4096 }
        ensures upper_bound { self.new.end ≤ 20508 }
        ensures wrote { Wrote self.old.bytes 4 self.new.bytes self.new.end (outcome_frame letter o text.now cookie.now) }
    {
        self.put_outcome(letter, o);
        self.put_text(front(text, o.length));
        self.put_text(front(cookie, o.cookie_length));
    }

    // The frame written, its length before it. It is flushed, since who asked waits for it before asking again. Where it cannot be written,
    // there is nobody to go on for.
    pub fn send(&mut self, output: &mut impl Write) -> io::Result<()> {
        let length = self.end.saturating_sub(4);
        block::put(&mut self.bytes, 0, 4, length as u64);
        output.write_all(&self.bytes[..self.end])?;
        output.flush()
    }
}
