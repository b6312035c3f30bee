// The frame of an answer, behind its letter: u8 post, u64 time, u8 verdict, u32 and u32 for the sizes of output and cookie output, then the
// texts target, body, cookie and random.
ghost use Rattle.std.specs.Prelude.{◌≡◌, ◌≤◌};
ghost use Rattle.protocol.specs.Calls.{inputs, result_of, answer_of};

use super::Fields;
use protocol::{Method, Outcome};

#[derive(Clone, Copy)]
pub struct Request<'a> {
    method: Method,
    time: u64,
    verdict: bool,
    pub out: usize,
    pub cookie_out: usize,
    target: &'a [u8],
    body: &'a [u8],
    cookie: &'a [u8],
    random: &'a [u8],
    // here and in the two other frames: a size's type would be opened at once, where the buffer is cut
    ghost out_fits: { out ≤ 16384 },
    ghost cookie_out_fits: { cookie_out ≤ 4096 },
}

impl<'a> Request<'a> {
    ghost use Rattle.std.specs.Prelude.{IfSome};
    ghost use Rattle.lent.specs.Said.{Asks};

    // None where the frame is cut, has bytes left over, or wants more room than there is.
    pub fn read(mut fields: Fields<'a>) -> Option<Self>
        ensures { IfSome result (λ r. Asks fields.entry.rest.now r) }
    {
        let method = Method::from(fields.flag()?);
        let time = fields.long()?;
        let verdict = fields.flag()?;
        let out = fields.size(16384)?;
        let cookie_out = fields.size(4096)?;
        let target = fields.text()?;
        let body = fields.text()?;
        let cookie = fields.text()?;
        let random = fields.text()?;
        fields.end()?;
        Some(Request {
            method,
            time,
            verdict,
            out,
            cookie_out,
            target,
            body,
            cookie,
            random,
        })
    }

    // The call, on the bytes that the frame names.
    pub fn answer(
        &self,
        table: &mut [u8],
        register: &[u8],
        out: &mut [u8],
        cookie_out: &mut [u8],
    ) -> Outcome
        ensures { result_of result table.new out.new cookie_out.new
            ≡ answer_of (inputs table.old register.now self.now.method self.now.target.now self.now.body.now self.now.cookie.now
            self.now.time self.now.random.now self.now.verdict out.old cookie_out.old) }
    {
        signon::answer(
            table,
            register,
            self.method,
            self.target,
            self.body,
            self.cookie,
            self.time,
            self.random,
            self.verdict,
            out,
            cookie_out,
        )
    }
}
