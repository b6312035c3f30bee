// The frame of a visit, behind its letter: u32 number, u64 time, u32 for the size of the output, then the texts cookie and random.
ghost use Rattle.std.specs.Prelude.{◌≡◌, ◌≤◌};
ghost use Rattle.protocol.specs.Visits.{visit_read, visit_of};

use super::Fields;
use protocol::Visit;

#[derive(Clone, Copy)]
pub struct Question<'a> {
    number: u32,
    time: u64,
    pub out: usize,
    cookie: &'a [u8],
    random: &'a [u8],
    ghost out_fits: { out ≤ 16384 },
}

impl<'a> Question<'a> {
    ghost use Rattle.std.specs.Prelude.{IfSome};
    ghost use Rattle.lent.specs.Said.{Questions};

    // None where the frame is cut, has bytes left over, or wants more room than there is.
    pub fn read(mut fields: Fields<'a>) -> Option<Self>
        ensures { IfSome result (λ q. Questions fields.entry.rest.now q) }
    {
        let number = fields.number()?;
        let time = fields.long()?;
        let out = fields.size(16384)?;
        let cookie = fields.text()?;
        let random = fields.text()?;
        fields.end()?;
        Some(Question {
            number,
            time,
            out,
            cookie,
            random,
        })
    }

    // The call, on the bytes that the frame names.
    pub fn visit(&self, table: &[u8], out: &mut [u8]) -> Visit
        ensures { visit_read result table.now out.new
            ≡ visit_of table.now self.now.cookie.now self.now.number self.now.time self.now.random.now out.old }
    {
        signon::visit(table, self.cookie, self.number, self.time, self.random, out)
    }
}
