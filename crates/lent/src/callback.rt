// The frame of a callback's outcome, behind its letter: u32 serial, u8 outcome, u64 time, u32 for the size of the output.
ghost use Rattle.std.specs.Prelude.{◌≡◌, ◌≤◌, []};
ghost use Rattle.protocol.specs.Calls.{result_of, finish_of};

use super::Fields;
use protocol::Outcome;

#[derive(Clone, Copy)]
pub struct Callback {
    serial: u32,
    good: bool,
    time: u64,
    pub out: usize,
    ghost out_fits: { out ≤ 16384 },
}

impl Callback {
    ghost use Rattle.std.specs.Prelude.{IfSome};
    ghost use Rattle.lent.specs.Said.{Finishes};

    // None where the frame is cut, has bytes left over, or wants more room than there is.
    pub fn read(mut fields: Fields) -> Option<Self>
        ensures { IfSome result (λ c. Finishes fields.entry.rest.now c) }
    {
        let serial = fields.number()?;
        let good = fields.flag()?;
        let time = fields.long()?;
        let out = fields.size(16384)?;
        fields.end()?;
        Some(Callback {
            serial,
            good,
            time,
            out,
        })
    }

    // The call, on what the frame says.
    pub fn finish(&self, table: &mut [u8], out: &mut [u8]) -> Outcome
        ensures { result_of result table.new out.new []
            ≡ finish_of table.old self.now.serial self.now.good self.now.time out.old }
    {
        signon::finish(table, self.serial, self.good, self.time, out)
    }
}
