// The frames that load, format, check and read back the table, and the one that loads the register.
ghost use Rattle.std.specs.Prelude.{◌≤◌, length};

use super::frame_out::FrameOut;
use lent::{Fields, Kept};
use protocol::Refusal;

// The register from here on, as it is, and what is wrong with it: the refusal's number and the first block at fault, or 0 and 0.
pub fn take_register(
    register: &mut Kept<8704>,
    mut fields: Fields,
    out: &mut FrameOut,
) -> Option<()> {
    let bytes = fields.text()?;
    fields.end()?;
    register.load(bytes)?;
    out.reply_fault(signon::check_register(bytes));
    Some(())
}

// The table from here on, loaded as it is and then checked.
pub fn load(table: &mut Kept<65536>, mut fields: Fields, out: &mut FrameOut) -> Option<()> {
    let bytes = fields.text()?;
    fields.end()?;
    table.load(bytes)?;
    out.put_done(b'L', signon::check(bytes));
    Some(())
}

pub fn check(table: &Kept<65536>, fields: Fields, out: &mut FrameOut) -> Option<()> {
    fields.end()?;
    out.put_done(b'C', signon::check(table.bytes()));
    Some(())
}

pub fn read_back(table: &Kept<65536>, fields: Fields, out: &mut FrameOut) -> Option<()> {
    fields.end()?;
    out.reply_table(table.bytes());
    Some(())
}

// A table of a size, each byte of a value, formatted. Every block of a fresh table is told: against no table at all, each has changed.
pub fn format(table: &mut Kept<65536>, mut fields: Fields, out: &mut FrameOut) -> Option<()> {
    let size = fields.number()? as usize;
    let v = fields.byte()?;
    let time = fields.long()?;
    fields.end()?;
    let table = table.resize(size)?;
    table.fill(v);
    let done = signon::format(table, time);
    out.put_done(b'F', done);
    out.end = changed::put_changed(b"", told_after(done, table), &mut out.bytes, out.end);
    Some(())
}

// What a call made, if it was not refused.
pub fn told_after<'a>(done: Result<(), Refusal>, made: &'a [u8]) -> &'a [u8]
    ensures { length result.now ≤ length made.now }
{
    match done {
        Ok(()) => made,
        Err(_) => &[],
    }
}
