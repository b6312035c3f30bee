// The frame of housekeeping: its time taken, the call made, and what it changed told.
use super::frame_out::FrameOut;
use super::told::told;
use lent::{Fields, Kept};

pub fn housekeep(
    table: &mut Kept<65536>,
    old: &mut [u8; 65536],
    mut fields: Fields,
    out: &mut FrameOut,
) -> Option<()> {
    let time = fields.long()?;
    fields.end()?;
    told(table.bytes_mut(), old, out, |table, out| {
        out.put_done(b'K', signon::housekeep(table, time));
    });
    Some(())
}
