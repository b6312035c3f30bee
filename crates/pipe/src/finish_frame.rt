// The frame of a callback's outcome: the call made, and what it changed told.
use super::frame_out::FrameOut;
use super::told::told;
use lent::{Callback, Fields, Kept};

pub fn finish(
    table: &mut Kept<65536>,
    old: &mut [u8; 65536],
    fields: Fields,
    out: &mut FrameOut,
) -> Option<()> {
    let callback = Callback::read(fields)?;
    let mut output = [0u8; 16384];
    let output = &mut output[..callback.out];
    told(table.bytes_mut(), old, out, |table, out| {
        let outcome = callback.finish(table, output);
        out.reply_outcome(b'N', outcome, output, b""); // finish gives no cookie
    });
    Some(())
}
