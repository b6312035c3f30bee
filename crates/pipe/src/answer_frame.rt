// The frame of an answer: the call made, and what it changed told.
use super::frame_out::FrameOut;
use super::told::told;
use lent::{Fields, Kept, Request};

pub fn answer(
    table: &mut Kept<65536>,
    register: &Kept<8704>,
    old: &mut [u8; 65536],
    fields: Fields,
    out: &mut FrameOut,
) -> Option<()> {
    let request = Request::read(fields)?;
    let mut output = [0u8; 16384];
    let mut cookie_out = [0u8; 4096];
    let output = &mut output[..request.out];
    let cookie_out = &mut cookie_out[..request.cookie_out];
    let register = register.bytes();
    told(table.bytes_mut(), old, out, |table, out| {
        let outcome = request.answer(table, register, output, cookie_out);
        out.reply_outcome(b'A', outcome, output, cookie_out);
    });
    Some(())
}
