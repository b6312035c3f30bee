// The frames of an answer and of a callback's outcome: gathered, the call made on what they say. An answer's room has a place less than a frame,
// for its letter.
use super::frame::{Stop, gather};
use super::line::say_outcome;
use lent::{Bad, Callback, Kept, Request};
use std::io::{Read, Write};

pub fn answer(
    input: &mut impl Read,
    output: &mut impl Write,
    table: &mut Kept<70000>,
    register: &Kept<65536>,
) -> Result<(), Stop> {
    let mut room = [0u8; 131071];
    let fields = gather(input, &mut room, 18, 4)?;
    let request = Request::read(fields).ok_or(Bad::Cut)?;
    let mut out = [0xEEu8; 16384];
    let mut cookie_out = [0xDDu8; 4096];
    let out = &mut out[..request.out];
    let cookie_out = &mut cookie_out[..request.cookie_out];
    let table = table.bytes_mut();
    let outcome = request.answer(table, register.bytes(), out, cookie_out);
    say_outcome(output, 'A', outcome, out, cookie_out, table)?;
    Ok(())
}

// Finish gives no cookie.
pub fn finish(
    input: &mut impl Read,
    output: &mut impl Write,
    table: &mut Kept<70000>,
) -> Result<(), Stop> {
    let mut room = [0u8; 17];
    let fields = gather(input, &mut room, 17, 0)?;
    let callback = Callback::read(fields).ok_or(Bad::Cut)?;
    let mut out = [0xEEu8; 16384];
    let out = &mut out[..callback.out];
    let table = table.bytes_mut();
    let outcome = callback.finish(table, out);
    say_outcome(output, 'N', outcome, out, b"", table)?;
    Ok(())
}
