// The frame of a form: its body and the sizes of the two buffers taken, the call made. Both sizes are read before either is judged, so that
// a frame is refused for one of them only once it was read whole. Not gathered and read as `pipe` reads its form, which may have a longer body:
// here a body of more than 65,536 bytes is refused by its length, before any byte of it is read.
use super::frame::{Stop, fitting, number, text};
use super::line::say_form;
use std::io::{Read, Write};

pub fn read_form(input: &mut impl Read, output: &mut impl Write) -> Result<(), Stop> {
    let mut room = [0u8; 65536];
    let body = text(input, &mut room)?;
    let username_size = number(input)?;
    let password_size = number(input)?;
    let username_size = fitting(username_size, 4096)?;
    let password_size = fitting(password_size, 4096)?;
    let mut username = [0xCCu8; 4096];
    let mut password = [0xBBu8; 4096];
    let username = &mut username[..username_size];
    let password = &mut password[..password_size];
    let form = signon::read_form(body, username, password);
    say_form(output, form, username, password)?;
    Ok(())
}
