// The frames that load the register, overwrite, format and check the table, and keep house.
use super::frame::{Stop, byte, fill, long, number, text};
use super::line::say_table;
use lent::{Bad, Kept};
use std::io::{Read, Write};

pub fn take_register(input: &mut impl Read, register: &mut Kept<65536>) -> Result<(), Stop> {
    let n = number(input)? as usize;
    fill(input, register.resize(n).ok_or(Bad::Cut)?)
}

pub fn poke(input: &mut impl Read, table: &mut Kept<70000>) -> Result<(), Stop> {
    let at = number(input)? as usize;
    let mut room = [0u8; 65536];
    let bytes = text(input, &mut room)?;
    let end = at + bytes.len();
    let place = table.bytes_mut().get_mut(at..end).ok_or(Bad::Cut)?;
    place.copy_from_slice(bytes);
    Ok(())
}

pub fn format(
    input: &mut impl Read,
    output: &mut impl Write,
    table: &mut Kept<70000>,
) -> Result<(), Stop> {
    let size = number(input)? as usize;
    let v = byte(input)?;
    let time = long(input)?;
    let table = table.resize(size).ok_or(Bad::Cut)?;
    table.fill(v);
    let done = signon::format(table, time);
    say_table(output, 'F', done, table)?;
    Ok(())
}

pub fn check(output: &mut impl Write, table: &Kept<70000>) -> Result<(), Stop> {
    let table = table.bytes();
    say_table(output, 'C', signon::check(table), table)?;
    Ok(())
}

pub fn housekeep(
    input: &mut impl Read,
    output: &mut impl Write,
    table: &mut Kept<70000>,
) -> Result<(), Stop> {
    let time = long(input)?;
    let table = table.bytes_mut();
    let done = signon::housekeep(table, time);
    say_table(output, 'K', done, table)?;
    Ok(())
}
