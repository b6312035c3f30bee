// The frame of a visit: gathered, the call made on the bytes that it names.
use super::frame::{Stop, gather};
use super::line::say_visit;
use lent::{Bad, Kept, Question};
use std::io::{Read, Write};

pub fn visit(
    input: &mut impl Read,
    output: &mut impl Write,
    table: &Kept<70000>,
) -> Result<(), Stop> {
    let mut room = [0u8; 131071];
    let fields = gather(input, &mut room, 16, 2)?;
    let question = Question::read(fields).ok_or(Bad::Cut)?;
    let mut out = [0xEEu8; 16384];
    let out = &mut out[..question.out];
    let table = table.bytes();
    let visit = question.visit(table, out);
    say_visit(output, visit, out, table)?;
    Ok(())
}
