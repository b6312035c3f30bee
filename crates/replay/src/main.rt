// Replays a stream of calls: frames on standard input, each field by its own length, so that the program can also be driven one call at
// a time through a pipe. The table and the register stay from frame to frame. One line is written for each call; a frame that is cut,
// too large for the buffers here or unknown ends the program with a line that says so.
//
//   G  bytes                                      the register from here on
//   P  u32 place, bytes                           the host overwrites bytes of the table
//   F  u32 size, u8 fill, u64 time                a table of that size, each byte fill, is formatted
//   C                                             check
//   K  u64 time                                   housekeeping
//   R  bytes body, u32, u32                       read the form into buffers of these sizes
//   A  u8 post, u64 time, u8 verdict, u32, u32, bytes target, bytes body, bytes cookie, bytes random
//                                                 answer, with output and cookie output of these sizes
//   N  u32 serial, u8 outcome, u64 time, u32      finish, with an output of this size
//   V  u32 number, u64 time, u32, bytes cookie, bytes random
//                                                 visit, with an output of this size
//
// Room: a table of 70,000 bytes, a frame of 131,072, bytes of 65,536 in a frame of another kind than A or V, an output of 16,384, any other lent buffer of 4,096.
#![tactic(auto)]

mod answer;
mod form_frame;
mod frame;
mod line;
mod table_frames;
mod visit_frame;

use answer::{answer, finish};
use form_frame::read_form;
use frame::{Stop, read_letter};
use lent::{Bad, Kept};
use std::io;
use std::io::{Read, Write};
use table_frames::{check, format, housekeep, poke, take_register};
use visit_frame::visit;

fn main(rt: HostRuntime) -> io::Result<()> {
    let mut table = Kept::new();
    let mut register = Kept::new();
    run(&mut rt.stdin(), &mut rt.stdout(), &mut table, &mut register)
}

// At most 2^40 frames, so that the program ends. Input, output, table and register are four: each frame takes those that it needs, and says so.
fn run(
    input: &mut impl Read,
    output: &mut impl Write,
    table: &mut Kept<70000>,
    register: &mut Kept<65536>,
) -> io::Result<()> {
    for _ in 0..1u64 << 40 {
        let Some(letter) = read_letter(input)? else {
            return Ok(());
        };
        match step(letter, input, output, table, register) {
            Ok(()) => {}
            Err(Stop::Bad(bad)) => return writeln!(output, "{bad}"),
            Err(Stop::Failed(error)) => return Err(error),
        }
    }
    Ok(())
}

fn step(
    letter: u8,
    input: &mut impl Read,
    output: &mut impl Write,
    table: &mut Kept<70000>,
    register: &mut Kept<65536>,
) -> Result<(), Stop> {
    match letter {
        b'G' => take_register(input, register),
        b'P' => poke(input, table),
        b'F' => format(input, output, table),
        b'C' => check(output, table),
        b'K' => housekeep(input, output, table),
        b'R' => read_form(input, output),
        b'A' => answer(input, output, table, register),
        b'N' => finish(input, output, table),
        b'V' => visit(input, output, table),
        _ => Err(Bad::Unknown.into()),
    }
}
