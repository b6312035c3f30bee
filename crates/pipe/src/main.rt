// The core as a program: table and register in memory, one frame in, one frame out, for as long as its input lasts. A frame is a
// number of four bytes, n, and n bytes: a letter and the letter's fields. Numbers are little-endian; `bytes` is a number of four bytes
// and that many bytes.
//
//   in                                            out, behind the same letter
//   B  bytes service, bytes callback              u32 refusal, bytes block
//                                                 the register block of a panel, none where it is refused
//   G  bytes                                      u32 refusal, u32 first block at fault
//                                                 the register from here on
//   L  bytes                                      u32 refusal
//                                                 the table from here on, as it is, and checked
//   F  u32 size, u8 fill, u64 time                u32 refusal, changed
//                                                 a table of that size, each byte fill, is formatted
//   T                                             bytes
//                                                 the table read back
//   K  u64 time                                   u32 refusal, changed
//                                                 housekeeping
//   C                                             u32 refusal
//                                                 check
//   R  bytes body, u32, u32                       u32 refusal, bytes username, bytes password
//                                                 read the form into buffers of these sizes
//   A  u8 post, u64 time, u8 verdict, u32, u32, bytes target, bytes body, bytes cookie, bytes random
//                                                 u32 refusal, u8 kind, u8 data, u32 status, u8 cleared, u32 callback serial,
//                                                 bytes output, bytes cookie, changed
//                                                 answer, with output and cookie output of these sizes
//   N  u32 serial, u8 outcome, u64 time, u32      as A
//                                                 finish, with an output of this size
//   V  u32 number, u64 time, u32, bytes cookie, bytes random
//                                                 u32 refusal, bytes output
//                                                 visit, with an output of this size
//
// `changed` is a u32 count and, for each block of the table that the call changed, a u32 number from 0 and the block's 512 bytes. A
// frame that is cut, too large, not filled by its fields or unknown gets a frame X, bytes reason, and ends the program.
//
// Room: a frame of 131,072 bytes, a table of 65,536, a register of 8,704, an output of 16,384, any other lent buffer of 4,096.
#![tactic(auto)]

mod answer_frame;
mod finish_frame;
mod form_frame;
mod frame_out;
mod housekeep_frame;
mod panel_frame;
mod table_frames;
mod told;
mod visit_frame;

use answer_frame::answer;
use finish_frame::finish;
use form_frame::read_form;
use frame_out::FrameOut;
use housekeep_frame::housekeep;
use lent::{Bad, Fields, Kept};
use panel_frame::panel;
use std::io;
use std::io::{Read, Write};
use table_frames::{check, format, load, read_back, take_register};
use visit_frame::visit;

fn main(rt: HostRuntime) -> io::Result<()> {
    let mut table = Kept::new();
    let mut register = Kept::new();
    run(&mut rt.stdin(), &mut rt.stdout(), &mut table, &mut register)
}

// Reads a frame: None where the input ends before it. Three things apart: a read that failed ends the program by its error, a frame that is cut is
// answered, and an end is neither.
fn read_frame<'a>(
    input: &mut impl Read,
    room: &'a mut [u8; 131072],
) -> io::Result<Option<Result<&'a [u8], Bad>>> {
    let mut length = [0u8; 4];
    let got = lent::read_full(input, &mut length)?;
    if got == 0 {
        return Ok(None);
    }
    let n = u32::from_le_bytes(length) as usize;
    if got < 4 || room.len() < n {
        return Ok(Some(Err(Bad::Cut)));
    }
    let got = lent::read_full(input, &mut room[..n])?;
    if got < n {
        return Ok(Some(Err(Bad::Cut)));
    }
    Ok(Some(Ok(&room[..n])))
}

// At most 2^40 frames, so that the program ends.
fn run(
    input: &mut impl Read,
    output: &mut impl Write,
    table: &mut Kept<65536>,
    register: &mut Kept<8704>,
) -> io::Result<()> {
    let mut room = [0u8; 131072];
    let mut old = [0u8; 65536];
    let mut out = FrameOut {
        bytes: [0; 131072],
        end: 0,
    };
    for _ in 0..1u64 << 40 {
        let Some(frame) = read_frame(input, &mut room)? else {
            return Ok(());
        };
        match serve(table, register, &mut old, frame, &mut out) {
            Ok(()) => out.send(output)?,
            Err(bad) => {
                out.reply_bad(bad);
                return out.send(output);
            }
        }
    }
    Ok(())
}

// One frame in, one frame out. The old table is the one before a call, against which is told what the call changed. Table, register, old table and
// frame out are four: each frame takes those that it needs, and what `told` is given could not borrow them from one struct in parts.
fn serve(
    table: &mut Kept<65536>,
    register: &mut Kept<8704>,
    old: &mut [u8; 65536],
    frame: Result<&[u8], Bad>,
    out: &mut FrameOut,
) -> Result<(), Bad> {
    let mut fields = Fields::of(frame?);
    let letter = fields.byte().ok_or(Bad::Cut)?;
    let said = match letter {
        b'B' => panel(fields, out),
        b'G' => take_register(register, fields, out),
        b'L' => load(table, fields, out),
        b'F' => format(table, fields, out),
        b'T' => read_back(table, fields, out),
        b'K' => housekeep(table, old, fields, out),
        b'C' => check(table, fields, out),
        b'R' => read_form(fields, out),
        b'A' => answer(table, register, old, fields, out),
        b'N' => finish(table, old, fields, out),
        b'V' => visit(table, fields, out),
        _ => return Err(Bad::Unknown),
    };
    said.ok_or(Bad::Cut)
}
