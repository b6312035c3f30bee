// The fields of a frame, read from the input. Where a read fails, a buffer has its length, and its bytes may be others. No `lent::Fields`, which
// has a whole frame before its first field is taken: here the length of a register or a text is judged before its bytes are read. Of the few
// numbers of F and K it would only want an `ok_or` behind each.
ghost use Rattle.std.specs.Prelude.{◌≡◌, ◌+◌, ◌*◌, ◌<◌, ◌≤◌, length, IfOk, OnErr, MatchResult};

use lent::{Bad, Fields, read_full};
use std::io;
use std::io::Read;

// Why no frame is read any more.
#[derive(Debug, Drop)]
pub enum Stop {
    Bad(Bad),
    Failed(io::Error),
}

impl From<Bad> for Stop {
    fn from(bad: Bad) -> Stop {
        Stop::Bad(bad)
    }
}

impl From<io::Error> for Stop {
    fn from(error: io::Error) -> Stop {
        Stop::Failed(error)
    }
}

// The letter of the next frame, None where the input ends before it.
pub fn read_letter(input: &mut impl Read) -> io::Result<Option<u8>> {
    let mut b = [0u8; 1];
    let got = read_full(input, &mut b)?;
    Ok(if got == 0 { None } else { Some(b[0]) })
}

// Fills buf: a frame is cut where the input ends before.
pub fn fill(input: &mut impl Read, buf: &mut [u8]) -> Result<(), Stop>
    ensures err { OnErr result (length buf.new ≡ length buf.old) }
{
    let got = read_full(input, buf)?;
    if got < buf.len() {
        return Err(Bad::Cut.into());
    }
    Ok(())
}

fn array<const N: usize>(input: &mut impl Read) -> Result<[u8; N], Stop> {
    let mut bytes = [0u8; N];
    fill(input, &mut bytes)?;
    Ok(bytes)
}

pub fn byte(input: &mut impl Read) -> Result<u8, Stop> {
    let bytes: [u8; 1] = array(input)?;
    Ok(bytes[0])
}

pub fn number(input: &mut impl Read) -> Result<u32, Stop> {
    Ok(u32::from_le_bytes(array(input)?))
}

pub fn long(input: &mut impl Read) -> Result<u64, Stop> {
    Ok(u64::from_le_bytes(array(input)?))
}

// A number that was read, where it is at most so many.
pub fn fitting(n: u32, most: usize) -> Result<usize, Stop>
    ensures { MatchResult result (λ size. (size ≡ n) × (size ≤ most)) (λ _. most < n) }
{
    let n = n as usize;
    if most < n {
        return Err(Bad::Cut.into());
    }
    Ok(n)
}

// A text, put at the start of a room that has place for it.
pub fn text<'a>(input: &mut impl Read, room: &'a mut [u8; 65536]) -> Result<&'a [u8], Stop>
    ensures { IfOk result (λ text. length text.now ≤ 65536) }
{
    let n = fitting(number(input)?, room.len())?;
    fill(input, &mut room[..n])?;
    Ok(&room[..n])
}

// So many bytes more of a frame, put behind those before a place: where they end. The frame goes along with its end so far, since all of it is
// lent at last: a slice of what is left of the room would have to be counted back, and a struct would be opened at once, by `gather` alone.
fn gather_bytes(input: &mut impl Read, frame: &mut [u8], at: usize, n: usize) -> Result<usize, Stop>
    requires { at ≤ length frame.old }
    ensures ok { IfOk result (λ end. (end ≡ at + n) × (end ≤ length frame.new)) }
    ensures err { OnErr result (length frame.new ≡ length frame.old) }
{
    if frame.len() - at < n {
        return Err(Bad::Cut.into());
    }
    let end = at + n;
    fill(input, &mut frame[at..end])?;
    Ok(end)
}

// A text with its length before it, in the same way.
fn gather_text(input: &mut impl Read, frame: &mut [u8], at: usize) -> Result<usize, Stop>
    requires { at ≤ length frame.old }
    ensures ok { IfOk result (λ end. (at + 4 ≤ end) × (end ≤ length frame.new)) }
    ensures err { OnErr result (length frame.new ≡ length frame.old) }
{
    let from = gather_bytes(input, frame, at, 4)?;
    let n = block::read::<u32>(frame, at);
    gather_bytes(input, frame, from, n as usize)
}

// A frame behind its letter: so many bytes, then so many texts. It has at least these bytes and each text's length.
pub fn gather<'a>(
    input: &mut impl Read,
    room: &'a mut [u8],
    head: usize,
    texts: usize,
) -> Result<Fields<'a>, Stop>
    ensures { IfOk result (λ fields. head + 4 * texts ≤ length fields.rest.now) }
{
    let mut end = gather_bytes(input, room, 0, head)?;
    for _ in 0..texts {
        end = gather_text(input, room, end)?;
    }
    Ok(Fields::of(&room[..end]))
}
