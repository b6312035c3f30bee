// What the programs that read frames share: input read into a lent buffer, bytes kept from frame to frame, the fields of a frame, the frames
// of an answer, of a callback's outcome and of a visit, and why a frame ends a program.
#![tactic(auto)]

mod asked;
mod bad;
mod callback;
mod fields;
mod kept;
mod question;

ghost use Rattle.std.specs.Prelude.{◌≡◌, length, take, IfOk, OnErr};
ghost use Rattle.lent.specs.Counts.{IsPrefixLen};

pub use asked::Request;
pub use bad::Bad;
pub use callback::Callback;
pub use fields::Fields;
pub use kept::Kept;
pub use question::Question;
use std::io;
use std::io::Read;

// Reads until buf is full or the input ends: how many bytes were put at its start. Where a read fails, buf has its length, and its bytes
// may be others. `read_exact` would not tell an input that ends before a frame from one that ends within it.
pub fn read_full(input: &mut impl Read, buf: &mut [u8]) -> io::Result<usize>
    ensures ok { IfOk result (λ n. IsPrefixLen n buf.new) }
    ensures err { OnErr result (length buf.new ≡ length buf.old) }
{
    let mut done = 0;
    while done < buf.len() {
        let n = input.read(&mut buf[done..])?;
        if n == 0 {
            break;
        }
        done += n;
    }
    Ok(done)
}

// The first n bytes of s, or all where it has fewer.
pub fn front<'a>(s: &'a [u8], n: usize) -> &'a [u8]
    ensures { result.now ≡ take n s.now }
{
    s.get(..n).unwrap_or(s)
}
