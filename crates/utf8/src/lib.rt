// Names judged a byte at a time, by the ranges of well-formed UTF-8 (RFC 3629, section 4) without the controls of ASCII.
// The state says what may come next, so that a text can also be judged while it is decoded.
#![tactic(auto)]

ghost use Rattle.std.specs.Prelude.{◌≡◌};
ghost use Rattle.protocol.specs.Utf8.{name_right};
ghost use Rattle.utf8.specs.Machine.{begun, tailed, followed, is_start};

// What may come next: a first byte, or the end; a byte from the first number to the second, and as many plain tails
// (80 to BF) after it as the third says; nothing, since what came is in no name.
// `Bad` and no Option: the state is handed on from byte to byte, and an Option of it would be opened and closed at each.
#[derive(Clone, Copy)]
pub enum Next {
    Start,
    Tail(usize, usize, usize),
    Bad,
}

// After a first byte: a row for each range.
#[tactic(auto, using(crate::proofs::Laws::rung_yes, crate::proofs::Laws::rung_no), unfolding(crate::specs::Machine::begun))]
fn begin(byte: usize) -> Next
    ensures { result ≡ begun byte }
{
    match byte {
        0x20..=0x7E => Next::Start,
        0xC2..=0xDF => Next::Tail(0x80, 0xBF, 0),
        0xE0 => Next::Tail(0xA0, 0xBF, 1),
        0xE1..=0xEC => Next::Tail(0x80, 0xBF, 1),
        0xED => Next::Tail(0x80, 0x9F, 1),
        0xEE..=0xEF => Next::Tail(0x80, 0xBF, 1),
        0xF0 => Next::Tail(0x90, 0xBF, 2),
        0xF1..=0xF3 => Next::Tail(0x80, 0xBF, 2),
        0xF4 => Next::Tail(0x80, 0x8F, 2),
        _ => Next::Bad,
    }
}

// After a byte where one from lo to hi was due.
#[tactic(auto, using(crate::proofs::Laws::tail_last, crate::proofs::Laws::tail_more, crate::proofs::Laws::tail_bad))]
fn tail(lo: usize, hi: usize, more: usize, byte: usize) -> Next
    ensures { result ≡ tailed lo hi more byte }
{
    if !(lo..=hi).contains(&byte) {
        return Next::Bad;
    }
    match more {
        0 => Next::Start,
        _ => Next::Tail(0x80, 0xBF, more - 1),
    }
}

// The state after one more byte. A number over 255 is no byte, and bad.
pub fn follow(state: Next, byte: usize) -> Next
    ensures { result ≡ followed state byte }
{
    match state {
        Next::Start => begin(byte),
        Next::Tail(lo, hi, more) => tail(lo, hi, more, byte),
        Next::Bad => Next::Bad,
    }
}

// Whether a text may end here.
pub fn is_start(state: Next) -> bool
    ensures { result ≡ is_start state }
{
    matches!(state, Next::Start)
}

// Not by `str::from_utf8`: a value of a request is judged while it is decoded, with no buffer, and one machine serves both.
pub fn is_name(bytes: &[u8]) -> bool
    ensures { result ≡ name_right bytes.now }
{
    let mut state = Next::Start;
    for byte in bytes {
        state = follow(state, usize::from(*byte));
    }
    is_start(state)
}
