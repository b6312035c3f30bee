// A raw value decoded: `%` and two hex digits are one byte, and in a body `+` is a space. It is judged first, with nothing
// written; then it is compared with a text where it stands, or written at the front of a lent buffer.
#![tactic(auto)]

ghost use Rattle.std.specs.Prelude.{◌≡◌, true};
ghost use Rattle.protocol.specs.Bytes.{same, all_within};
ghost use Rattle.protocol.specs.Request.{decoded};
ghost use Rattle.protocol.specs.Written.{Room, Wrote};
ghost use Rattle.decode.specs.Judging.{Hex, Escape, judged, judged_name};

use utf8::Next;

// The value of a hex digit.
#[tactic(auto, using(crate::proofs::Laws::hex_digit, crate::proofs::Laws::hex_none))]
fn hex_value(b: u8) -> Option<u32>
    ensures { Hex b result }
{
    char::from(b).to_digit(16)
}

// What two hex digits behind a `%` are: the byte, and what follows them.
#[tactic(auto, using(crate::proofs::Laws::hex_short))]
fn escape(behind: &[u8]) -> Option<(usize, &[u8])>
    ensures { Escape behind.now result }
{
    let [high, low, rest @ ..] = behind else {
        return None;
    };
    let high = hex_value(*high)?;
    let low = hex_value(*low)?;
    Some(((high * 16 + low) as usize, rest))
}

// What a raw value spells, byte by byte. A `%` without two hex digits is 256, as the meaning counts it (`unit_of`, which may not
// change), and no byte.
#[derive(Drop)]
struct Units<'a> {
    rest: &'a [u8],
    in_body: bool,
}

impl<'a> Iterator for Units<'a> {
    ghost use Rattle.std.specs.Iterator.{YieldsFirst, item_count};
    ghost use Rattle.decode.specs.Units.{left};

    type Item = usize;

    ghost next_gives = { YieldsFirst left };

    ghost remaining = { item_count left };

    #[tactic(auto, using(crate::proofs::Laws::decoded_end, crate::proofs::Laws::next_escape, crate::proofs::Laws::next_bad, crate::proofs::Laws::next_space, crate::proofs::Laws::next_plain))]
    fn next(&mut self) -> Option<usize> {
        let (&byte, behind) = self.rest.split_first()?;
        self.rest = behind;
        if byte == b'%' {
            let Some((value, rest)) = escape(behind) else {
                return Some(256);
            };
            self.rest = rest;
            return Some(value);
        }
        if self.in_body & (byte == b'+') {
            return Some(32);
        }
        Some(usize::from(byte))
    }
}

impl<'a> Units<'a> {
    ghost use Rattle.decode.specs.Units.{left};

    fn of(raw: &'a [u8], in_body: bool) -> Units<'a>
        ensures { left result ≡ decoded in_body raw.now }
    {
        Units { rest: raw, in_body }
    }
}

// The length of a value, decoded, where it has only bytes from lo to hi and at most so many. Nothing is written.
// Here and below units are counted by hand, in the walk that judges or writes them. `try_fold` was tried here: that the count fits stayed open,
// and so did what is answered. Where a value is and how it is read are two parameters: `decoded` of protocol, which may not change, takes the
// two apart.
#[tactic(auto, using(crate::proofs::Laws::decoded_short), unfolding(crate::specs::Judging::judged, protocol::specs::Bytes::all_within))]
pub fn judge(raw: &[u8], in_body: bool, lo: usize, hi: usize, most: usize) -> Option<usize>
    ensures { result ≡ judged in_body lo hi most raw.now }
{
    let mut n: usize = 0;
    for v in Units::of(raw, in_body) {
        if !(lo..=hi).contains(&v) {
            return None;
        }
        n += 1;
    }
    (n <= most).then_some(n)
}

// The length of a value, decoded, where it is a name of at most so many bytes. Nothing is written.
#[tactic(auto, using(crate::proofs::Laws::decoded_short, utf8::proofs::Join::judged_name_lem), unfolding(crate::specs::Judging::judged_name, utf8::specs::Machine::judged_from))]
pub fn judge_name(raw: &[u8], in_body: bool, most: usize) -> Option<usize>
    ensures { result ≡ judged_name in_body most raw.now }
{
    let mut n: usize = 0;
    let mut state = Next::Start;
    for v in Units::of(raw, in_body) {
        state = utf8::follow(state, v);
        n += 1;
    }
    (utf8::is_start(state) & (n <= most)).then_some(n)
}

// Whether a value, decoded, is this text. Nothing is written.
pub fn is_text(raw: &[u8], in_body: bool, text: &[u8]) -> bool
    ensures { result ≡ same (decoded in_body raw.now) text.now }
{
    Units::of(raw, in_body).eq(text.iter().map(|b| usize::from(*b)))
}

// Writes a good value, and answers its length.
#[tactic(auto, using(text::proofs::Splice::left_start, text::proofs::Splice::left_lt, text::proofs::Splice::left_byte, text::proofs::Splice::left_done), unfolding(protocol::specs::Bytes::all_within))]
pub fn decode_value(raw: &[u8], in_body: bool, out: &mut [u8]) -> usize
    requires room { Room out.old 0 (decoded in_body raw.now) }
    requires raw_value { all_within 0 255 (decoded in_body raw.now) ≡ true }
    ensures { Wrote out.old 0 out.new result (decoded in_body raw.now) }
{
    let mut to = 0;
    for v in Units::of(raw, in_body) {
        out[to] = v as u8;
        to += 1;
    }
    to
}
