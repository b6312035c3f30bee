// A value of a request: the part of the query or body that spells it, with what is known of it. Whoever makes one has judged it.
ghost use Rattle.std.specs.Prelude.{◌≡◌, ◌≤◌, true};
ghost use Rattle.protocol.specs.Bytes.{all_within};
ghost use Rattle.protocol.specs.Request.{decoded};
ghost use Rattle.decode.specs.Judging.{decoded_length};

use crate::SHORT;
use text::Name;

// How a value is spelled: the raw value of a name, how it is decoded, and its length when decoded; empty where the name is absent.
#[derive(Clone, Copy)]
pub struct Spelling<'a> {
    pub raw: &'a [u8],
    pub in_body: bool,
    pub length: usize,
    pub ghost measured: { length ≡ decoded_length in_body raw.now },
}

// A value that may stand for its name: decoded, it has at most so many bytes, and nothing but bytes.
#[derive(Clone, Copy)]
pub struct Value<'a, const MOST: usize> {
    pub spelling: Spelling<'a>,
    pub ghost short: { spelling.length ≤ MOST },
    pub ghost bytes: { all_within 0 255 (decoded spelling.in_body spelling.raw.now) ≡ true },
}

impl<'a> Spelling<'a> {
    ghost use Rattle.std.specs.Prelude.{eqb, length as length_of};
    ghost use Rattle.protocol.specs.Bytes.{same};
    ghost use Rattle.request.specs.Value.{text_of};

    // Whether the name is absent, or its value empty, which means the same.
    pub fn is_absent(self) -> bool
        ensures { result ≡ eqb (length_of (text_of self.entry)) 0 }
    {
        self.length == 0
    }

    // Whether it is this text, compared where it lies.
    #[tactic(auto, using(crate::proofs::Laws::text_of_other_length))]
    pub fn is_text(self, text: &[u8]) -> bool
        ensures { result ≡ same (text_of self.entry) text.now }
    {
        if self.length != text.len() {
            return false;
        }
        decode::is_text(self.raw, self.in_body, text)
    }
}

impl<'a, const MOST: usize> Value<'a, MOST> {
    ghost use Rattle.std.specs.Prelude.{length as length_of};
    ghost use Rattle.protocol.specs.Written.{Wrote};
    ghost use Rattle.request.specs.Value.{spelled};

    // Decodes it to the front of a lent buffer, and answers its length.
    pub fn read(self, out: &mut [u8]) -> usize
        requires { length_of (spelled self) ≤ length_of out.old }
        ensures { Wrote out.old 0 out.new result (spelled self.entry) }
    {
        let spelling = self.spelling;
        decode::decode_value(spelling.raw, spelling.in_body, out)
    }
}

impl<'a> Value<'a, SHORT> {
    ghost use Rattle.text.specs.Named.{named};
    ghost use Rattle.request.specs.Value.{spelled};

    // Decodes it to a name held by value.
    // Not one with `ticket::name` and `iou`: what they share is the array and the literal, and what fills it differs.
    #[tactic(auto, using(text::proofs::Splice::read_back))]
    pub fn name(self) -> Name
        ensures { named result ≡ spelled self.entry }
    {
        let mut bytes = [0u8; 64];
        let length = self.read(&mut bytes);
        Name { bytes, length }
    }
}
