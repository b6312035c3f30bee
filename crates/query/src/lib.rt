// The path of a target, where its query starts, and the names of a query or body, found in one walk over its pieces. A reader
// that holds the query and its place goes from piece to piece, and gives them one by one. Its step is thin: the work is
// `next_piece`, on a plain slice and a place.
#![tactic(auto)]

ghost use Rattle.std.specs.Prelude.{◌≡◌, ◌+◌, ◌-◌, ◌<◌, ◌^◌, drop};
ghost use Rattle.protocol.specs.Bytes.{same, part};
ghost use Rattle.protocol.specs.Request.{path_named, path_part, query_part};
ghost use Rattle.query.specs.Piece.{leading, piece_after};
ghost use Rattle.query.specs.Place.{Inside, noted_by, Walked};

use protocol::{Path, Validator};

// A piece: its name runs from `start` to `mid`, its raw value from `value` to `end`. An empty one stands for none.
// Four places, and an empty one for none: the definition `piece_after`, of which the contracts of `next_piece`, `next` and `piece_after` speak and
// which may not change, answers so.
#[derive(Clone, Copy, Default)]
pub struct Piece {
    pub start: usize,
    pub mid: usize,
    pub value: usize,
    pub end: usize,
}

// The piece that a reader stands on is its place. Document 01 names this form, a struct with the query slice and a position, and its one thin step.
#[derive(Clone, Copy)]
pub struct Reader<'a> {
    pub query: &'a [u8],
    pub place: Piece,
}

// What a walk notes of a name: how many pieces have it, and where the raw value of the first lies; `raw_at` is that part of the query.
// Places and no slice: whoever writes over the query, or wipes a password in it, must let its borrow go first, and still knows where the value stands.
// No Option: the meaning's `occurrences` counts from 0, its `raw_value` is empty for an absent name, and neither may change.
#[derive(Clone, Copy, Default)]
pub struct Place {
    pub count: usize,
    pub from: usize,
    pub to: usize,
}

// The same of four names. Four fields, and no array: the contract of `walk` speaks of four names, each by itself (`Walked`), and may not change.
#[derive(Clone, Copy, Default)]
pub struct Places {
    pub a: Place,
    pub b: Place,
    pub c: Place,
    pub d: Place,
}

// Which path a text is. By `text::same`, since the edit `text/compared_by_prefix`, which keeps its meaning, is the server that takes a path by its
// beginning; `==` with `as_slice()` is no plainer. (A match on byte strings: tried, and the proof didn't close, since it is tested byte by byte.)
#[tactic(auto, using(crate::proofs::Laws::rung_yes, crate::proofs::Laws::rung_no), unfolding(protocol::specs::Request::path_named))]
pub fn path_named(path: &[u8]) -> Path
    ensures { result ≡ path_named path.now }
{
    if text::same(path, b"/cas/login") {
        return Path::Login;
    }
    if text::same(path, b"/cas/logout") {
        return Path::Logout;
    }
    if text::same(path, b"/cas/validate") {
        return Path::Validate(Validator::Plain);
    }
    if text::same(path, b"/cas/serviceValidate") {
        return Path::Validate(Validator::Service);
    }
    if text::same(path, b"/cas/proxyValidate") {
        return Path::Validate(Validator::Proxy);
    }
    if text::same(path, b"/cas/proxy") {
        return Path::Proxy;
    }
    Path::Unknown
}

// The path ends before the first `?`.
#[tactic(auto, using(crate::proofs::Laws::path_cut))]
pub fn path_of(target: &[u8]) -> Path
    ensures { result ≡ path_named (path_part target.now) }
{
    let n = text::first_at(target, b'?');
    path_named(&target[..n])
}

// The query starts after it: a part of the target itself, empty where there is none.
// An empty one for none is the meaning's `query_part`, which may not change. By `first_at`, as `path_of` cuts; so does `next_piece` below.
#[tactic(auto, using(crate::proofs::Laws::query_some, crate::proofs::Laws::query_none))]
pub fn query_of<'a>(target: &'a [u8]) -> &'a [u8]
    ensures { result.now ≡ query_part target.now }
{
    let n = text::first_at(target, b'?');
    if n < target.len() {
        return &target[n + 1..];
    }
    &target[..0]
}

// The first place from `at` on that holds no `&`: before it there are only empty pieces.
#[tactic(auto, using(crate::proofs::Pieces::skip_none))]
fn skip_empty(query: &[u8], at: usize) -> usize
    ensures { result ≡ at + leading (drop at query.now) }
{
    if query.len() <= at {
        return at;
    }
    let rest = &query[at..];
    at + rest.iter().position(|b| *b != b'&').unwrap_or(rest.len())
}

// The piece after a piece.
#[tactic(auto, using(crate::proofs::Pieces::step_piece, crate::proofs::Pieces::step_bare, crate::proofs::Pieces::step_end))]
pub fn next_piece(query: &[u8], place: Piece) -> Piece
    ensures { result ≡ piece_after query.now place }
{
    let start = skip_empty(query, place.end);
    if start < query.len() {
        let n = text::first_at(&query[start..], b'&');
        let end = start + n;
        let m = text::first_at(&query[start..end], b'=');
        let mid = start + m;
        if mid < end {
            return Piece {
                start,
                mid,
                value: mid + 1,
                end,
            };
        }
        return Piece {
            start,
            mid,
            value: end,
            end,
        };
    }
    Piece {
        start,
        mid: start,
        value: start,
        end: start,
    }
}

// The step: the reader moved to its next piece.
pub fn next<'a>(r: Reader<'a>) -> Reader<'a>
    ensures { (result.query ≡ r.entry.query) × (result.place ≡ piece_after r.entry.query.now r.entry.place) }
{
    let place = next_piece(r.query, r.place);
    Reader {
        query: r.query,
        place,
    }
}

// Each call gives the next piece, until none is left.
impl<'a> Iterator for Reader<'a> {
    ghost use Rattle.std.specs.Prelude.{length};
    ghost use Rattle.std.specs.Iterator.{at_most};
    ghost use Rattle.query.specs.Piece.{gives_piece};

    type Item = Piece;

    ghost next_gives = { gives_piece };

    ghost remaining = { λ r. at_most (length r.query.now - r.place.end) };

    #[tactic(auto, using(crate::proofs::Laws::goes_on))]
    fn next(&mut self) -> Option<Piece> {
        let piece = piece_after(self.query, self.place);
        self.place = piece;
        (piece.start != piece.end).then_some(piece)
    }
}

// The clause of `next_piece` again, by way of the step; docs/PROMISES.md names it.
pub fn piece_after(query: &[u8], place: Piece) -> Piece
    ensures { result ≡ piece_after query.now place }
{
    next(Reader { query, place }).place
}

// A piece of some name noted for one that is wanted: where it is that, it is one more, and the first one's place is kept.
#[tactic(auto, using(text::proofs::Laws::same_pointwise, text::proofs::Laws::same_turned), unfolding(crate::specs::Place::noted_by))]
fn noted(place: Place, name: &[u8], wanted: &[u8], from: usize, to: usize) -> Place
    requires { place.count + 1 < 2 ^ 64 }
    ensures { result ≡ noted_by (same name.now wanted.now) from to place }
{
    if name == wanted {
        let count = place.count + 1;
        if place.count == 0 {
            return Place { count, from, to };
        }
        return Place { count, ..place };
    }
    place
}

// The walk: every piece once, and four names noted at each. Who asks for fewer gives an empty name, and does not look at what is noted of it.
pub fn walk(q: &[u8], a: &[u8], b: &[u8], c: &[u8], d: &[u8]) -> Places
    ensures { Walked q.now a.now b.now c.now d.now result }
{
    let mut at = Places::default();
    let place = Piece::default();
    for piece in (Reader { query: q, place }) {
        let name = &q[piece.start..piece.mid];
        at = Places {
            a: noted(at.a, name, a, piece.value, piece.end),
            b: noted(at.b, name, b, piece.value, piece.end),
            c: noted(at.c, name, c, piece.value, piece.end),
            d: noted(at.d, name, d, piece.value, piece.end),
        };
    }
    at
}

// The raw value at a place: that part of the caller's own bytes. Two numbers, here and in `noted`, as `Inside` and `noted_by` have them. `Inside` is a
// clause, here and where a value is judged, and no type: a `Place` has not the query, which its owner may write over.
pub fn raw_at<'a>(q: &'a [u8], from: usize, to: usize) -> &'a [u8]
    requires { Inside q.now from to }
    ensures { result.now ≡ part from (to - from) q.now }
{
    &q[from..to]
}
