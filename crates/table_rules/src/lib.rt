// The rules that one block of the ticket table keeps by itself: the header, and a record. Each answer is protocol's own
// test of the record that the block says, and whether the 508 bytes are that record's.
#![tactic(auto)]

ghost use Rattle.std.specs.Prelude.{◌≡◌, ◌≤◌, ◌<◌, length};
ghost use Rattle.protocol.specs.Records.{decode_rec, serial_right, letters_right};
ghost use Rattle.ticket.specs.Kinds.{number};
ghost use Rattle.table.specs.Parts.{fields_of};
ghost use Rattle.table_rules.specs.Tests.{limits_right, life_right, since_test, secrets_right, text_right, gaps_zero, record_right, head_right};

use protocol::{LAST_TIME, Time};
use table::Fields;
use ticket::Kind;

// ---- a record

// It is of some kind, and mark, depth and length of text are as that allows.
#[tactic(auto, using(crate::proofs::Laws::limits_low), unfolding(crate::specs::Tests::limits_right))]
fn limits_right(f: Fields, length: u16) -> bool
    ensures { result ≡ limits_right f length }
{
    match f.kind {
        Kind::Other(_) => false,
        _ => {
            let limits = f.kind.limits();
            (f.mark <= limits.mark_most)
                & ((limits.depth_least <= f.depth) & (f.depth <= limits.depth_most))
                & ((limits.text_least <= length) & (length <= limits.text_most))
        }
    }
}

// A serial is nonzero and issued.
// Here and in `life_right` serial 0 is none, and a next serial of 0 says that all are used: the meaning's `serial_right` and `own_right`, which may
// not change, have them so, as the table's bytes do.
#[tactic(auto, unfolding(protocol::specs::Records::serial_right))]
fn serial_right(next: u32, serial: u32) -> bool
    ensures { result ≡ serial_right next serial }
{
    (1 <= serial) & ((next == 0) | (serial < next))
}

// A free record has neither serial nor expiry, another's are right.
#[tactic(auto, using(ticket::proofs::Laws::other_number, protocol::proofs::Sound::lifetime_most), unfolding(crate::specs::Tests::life_right))]
fn life_right(f: Fields, clock: Time, next: u32) -> bool
    ensures { result ≡ life_right clock.seconds next f }
{
    match f.kind {
        Kind::Free => (f.serial == 0) & (f.expiry == 0),
        _ => serial_right(next, f.serial) & (f.expiry <= clock.seconds + f.kind.lifetime()),
    }
}

// A session was made at T at the latest; other kinds have no sign-on time.
#[tactic(auto, using(ticket::proofs::Laws::other_number))]
fn since_right(f: Fields, clock: u64) -> bool
    ensures { result ≡ since_test clock f }
{
    match f.kind {
        Kind::Session => f.since <= clock,
        _ => f.since == 0,
    }
}

// The rest of a short secret is zero, and so is the IOU secret of any kind but a waiting grant.
#[tactic(auto, using(ticket::proofs::Laws::other_number), unfolding(crate::specs::Tests::secrets_right))]
fn secrets_right(block: &[u8; 512], kind: Kind) -> bool
    ensures { result ≡ secrets_right (number kind) block.now }
{
    let secret = &block[table::AT_SECRET..table::AT_LENGTH];
    let rest = block::all_within(&secret[kind.secret_length()..], 0, 0);
    match kind {
        Kind::Waiting => rest,
        _ => rest & block::all_within(&block[table::AT_IOU..table::AT_SINCE], 0, 0),
    }
}

// A session's text is a name; other texts have bytes 32 to 126.
#[tactic(auto, using(ticket::proofs::Laws::other_number))]
fn letters_right(kind: Kind, text: &[u8]) -> bool
    ensures { result ≡ letters_right (number kind) text.now }
{
    match kind {
        Kind::Session => utf8::is_name(text),
        _ => block::all_within(text, 32, 126),
    }
}

// The text's bytes are as its kind has them, those behind it zero.
#[tactic(auto, unfolding(crate::specs::Tests::text_right))]
fn text_right(block: &[u8; 512], kind: Kind, n: usize) -> bool
    requires { n ≤ 200 }
    ensures { result ≡ text_right (number kind) n block.now }
{
    let to = table::AT_TEXT + n;
    letters_right(kind, &block[table::AT_TEXT..to])
        & block::all_within(&block[to..table::AT_IOU], 0, 0)
}

// The bytes that have no name are zero.
#[tactic(auto, unfolding(crate::specs::Tests::gaps_zero))]
fn gaps_zero(block: &[u8; 512]) -> bool
    ensures { result ≡ gaps_zero block.now }
{
    block::all_within(&block[table::END_DEPTH..table::AT_SERIAL], 0, 0)
        & block::all_within(&block[table::END_SERIAL..table::AT_EXPIRY], 0, 0)
        & block::all_within(&block[table::END_LENGTH..table::AT_TEXT], 0, 0)
        & block::all_within(&block[table::END_SINCE..table::AT_CHECK], 0, 0)
}

// Does the record that a block says, whose numbers are given, keep its own rules, and are the first 508 bytes those of that record?
pub fn record_right(block: &[u8; 512], f: Fields, clock: Time, next: u32) -> bool
    requires { f ≡ fields_of (decode_rec block.now) }
    ensures { result ≡ record_right clock.seconds next block.now }
{
    let n = block::read::<u16>(block, table::AT_LENGTH);
    if !limits_right(f, n) {
        return false;
    }
    secrets_right(block, f.kind)
        & text_right(block, f.kind, usize::from(n))
        & gaps_zero(block)
        & since_right(f, clock.seconds)
        & life_right(f, clock, next)
}

// ---- the header

// Is the clock right, and are the first 508 bytes those of a header of so many records? The form of the table is 1.
pub fn head_right(table: &[u8], count: usize) -> bool
    requires { (512 ≤ length table.now) × (count < 65536) }
    ensures { result ≡ head_right count table.now }
{
    (block::read::<u64>(table, table::AT_CLOCK) <= LAST_TIME)
        & (&table[..table::AT_COUNT] == b"TKTS".as_slice())
        & (usize::from(block::read::<u16>(table, table::AT_COUNT)) == count)
        & (block::read::<u16>(table, table::AT_FORM) == 1)
        & block::all_within(&table[table::END_NEXT..table::AT_CHECK], 0, 0)
}
