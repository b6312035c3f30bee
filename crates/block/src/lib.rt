// The house block: lent where it stands, little-endian fields in place, and the check of a block. Everything works on a part of the caller's bytes.
#![tactic(auto)]

ghost use Rattle.std.specs.Prelude.{◌≡◌, [], ◌∷◌, ◌++◌, ◌+◌, ◌-◌, ◌*◌, ◌≤◌, ◌<◌, ◌^◌, length, take, ℕ};
ghost use Rattle.std.proofs.Common.{lit≤};
ghost use Rattle.protocol.specs.Bytes.{all_within, num, part, bytes_of, zeros, pad_to, spliced};
ghost use Rattle.protocol.specs.Blocks.{house_check, check_right, sealed};
ghost use Rattle.block.specs.Checks.{check_right_to};

// ---- what a field holds

// A number that fills a field: as many bytes as its type has.
pub trait Field: Copy {
    ghost WIDTH: { ℕ };

    ghost value: { Self → ℕ };

    const WIDTH: usize;

    fn of(n: u64) -> Self
        requires { n < 256 ^ WIDTH }
        ensures { value result ≡ n };

    fn number(self) -> u64
        ensures { result ≡ value self };

    ghost fits: { WIDTH ≤ 8 };
}

// The three are alike, and no macro writes them: the gate takes no impl that a macro of this repository writes.
impl Field for u16 {
    ghost WIDTH = { 2 };

    ghost value = { λ v. v };

    const WIDTH: usize = 2;

    fn of(n: u64) -> u16 {
        n as u16
    }

    fn number(self) -> u64 {
        u64::from(self)
    }

    ghost fits = { lit≤ tt };
}

impl Field for u32 {
    ghost WIDTH = { 4 };

    ghost value = { λ v. v };

    const WIDTH: usize = 4;

    fn of(n: u64) -> u32 {
        n as u32
    }

    fn number(self) -> u64 {
        u64::from(self)
    }

    ghost fits = { lit≤ tt };
}

impl Field for u64 {
    ghost WIDTH = { 8 };

    ghost value = { λ v. v };

    const WIDTH: usize = 8;

    fn of(n: u64) -> u64 {
        n
    }

    fn number(self) -> u64 {
        self
    }

    ghost fits = { lit≤ tt };
}

// ---- fields read

// One reader for every width: with zeros behind them the bytes spell the same number.
#[tactic(auto, using(crate::proofs::Laws::got_all, crate::proofs::Laws::got_below))]
pub fn get(s: &[u8], at: usize, n: usize) -> u64
    requires { (at + n ≤ length s.now) × (n ≤ 8) }
    ensures { (result ≡ num at n s.now) × (result < 256 ^ n) }
{
    let mut bytes = [0; 8];
    bytes[..n].copy_from_slice(&s[at..at + n]);
    u64::from_le_bytes(bytes)
}

// A field's number, of its type's width.
pub fn read<F: Field>(s: &[u8], at: usize) -> F
    requires { at + F.WIDTH ≤ length s.now }
    ensures { F.value result ≡ num at F.WIDTH s.now }
{
    F::of(get(s, at, F::WIDTH))
}

// Is every byte from lo to hi? Zeros are the bytes from 0 to 0. The loop has no early end, so that many bytes are taken at a time.
#[tactic(auto, using(crate::proofs::Within::pass_on, crate::proofs::Within::pass_all))]
pub fn all_within(s: &[u8], lo: u8, hi: u8) -> bool
    ensures { result ≡ all_within lo hi s.now }
{
    let mut good = true;
    for b in s {
        good = good & (lo <= *b) & (*b <= hi);
    }
    good
}

// ---- fields written

// One writer for every width: from the lowest byte up. A loop and no `to_le_bytes`, which has eight bytes: the clause lets n be any number, and
// may not ask more.
#[tactic(auto, using(crate::proofs::Laws::put_start, crate::proofs::Laws::put_more, crate::proofs::Laws::put_done))]
pub fn put(s: &mut [u8], at: usize, n: usize, v: u64)
    requires { at + n ≤ length s.old }
    ensures { s.new ≡ spliced s.old at (bytes_of n v) }
{
    let mut w = v;
    for b in s[at..at + n].iter_mut() {
        *b = (w % 256) as u8;
        w /= 256;
    }
}

// Not by `write`: here the clause says the byte itself, `v ∷ []`, where that one's would say `bytes_of 1 v`.
#[tactic(auto, using(text::proofs::Splice::splice_byte))]
pub fn put_u8(s: &mut [u8], at: usize, v: u8)
    requires { at + 1 ≤ length s.old }
    ensures { s.new ≡ spliced s.old at (v ∷ []) }
{
    s[at] = v;
}

pub fn write<F: Field>(s: &mut [u8], at: usize, v: F)
    requires { at + F.WIDTH ≤ length s.old }
    ensures { s.new ≡ spliced s.old at (bytes_of F.WIDTH (F.value v)) }
{
    put(s, at, F::WIDTH, v.number())
}

pub fn copy_at(s: &mut [u8], at: usize, src: &[u8])
    requires { at + length src.now ≤ length s.old }
    ensures { s.new ≡ spliced s.old at src.now }
{
    text::put_bytes(s, at, src);
}

pub fn zeros_at(s: &mut [u8], at: usize, n: usize)
    requires { at + n ≤ length s.old }
    ensures { s.new ≡ spliced s.old at (zeros n) }
{
    text::put_zeros(s, at, n);
}

// A text, and zeros after it up to n bytes.
#[tactic(auto, using(crate::proofs::Laws::padded))]
pub fn pad_at(s: &mut [u8], at: usize, n: usize, src: &[u8])
    requires { (at + n ≤ length s.old) × (length src.now ≤ n) }
    ensures { s.new ≡ spliced s.old at (pad_to n src.now) }
{
    copy_at(s, at, src);
    let used = src.len();
    zeros_at(s, at + used, n - used);
}

// ---- a block of a table

// Bytes and number are two parameters here and below, and no struct: `part`, `service_in` and `said_at` of protocol, which may not change, take
// the two apart.

// The block of a number, a part of the caller's own bytes.
#[tactic(auto, using(crate::proofs::Parts::block_lent))]
pub fn block_at<'a>(s: &'a [u8], k: usize) -> &'a [u8; 512]
    requires { 512 * k + 512 ≤ length s.now }
    ensures { result.now ≡ part (512 * k) 512 s.now }
{
    let (blocks, _) = s.as_chunks::<512>();
    &blocks[k]
}

// ---- the check

// The check of a text with n zeros behind it. Both sums run on unreduced over the text, and are reduced once at the end; over
// zeros the first stays, and the second grows by the first at each. Up to 4,096 bytes, here and below, the sums fit; of such slices there is no type.
#[tactic(auto, using(crate::proofs::Sums::sums_turn, crate::proofs::Sums::sums_done), unfolding(protocol::specs::Blocks::house_check))]
pub fn padded_check(s: &[u8], n: usize) -> u32
    requires { length s.now + n ≤ 4096 }
    ensures { result ≡ house_check (s.now ++ zeros n) }
{
    let mut a: u64 = 1;
    let mut b: u64 = 0;
    for x in s {
        a += u64::from(*x);
        b += a;
    }
    b += n as u64 * a;
    ((b % 65535) * 65536 + a % 65535) as u32
}

pub fn block_check(s: &[u8]) -> u32
    requires { length s.now ≤ 4096 }
    ensures { result ≡ house_check s.now }
{
    padded_check(s, 0)
}

// The check of a text whose bytes from `used` on are zero; these are not read.
fn check_to(s: &[u8], used: usize) -> u32
    requires { (length s.now ≤ 4096) × (used ≤ length s.now) }
    ensures { result ≡ house_check (take used s.now ++ zeros (length s.now - used)) }
{
    padded_check(&s[..used], s.len() - used)
}

// Is the check of the block at a slot of the lent table that of its first bytes, so many, with zeros behind them?
// Document 01 names this form, here and below: 508 bytes of the lent table, from 512 times the slot on, are passed to the check.
pub fn block_ok_to(table: &[u8], slot: usize, used: usize) -> bool
    requires { (512 * slot + 512 ≤ length table.now) × (used ≤ 508) }
    ensures { result ≡ check_right_to used (part (512 * slot) 512 table.now) }
{
    let from = 512 * slot;
    let to = from + 508;
    let sum = check_to(&table[from..to], used);
    sum == read(table, to)
}

// Is the check right of the block at a slot of the lent table?
#[tactic(auto, using(crate::proofs::Parts::right_all))]
pub fn block_ok(table: &[u8], slot: usize) -> bool
    requires { 512 * slot + 512 ≤ length table.now }
    ensures { result ≡ check_right (part (512 * slot) 512 table.now) }
{
    block_ok_to(table, slot, 508)
}

// The check of a block's first 508 bytes, written behind them.
pub fn seal(block: &mut [u8; 512])
    ensures { block.new ≡ sealed (take 508 block.old) }
{
    let sum = block_check(&block[..508]);
    write(block, 508, sum);
}
