// What changed of a table, told block by block: how many blocks, then each block that is not as it was, its number before it. Laid over
// the old table, what is told gives the new one: proofs/Laws.antt has that law, and a host's storage rests on it.
#![tactic(auto)]

ghost use Rattle.std.specs.Prelude.{◌≡◌, not, ◌+◌, ◌*◌, ◌/◌, ◌≤◌, length};
ghost use Rattle.protocol.specs.Bytes.{same};
ghost use Rattle.protocol.specs.Written.{Wrote};
ghost use Rattle.changed.specs.Changes.{block_at, change_at, changes_of, blocks_text, changed_text};

// Are two texts of one length the same? The loop has no early end, so that many bytes are taken at a time: with one, as `==` of slices has, comparing
// was half of a call's time (docs/DECISIONS.md).
#[tactic(auto, using(std::proofs::lemmas::Iterator::empty_from_Zip, crate::proofs::Compare::agree_next, crate::proofs::Compare::agree_all), unfolding(protocol::specs::Bytes::same))]
fn alike(a: &[u8], b: &[u8]) -> bool
    requires { length a.now ≡ length b.now }
    ensures { result ≡ same a.now b.now }
{
    let mut good = true;
    for (x, y) in a.iter().zip(b) {
        good = good & (*x == *y);
    }
    good
}

// Is the block of a number another one than before? A block that the old table does not have is.
// The number has its bound in a clause, here and in `put_block`, and no type: it is what is told, and `change_at`, which may not change, takes it.
#[tactic(auto, using(crate::proofs::Writing::short_changed))]
fn is_changed(old: &[u8], new: &[u8], k: usize) -> bool
    requires { 512 * k + 512 ≤ length new.now }
    ensures { result ≡ not (same (block_at k old.now) (block_at k new.now)) }
{
    if old.len() < 512 * k + 512 {
        return true;
    }
    !alike(block::block_at(old, k), block::block_at(new, k))
}

// A block's number and bytes, if it changed. By `block::block_at` the bytes were tried, and that they are what is told stayed open.
fn put_block(old: &[u8], new: &[u8], k: usize, out: &mut [u8], at: usize) -> usize
    requires k_in_bounds { 512 * k + 512 ≤ length new.now }
    requires at_in_bounds { at + 516 ≤ length out.old }
    ensures wrote { Wrote out.old at out.new result (blocks_text (change_at k old.now new.now)) }
    ensures upper_bound { result ≤ at + 516 }
{
    if is_changed(old, new, k) {
        let from = 512 * k;
        let to = from + 512;
        block::put(out, at, 4, k as u64);
        return text::put_bytes(out, at + 4, &new[from..to]);
    }
    at
}

// By number: a zip of the blocks is no plainer, since the number is told, and the old table may have fewer blocks.
fn put_blocks(old: &[u8], new: &[u8], out: &mut [u8], at: usize) -> usize
    requires { at + 516 * (length new.now / 512) ≤ length out.old }
    ensures { Wrote out.old at out.new result (blocks_text (changes_of old.now new.now)) }
{
    let m = new.len() / 512;
    let mut to = at;
    for k in 0..m {
        to = put_block(old, new, k, out, to);
    }
    to
}

// The count goes before the blocks, and is known behind them.
pub fn put_changed(old: &[u8], new: &[u8], out: &mut [u8], at: usize) -> usize
    requires { at + (4 + 516 * (length new.now / 512)) ≤ length out.old }
    ensures { Wrote out.old at out.new result (changed_text (changes_of old.now new.now)) }
{
    let from = at + 4;
    let to = put_blocks(old, new, out, from);
    let count = (to - from) / 516;
    block::put(out, at, 4, count as u64);
    to
}
