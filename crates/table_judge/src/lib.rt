// The ticket table judged by every rule: its shape, the header and each record by itself, the session and the parent that
// a record names, serials that differ, and the count of logins. One pass over the blocks; serials are compared in pairs.
#![tactic(auto)]

ghost use Rattle.std.specs.Prelude.{◌≡◌, true, ℕ, ◌+◌, ◌-◌, ◌*◌, ◌≤◌, ◌<◌, length, get_or};
ghost use Rattle.protocol.specs.Table.{serial_taken, table_shape, table_lawful};
ghost use Rattle.protocol.specs.Held.{In, said_at};
ghost use Rattle.table.specs.Parts.{fields_of};
ghost use Rattle.table_judge.specs.Tests.{from_slot, session_test, parent_test, has_serial, alone_at, slot_right, all_from};

use protocol::Time;
use table::Fields;
use ticket::Kind;

// A record and the session that it names: a grant or a visit lasts as long, another no longer.
#[tactic(auto, using(ticket::proofs::Laws::other_number))]
fn session_right(f: Fields, s: Fields) -> bool
    ensures { result ≡ session_test f s }
{
    match f.kind {
        Kind::Free | Kind::Login | Kind::Session => f.session == 0,
        Kind::Grant | Kind::Visit => (s.kind == Kind::Session) & (f.expiry == s.expiry),
        _ => (s.kind == Kind::Session) & (f.expiry <= s.expiry),
    }
}

// A record and the parent that it names.
#[tactic(auto, using(ticket::proofs::Laws::other_number))]
fn parent_right(f: Fields, p: Fields) -> bool
    ensures { result ≡ parent_test f p }
{
    let under = (p.kind == Kind::Grant) & (p.session == f.session);
    match f.kind {
        Kind::Free | Kind::Login | Kind::Session => f.parent == 0,
        Kind::Service | Kind::Visit => f.parent == f.session,
        Kind::Proxy => under,
        _ if f.depth == 1 => f.parent == 0,
        _ => under & (u16::from(f.depth) == u16::from(p.depth) + 1),
    }
}

// Does the record in a slot, unless it is free, have this serial? Most have another, so that is asked first.
fn has_serial(table: &[u8], slot: usize, serial: u32) -> bool
    requires { In slot table.now }
    ensures { result ≡ has_serial serial (said_at slot table.now) }
{
    table::serial_of(table, slot) == serial && !table::has_kind(table, slot, Kind::Free)
}

// ---- the slots

// The table of so many blocks, with the clock and the next serial that its header says.
#[derive(Clone, Copy)]
struct Judge<'a> {
    table: &'a [u8],
    count: usize,
    clock: Time,
    next: u32,
    ghost whole: { length table.now ≡ 512 * count },
    // said here, since the check does not say it of a slice that a struct holds
    ghost bytes: { (i : ℕ) → get_or table.now i 0 < 256 },
}

impl<'a> Judge<'a> {
    // A slot is a number with `k < self.count` in a clause, and no type: one would be made at each turn of `slots_right`, and opened at once where
    // `serial_taken` goes on behind it.

    // Has a record behind slot k this serial?
    fn serial_taken(self, k: usize, serial: u32) -> bool
        requires { k < self.count }
        ensures { result ≡ serial_taken serial (from_slot (k + 1) self.entry.table.now) }
    {
        (k + 1..self.count).any(|j| has_serial(self.table, j, serial))
    }

    // Is the serial of the record in slot k, unless it is free, its own among those behind it?
    #[tactic(auto, using(crate::proofs::Slots::alone_free, crate::proofs::Slots::alone_held))]
    fn serial_alone(self, k: usize, f: Fields) -> bool
        requires { (k < self.count) × (f ≡ fields_of (said_at k self.table.now)) }
        ensures { result ≡ alone_at k self.entry.table.now }
    {
        f.kind == Kind::Free || !self.serial_taken(k, f.serial)
    }

    // Does the record in slot k keep every rule, and is its block its own? Every field is read, and its bytes are summed: those behind
    // the sign-on time are zero in a right record, so the check is that of the bytes before them with zeros behind.
    #[tactic(auto, using(table::proofs::Laws::fields_said, crate::proofs::Slots::slot_right_lem))]
    fn held_right(self, k: usize) -> bool
        requires { (1 ≤ k) × (k < self.count) }
        ensures { result ≡ slot_right self.entry.clock.seconds self.entry.next self.entry.table.now k }
    {
        let b = table::block_at(self.table, k);
        let f = table::fields_of(b);
        let s = table::fields_at(self.table, usize::from(f.session));
        let p = table::fields_at(self.table, usize::from(f.parent));
        table_rules::record_right(b, f, self.clock, self.next)
            & session_right(f, s)
            & parent_right(f, p)
            & block::block_ok_to(self.table, k, table::END_SINCE)
            & self.serial_alone(k, f)
    }

    // The same, where a free slot is taken the short way: its block is the one that all free records have.
    fn slot_right(self, k: usize) -> bool
        requires { (1 ≤ k) × (k < self.count) }
        ensures { result ≡ slot_right self.entry.clock.seconds self.entry.next self.entry.table.now k }
    {
        if table::has_kind(self.table, k, Kind::Free) {
            return table::is_free(table::block_at(self.table, k));
        }
        self.held_right(k)
    }

    // Does every slot?
    fn slots_right(self) -> bool
        ensures { result ≡ all_from (slot_right self.entry.clock.seconds self.entry.next self.entry.table.now) 1 (self.entry.count - 1) }
    {
        (1..self.count).all(|k| self.slot_right(k))
    }
}

// ---- the table

// Is the length of a table right: a multiple of 512, 9 to 128 blocks?
// No one function for this and the register's shape: `table_shape` and `register_shape` of protocol, which may not change, differ in their
// limits alone, and two functions that name these would still be left.
pub fn shape_right(n: usize) -> bool
    ensures { result ≡ table_shape n }
{
    (n % 512 == 0) & ((9 <= n / 512) & (n / 512 <= 128))
}

// Are the table's bytes those of the table that they say, and does that keep every rule? The header is judged first, then every
// slot and the count of logins.
pub fn table_lawful(table: &[u8]) -> bool
    requires { table_shape (length table.now) ≡ true }
    ensures { result ≡ table_lawful table.now }
{
    let count = table.len() / 512;
    if !table_rules::head_right(table, count - 1) {
        return false;
    }
    let clock = Time {
        seconds: table::clock_of(table),
    };
    let next = table::next_of(table);
    let judge = Judge {
        table,
        count,
        clock,
        next,
    };
    block::block_ok(table, 0)
        & judge.slots_right()
        & (table::count_kind(table, Kind::Login) <= ticket::Login::MOST)
}
