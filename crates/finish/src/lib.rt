// A callback finished: the waiting grant of a serial becomes a grant or is removed, and success is told of it.
#![tactic(auto)]

ghost use Rattle.std.specs.Prelude.{◌≤◌, length};
ghost use Rattle.protocol.specs.Table.{decode_table};
ghost use Rattle.protocol.specs.Steps.{finish};
ghost use Rattle.protocol.specs.Held.{Lawful, Said, Does, said_at};
ghost use Rattle.finish.specs.Waits.{Waits, told_of, granted, refused, settled};

use protocol::Outcome;
use ticket::Kind;
use xml::Code;

// Success of the waiting grant in a slot: its session's user, by the mark that it keeps, an IOU if it is not empty, and the proxies from its parent on.
// The IOU is a slice of at most 64 bytes, and no `Name`: where there is none, `remove` gives an empty text, as the meaning's `success_of` has it.
#[tactic(auto, using(crate::proofs::Laws::waits_session, success::proofs::Links::parent_within))]
fn tell(table: &[u8], slot: usize, iou: &[u8], out: &mut [u8]) -> Outcome
    requires { (Waits slot table.now) × (length iou.now ≤ 64) × (8192 ≤ length out.old) }
    ensures { Said (told_of (said_at slot table.now) iou.now (decode_table table.now).slots)
        result out.old out.new }
{
    let session = usize::from(table::session_of(table, slot));
    let parent = usize::from(table::parent_of(table, slot));
    let mark = table::mark_of(table, slot);
    success::say_success(table, session, mark, iou, parent, out)
}

// Yes: told with the IOU's text, then a grant.
#[tactic(auto, using(crate::proofs::Laws::waits_session, crate::proofs::Laws::iou_size, protocol::proofs::Told::said_done), unfolding(protocol::specs::Steps::finished))]
fn grant(table: &mut [u8], slot: usize, out: &mut [u8]) -> Outcome
    requires { (Waits slot table.old) × (8192 ≤ length out.old) }
    ensures { Does (granted slot) result table.old table.new out.old out.new }
{
    let iou = ticket::iou(table::iou_of(table, slot));
    let told = tell(table, slot, iou.text(), out);
    table::turn(table, slot, Kind::Grant);
    told
}

// No: told without IOU, then removed.
#[tactic(auto, using(protocol::proofs::Told::said_done), unfolding(protocol::specs::Steps::finished))]
fn remove(table: &mut [u8], slot: usize, out: &mut [u8]) -> Outcome
    requires { (Waits slot table.old) × (8192 ≤ length out.old) }
    ensures { Does (refused slot) result table.old table.new out.old out.new }
{
    let told = tell(table, slot, b"", out);
    table::free_record(table, slot);
    told
}

#[tactic(auto, unfolding(protocol::specs::Steps::finish_at))]
fn settle(table: &mut [u8], slot: usize, outcome: bool, out: &mut [u8]) -> Outcome
    requires { (Waits slot table.old) × (8192 ≤ length out.old) }
    ensures { Does (settled slot outcome) result table.old table.new out.old out.new }
{
    if outcome {
        grant(table, slot, out)
    } else {
        remove(table, slot, out)
    }
}

// The outcome of the callback of a serial.
#[tactic(auto, using(table_find::proofs::Laws::found_none, protocol::proofs::Told::only_said), unfolding(protocol::specs::Steps::finish, protocol::specs::Steps::finish_at))]
pub fn finish(table: &mut [u8], serial: u32, outcome: bool, out: &mut [u8]) -> Outcome
    requires { (Lawful table.old) × (8192 ≤ length out.old) }
    ensures { Does (finish serial outcome) result table.old table.new out.old out.new }
{
    match table_find::find_waiting(table, serial) {
        Some(slot) => settle(table, slot, outcome, out),
        None => reply::say_failure(out, Code::InvalidTicket),
    }
}
