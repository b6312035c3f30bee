// A success told with its proxies: the callbacks from a grant to its parents, newest first, the depth falling by one.
#![tactic(auto)]

ghost use Rattle.protocol.specs.Table.{decode_table};
ghost use Rattle.protocol.specs.Answers.{proxy_lines, proxies_text};
ghost use Rattle.protocol.specs.Steps.{chain_from, chain_of, success_of};
ghost use Rattle.protocol.specs.Written.{Room, Wrote};
ghost use Rattle.protocol.specs.Held.{Lawful, Within, Said};
ghost use Rattle.success.specs.Walk.{Walk, Told};

use protocol::{Answer, Outcome, Time};

// The lines of the proxies from the grant in `slot` on, `depth` of them.
// Document 01 names this form: a recursive walk over parent slots, with the depth as the falling number.
pub fn put_chain(table: &[u8], slot: usize, depth: u8, out: &mut [u8], at: usize) -> usize
    requires { (Walk table.now slot depth) × (Room out.old at (proxy_lines (chain_from depth slot (decode_table table.now).slots))) }
    ensures { Wrote out.old at out.new result (proxy_lines (chain_from depth slot (decode_table table.now).slots)) }
{
    if depth == 0 {
        return at;
    }
    let callback = table::text_of(table, slot);
    let next = xml::put_proxy(out, at, callback);
    let parent = usize::from(table::parent_of(table, slot));
    put_chain(table, parent, depth - 1, out, next)
}

// `cas:proxies`, left out where there are none.
fn put_proxies(table: &[u8], parent: usize, out: &mut [u8], at: usize) -> usize
    requires { (Lawful table.now) × (Within parent table.now) × (Room out.old at (proxies_text (chain_of parent (decode_table table.now).slots))) }
    ensures { Wrote out.old at out.new result (proxies_text (chain_of parent (decode_table table.now).slots)) }
{
    let depth = table::depth_at(table, parent);
    if depth == 0 {
        return at;
    }
    let first = xml::put_proxies_open(out, at);
    let end = put_chain(table, parent, depth, out, first);
    xml::put_proxies_close(out, end)
}

// Success by a ticket's mark: the user of a session, since when, an IOU if it is not empty, and the proxies from a parent on.
// An empty IOU and parent 0 are none, and session, mark and parent are three: so in the meaning's `success_of`, which may not change.
pub fn say_success(
    table: &[u8],
    session: usize,
    mark: u8,
    iou: &[u8],
    parent: usize,
    out: &mut [u8],
) -> Outcome
    requires { Told table.now session iou.now parent out.old }
    ensures { Said (success_of session mark iou.now parent (decode_table table.now).slots)
        result out.old out.new }
{
    let user = table::text_of(table, session);
    let since = Time {
        seconds: table::since_of(table, session),
    };
    let head = xml::put_success_head(out, user, since, mark, iou);
    let to = put_proxies(table, parent, out, head);
    let n = xml::put_success_tail(out, to);
    reply::told(Answer::Xml(true), n)
}
