// What a call changed of the table, told behind what the call said.
ghost use Rattle.std.specs.Prelude.{◌≤◌, length};
ghost use Rattle.changed.specs.Changes.{Told};

use super::frame_out::FrameOut;

// The table is kept before the call, and told against after it. Here and in `format` the writer is `changed`'s, which knows no frame: `Told` speaks
// of bytes and end.
pub fn told<F: FnOnce(&mut [u8], &mut FrameOut)>(
    table: &mut [u8],
    old: &mut [u8; 65536],
    out: &mut FrameOut,
    call: F,
)
    requires table_len_bound { length table.old ≤ 65536 }
    requires callable { F.IsAlwaysCallable call }
    requires end_bound { (t : _) (o : _) (s : _) (p : _) → F.post call t o tt s p → p.now.end ≤ 20508 }
    ensures { Told table.old table.new out.new.bytes out.new.end }
{
    let old = &mut old[..table.len()];
    old.copy_from_slice(table);
    call(table, out);
    out.end = changed::put_changed(old, table, &mut out.bytes, out.end);
}
