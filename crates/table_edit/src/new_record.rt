// A record to be added.
ghost use Rattle.std.specs.Prelude.{◌≤◌, length};

// What it says beside its kind, and beside what the table and the random input give it. Parent and session 0 are none, and the mark is a number: so in
// the table's format and in the meaning's `new_rec`, which may not change.
#[derive(Clone, Copy)]
pub struct NewRecord<'a> {
    pub mark: u8,
    pub parent: u16,
    pub session: u16,
    pub depth: u8,
    pub text: &'a [u8],
    pub ghost text_fits: { length text.now ≤ 200 },
}
