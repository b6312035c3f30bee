// The fields of a frame, taken one behind the other. Numbers are little-endian; a text has its length before it, a number of four bytes.
ghost use Rattle.std.specs.Prelude.{◌≡◌, ◌⊎◌, ◌∷◌, [], ◌<◌, ◌≤◌, ◌+◌, ltb, length, take, drop, slice_index, MatchOption};
ghost use Rattle.std.specs.Int.{w32, w64, from_le_bytes};
ghost use Rattle.lent.specs.Frames.{number_of, text_of, behind_text};

// What is left of a frame. None says that a field is cut: the frame ends within it.
#[derive(Drop)]
pub struct Fields<'a> {
    rest: &'a [u8],
}

impl<'a> Fields<'a> {
    pub fn of(frame: &'a [u8]) -> Self
        ensures { result.rest.now ≡ frame.now }
    {
        Fields { rest: frame }
    }

    pub fn byte(&mut self) -> Option<u8>
        ensures { MatchOption result (self.old.rest.now ≡ []) (λ b. self.old.rest.now ≡ b ∷ self.new.rest.now) }
    {
        let (first, rest) = self.rest.split_first()?;
        self.rest = rest;
        Some(*first)
    }

    // A byte that says yes where it is not 0.
    pub fn flag(&mut self) -> Option<bool>
        ensures { MatchOption result (self.old.rest.now ≡ []) (λ yes. (yes ≡ ltb 0 (slice_index self.old.rest.now 0)) × (self.new.rest.now ≡ drop 1 self.old.rest.now)) }
    {
        Some(self.byte()? != 0)
    }

    // So many bytes.
    fn array<const N: usize>(&mut self) -> Option<[u8; N]>
        ensures { MatchOption result (length self.old.rest.now < N) (λ bytes. (bytes ≡ take N self.old.rest.now) × (self.new.rest.now ≡ drop N self.old.rest.now)) }
    {
        let (bytes, rest) = self.rest.split_first_chunk()?;
        self.rest = rest;
        Some(*bytes)
    }

    pub fn number(&mut self) -> Option<u32>
        ensures { MatchOption result (length self.old.rest.now < 4) (λ n. (n ≡ from_le_bytes w32 (take 4 self.old.rest.now)) × (self.new.rest.now ≡ drop 4 self.old.rest.now)) }
    {
        Some(u32::from_le_bytes(self.array()?))
    }

    pub fn long(&mut self) -> Option<u64>
        ensures { MatchOption result (length self.old.rest.now < 8) (λ n. (n ≡ from_le_bytes w64 (take 8 self.old.rest.now)) × (self.new.rest.now ≡ drop 8 self.old.rest.now)) }
    {
        Some(u64::from_le_bytes(self.array()?))
    }

    // A number that is at most so many: None where it is more, too.
    pub fn size(&mut self, most: usize) -> Option<usize>
        ensures { MatchOption result ((length self.old.rest.now < 4) ⊎ (most < number_of self.old.rest.now)) (λ n. (n ≤ most) × (n ≡ number_of self.old.rest.now) × (self.new.rest.now ≡ drop 4 self.old.rest.now)) }
    {
        let n = self.number()? as usize;
        if most < n {
            return None;
        }
        Some(n)
    }

    pub fn text(&mut self) -> Option<&'a [u8]>
        ensures { MatchOption result (length self.old.rest.now < 4 + number_of self.old.rest.now) (λ text. (text.now ≡ text_of self.old.rest.now) × (self.new.rest.now ≡ behind_text self.old.rest.now)) }
    {
        let n = self.number()? as usize;
        let (text, rest) = self.rest.split_at_checked(n)?;
        self.rest = rest;
        Some(text)
    }

    // That nothing is left over.
    pub fn end(self) -> Option<()>
        ensures { MatchOption result (0 < length self.entry.rest.now) (λ _. self.entry.rest.now ≡ []) }
    {
        self.rest.is_empty().then_some(())
    }
}
