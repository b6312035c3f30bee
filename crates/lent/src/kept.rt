// Bytes that a program keeps from frame to frame.
ghost use Rattle.std.specs.Prelude.{◌≡◌, ◌↔◌, ◌<◌, ◌≤◌, length, take, MatchOption, IfSome, IsSome};

// The first bytes of a room of N.
#[derive(Drop)]
pub struct Kept<const N: usize> {
    room: [u8; N],
    size: usize,
    ghost fits: { size ≤ N },
}

impl<const N: usize> Kept<N> {
    // None at first.
    pub fn new() -> Self
        ensures { result.size ≡ 0 }
    {
        Kept {
            room: [0; N],
            size: 0,
        }
    }

    pub fn bytes(&self) -> &[u8]
        ensures value { result.now ≡ take self.now.size self.now.room }
        ensures upper_bound { length result.now ≤ N }
    {
        &self.room[..self.size]
    }

    pub fn bytes_mut(&mut self) -> &mut [u8]
        ensures value { result.now ≡ take self.old.size self.old.room }
        ensures len { length result.now ≡ self.old.size }
        ensures upper_bound { length result.now ≤ N }
    {
        let size = self.size;
        let room = &mut self.room;
        let room = &mut room[..];
        &mut room[..size]
    }

    // From here on so many bytes, whatever they are: None where there is no room for them.
    pub fn resize(&mut self, size: usize) -> Option<&mut [u8]>
        ensures value { MatchOption result (N < size) (λ bytes. length bytes.now ≡ size) }
        ensures variant { IsSome result ↔ (size ≤ N) }
    {
        if N < size {
            return None;
        }
        self.size = size;
        Some(self.bytes_mut())
    }

    // These bytes from here on: None where there is no room for them. Not by `resize`, whose clause tells how long that is which it lends, and not
    // that it is the front of the room.
    pub fn load(&mut self, bytes: &[u8]) -> Option<()>
        ensures value { IfSome result (λ _. take self.new.size self.new.room ≡ bytes.now) }
        ensures variant { IsSome result ↔ (length bytes.now ≤ N) }
    {
        let n = bytes.len();
        if N < n {
            return None;
        }
        self.room[..n].copy_from_slice(bytes);
        self.size = n;
        Some(())
    }
}
