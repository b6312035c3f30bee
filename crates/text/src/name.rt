// A short text held by value.
ghost use Rattle.std.specs.Prelude.{◌≤◌};

// A name, or a ticket's text: the first bytes of 64.
#[derive(Clone, Copy)]
pub struct Name {
    pub bytes: [u8; 64],
    pub length: usize,
    pub ghost fits: { length ≤ 64 },
}

impl Name {
    ghost use Rattle.std.specs.Prelude.{◌≡◌};
    ghost use Rattle.text.specs.Named.{named};

    pub fn text(&self) -> &[u8]
        ensures { result.now ≡ named self.now }
    {
        &self.bytes[..self.length]
    }
}
