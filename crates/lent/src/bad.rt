// Why a frame ends a program.
ghost use Rattle.std.specs.Prelude.{◌≡◌, ◌≤◌, length};

use std::fmt;

#[derive(Clone, Copy, Debug, PartialEq, Eq)]
pub enum Bad {
    // it ends before its fields do, is not filled by them, or has more than there is room for
    Cut,
    Unknown,
}

impl Bad {
    ghost use Rattle.lent.specs.Reasons.{reason_of};

    // What is said of it.
    pub fn reason(self) -> &'static str
        ensures value { result.now ≡ reason_of self }
        ensures upper_bound { length result.now ≤ 1024 }
    {
        match self {
            Bad::Cut => "the frame is cut or too large",
            Bad::Unknown => "the frame is unknown",
        }
    }
}

impl fmt::Display for Bad {
    fn fmt<W: fmt::Write>(&self, f: &mut fmt::Formatter<W>) -> fmt::Result {
        f.write_str(self.reason())
    }
}
