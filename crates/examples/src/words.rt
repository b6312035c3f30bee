// A line of words with a space between each, taken apart.
ghost use Rattle.std.specs.Prelude.{◌<◌};

// The word behind the first k spaces, empty where there are fewer.
pub fn word<'a>(line: &'a [u8], k: usize) -> &'a [u8] {
    line.split(|b| *b == b' ').nth(k).unwrap_or(&[])
}

// A byte that is no digit counts as 0, and of more than 18 digits the last 18 count: `parse` does neither, and what the program does with such words may not change.
fn digit(b: u8) -> u64
    ensures { result < 10 }
{
    if b.is_ascii_digit() {
        u64::from(b - b'0')
    } else {
        0
    }
}

fn with_digit(v: u64, b: u8) -> u64 {
    v % 100_000_000_000_000_000 * 10 + digit(b)
}

// A number in decimal, of which 18 digits count.
pub fn number(word: &[u8]) -> u64 {
    word.iter().fold(0, |v, b| with_digit(v, *b))
}
