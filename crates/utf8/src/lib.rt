// Whether five bytes are UTF-8 (RFC 3629), by a scan that keeps what the next byte must be. It has no counterpart in the Rust, which calls `from_utf8`.
#![tactic(auto)]

ghost use Rattle.std.specs.Prelude.{◌≡◌, ◌+◌, ◌≤◌, Some, length, take, drop};
ghost use Rattle.utf8.specs.Rules.{fresh, lead_of, step_of, is_whole, want, is_utf8};
ghost use Rattle.utf8.specs.Pieces.{all_ascii};

// What must follow: so many bytes more of a character, the next of them from low to high.
#[derive(Clone, Copy)]
struct Scan {
    more: u8,
    low: u8,
    high: u8,
}

fn want(more: u8, low: u8, high: u8) -> Option<Scan>
    ensures { result ≡ want more low high }
{
    Some(Scan { more, low, high })
}

// After the first byte of a character: the table of the RFC, row by row.
#[tactic(auto, using(std::proofs::lemmas::Bool::Decides::nat_tests), unfolding(crate::specs::Rules::lead_of, crate::specs::Rules::lead3, crate::specs::Rules::lead4))]
fn lead(b: u8) -> Option<Scan>
    ensures { result ≡ lead_of b }
{
    match b {
        0x00..=0x7F => want(0, 0x80, 0xBF),
        0xC2..=0xDF => want(1, 0x80, 0xBF),
        0xE0 => want(2, 0xA0, 0xBF),
        0xE1..=0xEC => want(2, 0x80, 0xBF),
        0xED => want(2, 0x80, 0x9F),
        0xEE..=0xEF => want(2, 0x80, 0xBF),
        0xF0 => want(3, 0x90, 0xBF),
        0xF1..=0xF3 => want(3, 0x80, 0xBF),
        0xF4 => want(3, 0x80, 0x8F),
        _ => None,
    }
}

impl Scan {
    // Between two characters.
    fn new() -> Self
        ensures { Some result ≡ fresh }
    {
        Scan {
            more: 0,
            low: 0x80,
            high: 0xBF,
        }
    }

    // After one byte more.
    #[tactic(auto, using(std::proofs::lemmas::Bool::Decides::nat_tests), unfolding(crate::specs::Rules::step_of))]
    fn step(self, b: u8) -> Option<Self>
        ensures { result ≡ step_of (Some self) b }
    {
        if self.more == 0 {
            lead(b)
        } else if self.low <= b && b <= self.high {
            want(self.more - 1, 0x80, 0xBF)
        } else {
            None
        }
    }
}

// What must follow bytes, if they can be the first of a text.
#[tactic(auto, using(crate::specs::Laws::starts, crate::specs::Laws::goes_on))]
fn scanned(s: &[u8]) -> Option<Scan>
    ensures { is_whole result ≡ is_utf8 s.now }
{
    let mut scan = Scan::new();
    for b in s {
        scan = scan.step(*b)?;
    }
    Some(scan)
}

// Whether the five bytes from `at` are UTF-8.
pub fn is_utf8_name(s: &[u8], at: usize) -> bool
    requires { at + 5 ≤ length s.now }
    ensures { result ≡ is_utf8 (take 5 (drop at s.now)) }
{
    if all_ascii(s[at], s[at + 1], s[at + 2], s[at + 3], s[at + 4]) {
        true
    } else {
        scanned(&s[at..at + 5]).is_some_and(|left| left.more == 0)
    }
}

// Whether five bytes are below 128, as those of nearly every name are: one test of all, where a loop has a branch for each.
fn all_ascii(a: u8, b: u8, c: u8, d: u8, e: u8) -> bool
    ensures { result ≡ all_ascii a b c d e }
{
    (a < 128) & (b < 128) & (c < 128) & (d < 128) & (e < 128)
}
