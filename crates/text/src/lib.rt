// Text into lent room, from a place on and cut off at its end; each function answers the place after. The Rust builds strings.
#![tactic(auto)]

ghost use Rattle.std.specs.Prelude.{◌≡◌, true, [], ◌∷◌, ◌+◌, ◌≤◌, ◌<◌, length};
ghost use Rattle.std.proofs.lemmas.List.Edits.{sets};
ghost use Rattle.text.specs.Rules.{glyph_of, numeral, blanks, right_in, place, Wrote};

#[tactic(auto, using(std::proofs::lemmas::Bool::Decides::nat_tests), unfolding(crate::specs::Rules::place))]
fn after(at: usize, count: usize) -> usize
    ensures { result ≡ place (at + count) }
{
    at.saturating_add(count)
}

pub fn put_byte(out: &mut [u8], at: usize, byte: u8) -> usize
    ensures { Wrote out.old at (byte ∷ []) out.new result }
{
    if at < out.len() {
        out[at] = byte;
        at + 1
    } else {
        after(at, 1)
    }
}

// Whether `count` bytes from a place on lie inside the room.
fn has_room(room: usize, at: usize, count: usize) -> bool
    ensures { result ≡ true → at + count ≤ room }
{
    at <= room && count <= room - at
}

fn copy(out: &mut [u8], at: usize, bytes: &[u8])
    requires { at + length bytes.now ≤ length out.old }
    ensures { out.new ≡ sets out.old at bytes.now }
{
    out[at..at + bytes.len()].copy_from_slice(bytes);
}

// Byte by byte, for the end of the room.
fn put_tested(out: &mut [u8], at: usize, bytes: &[u8]) -> usize
    ensures { Wrote out.old at bytes.now out.new result }
{
    let mut p = at;
    for byte in bytes {
        p = put_byte(out, p, *byte);
    }
    p
}

// The bytes of a text.
pub fn put(out: &mut [u8], at: usize, bytes: &[u8]) -> usize
    ensures { Wrote out.old at bytes.now out.new result }
{
    if has_room(out.len(), at, bytes.len()) {
        copy(out, at, bytes);
        at + bytes.len()
    } else {
        put_tested(out, at, bytes)
    }
}

fn glyph(digit: u32) -> u8
    requires { digit < 16 }
    ensures { result ≡ glyph_of digit }
{
    if digit < 10 {
        48 + digit as u8
    } else {
        55 + digit as u8
    }
}

// How many digits a number has in a base; where that is a constant, short numbers are told by comparisons with constants (docs/BENCHMARKS.md).
fn digits(base: u32, n: u32) -> usize
    requires { 1 < base }
    ensures { (result ≡ length (numeral base n)) × (result ≤ 32) }
{
    if n < base {
        return 1;
    }
    let two = n / base;
    if two < base {
        return 2;
    }
    let three = two / base;
    if three < base {
        return 3;
    }
    let four = three / base;
    if four < base {
        return 4;
    }
    let mut count = 5;
    let mut left = four / base;
    while base <= left {
        left /= base;
        count += 1;
    }
    count
}

// The digits from the last to the first.
fn fill(out: &mut [u8], at: usize, count: usize, base: u32, n: u32)
    requires lt_base { (1 < base) × (base ≤ 16) }
    requires count_value { count ≡ length (numeral base n) }
    requires count_in_bounds { at + count ≤ length out.old }
    ensures { out.new ≡ sets out.old at (numeral base n) }
{
    let mut left = n;
    for k in (0..count).rev() {
        out[at + k] = glyph(left % base);
        left /= base;
    }
}

// A number in a base, straight into the room where it fits.
fn put_numeral(out: &mut [u8], at: usize, base: u32, n: u32) -> usize
    requires { (1 < base) × (base ≤ 16) }
    ensures { Wrote out.old at (numeral base n) out.new result }
{
    let count = digits(base, n);
    if has_room(out.len(), at, count) {
        fill(out, at, count, base, n);
        at + count
    } else {
        let mut glyphs = [0; 32];
        fill(&mut glyphs, 0, count, base, n);
        put_tested(out, at, &glyphs[..count])
    }
}

// A number in decimal.
pub fn put_decimal(out: &mut [u8], at: usize, n: u16) -> usize
    ensures { Wrote out.old at (numeral 10 n) out.new result }
{
    put_numeral(out, at, 10, u32::from(n))
}

// A number in upper-case hex.
pub fn put_hex(out: &mut [u8], at: usize, n: u32) -> usize
    ensures { Wrote out.old at (numeral 16 n) out.new result }
{
    put_numeral(out, at, 16, n)
}

fn put_blanks(out: &mut [u8], at: usize, count: usize) -> usize
    ensures { Wrote out.old at (blanks count) out.new result }
{
    let mut p = at;
    for _ in 0..count {
        p = put_byte(out, p, b' ');
    }
    p
}

// A number in decimal, right-aligned in a width.
pub fn put_right(out: &mut [u8], at: usize, n: u16, width: usize) -> usize
    ensures { Wrote out.old at (right_in width (numeral 10 n)) out.new result }
{
    let missing = width.saturating_sub(digits(10, u32::from(n)));
    let p = put_blanks(out, at, missing);
    put_decimal(out, p, n)
}
