// Big-endian reads of a file from a position on, and writes at a place (the Rust's common.rs).
#![tactic(auto)]

ghost use Rattle.std.specs.Prelude.{◌≡◌, ◌+◌, ◌*◌, ◌≤◌, length, get_or, replicate};
ghost use Rattle.laws.specs.Firsts.{all_below};
ghost use Rattle.laws.specs.Over.{over};
ghost use Rattle.common.specs.Rules.{be2, be4, bytes2, bytes4, seek_of, read_u8, read_u16, read_u32, header_of, room_verdict};
ghost use Rattle.common.specs.Pieces.{AtMost};

use error::Refusal;

// A file has at most so many bytes.
const LIMIT: usize = 16777216;

// A file and a position in it.
#[derive(Clone, Copy)]
pub struct Reader<'a> {
    pub buf: &'a [u8],
    pub pos: usize,
}

impl<'a> Reader<'a> {
    pub fn new(buf: &'a [u8]) -> Self
        ensures { (result.buf.now ≡ buf.now) × (result.pos ≡ 0) }
    {
        Reader { buf, pos: 0 }
    }

    pub fn seek(&mut self, to: usize) -> Result<(), Refusal>
        ensures same { self.new.buf ≡ self.old.buf }
        ensures moved { (result, self.new.pos) ≡ seek_of self.old.buf.now self.old.pos to }
    {
        if self.buf.len() < to {
            return Err(Refusal::BadBody);
        }
        self.pos = to;
        Ok(())
    }

    pub fn skip(&mut self, n: usize) -> Result<(), Refusal>
        ensures same { self.new.buf ≡ self.old.buf }
        ensures moved { (result, self.new.pos) ≡ seek_of self.old.buf.now self.old.pos (self.old.pos + n) }
    {
        if !within(self.pos, n, self.buf.len()) {
            return Err(Refusal::BadBody);
        }
        self.pos += n;
        Ok(())
    }

    pub fn read_u8(&mut self) -> Result<u8, Refusal>
        ensures same { self.new.buf ≡ self.old.buf }
        ensures read { (result, self.new.pos) ≡ read_u8 self.old.buf.now self.old.pos }
    {
        let at = self.pos;
        self.skip(1)?;
        Ok(self.buf[at])
    }

    pub fn read_u16(&mut self) -> Result<u16, Refusal>
        ensures same { self.new.buf ≡ self.old.buf }
        ensures read { (result, self.new.pos) ≡ read_u16 self.old.buf.now self.old.pos }
    {
        let at = self.pos;
        self.skip(2)?;
        Ok(be16(self.buf, at))
    }

    pub fn read_u32(&mut self) -> Result<u32, Refusal>
        ensures same { self.new.buf ≡ self.old.buf }
        ensures read { (result, self.new.pos) ≡ read_u32 self.old.buf.now self.old.pos }
    {
        let at = self.pos;
        self.skip(4)?;
        Ok(be32(self.buf, at))
    }
}

// Whether n bytes from `at` lie within a length; the sum is not made, since it could pass the end of usize.
fn within(at: usize, n: usize, len: usize) -> bool
    ensures { AtMost (at + n) len result }
{
    at <= len && n <= len - at
}

// The big-endian number of the two bytes at a place.
#[tactic(auto, unfolding(crate::specs::Rules::be2))]
pub fn be16(s: &[u8], at: usize) -> u16
    requires { at + 2 ≤ length s.now }
    ensures { result ≡ be2 s.now at }
{
    u16::from_be_bytes([s[at], s[at + 1]])
}

// The big-endian number of the four bytes at a place.
#[tactic(auto, unfolding(crate::specs::Rules::be4))]
pub fn be32(s: &[u8], at: usize) -> u32
    requires { at + 4 ≤ length s.now }
    ensures { result ≡ be4 s.now at }
{
    u32::from_be_bytes([s[at], s[at + 1], s[at + 2], s[at + 3]])
}

// The byte at a place, and 0 past the end.
pub fn byte_at(s: &[u8], at: usize) -> u8
    ensures { result ≡ get_or s.now at 0 }
{
    s.get(at).copied().unwrap_or(0)
}

// The number at a place of a list of them, and 0 past the end.
pub fn number_at(room: &[u32], at: usize) -> u32
    ensures { result ≡ get_or room.now at 0 }
{
    room.get(at).copied().unwrap_or(0)
}

// The big-endian number of the two bytes at a place; bytes past the end count as 0.
#[tactic(auto, using(crate::specs::Laws::be2_past), unfolding(crate::specs::Rules::be2))]
pub fn half_at(s: &[u8], at: usize) -> u16
    ensures { result ≡ be2 s.now at }
{
    if at < s.len() {
        u16::from_be_bytes([s[at], byte_at(s, at + 1)])
    } else {
        0
    }
}

// The same of the four bytes.
#[tactic(auto, using(crate::specs::Laws::be4_past), unfolding(crate::specs::Rules::be4))]
pub fn word_at(s: &[u8], at: usize) -> u32
    ensures { result ≡ be4 s.now at }
{
    if at < s.len() {
        u32::from_be_bytes([
            s[at],
            byte_at(s, at + 1),
            byte_at(s, at + 2),
            byte_at(s, at + 3),
        ])
    } else {
        0
    }
}

// Whether a file is neither too long (1) nor without the header of its kind (2).
#[tactic(auto, unfolding(crate::specs::Rules::header_of))]
pub fn header(file: &[u8], kind: u32) -> Result<(), Refusal>
    ensures { result ≡ header_of kind file.now }
{
    if LIMIT < file.len() {
        return Err(Refusal::TooLong);
    }
    if file.len() < 40 || be32(file, 0) != kind {
        return Err(Refusal::BadHeader);
    }
    Ok(())
}

// Whether a file of so many bytes is within the limit and goes into the lent room (5).
#[tactic(auto, unfolding(crate::specs::Rules::room_verdict))]
pub fn room_verdict(size: usize, room: usize) -> Result<(), Refusal>
    ensures { result ≡ room_verdict size room }
{
    if LIMIT < size || room < size {
        return Err(Refusal::NoRoom);
    }
    Ok(())
}

// Whether all bytes are below a bound.
pub fn all_below(s: &[u8], bound: u8) -> bool
    ensures { result ≡ all_below bound s.now (length s.now) }
{
    for b in s {
        if bound <= *b {
            return false;
        }
    }
    true
}

// Two bytes, big-endian, at a place of a lent buffer.
#[tactic(auto, unfolding(crate::specs::Rules::bytes2))]
pub fn put16(out: &mut [u8], at: usize, x: u16)
    requires { at + 2 ≤ length out.old }
    ensures { out.new ≡ over out.old at (bytes2 x) }
{
    put_bytes(out, at, &x.to_be_bytes());
}

// Four bytes, big-endian.
#[tactic(auto, unfolding(crate::specs::Rules::bytes4))]
pub fn put32(out: &mut [u8], at: usize, x: u32)
    requires { at + 4 ≤ length out.old }
    ensures { out.new ≡ over out.old at (bytes4 x) }
{
    put_bytes(out, at, &x.to_be_bytes());
}

// n zeros.
pub fn put_zeros(out: &mut [u8], at: usize, n: usize)
    requires { at + n ≤ length out.old }
    ensures { out.new ≡ over out.old at (replicate n 0) }
{
    out[at..at + n].fill(0);
}

// The bytes of another slice.
pub fn put_bytes(out: &mut [u8], at: usize, src: &[u8])
    requires { at + length src.now ≤ length out.old }
    ensures { out.new ≡ over out.old at src.now }
{
    // Not `copy_from_slice`: of parts whose place is not known it becomes a call of `memmove`, a name that an embedder would have to bring.
    for i in 0..src.len() {
        out[at + i] = src[i];
    }
}
