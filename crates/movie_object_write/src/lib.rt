// Writing MovieObject.bdmv into a lent buffer (the Rust's `MovieObjects::encode`).
#![tactic(auto)]

ghost use Rattle.std.specs.Prelude.{◌≡◌, ◌+◌, ◌*◌, ◌-◌, ◌≤◌, ◌<◌, length, Ok};
ghost use Rattle.laws.specs.Firsts.{sum, all_below, blocks};
ghost use Rattle.laws.specs.Over.{over};
ghost use Rattle.common.specs.Rules.{left};
ghost use Rattle.movie_object_write.specs.Rules.{flag_byte, object_bytes, object, head_bytes, encodable, write_verdict, file_of, size_of, write_of, WritingThenReading, ReadingThenWriting};
ghost use Rattle.movie_object_write.specs.Laws.{Accepted};

use common::{all_below, put_bytes, put_zeros, put16, put32, room_verdict};
use error::Refusal;

// The file of a record: its version; for each object three flags of one bit and a number of commands; and all commands, one after the other.
// Three slices side by side, since the C call lends them so and `write_of` speaks of them.
#[tactic(auto, using(crate::specs::Laws::accepted), unfolding(crate::specs::Rules::write_of))]
pub fn write(
    version: u32,
    flags: &[u8],
    counts: &[u32],
    commands: &[u8],
    out: &mut [u8],
) -> Result<usize, Refusal>
    ensures { left out.new result
        ≡ write_of version flags.now counts.now commands.now out.old }
{
    write_verdict(flags, counts, commands, out.len())?;
    Ok(write_file(version, flags, counts, commands, out))
}

// Theorem: writing then reading gives the record back, and the file is one that the writer could have made.
pub fn writing_then_reading()
    ensures { WritingThenReading }
{}

// Theorem: reading then writing gives the bytes back, for each file that the writer could have made.
pub fn reading_then_writing()
    ensures { ReadingThenWriting }
{}

// Whether the record is written: 6, 9, 5.
#[tactic(auto, unfolding(crate::specs::Rules::write_verdict))]
fn write_verdict(flags: &[u8], counts: &[u32], commands: &[u8], room: usize) -> Result<(), Refusal>
    ensures { result ≡ write_verdict flags.now counts.now commands.now room }
{
    Refusal::BadBuffer.refused_if(commands.len() % 12 != 0)?;
    Refusal::NotEncodable.refused_if(!is_encodable(flags, counts, commands))?;
    room_verdict(78 + 4 * counts.len() + commands.len(), room)
}

// Whether every field fits its bits, and the commands are as many as the counts say.
#[tactic(auto, unfolding(crate::specs::Rules::encodable))]
fn is_encodable(flags: &[u8], counts: &[u32], commands: &[u8]) -> bool
    ensures { result ≡ encodable flags.now counts.now commands.now }
{
    counts.len() <= 65535
        && flags.len() == 3 * counts.len()
        && all_below(flags, 2)
        && all_counts(counts)
        && 12 * total(counts) == commands.len()
}

// Whether every count has two bytes.
fn all_counts(counts: &[u32]) -> bool
    ensures { result ≡ all_below 65536 counts.now (length counts.now) }
{
    counts.iter().all(|count| *count < 65536)
}

// The number of all commands.
#[tactic(auto, using(laws::specs::Firsts::sum_suc), unfolding(laws::specs::Firsts::sum))]
fn total(counts: &[u32]) -> usize
    requires { length counts.now ≤ 65535 }
    ensures { (result ≡ sum counts.now (length counts.now)) × (result ≤ 281474976710656) }
{
    let mut n = 0;
    for count in counts {
        n += *count as usize;
    }
    n
}

// The bytes of an accepted record; the number of them.
#[tactic(auto, using(crate::specs::Laws::size_is, crate::specs::Laws::size_from, crate::specs::Laws::file_steps))]
fn write_file(version: u32, flags: &[u8], counts: &[u32], commands: &[u8], out: &mut [u8]) -> usize
    requires { Accepted flags.now counts.now commands.now (length out.old) }
    ensures bytes { out.new ≡ over out.old 0 (file_of version flags.now counts.now commands.now) }
    ensures size { result ≡ size_of counts.now }
{
    let size = 78 + 4 * counts.len() + commands.len();
    put_head(out, version, counts.len() as u16, (size - 44) as u32);
    put_objects(out, flags, counts, commands);
    size
}

// The 78 bytes before the objects.
fn put_head(out: &mut [u8], version: u32, n: u16, stated: u32)
    requires { 78 ≤ length out.old }
    ensures { out.new ≡ over out.old 0 (head_bytes version n stated) }
{
    put32(out, 0, 0x4D4F424A);
    put32(out, 4, version);
    put_zeros(out, 8, 32);
    put32(out, 40, stated);
    put_zeros(out, 44, 32);
    put16(out, 76, n);
}

// All objects, one after the other.
#[tactic(auto, using(laws::specs::Over::over_nil), unfolding(laws::specs::Firsts::blocks, laws::specs::Firsts::sum))]
fn put_objects(out: &mut [u8], flags: &[u8], counts: &[u32], commands: &[u8])
    requires { Accepted flags.now counts.now commands.now (length out.old) }
    ensures { out.new
        ≡ over out.old 78 (blocks (object flags.now counts.now commands.now) (length counts.now)) }
{
    let (triples, _) = flags.as_chunks::<3>();
    let mut rest = commands;
    let mut at = 78;
    for (bits, count) in triples.iter().zip(counts) {
        let (part, after) = rest.split_at(12 * (*count as usize));
        at = put_object(
            out,
            at,
            flag_byte(bits[0], bits[1], bits[2]),
            *count as u16,
            part,
        );
        rest = after;
    }
}

// Three flags in the top bits of a byte.
fn flag_byte(resume: u8, menu: u8, title: u8) -> u8
    requires { (resume < 2) × (menu < 2) × (title < 2) }
    ensures { result ≡ flag_byte resume menu title }
{
    resume * 128 + menu * 64 + title * 32
}

// One object: its flags, a zero, its count and its commands. The place behind it.
#[tactic(auto, using(crate::specs::Laws::object_steps))]
fn put_object(out: &mut [u8], at: usize, bits: u8, count: u16, commands: &[u8]) -> usize
    requires { at + 4 + length commands.now ≤ length out.old }
    ensures bytes { out.new ≡ over out.old at (object_bytes bits count commands.now) }
    ensures behind { result ≡ at + 4 + length commands.now }
{
    out[at] = bits;
    out[at + 1] = 0;
    put16(out, at + 2, count);
    put_bytes(out, at + 4, commands);
    at + 4 + commands.len()
}
