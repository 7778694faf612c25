// MovieObject.bdmv: which files are read, what an object's head says, and its commands as a part of the file (the Rust's movie_object.rs).
#![tactic(auto)]

ghost use Rattle.std.specs.Prelude.{List, ℕ, ◌≡◌, ◌+◌, ◌*◌, ◌/◌, ◌≤◌, ◌<◌, length, set, OnOk, Ok};
ghost use Rattle.common.specs.Rules.{be2, seek_of};
ghost use Rattle.error.specs.Rules.{given};
ghost use Rattle.movie_object.specs.Rules.{count_of, next, place, verdict_of, part_at, commands_of, parse_of, head_at, on_disc, head_of, object_of, part_of};
ghost use Rattle.movie_object.specs.Pieces.{Placed, Walked};
ghost use Rattle.movie_object.specs.Laws.{count_read, Heads, Walking};

use common::{Reader, be16, be32, half_at, header};
use error::Refusal;
use std::marker::Model;

// The letters MOBJ.
const MOBJ: u32 = 0x4D4F424A;

// What a file holds beside its objects.
#[derive(Clone, Copy, Debug, PartialEq, Eq)]
pub struct MovieObjects {
    pub version: u32,
    pub count: u16,
}

// One object beside its commands: its three flags, and how many commands it has.
#[derive(Clone, Copy, Debug, PartialEq, Eq)]
pub struct MovieObject {
    pub resume_intention_flag: u8,
    pub menu_call_mask: u8,
    pub title_search_mask: u8,
    pub commands: u16,
}

impl MovieObjects {
    // The version and the number of objects.
    #[tactic(auto, using(crate::specs::Laws::count_in), unfolding(crate::specs::Rules::count_of, crate::specs::Rules::parse_of))]
    pub fn parse(file: &[u8]) -> Result<MovieObjects, Refusal>
        ensures { result ≡ parse_of file.now }
    {
        verdict(file)?;
        Ok(MovieObjects {
            version: be32(file, 4),
            count: half_at(file, 76),
        })
    }

    // The flags and the number of commands of object n.
    #[tactic(auto, unfolding(crate::specs::Rules::object_of))]
    pub fn object(file: &[u8], n: u32) -> Result<MovieObject, Refusal>
        ensures { result ≡ object_of file.now n }
    {
        Objects::read(file)?.object(n)
    }

    // The commands of object n, a part of the file; nothing where the file is refused or there is no such object.
    #[tactic(auto, unfolding(crate::specs::Rules::part_of))]
    pub fn commands(file: &[u8], n: u32) -> &[u8]
        ensures { result.now ≡ part_of file.now n }
    {
        match Objects::read(file) {
            Ok(objects) => objects.commands(n),
            Err(_) => &[],
        }
    }
}

// The number of objects that a file states, before it is judged; bytes past the end count as 0.
#[tactic(auto, unfolding(crate::specs::Rules::count_of))]
pub fn object_count(file: &[u8]) -> u32
    ensures { result ≡ count_of file.now }
{
    u32::from(half_at(file, 76))
}

// Whether the file is read.
pub fn verdict(file: &[u8]) -> Result<(), Refusal>
    ensures { result ≡ verdict_of file.now }
{
    walk_places(file, &mut [])
}

// One walk of the heads: whether the file is read, and where its objects stand, as far as the table reaches.
pub fn walk_places(file: &[u8], places: &mut [u32]) -> Result<(), Refusal>
    ensures { Walked file.now places.new result }
{
    header(file, MOBJ)?;
    let mut r = Reader::new(file);
    let count = read_count(&mut r)?;
    walk(&mut r, count, places)
}

// The number of objects, and the reader behind it, where the stated length lies within the file.
#[tactic(auto, unfolding(crate::specs::Rules::count_of, crate::specs::Laws::count_read))]
fn read_count(r: &mut Reader) -> Result<u16, Refusal>
    ensures same { r.new.buf ≡ r.old.buf }
    ensures read { result ≡ count_read r.old.buf.now }
    ensures here { OnOk result (r.new.pos ≡ 78) }
{
    r.seek(40)?;
    let length = r.read_u32()?;
    let mut end = *r;
    end.skip(length as usize)?;
    r.skip(32)?;
    r.read_u16()
}

// Whether n objects lie within the file; the places of all that were met are put into the table.
// A function of its own also when compiled: there no branch of the loop over alike heads lies across a line of the processor's.
#[inline(never)]
fn walk(r: &mut Reader, n: u16, places: &mut [u32]) -> Result<(), Refusal>
    requires { (length r.old.buf.now ≤ 16777216) × (78 ≤ length r.old.buf.now) × (r.old.pos ≡ 78) }
    ensures { Heads r.old.buf.now n places.new result }
{
    let mut k = 0;
    // Not over 0..n: a turn passes a whole run of alike heads.
    while k < n {
        let head = r.pos;
        put_place(places, k as usize, head as u32);
        skip_object(r)?;
        let commands = be16(r.buf, head + 2);
        let (at, heads) = skip_alike(r.buf, r.pos, commands, k + 1, n, places);
        r.pos = at;
        k = heads;
    }
    Ok(())
}

// Past the objects that have as many commands as the one before them: their size is at hand, so that no read waits for the last one.
// The place that was come to, and how many heads stand before it. Measured: with the reader as a `&mut`, or as a `for` that returns within, it takes 1.4 times as long.
fn skip_alike(
    file: &[u8],
    from: usize,
    commands: u16,
    k: u16,
    n: u16,
    places: &mut [u32],
) -> (usize, u16)
    requires { (length file.now ≤ 16777216) × Walking file.now n places.old from k }
    ensures on { k ≤ result.1 }
    ensures passed { Walking file.now n places.new result.0 result.1 }
{
    let size = 4 + 12 * usize::from(commands);
    let mut at = from;
    let mut i = k;
    while i < n && at + size <= file.len() && be16(file, at + 2) == commands {
        put_place(places, i as usize, at as u32);
        at += size;
        i += 1;
    }
    (at, i)
}

// Past one object: two flag bytes, the number of commands, and the commands.
#[tactic(auto, unfolding(crate::specs::Rules::next))]
fn skip_object(r: &mut Reader) -> Result<(), Refusal>
    ensures same { r.new.buf ≡ r.old.buf }
    ensures answer { result ≡ (seek_of r.old.buf.now r.old.pos (next r.old.buf.now r.old.pos)).0 }
    ensures here { OnOk result (r.new.pos ≡ next r.old.buf.now r.old.pos) }
{
    r.skip(2)?;
    let count = r.read_u16()?;
    r.skip(12 * usize::from(count))
}

// The number of objects of an accepted file.
#[tactic(auto, using(crate::specs::Laws::count_in), unfolding(crate::specs::Rules::count_of))]
pub fn count_of(file: &[u8]) -> u32
    requires { verdict_of file.now ≡ Ok tt }
    ensures { result ≡ count_of file.now }
{
    u32::from(be16(file, 76))
}

// A number into a table, where the table has such a place. Tried: what `get_mut` leaves in the slice doesn't follow.
fn put_place(places: &mut [u32], k: usize, at: u32)
    ensures { places.new ≡ set places.old k at }
{
    // Not `get_mut`: std says nothing of what a slice ends as after it, so `places.new` would be unknown.
    if k < places.len() {
        places[k] = at;
    }
}

// An object file that is read; clauses see its bytes. Only `Drop`, since it is lent.
#[derive(Drop)]
pub struct Objects<'a> {
    file: &'a [u8],
}

impl<'a> Model for Objects<'a> {
    ghost Value = { List ℕ };

    ghost view = { λ s. s.file.now };

    ghost invariant = { λ s. verdict_of s.file.now ≡ Ok tt };
}

impl<'a> Objects<'a> {
    pub fn read(file: &'a [u8]) -> Result<Self, Refusal>
        ensures { result ≡ given (verdict_of file.now) file.now }
    {
        verdict(file)?;
        Ok(Objects::of(file))
    }

    // A file that was judged already.
    pub fn of(file: &'a [u8]) -> Self
        requires { verdict_of file.now ≡ Ok tt }
        ensures { result ≡ file.now }
    {
        Objects { file }
    }

    // The number of objects.
    pub fn count(&self) -> u32
        ensures { result ≡ count_of self.now }
    {
        count_of(self.file)
    }

    // Where the head of object n stands.
    pub fn place(&self, n: u32) -> usize
        requires { n < count_of self.now }
        ensures { result ≡ place self.now n }
    {
        place_of(self.file, n)
    }

    // The head of object n.
    #[tactic(auto, using(crate::specs::Laws::object_in))]
    pub fn object(&self, n: u32) -> Result<MovieObject, Refusal>
        ensures { result ≡ given (on_disc self.now n) (head_of self.now n) }
    {
        if n < self.count() {
            Ok(head_at(self.file, self.place(n)))
        } else {
            Err(Refusal::NotAnEntry)
        }
    }

    // The commands of object n; nothing where there is no such object.
    #[tactic(auto, using(crate::specs::Laws::object_in, crate::specs::Laws::commands_from, crate::specs::Laws::commands_missing))]
    pub fn commands(&self, n: u32) -> &'a [u8]
        ensures part { result.now ≡ commands_of self.now n }
        ensures few { length result.now / 12 ≤ 1398101 }
    {
        if n < self.count() {
            part_at(self.file, self.place(n))
        } else {
            &[]
        }
    }
}

// The same with a table of where its objects stand. The commands outlive the table, since they are a part of the file.
#[derive(Drop)]
pub struct ObjectTable<'a, 'p> {
    file: &'a [u8],
    places: &'p [u32],
}

impl<'a, 'p> Model for ObjectTable<'a, 'p> {
    ghost Value = { List ℕ };

    ghost view = { λ s. s.file.now };

    ghost invariant = { λ s. (verdict_of s.file.now ≡ Ok tt) × Placed s.file.now s.places.now };
}

impl<'a, 'p> ObjectTable<'a, 'p> {
    // Reads a file in one walk, which fills the table.
    pub fn read(file: &'a [u8], places: &'p mut [u32]) -> Result<Self, Refusal>
        requires { count_of file.now ≤ length places.old }
        ensures { result ≡ given (verdict_of file.now) file.now }
    {
        walk_places(file, places)?;
        Ok(ObjectTable::of(file, places))
    }

    // A file that was judged already, and its table.
    pub fn of(file: &'a [u8], places: &'p [u32]) -> Self
        requires { (verdict_of file.now ≡ Ok tt) × Placed file.now places.now }
        ensures { result ≡ file.now }
    {
        ObjectTable { file, places }
    }

    pub fn count(&self) -> u32
        ensures { result ≡ count_of self.now }
    {
        count_of(self.file)
    }

    // The commands of object n; nothing where there is no such object.
    #[tactic(auto, using(crate::specs::Laws::object_in, crate::specs::Laws::commands_from, crate::specs::Laws::commands_missing))]
    pub fn commands(&self, n: u32) -> &'a [u8]
        ensures part { result.now ≡ commands_of self.now n }
        ensures few { length result.now / 12 ≤ 1398101 }
    {
        if n < self.count() {
            part_at(self.file, self.places[n as usize] as usize)
        } else {
            &[]
        }
    }
}

// The commands of the object whose head stands at a place.
pub fn part_at(file: &[u8], at: usize) -> &[u8]
    requires { at + 4 + 12 * be2 file.now (at + 2) ≤ length file.now }
    ensures part { result.now ≡ part_at file.now at }
    ensures few { length result.now / 12 ≤ 1398101 }
{
    let start = at + 4;
    let len = 12 * usize::from(be16(file, at + 2));
    &file[start..start + len]
}

// Where the head of object n stands.
#[tactic(auto, using(crate::specs::Laws::place_zero, crate::specs::Laws::place_next, crate::specs::Laws::object_from, crate::specs::Laws::head_from, crate::specs::Laws::good))]
pub fn place_of(file: &[u8], n: u32) -> usize
    requires { (verdict_of file.now ≡ Ok tt) × (n < count_of file.now) }
    ensures { result ≡ place file.now n }
{
    let mut at = 78;
    for k in 0..n {
        at += 4 + 12 * usize::from(be16(file, at + 2));
    }
    at
}

// What a head at a place says.
#[tactic(auto, unfolding(crate::specs::Rules::head_at))]
pub fn head_at(file: &[u8], at: usize) -> MovieObject
    requires { at + 4 ≤ length file.now }
    ensures { result ≡ head_at file.now at }
{
    let flags = file[at];
    MovieObject {
        resume_intention_flag: flags / 128,
        menu_call_mask: flags / 64 % 2,
        title_search_mask: flags / 32 % 2,
        commands: be16(file, at + 2),
    }
}
