// An object, and all objects of a file, as text into lent room (the Rust's `MovieObject::disassemble`).
#![tactic(auto)]

ghost use Rattle.std.specs.Prelude.{◌≡◌, List, ℕ, ◌+◌, ◌*◌, ◌≤◌, leb, length, Ok};
ghost use Rattle.laws.specs.Firsts.{blocks};
ghost use Rattle.common.specs.Rules.{be2};
ghost use Rattle.text.specs.Rules.{Wrote};
ghost use Rattle.movie_object.specs.Rules.{next, verdict_of};
ghost use Rattle.nav_list.specs.Rules.{listing, list_of};
ghost use Rattle.movie_object_list.specs.Rules.{count_text, heading_text, prefix_text, line_text, text_at, file_text, list_object, list_file};
ghost use Rattle.movie_object_list.specs.Theorems.{LongestListing};

use common::be16;
use error::Refusal;
use movie_object::MovieObject;

// No heading is longer.
const HEADING: usize = 96;

// No line of an object is longer: its number takes at most 16 bytes, and a command's text 102.
const LONGEST: usize = 118;

// A text that is written from a place on, how long it is, and a bound of that.
trait Text: Copy {
    ghost sound: { Self → Type 0 };

    ghost says: { Self → List ℕ };

    fn longest(self) -> usize
        requires { sound self }
        ensures { length (says self) ≤ result };

    fn measured(self) -> usize
        requires { sound self }
        ensures { result ≡ length (says self) };

    fn put(self, out: &mut [u8], at: usize) -> usize
        requires { sound self }
        ensures { Wrote out.old at (says self) out.new result };
}

// The object whose head stands at a place of a file, and its number there.
#[derive(Clone, Copy)]
struct Object<'a> {
    file: &'a [u8],
    head: usize,
    n: u16,
}

// All objects of an accepted file.
#[derive(Clone, Copy)]
struct Objects<'a> {
    file: &'a [u8],
}

impl<'a> Text for Object<'a> {
    ghost sound = { λ o. o.head + 4 + 12 * be2 o.file.now (o.head + 2) ≤ length o.file.now };

    ghost says = { λ o. text_at o.file.now o.head o.n };

    fn longest(self) -> usize {
        longest_object(self.file, self.head, self.n)
    }

    fn measured(self) -> usize {
        object_length(self.file, self.head, self.n)
    }

    // The heading and the lines.
    fn put(self, out: &mut [u8], at: usize) -> usize {
        let object = movie_object::head_at(self.file, self.head);
        let commands = movie_object::part_at(self.file, self.head);
        let at = put_heading(out, at, self.n, object);
        put_lines(commands, object.commands, out, at)
    }
}

impl<'a> Text for Objects<'a> {
    ghost sound = { λ o. verdict_of o.file.now ≡ Ok tt };

    ghost says = { λ o. file_text o.file.now };

    fn longest(self) -> usize {
        longest_file(self.file)
    }

    fn measured(self) -> usize {
        file_length(self.file)
    }

    // One walk of the heads: each object's text and a line end.
    fn put(self, out: &mut [u8], at: usize) -> usize {
        put_objects(self.file, out, at)
    }
}

// The text of object n from a place on, and the place after it.
#[tactic(auto, using(movie_object::specs::Laws::left_with, movie_object::specs::Laws::object_from, crate::specs::Laws::text_of, crate::proofs::Lengths::count_below), unfolding(crate::specs::Rules::list_object))]
pub fn list(file: &[u8], n: u32, out: &mut [u8], at: usize) -> Result<usize, Refusal>
    ensures { listing result out.new ≡ list_object file.now n out.old at }
{
    let objects = movie_object::Objects::read(file)?;
    if n < objects.count() {
        let head = objects.place(n);
        let object = Object {
            file,
            head,
            n: n as u16,
        };
        list_text(object, out, at)
    } else {
        Err(Refusal::NotAnEntry)
    }
}

// The text of the whole file from a place on, and the place after it.
#[tactic(auto, using(movie_object::specs::Laws::left_with), unfolding(crate::specs::Rules::list_file))]
pub fn list_all(file: &[u8], out: &mut [u8], at: usize) -> Result<usize, Refusal>
    ensures { listing result out.new ≡ list_file file.now out.old at }
{
    movie_object::verdict(file)?;
    let objects = Objects { file };
    list_text(objects, out, at)
}

// A text from a place on, where it fits, and the place after it.
fn list_text<T: Text>(text: T, out: &mut [u8], at: usize) -> Result<usize, Refusal>
    requires { T.sound text }
    ensures { listing result out.new ≡ list_of out.old at (T.says text) }
{
    if fits(text, out.len(), at) {
        Ok(text.put(out, at))
    } else {
        Err(Refusal::NoRoom)
    }
}

// Whether a text lies within the room; it is measured only where its bound does not.
fn fits<T: Text>(text: T, room: usize, at: usize) -> bool
    requires { T.sound text }
    ensures { result ≡ leb (at + length (T.says text)) room }
{
    at <= room && (text.longest() <= room - at || text.measured() <= room - at)
}

#[tactic(auto, using(crate::proofs::Lengths::object_short))]
fn longest_object(file: &[u8], head: usize, n: u16) -> usize
    requires { head + 4 + 12 * be2 file.now (head + 2) ≤ length file.now }
    ensures { length (text_at file.now head n) ≤ result }
{
    HEADING + LONGEST * (be16(file, head + 2) as usize)
}

// The bound of `longest_listing`.
#[tactic(auto, using(crate::proofs::Lengths::file_short, movie_object::specs::Laws::good))]
fn longest_file(file: &[u8]) -> usize
    requires { verdict_of file.now ≡ Ok tt }
    ensures { length (file_text file.now) ≤ result }
{
    57 * (movie_object::count_of(file) as usize) + 10 * file.len()
}

// How long each text is.

fn file_length(file: &[u8]) -> usize
    requires { verdict_of file.now ≡ Ok tt }
    ensures { result ≡ length (file_text file.now) }
{
    let mut sum = 0;
    let mut head = 78;
    for n in 0..movie_object::count_of(file) {
        sum += object_length(file, head, n as u16) + 1;
        head = next_head(file, head);
    }
    sum
}

fn object_length(file: &[u8], head: usize, n: u16) -> usize
    requires { head + 4 + 12 * be2 file.now (head + 2) ≤ length file.now }
    ensures { result ≡ length (text_at file.now head n) }
{
    let object = movie_object::head_at(file, head);
    let commands = movie_object::part_at(file, head);
    heading_length(n, object) + lines_length(commands, object.commands)
}

fn heading_length(n: u16, object: MovieObject) -> usize
    ensures { result ≡ length (heading_text n object) }
{
    put_heading(&mut [0; HEADING], 0, n, object)
}

fn lines_length(commands: &[u8], lines: u16) -> usize
    requires { 12 * lines ≤ length commands.now }
    ensures { result ≡ length (blocks (line_text commands.now) lines) }
{
    let mut sum = 0;
    for i in 0..lines {
        sum += prefix_length(i) + nav_list::command_length(commands, 12 * (i as usize));
    }
    sum
}

fn prefix_length(i: u16) -> usize
    ensures { result ≡ length (prefix_text i) }
{
    put_prefix(&mut [0; 16], 0, i)
}

// One walk of the heads: each object's text and a line end.
fn put_objects(file: &[u8], out: &mut [u8], at: usize) -> usize
    requires { verdict_of file.now ≡ Ok tt }
    ensures { Wrote out.old at (file_text file.now) out.new result }
{
    let mut p = at;
    let mut head = 78;
    for n in 0..movie_object::count_of(file) {
        let object = Object {
            file,
            head,
            n: n as u16,
        };
        p = object.put(out, p);
        p = text::put_byte(out, p, b'\n');
        head = next_head(file, head);
    }
    p
}

// Where the head after the one at a place stands.
#[tactic(auto, unfolding(movie_object::specs::Rules::next))]
fn next_head(file: &[u8], head: usize) -> usize
    requires { head + 4 + 12 * be2 file.now (head + 2) ≤ length file.now }
    ensures { result ≡ next file.now head }
{
    head + 4 + 12 * (be16(file, head + 2) as usize)
}

// The first line: the object's number, its flags and its number of commands.
fn put_heading(out: &mut [u8], at: usize, n: u16, object: MovieObject) -> usize
    ensures { Wrote out.old at (heading_text n object) out.new result }
{
    let at = text::put(out, at, b"MovieObject[");
    let at = text::put_decimal(out, at, n);
    let at = text::put(out, at, b"] (resume=");
    let at = text::put_decimal(out, at, u16::from(object.resume_intention_flag));
    let at = text::put(out, at, b", menu_mask=");
    let at = text::put_decimal(out, at, u16::from(object.menu_call_mask));
    let at = text::put(out, at, b", title_mask=");
    let at = text::put_decimal(out, at, u16::from(object.title_search_mask));
    let at = text::put(out, at, b", ");
    put_count(out, at, object.commands)
}

fn put_count(out: &mut [u8], at: usize, count: u16) -> usize
    ensures { Wrote out.old at (count_text count) out.new result }
{
    let at = text::put_decimal(out, at, count);
    if count == 1 {
        text::put(out, at, b" cmd)")
    } else {
        text::put(out, at, b" cmds)")
    }
}

// A line for each command.
fn put_lines(commands: &[u8], lines: u16, out: &mut [u8], at: usize) -> usize
    requires { 12 * lines ≤ length commands.now }
    ensures { Wrote out.old at (blocks (line_text commands.now) lines) out.new result }
{
    let mut p = at;
    for i in 0..lines {
        p = put_prefix(out, p, i);
        p = nav_list::put_command(commands, 12 * (i as usize), out, p);
    }
    p
}

// The command's number, right-aligned in three columns.
fn put_prefix(out: &mut [u8], at: usize, i: u16) -> usize
    ensures { Wrote out.old at (prefix_text i) out.new result }
{
    let at = text::put(out, at, b"\n  ");
    let at = text::put_right(out, at, i, 3);
    text::put(out, at, b": ")
}

// The text of a file has at most 57 bytes for each object and 10 for each byte of the file.
#[tactic(auto, using(crate::proofs::Lengths::file_short))]
pub fn longest_listing()
    ensures { LongestListing }
{}
