// What the programs share: files and numbers from the command line, and the words for refusals.
#![tactic(auto)]

ghost use Rattle.std.specs.Prelude.{◌≡◌, ◌≤◌, length, drop};
ghost use Rattle.std.specs.Io.{ReadsAtMost};
ghost use Rattle.console.specs.Rules.{begins_with, number_of, no_number, goes_on_at, number_in};

use error::Refusal;
use std::env::{Env, FillError};
use std::fmt::InlineText;
use std::fs::File;
use std::io::{Eprint, Print, Read};
use std::rt::Files;
use std::{fmt, io};

pub fn say(rt: &impl Print, words: &[u8]) -> io::Result<()> {
    rt.write_all(words)
}

// The first n bytes of a room that has so many.
pub fn say_first(rt: &impl Print, n: usize, room: &[u8]) -> io::Result<()> {
    if n <= room.len() {
        say(rt, &room[..n])?;
    }
    Ok(())
}

// A refusal as the programs print it: its number and its words.
#[derive(Clone, Copy)]
pub struct Refused(pub Refusal);

impl fmt::Display for Refused {
    fn fmt<W: fmt::Write>(&self, f: &mut fmt::Formatter<W>) -> fmt::Result {
        let words = match self.0 {
            Refusal::TooLong => "the file is too long",
            Refusal::BadHeader => "the file is too short, or of another kind",
            Refusal::BadBody => "the file ends before what it states",
            Refusal::BadEntry => "an entry of unknown type, or a name that is not UTF-8",
            Refusal::NoRoom => "no room for the output",
            Refusal::BadBuffer => "a buffer of a wrong length",
            Refusal::BadBudget => "a budget over its limit",
            Refusal::BadSession => "a session that does not fit the disc",
            Refusal::NotEncodable => "what cannot be encoded",
            Refusal::NotAnEntry => "no such entry",
        };
        let number = self.0.number();
        write!(f, "refused {number}: {words}")
    }
}

// How many words the program was started with, its own name among them.
pub fn word_count(rt: &impl Env) -> usize {
    for i in 0..usize::MAX {
        if let Err(FillError::NotPresent) = rt.arg(i, &mut []) {
            return i;
        }
    }
    usize::MAX
}

// Reads one word of the command line to the start of the room. One that is missing or longer than the room counts as empty.
pub fn read_word(rt: &impl Env, which: usize, room: &mut [u8]) -> usize
    ensures { result ≤ length room.new }
{
    rt.arg(which, room).unwrap_or(0)
}

// Reads to the start of the room until it is full or the input ends.
// A `while`, since each read says itself how far it came.
pub fn read_full(from: &mut impl Read, room: &mut [u8]) -> io::Result<usize>
    ensures counted { ReadsAtMost result room.new }
    ensures kept { length room.new ≡ length room.old }
{
    let mut done = 0;
    while done < room.len() {
        let n = from.read(&mut room[done..])?;
        if n == 0 {
            break;
        }
        done += n;
    }
    Ok(done)
}

// A name and the system's words for why it was not opened, without their number.
fn say_unopened(rt: &impl Eprint, name: &str, error: io::Error) -> io::Result<()> {
    let text = InlineText::<128>::of(error);
    let text = text.as_str();
    let words = text
        .split_once(" (os error ")
        .map_or(text, |(words, _)| words);
    eprintln!(rt; "{name}: {words}")
}

// Opens the file of a name for reading, or says why it cannot: so what fails is matched here, and not handed on by `?`.
fn open_named<R: Files + Eprint>(rt: &R, name: &[u8]) -> io::Result<Option<R::File>> {
    let Ok(path) = str::from_utf8(name) else {
        eprintln!(rt; "a file's name that is not UTF-8")?;
        return Ok(None);
    };
    match File::open(rt, path) {
        Ok(file) => Ok(Some(file)),
        Err(error) => {
            say_unopened(rt, path, error)?;
            Ok(None)
        }
    }
}

// Reads the file that an argument names to the start of the room. What leaves no byte of the room is not read: why is said.
// An error is that of a read or of a write, and leaves of the room only its length.
pub fn read_file<R: Env + Files + Print + Eprint>(
    rt: &R,
    which: usize,
    room: &mut [u8],
) -> io::Result<usize>
    ensures counted { ReadsAtMost result room.new }
    ensures kept { length room.new ≡ length room.old }
{
    let mut name = [0u8; 4096];
    let length = read_word(rt, which, &mut name);
    let Some(mut file) = open_named(rt, &name[..length])? else {
        return Ok(room.len());
    };
    let n = read_full(&mut file, room)?;
    if n == room.len() {
        say(rt, &name[..length])?;
        say(rt, b": longer than this program reads\n")?;
    }
    Ok(n)
}

// A decimal number in a word: what it is, if one that fits 32 bits stands there, and where it ends.
#[derive(Clone, Copy)]
pub struct Decimal {
    pub value: Option<u32>,
    pub end: usize,
}

fn number(value: u32, end: usize) -> Decimal
    ensures { result ≡ number_of value end }
{
    Decimal {
        value: Some(value),
        end,
    }
}

fn no_number(end: usize) -> Decimal
    ensures { result ≡ no_number end }
{
    Decimal { value: None, end }
}

// What the digits from a place on say.
fn digits_from(word: &[u8], at: usize) -> Decimal
    ensures { result ≡ goes_on_at 0 at (drop at word.now) }
{
    let mut value = 0;
    for i in at..word.len() {
        let b = word[i];
        if !b.is_ascii_digit() {
            return number(value, i);
        }
        let more = u64::from(value) * 10 + u64::from(b - b'0');
        match u32::try_from(more) {
            Ok(next) => value = next,
            Err(_) => return no_number(i),
        }
    }
    number(value, at.max(word.len()))
}

// The number from a place of a word on.
pub fn number_in(word: &[u8], at: usize) -> Decimal
    ensures { result ≡ number_in word.now at }
{
    if word.get(at).is_some_and(|b| b.is_ascii_digit()) {
        digits_from(word, at)
    } else {
        no_number(at)
    }
}

// Whether a word begins with another.
#[tactic(auto, using(crate::specs::Laws::begins))]
pub fn begins(word: &[u8], with: &[u8]) -> bool
    ensures { result ≡ begins_with word.now with.now }
{
    word.starts_with(with)
}
