// Reads one MovieObject.bdmv from standard input and prints each object's listing and a line end, or why it is refused.
#![tactic(auto)]

ghost use Rattle.std.specs.Prelude.{◌≡◌, ◌*◌, ◌≤◌, length};
ghost use Rattle.nav_list.specs.Rules.{listing};
ghost use Rattle.list.specs.Rules.{shown_of};

use error::Refusal;
use std::io;
use std::io::{Input, Print};

// This program takes at most so many bytes.
const LIMIT: usize = 65536;

fn main(rt: HostRuntime) -> io::Result<()> {
    let mut bytes = [0u8; 65537];
    let n = console::read_full(&mut rt.reader(), &mut bytes)?;
    if LIMIT < n {
        return print_refused(&rt, Refusal::TooLong);
    }
    print_file(&rt, &bytes[..n])
}

fn print_refused(rt: &impl Print, why: Refusal) -> io::Result<()> {
    let number = why.number();
    println!(rt; "refused {number}")
}

// With room for 25 bytes of text for each byte that the program takes.
fn print_file(rt: &impl Print, file: &[u8]) -> io::Result<()>
    requires { length file.now ≤ 65536 }
{
    let mut room = [0u8; 1638400];
    print_listing(rt, file, &mut room)
}

fn print_listing(rt: &impl Print, file: &[u8], room: &mut [u8]) -> io::Result<()>
    requires { 25 * length file.now ≤ length room.old }
{
    match list_file(file, room) {
        Ok(end) => console::say_first(rt, end, room),
        Err(why) => print_refused(rt, why),
    }
}

// The whole text, which has at most 57 bytes for each object and 10 for each byte of the file.
#[tactic(auto, using(crate::proofs::Laws::shown))]
fn list_file(file: &[u8], room: &mut [u8]) -> Result<usize, Refusal>
    requires { 25 * length file.now ≤ length room.old }
    ensures { listing result room.new ≡ shown_of file.now room.old }
{
    movie_object_list::list_all(file, room, 0)
}
