// A command as a line of text (the Rust's `disassemble`), by numbers: from a decoded command, or straight from its bytes.
#![tactic(auto)]

ghost use Rattle.std.specs.Prelude.{◌≡◌, ◌+◌, ◌≤◌, ◌<◌, length};
ghost use Rattle.text.specs.Rules.{Wrote};
ghost use Rattle.nav_list.specs.Rules.{unknown_text, tick_text, status_text, line_of, line_at, listing, list_of};
ghost use Rattle.nav_list.specs.Theorems.{LongestLine};
ghost use Rattle.nav_list.specs.Numbers.{head_by, operand_by, line_by, Lines};

use error::Refusal;
use nav_command::DecodedCommand;
use nav_numbers::{Pair, Place, low_byte};

// No line is longer, also of a command whose sub-group has three digits.
const LONGEST: usize = 104;

// A line by numbers: the operation and two operands.
#[derive(Clone, Copy)]
struct Line {
    head: Place,
    first: Pair,
    second: Pair,
}

fn put_unknown(out: &mut [u8], at: usize, sub: u8, code: u8) -> usize
    ensures { Wrote out.old at (unknown_text sub code) out.new result }
{
    let p = text::put(out, at, b"Unknown(sub_grp=");
    let q = text::put_decimal(out, p, u16::from(sub));
    let r = text::put(out, q, b",sel=0x");
    let s = text::put_hex(out, r, u32::from(code));
    text::put(out, s, b")")
}

fn put_head(out: &mut [u8], at: usize, head: Place) -> usize
    ensures { Wrote out.old at (head_by head.number head.sub head.code) out.new result }
{
    if head.number == 0 {
        put_unknown(out, at, low_byte(head.sub), low_byte(head.code))
    } else {
        nav_names::put_mnemonic(out, at, low_byte(head.number))
    }
}

fn put_tick(out: &mut [u8], at: usize, tick: bool) -> usize
    ensures { Wrote out.old at (tick_text tick) out.new result }
{
    if tick { text::put(out, at, b"'") } else { at }
}

fn put_status(out: &mut [u8], at: usize, index: u16, tick: bool) -> usize
    ensures { Wrote out.old at (status_text index tick) out.new result }
{
    let p = text::put(out, at, b"PSR");
    let q = text::put_decimal(out, p, index);
    let r = put_tick(out, q, tick);
    nav_names::put_name(out, r, index)
}

fn put_operand(out: &mut [u8], at: usize, kind: u32, value: u32) -> usize
    requires { 0 < kind }
    ensures { Wrote out.old at (operand_by kind value) out.new result }
{
    let index = (value % 65536) as u16;
    match kind {
        1 => {
            let p = text::put(out, at, b"0x");
            text::put_hex(out, p, value)
        }
        2 => {
            let p = text::put(out, at, b"r");
            text::put_decimal(out, p, index)
        }
        3 => put_status(out, at, index, false),
        _ => put_status(out, at, index, true),
    }
}

fn put_line(out: &mut [u8], at: usize, line: Line) -> usize
    ensures { Wrote out.old at (line_by line) out.new result }
{
    let Line {
        head,
        first,
        second,
    } = line;
    let p = put_head(out, at, head);
    if first.kind == 0 {
        return p;
    }
    let a = text::put(out, p, b" ");
    let q = put_operand(out, a, first.kind, first.value);
    if second.kind == 0 {
        return q;
    }
    let b = text::put(out, q, b", ");
    put_operand(out, b, second.kind, second.value)
}

// The numbers of a decoded command.
fn line_of(command: DecodedCommand) -> Line
    ensures { Lines (line_of command) result }
{
    let unknown = nav_numbers::unknown_of(command.operation);
    Line {
        head: Place {
            number: nav_numbers::operation_number(command.operation),
            sub: unknown.kind,
            code: unknown.value,
        },
        first: nav_numbers::operand_pair(command.operand1),
        second: nav_numbers::operand_pair(command.operand2),
    }
}

// The numbers straight from the bytes, without a branch: those of random commands can't be predicted.
// That twelve bytes are there is said of each call here, since a listing goes from place to place.
fn line_at(file: &[u8], from: usize) -> Line
    requires { from + 12 ≤ length file.now }
    ensures { Lines (line_at file.now from) result }
{
    let byte = file[from];
    let flags = file[from + 1];
    let compare = file[from + 2];
    let set = file[from + 3];
    let count = byte / 32;
    let head = nav_numbers::operation_at(byte % 32, flags % 16, compare, set);
    let first = nav_numbers::operand_at(count >= 1, flags / 128 == 1, common::be32(file, from + 4));
    let second = nav_numbers::operand_at(
        count >= 2,
        flags / 64 % 2 == 1,
        common::be32(file, from + 8),
    );
    Line {
        head,
        first,
        second,
    }
}

// A line from a place on, where it fits.
fn list_line(line: Line, out: &mut [u8], at: usize) -> Result<usize, Refusal>
    requires { Lines (line_by line) line }
    ensures { listing result out.new ≡ list_of out.old at (line_by line) }
{
    let room = out.len().checked_sub(at).ok_or(Refusal::NoRoom)?;
    if LONGEST <= room {
        return Ok(put_line(out, at, line));
    }
    let mut made = [0; 112];
    let count = put_line(&mut made, 0, line);
    if room < count {
        Err(Refusal::NoRoom)
    } else {
        Ok(text::put(out, at, &made[..count]))
    }
}

// A command's line from a place on, and the place after it.
pub fn list(command: DecodedCommand, out: &mut [u8], at: usize) -> Result<usize, Refusal>
    ensures { listing result out.new ≡ list_of out.old at (line_of command) }
{
    list_line(line_of(command), out, at)
}

// The same of the twelve bytes at a place of a file.
pub fn list_at(file: &[u8], from: usize, out: &mut [u8], at: usize) -> Result<usize, Refusal>
    requires { from + 12 ≤ length file.now }
    ensures { listing result out.new ≡ list_of out.old at (line_at file.now from) }
{
    list_line(line_at(file, from), out, at)
}

// The line of the twelve bytes at a place of a file, for the listing of whole objects.
pub fn put_command(file: &[u8], from: usize, out: &mut [u8], at: usize) -> usize
    requires { from + 12 ≤ length file.now }
    ensures { Wrote out.old at (line_at file.now from) out.new result }
{
    let mut line = [0; 112];
    let count = put_line(&mut line, 0, line_at(file, from));
    text::put(out, at, &line[..count])
}

// How long that line is.
pub fn command_length(file: &[u8], from: usize) -> usize
    requires { from + 12 ≤ length file.now }
    ensures { result ≡ length (line_at file.now from) }
{
    let mut line = [0; 112];
    put_line(&mut line, 0, line_at(file, from))
}

// A line has at most 102 bytes.
pub fn longest_line()
    ensures { LongestLine }
{}
