// Replays the commands that compare/src/bin/answers_commands.rs lists, and prints how many there are and how many differ.
#![tactic(auto)]

ghost use Rattle.std.specs.Prelude.{◌≡◌, ◌+◌, ◌≤◌, length};
ghost use Rattle.replay_commands.specs.Onward.{Onward};

use nav_command::{CommandGroup, DecodedCommand, Operand, Operation};
use replay_list::{print, same};
use std::io;
use std::io::{Input, Print};

// Where the next record starts, and whether this one agrees with the port.
#[derive(Clone, Copy)]
struct Replayed {
    next: usize,
    agreed: bool,
}

fn group_number(group: CommandGroup) -> u8 {
    match group {
        CommandGroup::Branch => 0,
        CommandGroup::Compare => 1,
        CommandGroup::Set => 2,
        CommandGroup::Reserved(bits) => bits,
    }
}

fn flag(set: bool, value: u8) -> u8
    ensures { result ≤ value }
{
    if set { value } else { 0 }
}

// The low byte of a number.
fn put_low(out: &mut [u8], at: usize, number: u32) -> usize {
    text::put_byte(out, at, nav_numbers::low_byte(number))
}

fn put_value(out: &mut [u8], at: usize, value: u32) -> usize {
    text::put(out, at, &value.to_be_bytes())
}

fn put_operand(out: &mut [u8], at: usize, operand: Operand) -> usize {
    let found = nav_numbers::operand_pair(operand);
    let a = put_low(out, at, found.kind);
    put_value(out, a, found.value)
}

fn put_operation(out: &mut [u8], at: usize, operation: Operation) -> usize {
    let unknown = nav_numbers::unknown_of(operation);
    let a = put_low(out, at, nav_numbers::operation_number(operation));
    let b = put_low(out, a, unknown.kind);
    put_low(out, b, unknown.value)
}

fn put_head(out: &mut [u8], command: DecodedCommand) -> usize {
    let a = text::put_byte(out, 0, command.operand_count);
    let b = text::put_byte(out, a, group_number(command.group));
    let c = text::put_byte(out, b, command.sub_group);
    text::put_byte(out, c, flag(command.imm_op1, 1) + flag(command.imm_op2, 2))
}

// All eight fields, as a record has them.
fn put_fields(out: &mut [u8], command: DecodedCommand) {
    let a = put_head(out, command);
    let b = put_operation(out, a, command.operation);
    let c = put_operand(out, b, command.operand1);
    put_operand(out, c, command.operand2);
}

fn fields_agree(fields: &[u8], command: DecodedCommand) -> bool {
    let mut ours = [0u8; 17];
    put_fields(&mut ours, command);
    same(fields, &ours)
}

fn bytes_agree(bytes: &[u8], command: DecodedCommand) -> bool {
    let mut ours = [0u8; 12];
    nav_encode::encode(command, &mut ours).is_ok() && same(bytes, &ours)
}

fn text_agrees(line: &[u8], command: DecodedCommand) -> bool {
    let mut ours = [0u8; 112];
    match nav_list::list(command, &mut ours, 0) {
        Ok(end) if end <= 112 => same(line, &ours[..end]),
        _ => false,
    }
}

// A record without its text: the command, its bytes with the ignored bits cleared, its fields, and the text's length.
fn agrees(head: &[u8], line: &[u8]) -> bool
    requires { length head.now ≡ 42 }
{
    let mut bytes = [0u8; 12];
    bytes.copy_from_slice(&head[..12]);
    let command = DecodedCommand::decode(&bytes);
    let encoded = bytes_agree(&head[12..24], command);
    let decoded = fields_agree(&head[24..41], command);
    let listed = text_agrees(line, command);
    encoded & decoded & listed
}

// The record at a place; nothing where the input ends within its text.
fn replay_one(input: &[u8], at: usize) -> Option<Replayed>
    requires { at + 42 ≤ length input.now }
    ensures { Onward at (length input.now) result }
{
    let from = at + 42;
    let next = from + input[at + 41] as usize;
    if input.len() < next {
        return None;
    }
    let agreed = agrees(&input[at..from], &input[from..next]);
    Some(Replayed { next, agreed })
}

fn tell(rt: &impl Print, line: u32, agreed: bool) -> io::Result<u32> {
    if agreed {
        Ok(0)
    } else {
        print(rt, line, b" is the number of a line that differs\n")?;
        Ok(1)
    }
}

fn replay(rt: &impl Print, input: &[u8]) -> io::Result<()> {
    let mut at = 0;
    let mut lines = 0;
    let mut wrong = 0;
    // A `while`, since each record tells itself how long it is: no `chunks` has that step.
    while 42 <= input.len() - at {
        let Some(replayed) = replay_one(input, at) else {
            return rt.write_all(b"the last line is cut\n");
        };
        lines = word::add(lines, 1);
        wrong = word::add(wrong, tell(rt, lines, replayed.agreed)?);
        at = replayed.next;
    }
    print(rt, lines, b" commands compared\n")?;
    print(rt, wrong, b" differ\n")
}

fn replay_read<R: Input + Print>(rt: &R, input: &mut [u8]) -> io::Result<()> {
    let count = console::read_full(&mut rt.reader(), input)?;
    replay(rt, &input[..count])
}

fn main(rt: HostRuntime) -> io::Result<()> {
    let mut input = [0u8; 300000];
    replay_read(&rt, &mut input)
}
