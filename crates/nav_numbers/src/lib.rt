// One command as thirteen numbers: those of the decoded record, those straight from the bytes, and back.
#![tactic(auto)]

ghost use Rattle.std.specs.Prelude.{◌≡◌, cond, ◌+◌, ◌/◌, ◌%◌, ◌≤◌, ◌<◌};
ghost use Rattle.laws.specs.Firsts.{all};
ghost use Rattle.nav_command.specs.Rules.{number_of, operation_of, group_of, operand_of, command_of};
ghost use Rattle.nav_numbers.specs.Rules.{flag_number, pair, unknown_of, group_pair, bank_kind, operand_pair, command_numbers, group_named, operand_named, sheet_named, operation_named, command_named, same_at, is_command};
ghost use Rattle.nav_numbers.specs.Pieces.{place_of, row_of, row_in, Numbered, row_place};
ghost use Rattle.nav_numbers.specs.Theorems.{small, NumbersNameCommands};

use common::number_at;
use nav_command::{
    BRANCHES, COMPARES, CommandGroup, DecodedCommand, Operand, Operation, RegisterBank, SETS,
    SYSTEMS,
};

// A kind and its value: of a group, an operand, an option.
// A number for the kind, since a command goes to C and back as thirteen numbers (`command_numbers`).
#[derive(Clone, Copy)]
pub struct Pair {
    pub kind: u32,
    pub value: u32,
}

// An operation: its place on the sheet, and the sub-group and code of one that has none. Numbers, since C is handed them.
#[derive(Clone, Copy)]
pub struct Place {
    pub number: u32,
    pub sub: u32,
    pub code: u32,
}

// A row of the sheet: how many operations, and the number of the first.
#[derive(Clone, Copy)]
struct Row {
    pub count: u32,
    pub first: u32,
}

// The decoded record.

pub fn flag_number(flag: bool) -> u32
    ensures { result ≡ flag_number flag }
{
    u32::from(flag)
}

pub fn pair_of(a: u32, b: u32) -> Pair
    ensures { result ≡ pair a b }
{
    Pair { kind: a, value: b }
}

pub fn operation_number(operation: Operation) -> u32
    ensures { result ≡ number_of operation }
{
    match operation {
        Operation::Branch(op) => u32::from(nav_encode::branch_number(op)),
        Operation::Compare(op) => 14 + u32::from(nav_encode::compare_number(op)),
        Operation::Set(op) => 21 + u32::from(nav_encode::set_number(op)),
        Operation::System(op) => 36 + u32::from(nav_encode::system_number(op)),
        Operation::Unknown {
            sub_grp: _,
            selector: _,
        } => 0,
    }
}

pub fn unknown_of(operation: Operation) -> Pair
    ensures { (result ≡ unknown_of operation) × (result.kind < 256) × (result.value < 256) }
{
    match operation {
        Operation::Branch(_) | Operation::Compare(_) | Operation::Set(_) | Operation::System(_) =>
            pair_of(0, 0),
        Operation::Unknown { sub_grp, selector } => pair_of(
            u32::from(sub_grp),
            u32::from(selector),
        ),
    }
}

fn group_pair(group: CommandGroup) -> Pair
    ensures { result ≡ group_pair group }
{
    match group {
        CommandGroup::Branch => pair_of(0, 0),
        CommandGroup::Compare => pair_of(1, 0),
        CommandGroup::Set => pair_of(2, 0),
        CommandGroup::Reserved(bits) => pair_of(3, u32::from(bits)),
    }
}

fn bank_kind(bank: RegisterBank) -> u32
    ensures { result ≡ bank_kind bank }
{
    match bank {
        RegisterBank::Gpr => 2,
        RegisterBank::Psr => 3,
        RegisterBank::PsrSecondary => 4,
    }
}

pub fn operand_pair(operand: Operand) -> Pair
    ensures { (result ≡ operand_pair operand) × small operand }
{
    match operand {
        Operand::Absent => pair_of(0, 0),
        Operand::Immediate(value) => pair_of(1, value),
        Operand::Register { bank, index } => pair_of(bank_kind(bank), u32::from(index)),
    }
}

fn command_numbers(command: DecodedCommand) -> [u32; 13]
    ensures { result ≡ command_numbers command }
{
    let group = group_pair(command.group);
    let unknown = unknown_of(command.operation);
    let a = operand_pair(command.operand1);
    let b = operand_pair(command.operand2);
    [
        u32::from(command.operand_count),
        group.kind,
        group.value,
        u32::from(command.sub_group),
        flag_number(command.imm_op1),
        flag_number(command.imm_op2),
        operation_number(command.operation),
        unknown.kind,
        unknown.value,
        a.kind,
        a.value,
        b.kind,
        b.value,
    ]
}

// The same numbers straight from the bytes, without a branch: those of random commands can't be predicted.

// One of two numbers that are both at hand.
fn either(test: bool, yes: u32, no: u32) -> u32
    ensures { result ≡ cond test yes no }
{
    if test { yes } else { no }
}

fn row_of(count: u32, first: u32) -> Row
    ensures { result ≡ row_of count first }
{
    Row { count, first }
}

// The row that group and sub-group name, the low five bits of the first byte.
// Each has its arm, which makes a table of them, so that no branch depends on the command (docs/BENCHMARKS.md).
fn row_at(low: u8) -> Row
    ensures { Numbered (row_in (group_of (low / 8)) (low % 8)) result }
{
    match low {
        0 => row_of(3, 1),
        1 => row_of(5, 4),
        2 => row_of(6, 9),
        3 => row_of(0, 0),
        4 => row_of(0, 0),
        5 => row_of(0, 0),
        6 => row_of(0, 0),
        7 => row_of(0, 0),
        8 => row_of(7, 15),
        9 => row_of(7, 15),
        10 => row_of(7, 15),
        11 => row_of(7, 15),
        12 => row_of(7, 15),
        13 => row_of(7, 15),
        14 => row_of(7, 15),
        15 => row_of(7, 15),
        16 => row_of(15, 22),
        17 => row_of(11, 37),
        18 => row_of(0, 0),
        19 => row_of(0, 0),
        20 => row_of(0, 0),
        21 => row_of(0, 0),
        22 => row_of(0, 0),
        23 => row_of(0, 0),
        24 => row_of(0, 0),
        25 => row_of(0, 0),
        26 => row_of(0, 0),
        27 => row_of(0, 0),
        28 => row_of(0, 0),
        29 => row_of(0, 0),
        30 => row_of(0, 0),
        31 => row_of(0, 0),
        _ => row_of(0, 0),
    }
}

// The place in its row of a code that counts from 1; 0 has one that no row reaches.
fn from_one(code: u8) -> u32
    ensures { result ≡ (code + 255) % 256 }
{
    (u32::from(code) + 255) % 256
}

// The operation at a place in a row; past its end it is unknown.
#[tactic(auto, using(std::proofs::lemmas::Bool::Decides::nat_tests), unfolding(crate::specs::Pieces::row_place))]
fn placed(at: u32, row: Row, sub: u32, code: u32) -> Place
    requires { row.first + row.count ≤ 48 }
    ensures { result ≡ row_place at row.count row.first sub code }
{
    if at < row.count {
        Place {
            number: row.first + at,
            sub: 0,
            code: 0,
        }
    } else {
        Place {
            number: 0,
            sub,
            code,
        }
    }
}

pub fn operation_at(low: u8, option: u8, compare: u8, set: u8) -> Place
    ensures { result ≡ place_of (operation_of (group_of (low / 8)) (low % 8) option compare set) }
{
    let group = low / 8;
    let sub = u32::from(low % 8);
    let row = row_at(low);
    let other = either(group == 1, u32::from(compare), u32::from(set));
    let code = either(group == 0, u32::from(option), other);
    let after = either(group == 1, from_one(compare), from_one(set));
    let at = either(group == 0, u32::from(option), after);
    placed(at, row, sub, code)
}

fn group_kind(bits: u8) -> u32
    ensures { result ≡ (group_pair (group_of bits)).kind }
{
    either(bits < 3, u32::from(bits), 3)
}

fn group_value(bits: u8) -> u32
    ensures { result ≡ (group_pair (group_of bits)).value }
{
    either(bits < 3, 0, u32::from(bits))
}

fn operand_kind(there: bool, immediate: bool, word: u32) -> u32
    ensures { result ≡ (operand_pair (operand_of there immediate word)).kind }
{
    let status = either(word < 0xC000_0000, 3, 4);
    let register = either(word < 0x8000_0000, 2, status);
    let operand = either(immediate, 1, register);
    either(there, operand, 0)
}

// The value of an operand whose word is 0 if it is absent.
fn operand_value(immediate: bool, word: u32) -> u32
    ensures { result ≡ cond immediate word (word % 4096) }
{
    either(immediate, word, word % 4096)
}

// An operand as it stands on a disc.
pub fn operand_at(there: bool, immediate: bool, word: u32) -> Pair
    ensures { result ≡ operand_pair (operand_of there immediate word) }
{
    let given = either(there, word, 0);
    let kind = operand_kind(there, immediate, given);
    let value = operand_value(immediate, given);
    Pair { kind, value }
}

// The numbers of the command that twelve bytes are.
pub fn numbers_of(bytes: &[u8; 12]) -> [u32; 13]
    ensures { result ≡ command_numbers (command_of bytes.now) }
{
    let head = bytes[0];
    let flags = bytes[1];
    let count = head / 32;
    let bits = head / 8 % 4;
    let immediate1 = flags / 128 == 1;
    let immediate2 = flags / 64 % 2 == 1;
    let operation = operation_at(head % 32, flags % 16, bytes[2], bytes[3]);
    let a = operand_at(count >= 1, immediate1, common::be32(bytes, 4));
    let b = operand_at(count >= 2, immediate2, common::be32(bytes, 8));
    [
        u32::from(count),
        group_kind(bits),
        group_value(bits),
        u32::from(head % 8),
        flag_number(immediate1),
        flag_number(immediate2),
        operation.number,
        operation.sub,
        operation.code,
        a.kind,
        a.value,
        b.kind,
        b.value,
    ]
}

pub fn low_byte(number: u32) -> u8
    ensures { result ≡ number % 256 }
{
    (number % 256) as u8
}

fn low_half(number: u32) -> u16
    ensures { result ≡ number % 65536 }
{
    (number % 65536) as u16
}

#[tactic(auto, using(std::proofs::lemmas::Bool::Decides::nat_tests), unfolding(crate::specs::Rules::group_named))]
fn group_named(kind: u32, bits: u32) -> CommandGroup
    ensures { result ≡ group_named kind bits }
{
    match kind {
        0 => CommandGroup::Branch,
        1 => CommandGroup::Compare,
        2 => CommandGroup::Set,
        _ => CommandGroup::Reserved(low_byte(bits)),
    }
}

fn register(bank: RegisterBank, number: u32) -> Operand
    ensures { result ≡ Operand.Register bank (number % 65536) }
{
    Operand::Register {
        bank,
        index: low_half(number),
    }
}

#[tactic(auto, using(std::proofs::lemmas::Bool::Decides::nat_tests), unfolding(crate::specs::Rules::operand_named))]
fn operand_named(kind: u32, value: u32) -> Operand
    ensures { result ≡ operand_named kind value }
{
    match kind {
        0 => Operand::Absent,
        1 => Operand::Immediate(value),
        2 => register(RegisterBank::Gpr, value),
        3 => register(RegisterBank::Psr, value),
        4 => register(RegisterBank::PsrSecondary, value),
        _ => Operand::Absent,
    }
}

// An operation by its place on the sheet; what has no place there is the other.
fn sheet_named(number: u32, other: Operation) -> Operation
    ensures { result ≡ sheet_named number other }
{
    let at = number as usize;
    match at {
        1..=14 => Operation::Branch(BRANCHES[at - 1]),
        15..=21 => Operation::Compare(COMPARES[at - 15]),
        22..=36 => Operation::Set(SETS[at - 22]),
        37..=47 => Operation::System(SYSTEMS[at - 37]),
        _ => other,
    }
}

fn operation_named(number: u32, sub: u32, code: u32) -> Operation
    ensures { result ≡ operation_named number sub code }
{
    let other = Operation::Unknown {
        sub_grp: low_byte(sub),
        selector: low_byte(code),
    };
    sheet_named(number, other)
}

// The command that numbers name, each cut to its field's width.
pub fn command_named(numbers: &[u32]) -> DecodedCommand
    ensures { result ≡ command_named numbers.now }
{
    let group = group_named(number_at(numbers, 1), number_at(numbers, 2));
    let operation = operation_named(
        number_at(numbers, 6),
        number_at(numbers, 7),
        number_at(numbers, 8),
    );
    let operand1 = operand_named(number_at(numbers, 9), number_at(numbers, 10));
    let operand2 = operand_named(number_at(numbers, 11), number_at(numbers, 12));
    DecodedCommand {
        operand_count: low_byte(number_at(numbers, 0)),
        group,
        sub_group: low_byte(number_at(numbers, 3)),
        imm_op1: number_at(numbers, 4) != 0,
        imm_op2: number_at(numbers, 5) != 0,
        operation,
        operand1,
        operand2,
    }
}

fn same(a: &[u32; 13], b: &[u32]) -> bool
    ensures { result ≡ all (same_at a.now b.now) 13 }
{
    for (k, number) in a.iter().enumerate() {
        if *number != number_at(b, k) {
            return false;
        }
    }
    true
}

// Whether numbers are those of the command that they name.
pub fn is_command(numbers: &[u32]) -> bool
    ensures { result ≡ is_command numbers.now }
{
    let made = command_numbers(command_named(numbers));
    same(&made, numbers)
}

// A command's numbers name it and no other, and what numbers name has those numbers, if they are a command's.
pub fn numbers_name_commands()
    ensures { NumbersNameCommands }
{}
