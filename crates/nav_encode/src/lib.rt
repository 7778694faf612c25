// The twelve bytes of a command: the encoder, which document 01 adds to the Rust's nav_command.rs.
#![tactic(auto)]

ghost use Rattle.std.specs.Prelude.{◌≡◌, ◌<◌};
ghost use Rattle.nav_command.specs.Rules.{branch_number, compare_number, set_number, system_number};
ghost use Rattle.nav_encode.specs.Rules.{branch_code, code_of, bit_of, bits_of, option_of, compare_byte, set_byte, word_of, bytes_of, encoding, encode_of, bank_bits};
ghost use Rattle.nav_encode.specs.Theorems.{DecodesBack, EncodesBack, RefusedIfNone, IgnoredBits};

use error::Refusal;
use nav_command::{
    BranchOp, CommandGroup, CompareOp, DecodedCommand, Operand, Operation, RegisterBank, SetOp,
    SystemOp,
};

// The place of an operation on its part of the code sheet, whose numbers these are; the listing counts by it too.
pub fn branch_number(op: BranchOp) -> u8
    ensures { (result ≡ branch_number op) × (0 < result) × (result < 15) }
{
    match op {
        BranchOp::Nop => 1,
        BranchOp::GoTo => 2,
        BranchOp::Break => 3,
        BranchOp::JumpObject => 4,
        BranchOp::JumpTitle => 5,
        BranchOp::CallObject => 6,
        BranchOp::CallTitle => 7,
        BranchOp::Resume => 8,
        BranchOp::PlayPL => 9,
        BranchOp::PlayPLatPlayItem => 10,
        BranchOp::PlayPLatMark => 11,
        BranchOp::TerminatePL => 12,
        BranchOp::LinkPI => 13,
        BranchOp::LinkMK => 14,
    }
}

pub fn compare_number(op: CompareOp) -> u8
    ensures { (result ≡ compare_number op) × (result < 8) }
{
    match op {
        CompareOp::Bc => 1,
        CompareOp::Eq => 2,
        CompareOp::Ne => 3,
        CompareOp::Ge => 4,
        CompareOp::Gt => 5,
        CompareOp::Le => 6,
        CompareOp::Lt => 7,
    }
}

pub fn set_number(op: SetOp) -> u8
    ensures { (result ≡ set_number op) × (result < 16) }
{
    match op {
        SetOp::Move => 1,
        SetOp::Swap => 2,
        SetOp::Add => 3,
        SetOp::Sub => 4,
        SetOp::Mul => 5,
        SetOp::Div => 6,
        SetOp::Mod => 7,
        SetOp::Rnd => 8,
        SetOp::And => 9,
        SetOp::Or => 10,
        SetOp::Xor => 11,
        SetOp::BitSet => 12,
        SetOp::BitClear => 13,
        SetOp::ShiftLeft => 14,
        SetOp::ShiftRight => 15,
    }
}

pub fn system_number(op: SystemOp) -> u8
    ensures { (result ≡ system_number op) × (result < 12) }
{
    match op {
        SystemOp::SetStream => 1,
        SystemOp::SetNvTimer => 2,
        SystemOp::SetButtonPage => 3,
        SystemOp::EnableButton => 4,
        SystemOp::DisableButton => 5,
        SystemOp::SetSecondaryStream => 6,
        SystemOp::PopUpOff => 7,
        SystemOp::StillOn => 8,
        SystemOp::StillOff => 9,
        SystemOp::SetOutputMode => 10,
        SystemOp::SetStreamSS => 11,
    }
}

fn bank_bits(bank: RegisterBank) -> u8
    ensures { (result ≡ bank_bits bank) × (result < 4) }
{
    match bank {
        RegisterBank::Gpr => 0,
        RegisterBank::Psr => 2,
        RegisterBank::PsrSecondary => 3,
    }
}

// The place of an operation in its row of the sheet.
fn branch_code(op: BranchOp) -> u8
    ensures { (result ≡ branch_code op) × (result < 6) }
{
    match op {
        BranchOp::Nop => 0,
        BranchOp::GoTo => 1,
        BranchOp::Break => 2,
        BranchOp::JumpObject => 0,
        BranchOp::JumpTitle => 1,
        BranchOp::CallObject => 2,
        BranchOp::CallTitle => 3,
        BranchOp::Resume => 4,
        BranchOp::PlayPL => 0,
        BranchOp::PlayPLatPlayItem => 1,
        BranchOp::PlayPLatMark => 2,
        BranchOp::TerminatePL => 3,
        BranchOp::LinkPI => 4,
        BranchOp::LinkMK => 5,
    }
}

fn code_of(op: Operation) -> u8
    ensures { result ≡ code_of op }
{
    match op {
        Operation::Branch(branch) => branch_code(branch),
        Operation::Compare(compare) => compare_number(compare),
        Operation::Set(set) => set_number(set),
        Operation::System(system) => system_number(system),
        Operation::Unknown {
            sub_grp: _,
            selector,
        } => selector,
    }
}

fn bit_of(flag: bool) -> u8
    ensures { (result ≡ bit_of flag) × (result < 2) }
{
    u8::from(flag)
}

fn bits_of(group: CommandGroup) -> u8
    ensures { (result ≡ bits_of group) × (result < 4) }
{
    match group {
        CommandGroup::Branch => 0,
        CommandGroup::Compare => 1,
        CommandGroup::Set => 2,
        CommandGroup::Reserved(_) => 3,
    }
}

// The code at its group's place, and 0 at the other two.
fn option_of(group: CommandGroup, code: u8) -> u8
    ensures { (result ≡ option_of group code) × (result < 16) }
{
    match group {
        CommandGroup::Branch => code % 16,
        CommandGroup::Compare | CommandGroup::Set | CommandGroup::Reserved(_) => 0,
    }
}

fn compare_byte(group: CommandGroup, code: u8) -> u8
    ensures { result ≡ compare_byte group code }
{
    match group {
        CommandGroup::Compare => code,
        CommandGroup::Branch | CommandGroup::Set | CommandGroup::Reserved(_) => 0,
    }
}

fn set_byte(group: CommandGroup, code: u8) -> u8
    ensures { result ≡ set_byte group code }
{
    match group {
        CommandGroup::Branch | CommandGroup::Compare => 0,
        CommandGroup::Set | CommandGroup::Reserved(_) => code,
    }
}

fn word_of(operand: Operand) -> u32
    ensures { result ≡ word_of operand }
{
    match operand {
        Operand::Absent => 0,
        Operand::Immediate(value) => value,
        Operand::Register { bank, index } => u32::from(bank_bits(bank)) * 0x4000_0000
            + u32::from(index % 4096),
    }
}

// A command's fields, each at its place.
fn bytes_of(command: DecodedCommand) -> [u8; 12]
    ensures { result ≡ bytes_of command }
{
    let group = command.group;
    let code = code_of(command.operation);
    let head = command.operand_count % 8 * 32 + bits_of(group) * 8 + command.sub_group % 8;
    let flags = bit_of(command.imm_op1) * 128
        + bit_of(command.imm_op2) * 64
        + option_of(group, code);
    let compare = compare_byte(group, code);
    let set = set_byte(group, code);
    let [a0, a1, a2, a3] = word_of(command.operand1).to_be_bytes();
    let [b0, b1, b2, b3] = word_of(command.operand2).to_be_bytes();
    [head, flags, compare, set, a0, a1, a2, a3, b0, b1, b2, b3]
}

// Twelve bytes that decode to the command, at the start of the room. What was made is decoded again and compared.
pub fn encode(command: DecodedCommand, out: &mut [u8]) -> Result<(), Refusal>
    ensures { encoding result out.new ≡ encode_of command out.old }
{
    let bytes = bytes_of(command);
    let decodes = DecodedCommand::decode(&bytes) == command;
    if !decodes {
        Err(Refusal::NotEncodable)
    } else if out.len() < 12 {
        Err(Refusal::NoRoom)
    } else {
        out[..12].copy_from_slice(&bytes);
        Ok(())
    }
}

// Decoding what was encoded gives the command back.
pub fn decodes_back()
    ensures { DecodesBack }
{}

// Encoding what was decoded gives the same bytes with the ignored bits cleared.
pub fn encodes_back()
    ensures { EncodesBack }
{}

// Refused as not encodable exactly if no twelve bytes decode to the command.
pub fn refused_if_none()
    ensures { RefusedIfNone }
{}

// The ignored bits are exactly those that decoding does not tell apart.
pub fn ignored_bits()
    ensures { IgnoredBits }
{}
