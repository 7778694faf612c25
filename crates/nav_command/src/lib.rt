// One navigation command: its parts, and how twelve bytes are read as one.
#![tactic(auto)]

ghost use Rattle.std.specs.Prelude.{◌≡◌, map};
ghost use Rattle.nav_command.specs.Rules.{from_zero, branch_of, compare_of, set_of, operation_of, group_of, bank_of, operand_of, command_of};
ghost use Rattle.nav_command.specs.Pieces.{code_in};
ghost use Rattle.nav_command.specs.declared.Operation.TheVariants.{Branch};

#[derive(Clone, Copy, Debug, PartialEq, Eq)]
pub enum CommandGroup {
    Branch,
    Compare,
    Set,
    Reserved(u8),
}

#[derive(Clone, Copy, Debug, PartialEq, Eq)]
pub enum BranchOp {
    Nop,
    GoTo,
    Break,
    JumpObject,
    JumpTitle,
    CallObject,
    CallTitle,
    Resume,
    PlayPL,
    PlayPLatPlayItem,
    PlayPLatMark,
    TerminatePL,
    LinkPI,
    LinkMK,
}

#[derive(Clone, Copy, Debug, PartialEq, Eq)]
pub enum CompareOp {
    Bc,
    Eq,
    Ne,
    Ge,
    Gt,
    Le,
    Lt,
}

#[derive(Clone, Copy, Debug, PartialEq, Eq)]
pub enum SetOp {
    Move,
    Swap,
    Add,
    Sub,
    Mul,
    Div,
    Mod,
    Rnd,
    And,
    Or,
    Xor,
    BitSet,
    BitClear,
    ShiftLeft,
    ShiftRight,
}

#[derive(Clone, Copy, Debug, PartialEq, Eq)]
pub enum SystemOp {
    SetStream,
    SetNvTimer,
    SetButtonPage,
    EnableButton,
    DisableButton,
    SetSecondaryStream,
    PopUpOff,
    StillOn,
    StillOff,
    SetOutputMode,
    SetStreamSS,
}

// What a command does. A code without a name is kept beside its sub-group.
#[derive(Clone, Copy, Debug, PartialEq, Eq)]
pub enum Operation {
    Branch(BranchOp),
    Compare(CompareOp),
    Set(SetOp),
    System(SystemOp),
    Unknown { sub_grp: u8, selector: u8 },
}

#[derive(Clone, Copy, Debug, PartialEq, Eq)]
pub enum RegisterBank {
    Gpr,
    Psr,
    PsrSecondary,
}

#[derive(Clone, Copy, Debug, PartialEq, Eq)]
pub enum Operand {
    Absent,
    Immediate(u32),
    Register { bank: RegisterBank, index: u16 },
}

#[derive(Clone, Copy, Debug, PartialEq, Eq)]
pub struct DecodedCommand {
    pub operand_count: u8,
    pub group: CommandGroup,
    pub sub_group: u8,
    pub imm_op1: bool,
    pub imm_op2: bool,
    pub operation: Operation,
    pub operand1: Operand,
    pub operand2: Operand,
}

// Branch options of sub-group 0, of 1 from the fourth on, and of 2 from the ninth on, each from 0.
pub const BRANCHES: [BranchOp; 14] = [
    BranchOp::Nop,
    BranchOp::GoTo,
    BranchOp::Break,
    BranchOp::JumpObject,
    BranchOp::JumpTitle,
    BranchOp::CallObject,
    BranchOp::CallTitle,
    BranchOp::Resume,
    BranchOp::PlayPL,
    BranchOp::PlayPLatPlayItem,
    BranchOp::PlayPLatMark,
    BranchOp::TerminatePL,
    BranchOp::LinkPI,
    BranchOp::LinkMK,
];

// Compare codes, from 1.
pub const COMPARES: [CompareOp; 7] = [
    CompareOp::Bc,
    CompareOp::Eq,
    CompareOp::Ne,
    CompareOp::Ge,
    CompareOp::Gt,
    CompareOp::Le,
    CompareOp::Lt,
];

// Set codes of sub-groups 0 and 1, from 1.
pub const SETS: [SetOp; 15] = [
    SetOp::Move,
    SetOp::Swap,
    SetOp::Add,
    SetOp::Sub,
    SetOp::Mul,
    SetOp::Div,
    SetOp::Mod,
    SetOp::Rnd,
    SetOp::And,
    SetOp::Or,
    SetOp::Xor,
    SetOp::BitSet,
    SetOp::BitClear,
    SetOp::ShiftLeft,
    SetOp::ShiftRight,
];

pub const SYSTEMS: [SystemOp; 11] = [
    SystemOp::SetStream,
    SystemOp::SetNvTimer,
    SystemOp::SetButtonPage,
    SystemOp::EnableButton,
    SystemOp::DisableButton,
    SystemOp::SetSecondaryStream,
    SystemOp::PopUpOff,
    SystemOp::StillOn,
    SystemOp::StillOff,
    SystemOp::SetOutputMode,
    SystemOp::SetStreamSS,
];

fn unknown(sub: u8, code: u8) -> Operation
    ensures { result ≡ Operation.Unknown sub code }
{
    Operation::Unknown {
        sub_grp: sub,
        selector: code,
    }
}

// What a row of the sheet has for a code that counts from 1.
fn from_one<T: Copy>(row: &[T], code: u8) -> Option<T>
    ensures { result ≡ code_in row.now code }
{
    let at = code.checked_sub(1)?;
    row.get(usize::from(at)).copied()
}

// The operation of a branch option, by the row of its sub-group.
fn branch_in(row: &[BranchOp], sub: u8, option: u8) -> Operation
    ensures { result ≡ from_zero (map Branch row.now) sub option }
{
    row.get(usize::from(option))
        .copied()
        .map_or(unknown(sub, option), Operation::Branch)
}

#[tactic(auto, unfolding(crate::specs::Rules::branch_of))]
fn branch_of(sub: u8, option: u8) -> Operation
    ensures { result ≡ branch_of sub option }
{
    match sub {
        0 => branch_in(&BRANCHES[..3], sub, option),
        1 => branch_in(&BRANCHES[3..8], sub, option),
        2 => branch_in(&BRANCHES[8..], sub, option),
        _ => unknown(sub, option),
    }
}

#[tactic(auto, using(crate::proofs::Laws::at_code), unfolding(crate::specs::Rules::compare_of))]
fn compare_of(sub: u8, code: u8) -> Operation
    ensures { result ≡ compare_of sub code }
{
    from_one(&COMPARES, code).map_or(unknown(sub, code), Operation::Compare)
}

#[tactic(auto, using(crate::proofs::Laws::at_code), unfolding(crate::specs::Rules::set_of))]
fn register_of(code: u8) -> Operation
    ensures { result ≡ set_of 0 code }
{
    from_one(&SETS, code).map_or(unknown(0, code), Operation::Set)
}

// The operation of a Set code of sub-group 1.
#[tactic(auto, using(crate::proofs::Laws::at_code), unfolding(crate::specs::Rules::set_of))]
pub fn system_of(code: u8) -> Operation
    ensures { result ≡ set_of 1 code }
{
    from_one(&SYSTEMS, code).map_or(unknown(1, code), Operation::System)
}

#[tactic(auto, unfolding(crate::specs::Rules::set_of))]
fn set_of(sub: u8, code: u8) -> Operation
    ensures { result ≡ set_of sub code }
{
    match sub {
        0 => register_of(code),
        1 => system_of(code),
        _ => unknown(sub, code),
    }
}

fn operation_of(group: CommandGroup, sub: u8, option: u8, compare: u8, set: u8) -> Operation
    ensures { result ≡ operation_of group sub option compare set }
{
    match group {
        CommandGroup::Branch => branch_of(sub, option),
        CommandGroup::Compare => compare_of(sub, compare),
        CommandGroup::Set => set_of(sub, set),
        CommandGroup::Reserved(_) => unknown(sub, set),
    }
}

impl CommandGroup {
    fn from_bits(bits: u8) -> Self
        ensures { result ≡ group_of bits }
    {
        match bits {
            0 => CommandGroup::Branch,
            1 => CommandGroup::Compare,
            2 => CommandGroup::Set,
            _ => CommandGroup::Reserved(bits),
        }
    }
}

impl RegisterBank {
    // The bank that the upper bits of an operand word name.
    fn from_word(word: u32) -> Self
        ensures { result ≡ bank_of word }
    {
        if word < 0x8000_0000 {
            RegisterBank::Gpr
        } else if word < 0xC000_0000 {
            RegisterBank::Psr
        } else {
            RegisterBank::PsrSecondary
        }
    }
}

impl Operand {
    // An operand word that stands if `there`, and is a number of its own if `immediate`.
    #[tactic(auto, unfolding(crate::specs::Rules::operand_of))]
    fn decode(there: bool, immediate: bool, word: u32) -> Self
        ensures { result ≡ operand_of there immediate word }
    {
        if !there {
            Operand::Absent
        } else if immediate {
            Operand::Immediate(word)
        } else {
            Operand::Register {
                bank: RegisterBank::from_word(word),
                index: (word % 4096) as u16,
            }
        }
    }
}

impl DecodedCommand {
    // Never fails: a command without a name decodes as unknown.
    pub fn decode(bytes: &[u8; 12]) -> Self
        ensures { result ≡ command_of bytes.now }
    {
        let head = bytes[0];
        let flags = bytes[1];
        let compare = bytes[2];
        let set = bytes[3];
        let count = head / 32;
        let sub = head % 8;
        let imm1 = flags / 128 == 1;
        let imm2 = flags / 64 % 2 == 1;
        let group = CommandGroup::from_bits(head / 8 % 4);
        let operation = operation_of(group, sub, flags % 16, compare, set);
        let operand1 = Operand::decode(count >= 1, imm1, common::be32(bytes, 4));
        let operand2 = Operand::decode(count >= 2, imm2, common::be32(bytes, 8));
        DecodedCommand {
            operand_count: count,
            group,
            sub_group: sub,
            imm_op1: imm1,
            imm_op2: imm2,
            operation,
            operand1,
            operand2,
        }
    }
}
