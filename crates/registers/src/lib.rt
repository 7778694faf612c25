// The register banks: a fresh bank, the player's reads and writes, and what a Set command leaves (part of the Rust's vm.rs).
#![tactic(auto)]

ghost use Rattle.std.specs.Prelude.{◌≡◌, ◌%◌, get_or, set};
ghost use Rattle.nav_command.specs.Rules as nav;
ghost use Rattle.nav_command.specs.declared.Operand.TheVariants.{Register};
ghost use Rattle.registers.specs.Laws.{OneAnswer};
ghost use Rattle.registers.specs.Rules.{banks, fresh_general, fresh_status, value_of, written, effect_for, refuses, bank_of, read_of, put_of};
ghost use Rattle.registers.specs.Pieces.{bank_for, applied_in, set_in, meant};

use error::Refusal;

// A fresh bank: 4,096 general registers beside 128 status registers, all zero. Only `Drop`: nothing copies its 16 KiB.
#[derive(Drop)]
pub struct Registers {
    pub gpr: [u32; 4096],
    pub psr: [u32; 128],
}

// An operand as it stands in a command: whether it is there, whether it is a number of its own, and its word.
#[derive(Clone, Copy)]
pub struct Raw {
    pub there: bool,
    pub immediate: bool,
    pub word: u32,
}

// What a Set operation does: a value for its first operand, an exchange of both, or nothing. No Option: an exchange writes no value of its own.
#[derive(Clone, Copy)]
enum Effect {
    Write(u32),
    Swap,
    Nothing,
}

// The banks that commands work on. Only `Drop`, since they are lent to write to.
#[derive(Drop)]
pub struct Banks<'a> {
    pub gpr: &'a mut [u32],
    pub psr: &'a mut [u32],
}

// One register of a bank.

fn store(bank: &mut [u32], index: u16, value: u32)
    ensures { bank.new ≡ set bank.old index value }
{
    let at = index as usize;
    if at < bank.len() {
        bank[at] = value;
    }
}

// The register number of an operand's word.
fn index_of(word: u32) -> u16
    ensures { result ≡ word % 4096 }
{
    (word % 4096) as u16
}

// What a Set command makes of its operands' values, by its code in the file: Move, Swap, Add and so on.
#[tactic(auto, unfolding(nav_command::specs::Rules::set_of))]
fn compute(code: u8, x: u32, y: u32) -> Effect
    ensures { result ≡ effect_for (nav.set_of 0 code) x y }
{
    match code {
        1 => Effect::Write(y),
        2 => Effect::Swap,
        3 => Effect::Write(word::add(x, y)),
        4 => Effect::Write(word::sub(x, y)),
        5 => Effect::Write(word::wrapping_mul32(x, y)),
        6 => Effect::Write(word::div(x, y)),
        7 => Effect::Write(word::rem(x, y)),
        8 => Effect::Write(word::rnd(y)),
        9 => Effect::Write(word::and(x, y)),
        10 => Effect::Write(word::or(x, y)),
        11 => Effect::Write(word::xor(x, y)),
        12 => Effect::Write(word::bit_set(x, y)),
        13 => Effect::Write(word::bit_clear(x, y)),
        14 => Effect::Write(word::shift_left(x, y)),
        15 => Effect::Write(word::shift_right(x, y)),
        _ => Effect::Nothing,
    }
}

impl Banks<'_> {
    ghost use Rattle.registers.specs.Lent.{held, Same};

    // A register of the status bank, or else of the general one; 0 where there is none.
    fn read<const STATUS: bool>(&self, index: u16) -> u32
        ensures { result ≡ value_of (Register (bank_for STATUS) index) (held self.now) }
    {
        if STATUS {
            self.psr.get(index as usize).copied().unwrap_or(0)
        } else {
            self.gpr.get(index as usize).copied().unwrap_or(0)
        }
    }

    // An operand's value; 0 where there is none.
    #[tactic(auto, unfolding(nav_command::specs::Rules::operand_of))]
    pub fn value(&self, a: Raw) -> u32
        ensures { result ≡ value_of (meant a) (held self.now) }
    {
        if !a.there {
            0
        } else if a.immediate {
            a.word
        } else if a.word < 0x8000_0000 {
            self.read::<false>(index_of(a.word))
        } else {
            self.read::<true>(index_of(a.word))
        }
    }

    // Writes a register as a command does: a protected one keeps its value.
    #[tactic(auto, unfolding(crate::specs::Rules::written, crate::specs::Rules::written_status))]
    fn write<const STATUS: bool>(&mut self, index: u16, v: u32)
        ensures same { Same self.old self.new }
        ensures wrote { held self.new ≡ written (Register (bank_for STATUS) index) v (held self.old) }
    {
        if !STATUS {
            store(self.gpr, index, v);
        } else if register_model::may_write(index) {
            store(self.psr, index, v);
        }
    }

    // Writes the register that an operand names.
    #[tactic(auto, unfolding(nav_command::specs::Rules::operand_of, crate::specs::Rules::written))]
    fn write_to(&mut self, a: Raw, v: u32)
        ensures same { Same self.old self.new }
        ensures wrote { held self.new ≡ written (meant a) v (held self.old) }
    {
        if a.there && !a.immediate {
            if a.word < 0x8000_0000 {
                self.write::<false>(index_of(a.word), v);
            } else {
                self.write::<true>(index_of(a.word), v);
            }
        }
    }

    // A Set of a register of one bank, each bank by itself: the arms ask for it once.
    #[tactic(auto, unfolding(crate::specs::Pieces::applied_in, crate::specs::Rules::applied))]
    fn set_register<const STATUS: bool>(&mut self, code: u8, index: u16, b: Raw)
        ensures same { Same self.old self.new }
        ensures set { held self.new
            ≡ applied_in (nav.set_of 0 code) (Register (bank_for STATUS) index) (meant b) (held self.old) }
    {
        let x = self.read::<STATUS>(index);
        let y = self.value(b);
        match compute(code, x, y) {
            Effect::Write(v) => self.write::<STATUS>(index, v),
            Effect::Swap => {
                self.write_to(b, x);
                self.write::<STATUS>(index, y);
            }
            Effect::Nothing => {}
        }
    }

    // Nothing is done unless the first operand names a register.
    #[tactic(auto, unfolding(nav_command::specs::Rules::operand_of, crate::specs::Rules::set_of, crate::specs::Pieces::applied_in))]
    pub fn set(&mut self, code: u8, a: Raw, b: Raw)
        ensures same { Same self.old self.new }
        ensures set { held self.new ≡ set_in (nav.set_of 0 code) (meant a) (meant b) (held self.old) }
    {
        if a.there && !a.immediate {
            let index = index_of(a.word);
            if a.word < 0x8000_0000 {
                self.set_register::<false>(code, index, b);
            } else if index < 128 {
                self.set_register::<true>(code, index, b);
            }
        }
    }
}

// The player's own calls.

// A test of the input, and its refusal.
pub fn refuse_unless(refusal: Refusal, fine: bool) -> Result<(), Refusal>
    ensures { result ≡ refuses refusal fine }
{
    refusal.refused_if(!fine)
}

// Whether a bank has its number of registers.
#[tactic(auto, unfolding(crate::specs::Rules::bank_of))]
pub fn check_bank(size: usize, bank: &[u32]) -> Result<(), Refusal>
    ensures { result ≡ bank_of size bank.now }
{
    refuse_unless(Refusal::BadBuffer, bank.len() == size)
}

#[tactic(auto, unfolding(crate::specs::Rules::bank_of, crate::specs::Rules::read_of))]
fn read_at(size: usize, bank: &[u32], index: u16) -> Result<Option<u32>, Refusal>
    ensures { result ≡ read_of size bank.now index }
{
    check_bank(size, bank)?;
    Ok(bank.get(index as usize).copied())
}

#[tactic(auto, unfolding(crate::specs::Rules::bank_of, crate::specs::Rules::put_of))]
fn put_at(size: usize, bank: &mut [u32], index: u16, v: u32) -> Result<(), Refusal>
    ensures { (bank.new ≡ put_of size bank.old index v) × (result ≡ bank_of size bank.old) }
{
    check_bank(size, bank)?;
    store(bank, index, v);
    Ok(())
}

impl Registers {
    pub const GPR_COUNT: usize = 4096;

    pub const PSR_COUNT: usize = 128;

    pub fn new() -> Self
        ensures { (result.gpr ≡ fresh_general) × (result.psr ≡ fresh_status) }
    {
        Self {
            gpr: [0; 4096],
            psr: [0; 128],
        }
    }

    // A general register; there is none from 4,096 on.
    pub fn gpr(bank: &[u32], index: u16) -> Result<Option<u32>, Refusal>
        ensures { result ≡ read_of 4096 bank.now index }
    {
        read_at(Self::GPR_COUNT, bank, index)
    }

    // A status register; there is none from 128 on.
    pub fn psr(bank: &[u32], index: u16) -> Result<Option<u32>, Refusal>
        ensures { result ≡ read_of 128 bank.now index }
    {
        read_at(Self::PSR_COUNT, bank, index)
    }

    // Writes a general register; a number from 4,096 on names none, and nothing is written.
    pub fn set_gpr(bank: &mut [u32], index: u16, v: u32) -> Result<(), Refusal>
        ensures { (bank.new ≡ put_of 4096 bank.old index v) × (result ≡ bank_of 4096 bank.old) }
    {
        put_at(Self::GPR_COUNT, bank, index, v)
    }

    // Writes a status register as the player does: none is protected from it.
    pub fn set_psr_player(bank: &mut [u32], index: u16, v: u32) -> Result<(), Refusal>
        ensures { (bank.new ≡ put_of 128 bank.old index v) × (result ≡ bank_of 128 bank.old) }
    {
        put_at(Self::PSR_COUNT, bank, index, v)
    }
}

// Any two answers that a promise of the public calls allows are equal.
pub fn one_answer()
    ensures { OneAnswer }
{}
