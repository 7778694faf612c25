// Registers, sessions, budgets, and the command machine.
ghost use Rattle.std.specs.Prelude.{◌≡◌, length, replicate};
ghost use Rattle.vm.specs.Rules.{banks};
ghost use Rattle.lent.specs.Rules.{handed};
ghost use Rattle.player_calls.specs.Rules.{banked, fresh_banks, fresh_session, default_budgets, read_by, read_call, set_call, told, told_by, machine, step_call, run_call};

use error::Refusal;
use registers::Registers;
use session::{Budgets, Session};
use vm::{HdmvVm, Stepped};

fn clear(bank: &mut [u32])
    ensures { bank.new ≡ replicate (length bank.old) 0 }
{
    bank.fill(0);
}

// Banks in which every register is 0.
#[tactic(auto, using(crate::proofs::Laws::fresh_made), unfolding(player_calls::specs::Rules::fresh_banks))]
#[unsafe(no_mangle)]
pub extern "C" fn mescjadro_fresh_banks(gpr: &mut [u32], psr: &mut [u32]) -> u32
    ensures { banked result (banks gpr.new psr.new) ≡ fresh_banks gpr.old psr.old }
{
    if gpr.len() != Registers::GPR_COUNT || psr.len() != Registers::PSR_COUNT {
        return lent::refused(Refusal::BadBuffer);
    }
    clear(gpr);
    clear(psr);
    0
}

#[tactic(auto, unfolding(player_calls::specs::Rules::fresh_session))]
#[unsafe(no_mangle)]
pub extern "C" fn mescjadro_fresh_session(session: &mut [u32]) -> u32
    ensures { handed result session.new ≡ fresh_session session.old }
{
    if session.len() != 6 {
        return lent::refused(Refusal::BadBuffer);
    }
    lent::put(session, &numbers::session_numbers(Session::new()));
    0
}

#[tactic(auto, unfolding(player_calls::specs::Rules::default_budgets))]
#[unsafe(no_mangle)]
pub extern "C" fn mescjadro_default_budgets(budgets: &mut [u32]) -> u32
    ensures { handed result budgets.new ≡ default_budgets budgets.old }
{
    if budgets.len() != 3 {
        return lent::refused(Refusal::BadBuffer);
    }
    lent::put(budgets, &numbers::budget_numbers(Budgets::new()));
    0
}

fn hand_read(read: Result<Option<u32>, Refusal>, res: &mut [u32]) -> u32
    requires { length res.old ≡ 2 }
    ensures { handed result res.new ≡ read_by read res.old }
{
    match read {
        Err(why) => lent::refused(why),
        Ok(None) => {
            lent::put(res, &[0, 0]);
            0
        }
        Ok(Some(value)) => {
            lent::put(res, &[1, value]);
            0
        }
    }
}

// A general register.
#[tactic(auto, unfolding(player_calls::specs::Rules::read_call))]
#[unsafe(no_mangle)]
pub extern "C" fn mescjadro_gpr(gpr: &[u32], number: u16, res: &mut [u32]) -> u32
    ensures { handed result res.new ≡ read_call 4096 gpr.now number res.old }
{
    if res.len() != 2 {
        return lent::refused(Refusal::BadBuffer);
    }
    hand_read(Registers::gpr(gpr, number), res)
}

// A status register.
#[tactic(auto, unfolding(player_calls::specs::Rules::read_call))]
#[unsafe(no_mangle)]
pub extern "C" fn mescjadro_psr(psr: &[u32], number: u16, res: &mut [u32]) -> u32
    ensures { handed result res.new ≡ read_call 128 psr.now number res.old }
{
    if res.len() != 2 {
        return lent::refused(Refusal::BadBuffer);
    }
    hand_read(Registers::psr(psr, number), res)
}

#[tactic(auto, unfolding(player_calls::specs::Rules::set_call))]
#[unsafe(no_mangle)]
pub extern "C" fn mescjadro_set_gpr(gpr: &mut [u32], number: u16, value: u32) -> u32
    ensures { handed result gpr.new ≡ set_call 4096 gpr.old number value }
{
    lent::verdict_number(Registers::set_gpr(gpr, number, value))
}

#[tactic(auto, unfolding(player_calls::specs::Rules::set_call))]
#[unsafe(no_mangle)]
pub extern "C" fn mescjadro_set_psr_player(psr: &mut [u32], number: u16, value: u32) -> u32
    ensures { handed result psr.new ≡ set_call 128 psr.old number value }
{
    lent::verdict_number(Registers::set_psr_player(psr, number, value))
}

fn hand_step(found: Result<Stepped, Refusal>, pc: &mut usize, answer: &mut [u32]) -> u32
    requires { length answer.old ≡ 5 }
    ensures { told result pc.new answer.new ≡ told_by found pc.old answer.old }
{
    match found {
        Err(why) => lent::refused(why),
        Ok(stepped) => {
            *pc = stepped.pc;
            lent::put(answer, &numbers::step_numbers(stepped.step));
            0
        }
    }
}

// One command.
#[tactic(auto, unfolding(player_calls::specs::Rules::step_call))]
#[unsafe(no_mangle)]
pub extern "C" fn mescjadro_vm_step(
    gpr: &mut [u32],
    psr: &mut [u32],
    commands: &[u8],
    pc: &mut usize,
    budget: u32,
    answer: &mut [u32],
) -> u32
    ensures { machine (banks gpr.new psr.new) (told result pc.new answer.new)
        ≡ step_call commands.now pc.old budget (banks gpr.old psr.old) answer.old }
{
    if answer.len() != 5 {
        return lent::refused(Refusal::BadBuffer);
    }
    let vm = HdmvVm { pc: *pc, budget };
    hand_step(vm.step(gpr, psr, commands), pc, answer)
}

// A run of commands.
#[tactic(auto, unfolding(player_calls::specs::Rules::run_call))]
#[unsafe(no_mangle)]
pub extern "C" fn mescjadro_vm_run(
    gpr: &mut [u32],
    psr: &mut [u32],
    commands: &[u8],
    pc: &mut usize,
    budget: u32,
    answer: &mut [u32],
) -> u32
    ensures { machine (banks gpr.new psr.new) (told result pc.new answer.new)
        ≡ run_call commands.now pc.old budget (banks gpr.old psr.old) answer.old }
{
    if answer.len() != 5 {
        return lent::refused(Refusal::BadBuffer);
    }
    let vm = HdmvVm { pc: *pc, budget };
    hand_step(vm.run(gpr, psr, commands), pc, answer)
}
