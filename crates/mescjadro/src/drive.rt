// The runner and the disc check.
ghost use Rattle.std.specs.Prelude.{◌≡◌, length};
ghost use Rattle.vm.specs.Rules.{banks};
ghost use Rattle.mobj_runner.specs.Rules.{world};
ghost use Rattle.mobj_runner.specs.declared.Start.TheVariants as runner;
ghost use Rattle.lent.specs.Rules.{ended, handed};
ghost use Rattle.drive_calls.specs.Rules.{ran_by, runner_call, checked_by, check_call};

use disc_check::DiscCheck;
use error::Refusal;
use mobj_runner::RunEnd;

// An outcome and the session that it leaves, or a refusal.
fn hand_run(answer: Result<RunEnd, Refusal>, session: &mut [u32], outcome: &mut [u32]) -> u32
    requires { (length session.old ≡ 6) × (length outcome.old ≡ 6) }
    ensures { ended result session.new outcome.new ≡ ran_by answer session.old outcome.old }
{
    match answer {
        Err(why) => lent::refused(why),
        Ok(end) => {
            numbers::put_session(end.session, session);
            lent::put(outcome, &numbers::run_numbers(end.outcome));
            0
        }
    }
}

// The runner starts an object.
#[tactic(auto, unfolding(drive_calls::specs::Rules::runner_call, lent::specs::Rules::lengths_fit))]
#[unsafe(no_mangle)]
pub extern "C" fn mescjadro_runner_run(
    gpr: &mut [u32],
    psr: &mut [u32],
    frames: &mut [u32],
    titles: &[u32],
    file: &[u8],
    object: u32,
    budgets: &[u32],
    session: &mut [u32],
    outcome: &mut [u32],
) -> u32
    ensures { world (ended result session.new outcome.new) (banks gpr.new psr.new) frames.new
        ≡ runner_call file.now titles.now (runner.Object object) budgets.now
        (banks gpr.old psr.old) frames.old session.old outcome.old }
{
    if lent::lengths_fit(budgets, session, outcome) {
        let s = numbers::session_of(session);
        let b = numbers::budgets_of(budgets);
        let answer = mobj_runner::run(gpr, psr, frames, titles, file, s, object, b);
        hand_run(answer, session, outcome)
    } else {
        lent::refused(Refusal::BadBuffer)
    }
}

// The runner goes on from where the session stands.
#[tactic(auto, unfolding(drive_calls::specs::Rules::runner_call, lent::specs::Rules::lengths_fit))]
#[unsafe(no_mangle)]
pub extern "C" fn mescjadro_runner_resume(
    gpr: &mut [u32],
    psr: &mut [u32],
    frames: &mut [u32],
    titles: &[u32],
    file: &[u8],
    budgets: &[u32],
    session: &mut [u32],
    outcome: &mut [u32],
) -> u32
    ensures { world (ended result session.new outcome.new) (banks gpr.new psr.new) frames.new
        ≡ runner_call file.now titles.now runner.Here budgets.now
        (banks gpr.old psr.old) frames.old session.old outcome.old }
{
    if lent::lengths_fit(budgets, session, outcome) {
        let s = numbers::session_of(session);
        let b = numbers::budgets_of(budgets);
        let answer = mobj_runner::resume(gpr, psr, frames, titles, file, s, b);
        hand_run(answer, session, outcome)
    } else {
        lent::refused(Refusal::BadBuffer)
    }
}

fn hand_check(found: Result<DiscCheck, Refusal>, res: &mut [u32]) -> u32
    requires { length res.old ≡ 3 }
    ensures { handed result res.new ≡ checked_by found res.old }
{
    match found {
        Err(why) => lent::refused(why),
        Ok(_) => {
            lent::put(res, &numbers::check_numbers(found));
            0
        }
    }
}

// Whether a command on the disc can ask for what the disc lacks.
#[tactic(auto, unfolding(drive_calls::specs::Rules::check_call))]
#[unsafe(no_mangle)]
pub extern "C" fn mescjadro_disc_check(index: &[u8], file: &[u8], res: &mut [u32]) -> u32
    ensures { handed result res.new ≡ check_call index.now file.now res.old }
{
    if res.len() != 3 {
        return lent::refused(Refusal::BadBuffer);
    }
    hand_check(disc_check::check(index, file), res)
}
