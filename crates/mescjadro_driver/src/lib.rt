// The driver for C. It is an archive member of its own, so that each holds one copy of the machine's run, within its own drive.
#![tactic(auto)]

ghost use Rattle.std.specs.Prelude.{◌≡◌, length};
ghost use Rattle.vm.specs.Rules.{banks};
ghost use Rattle.nav_driver.specs.Rules.{rooms};
ghost use Rattle.nav_driver.specs.declared.Start.TheVariants as driver;
ghost use Rattle.lent.specs.Rules.{ended};
ghost use Rattle.drive_calls.specs.Rules.{drove_by, driver_call};

use error::Refusal;
use nav_driver::DriveEnd;

// An outcome and the session that it leaves, or a refusal.
fn hand_drive(answer: Result<DriveEnd, Refusal>, session: &mut [u32], outcome: &mut [u32]) -> u32
    requires { (length session.old ≡ 6) × (length outcome.old ≡ 6) }
    ensures { ended result session.new outcome.new ≡ drove_by answer session.old outcome.old }
{
    match answer {
        Err(why) => lent::refused(why),
        Ok(end) => {
            numbers::put_session(end.session, session);
            lent::put(outcome, &numbers::drive_numbers(end.outcome));
            0
        }
    }
}

// The driver starts an entry.
#[tactic(auto, unfolding(drive_calls::specs::Rules::driver_call, lent::specs::Rules::lengths_fit))]
#[unsafe(no_mangle)]
pub extern "C" fn mescjadro_driver_run(
    gpr: &mut [u32],
    psr: &mut [u32],
    frames: &mut [u32],
    titles: &mut [u32],
    index: &[u8],
    file: &[u8],
    entry: u32,
    budgets: &[u32],
    session: &mut [u32],
    outcome: &mut [u32],
) -> u32
    ensures { rooms (ended result session.new outcome.new) (banks gpr.new psr.new) frames.new titles.new
        ≡ driver_call index.now file.now (driver.Entry entry) budgets.now
        (banks gpr.old psr.old) frames.old titles.old session.old outcome.old }
{
    if lent::lengths_fit(budgets, session, outcome) {
        let s = numbers::session_of(session);
        let b = numbers::budgets_of(budgets);
        let answer = nav_driver::run(gpr, psr, frames, titles, index, file, s, entry, b);
        hand_drive(answer, session, outcome)
    } else {
        lent::refused(Refusal::BadBuffer)
    }
}

// The driver goes on after the player has done what was asked.
#[tactic(auto, unfolding(drive_calls::specs::Rules::driver_call, lent::specs::Rules::lengths_fit))]
#[unsafe(no_mangle)]
pub extern "C" fn mescjadro_driver_resume(
    gpr: &mut [u32],
    psr: &mut [u32],
    frames: &mut [u32],
    titles: &mut [u32],
    index: &[u8],
    file: &[u8],
    budgets: &[u32],
    session: &mut [u32],
    outcome: &mut [u32],
) -> u32
    ensures { rooms (ended result session.new outcome.new) (banks gpr.new psr.new) frames.new titles.new
        ≡ driver_call index.now file.now driver.Here budgets.now
        (banks gpr.old psr.old) frames.old titles.old session.old outcome.old }
{
    if lent::lengths_fit(budgets, session, outcome) {
        let s = numbers::session_of(session);
        let b = numbers::budgets_of(budgets);
        let answer = nav_driver::resume(gpr, psr, frames, titles, index, file, s, b);
        hand_drive(answer, session, outcome)
    } else {
        lent::refused(Refusal::BadBuffer)
    }
}
