// Numbers into lent arrays, and refusals by number: what the calls for C share.
#![tactic(auto)]

ghost use Rattle.std.specs.Prelude.{◌≡◌, length};
ghost use Rattle.error.specs.Rules.{number_of};
ghost use Rattle.lent.specs.Rules.{lengths_fit, verdict_number};

use error::Refusal;

// The number of a refusal; a call for C answers it, so that no `?` leads there.
pub fn refused(why: Refusal) -> u32
    ensures { result ≡ number_of why }
{
    u32::from(why.number())
}

// 0, or the refusal's number.
pub fn verdict_number(found: Result<(), Refusal>) -> u32
    ensures { result ≡ verdict_number found }
{
    match found {
        Ok(()) => 0,
        Err(why) => refused(why),
    }
}

// Numbers into an array that has room for just them.
pub fn put(out: &mut [u32], from: &[u32])
    requires { length out.old ≡ length from.now }
    ensures { out.new ≡ from.now }
{
    // Not `copy_from_slice`: the few numbers then go through memory, and a read of a register takes 1.3 times as long.
    for i in 0..from.len() {
        out[i] = from[i];
    }
}

// Whether a drive is lent three numbers of budgets, six of a session and six of an outcome.
#[tactic(auto, using(std::proofs::lemmas::Bool::Decides::nat_tests), unfolding(crate::specs::Rules::lengths_fit))]
pub fn lengths_fit(budgets: &[u32], session: &[u32], outcome: &[u32]) -> bool
    ensures { result ≡ lengths_fit budgets.now session.now outcome.now }
{
    budgets.len() == 3 && session.len() == 6 && outcome.len() == 6
}
