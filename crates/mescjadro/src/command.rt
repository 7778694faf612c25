// One command: decoded, encoded, listed.
ghost use Rattle.std.specs.Prelude.{◌≡◌};
ghost use Rattle.lent.specs.Rules.{handed, size, measured};
ghost use Rattle.command_calls.specs.Rules.{decode_call, encode_call, list_command_call};

use super::hand;
use error::Refusal;

// The thirteen numbers of twelve bytes.
#[tactic(auto, using(crate::proofs::Laws::decodes), unfolding(command_calls::specs::Rules::decode_call))]
#[unsafe(no_mangle)]
pub extern "C" fn mescjadro_decode(command: &[u8], res: &mut [u32]) -> u32
    ensures { handed result res.new ≡ decode_call command.now res.old }
{
    if res.len() != 13 || command.len() != 12 {
        return lent::refused(Refusal::BadBuffer);
    }
    lent::put(res, &nav_numbers::numbers_of(&vm::fetch(command, 0)));
    0
}

// The twelve bytes of thirteen numbers.
#[tactic(auto, unfolding(command_calls::specs::Rules::encode_call))]
#[unsafe(no_mangle)]
pub extern "C" fn mescjadro_encode(command: &[u32], out: &mut [u8]) -> u32
    ensures { handed result out.new ≡ encode_call command.now out.old }
{
    if command.len() != 13 {
        return lent::refused(Refusal::BadBuffer);
    }
    if nav_numbers::is_command(command) {
        lent::verdict_number(nav_encode::encode(nav_numbers::command_named(command), out))
    } else {
        lent::refused(Refusal::NotEncodable)
    }
}

// The text of twelve bytes.
#[tactic(auto, using(crate::proofs::Laws::line_whole), unfolding(command_calls::specs::Rules::list_command_call))]
#[unsafe(no_mangle)]
pub extern "C" fn mescjadro_list_command(command: &[u8], out: &mut [u8], count: &mut usize) -> u32
    ensures { measured out.new (size result count.new)
        ≡ list_command_call command.now out.old count.old }
{
    if command.len() != 12 {
        return lent::refused(Refusal::BadBuffer);
    }
    hand::hand_length(nav_list::list_at(command, 0, out, 0), count)
}
