// What the calls that list, and those that write a file, share.
ghost use Rattle.std.specs.Prelude.{◌≡◌};
ghost use Rattle.lent.specs.Rules.{size, length_by};

use error::Refusal;

// How many bytes were written, or why none.
pub fn hand_length(written: Result<usize, Refusal>, count: &mut usize) -> u32
    ensures { size result count.new ≡ length_by written count.old }
{
    match written {
        Err(why) => lent::refused(why),
        Ok(bytes) => {
            *count = bytes;
            0
        }
    }
}
