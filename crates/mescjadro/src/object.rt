// MovieObject.bdmv: read, listed, written.
ghost use Rattle.std.specs.Prelude.{◌≡◌, ◌≤◌};
ghost use Rattle.lent.specs.Rules.{handed, size, measured};
ghost use Rattle.object_calls.specs.Rules.{objects_call, object_numbers, object_call, list_object_call, list_call, write_objects_call};

use super::hand;
use error::Refusal;
use movie_object::{MovieObject, MovieObjects};

// What a file holds.
#[tactic(auto, unfolding(object_calls::specs::Rules::objects_call))]
#[unsafe(no_mangle)]
pub extern "C" fn mescjadro_objects(file: &[u8], res: &mut [u32]) -> u32
    ensures { handed result res.new ≡ objects_call file.now res.old }
{
    if res.len() != 2 {
        return lent::refused(Refusal::BadBuffer);
    }
    match MovieObjects::parse(file) {
        Err(why) => lent::refused(why),
        Ok(objects) => {
            lent::put(res, &[objects.version, u32::from(objects.count)]);
            0
        }
    }
}

// What an object is, and where its commands start.
#[tactic(auto, using(crate::proofs::Laws::found_tells), unfolding(object_calls::specs::Rules::object_call))]
#[unsafe(no_mangle)]
pub extern "C" fn mescjadro_object(file: &[u8], object: u32, res: &mut [u32]) -> u32
    ensures { handed result res.new ≡ object_call file.now object res.old }
{
    if res.len() != 5 {
        return lent::refused(Refusal::BadBuffer);
    }
    match MovieObjects::object(file, object) {
        Err(why) => lent::refused(why),
        Ok(head) => {
            let at = movie_object::place_of(file, object);
            lent::put(res, &object_numbers(head, at));
            0
        }
    }
}

fn object_numbers(head: MovieObject, at: usize) -> [u32; 5]
    requires { at ≤ 16777216 }
    ensures { result ≡ object_numbers head at }
{
    [
        u32::from(head.resume_intention_flag),
        u32::from(head.menu_call_mask),
        u32::from(head.title_search_mask),
        u32::from(head.commands),
        at as u32 + 4,
    ]
}

// The text of an object.
#[tactic(auto, unfolding(object_calls::specs::Rules::list_object_call))]
#[unsafe(no_mangle)]
pub extern "C" fn mescjadro_list_object(
    file: &[u8],
    object: u32,
    out: &mut [u8],
    count: &mut usize,
) -> u32
    ensures { measured out.new (size result count.new)
        ≡ list_object_call file.now object out.old count.old }
{
    hand::hand_length(movie_object_list::list(file, object, out, 0), count)
}

// The text of the whole file.
#[tactic(auto, unfolding(object_calls::specs::Rules::list_call))]
#[unsafe(no_mangle)]
pub extern "C" fn mescjadro_list(file: &[u8], out: &mut [u8], count: &mut usize) -> u32
    ensures { measured out.new (size result count.new)
        ≡ list_call file.now out.old count.old }
{
    hand::hand_length(movie_object_list::list_all(file, out, 0), count)
}

// The file of a record.
#[tactic(auto, unfolding(object_calls::specs::Rules::write_objects_call))]
#[unsafe(no_mangle)]
pub extern "C" fn mescjadro_write_objects(
    version: u32,
    flags: &[u8],
    counts: &[u32],
    commands: &[u8],
    out: &mut [u8],
    count: &mut usize,
) -> u32
    ensures { measured out.new (size result count.new)
        ≡ write_objects_call version flags.now counts.now commands.now out.old count.old }
{
    hand::hand_length(
        movie_object_write::write(version, flags, counts, commands, out),
        count,
    )
}
