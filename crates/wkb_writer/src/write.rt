// The whole call: the list is judged, and laid down where nothing refuses it.
ghost use Rattle.std.specs.Prelude.{length};
ghost use Rattle.kinds.specs.Refusal.{answer_of};
ghost use Rattle.wkb_written.specs.Writing.{writing, Did};
ghost use Rattle.wkb_writer.specs.Does.{length_of};

use kinds::refusal::Refusal;
use wkb_judge::judge_all;
use wkb_put::put_all;

// Writes a list of events as well-known binary, from the start of `out` on: how many bytes. Refused, each over the whole list: 11, 21, 13, 12.
pub fn write_wkb(events: &[u8], out: &mut [u8]) -> Result<usize, Refusal>
    ensures { Did (writing events.now (length out.old)) out.old (answer_of result) (length_of result) out.new }
{
    let nested = judge_all(events)?;
    if nested.deep {
        return Err(Refusal::TooDeep);
    }
    if out.len() < nested.length {
        return Err(Refusal::NoRoom);
    }
    put_all(events, out);
    Ok(nested.length)
}
