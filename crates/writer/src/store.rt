// The copy drafted, tested and stored.
ghost use Rattle.model.specs.Track.{track_in};
ghost use Rattle.faircopy.specs.BoardBytes.{copy_bytes};
ghost use Rattle.faircopy.specs.Write.{write_tested};
ghost use Rattle.writer.specs.Given.{WriteGiven};
ghost use Rattle.writer.specs.Drafting.{Storable};
ghost use Rattle.writer.specs.Refusals.{number_of, count_of};

use crate::draft::Contents;
use crate::{Refused, draft, overwrite};
use board::input::zone_from;

// The copy is drafted in an array of its own, the reader's own test of rows 6 and 7 goes over it, and it is stored where neither holds.
pub fn test_and_store(contents: &Contents, copy: &mut [u8]) -> Result<usize, Refused>
    requires { Storable (track_in contents.now.track) contents.now.sheet.now contents.now.wide copy.old }
    ensures { WriteGiven (write_tested (copy_bytes (track_in contents.now.track) contents.now.sheet.now)) copy.old (number_of result) (count_of result) copy.new }
{
    let count = zone_from(contents.wide, contents.track.head.zones);
    let mut draft = [0u8; 486];
    draft::board(contents, &mut draft);
    // Apart from its `?`, so that an edit can change what it gave.
    let tested = board::zones::check(&draft[..count]);
    tested?;
    overwrite::from_start(&draft[..count], copy);
    Ok(count)
}
