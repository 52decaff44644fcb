// The write on a track.
ghost use Rattle.std.specs.Prelude.{◌≡◌, length, leb};
ghost use Rattle.model.specs.Lists.{any_of};
ghost use Rattle.model.specs.Track.{track_in};
ghost use Rattle.faircopy.specs.Write.{write_in};
ghost use Rattle.writer.specs.Given.{BoardTrack, WriteGiven};
ghost use Rattle.writer.specs.Refusals.{number_of, count_of};

use crate::draft::Contents;
use crate::{Refused, store};
use board::input::zone_from;
use model::Track;

// Whether some word of the sheet is so high.
fn any_from(sheet: &[u32], least: u32) -> bool
    ensures { result ≡ any_of (leb least) sheet.now }
{
    sheet.iter().any(|word| least <= *word)
}

// 39 is tried first: the count of words, the words, and the room. From 512 on a word's carrier doesn't fit one byte.
pub fn write(track: &Track, sheet: &[u32], copy: &mut [u8]) -> Result<usize, Refused>
    requires { BoardTrack (track_in track.now) }
    ensures { WriteGiven (write_in (track_in track.now) sheet.now (length copy.old)) copy.old (number_of result) (count_of result) copy.new }
{
    if sheet.len() != track.head.zones {
        return Err(Refused::Unwritable);
    }
    if any_from(sheet, 131072) {
        return Err(Refused::Unwritable);
    }
    let wide = any_from(sheet, 512);
    if copy.len() < zone_from(wide, track.head.zones) {
        return Err(Refused::Unwritable);
    }
    let contents = Contents {
        track: *track,
        sheet,
        wide,
    };
    store::test_and_store(&contents, copy)
}
