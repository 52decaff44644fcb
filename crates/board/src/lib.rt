// The board reader: from any bytes whatever, the first refusal that holds, or the track and the first position that they say. `read` has no
// `requires`; `read_into` asks for arrays of zeros, and fills them; `on_board` asks that its work take what an accepted board says. The writer
// sizes its copy by `input::zone_from` and tests it by `zones::check`.
#![tactic(auto)]

mod fill;
mod head;
pub mod input;
mod links;
mod refusal;
pub mod zones;

ghost use Rattle.std.specs.Prelude.{◌≡◌, replicate, Err};
ghost use Rattle.model.specs.Track.{track_in};
ghost use Rattle.model.specs.Reading.{refusal};
ghost use Rattle.board.specs.OnBoard.{OnBoard};
ghost use Rattle.board.specs.Refusals.{number_of, refusal_number};
ghost use Rattle.board.specs.declared.refusal.Refusal.{Refusal};
ghost use Rattle.board.specs.Given.{board_of, board_with, board_given};

use crate::input::byte;
pub use crate::refusal::Refusal;
use model::{Head, Track};

// The ends of zone z are ends[2 * z] and ends[2 * z + 1]. A zone's place in position is 0 where it
// is free, else 2 × carrier + heading. Both arrays have room for the largest board, for there is no
// heap, and hold zeros past the last zone.
#[derive(Clone, Copy)]
pub struct Board {
    pub head: Head,
    pub ends: [usize; 192],
    pub position: [u32; 96],
}

// The rows in rising order: the first that holds.
fn check(bytes: &[u8]) -> Result<(), Refusal>
    ensures { number_of result ≡ refusal bytes.now }
{
    head::check(bytes)?;
    zones::check(bytes)?;
    links::check(bytes)
}

// Reads the board into arrays that the caller lends filled with zeros; on a refusal they stay so.
#[tactic(auto, using(crate::proofs::GivenLaws::whole_read, crate::proofs::GivenLaws::few_zones))]
pub fn read_into(bytes: &[u8], ends: &mut [usize], position: &mut [u32]) -> Result<Head, Refusal>
    requires { (ends.old ≡ replicate 192 0) × (position.old ≡ replicate 96 0) }
    ensures { board_with result ends.new position.new ≡ board_of bytes.now }
{
    check(bytes)?;
    fill::arrays(bytes, ends, position);
    Ok(Head {
        points: byte(bytes, 3),
        home: byte(bytes, 4),
        zones: byte(bytes, 5),
    })
}

// The same, with the arrays.
pub fn read(bytes: &[u8]) -> Result<Board, Refusal>
    ensures { board_given result ≡ board_of bytes.now }
{
    let mut ends = [0usize; 192];
    let mut position = [0u32; 96];
    let head = read_into(bytes, &mut ends, &mut position)?;
    Ok(Board {
        head,
        ends,
        position,
    })
}

// How every operation on bytes begins: `work` is done on the track and the first position that they say, and its answer given. On a refusal it isn't
// called. It is lent, so that what it writes to is known to stay as it was then; a closure that is given away would leave that open.
pub fn on_board<T, E: From<Refusal>, F: FnMut(&Track, &mut [u32]) -> Result<T, E>>(
    bytes: &[u8],
    work: &mut F,
) -> Result<T, E>
    requires { (track : _) (position : _) → OnBoard bytes.now (track_in track.now) position.now → F.pre work.old track position }
    ensures refused { (refusal bytes.now ≡ 0 → ⊥) → (r : Refusal) × (e : E) × (refusal_number r ≡ refusal bytes.now) × E.from_gives r e × (result ≡ Err e) × (work.new ≡ work.old) }
    ensures done { refusal bytes.now ≡ 0 → (track : _) × (position : _) × (left : _) × OnBoard bytes.now (track_in track.now) position.now × F.step work.old track position result left work.new }
{
    let mut ends = [0usize; 192];
    let mut position = [0u32; 96];
    let head = read_into(bytes, &mut ends, &mut position)?;
    let track = Track {
        head,
        ends: &ends[..2 * head.zones],
    };
    work(&track, &mut position[..head.zones])
}
