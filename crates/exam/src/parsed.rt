// The key and the collapse of a track and a position, whether read from bytes or not. The position is the caller's own copy.
// `Ready` is asked in a clause and is no struct's field: why not stands at `sheet::mark`.
ghost use Rattle.std.specs.Prelude.{◌≡◌, ◌≤◌, List, ℕ, length};
ghost use Rattle.model.specs.Track.{track_in};
ghost use Rattle.model.specs.Position.{outs};
ghost use Rattle.model.specs.Accepted.{Ready};
ghost use Rattle.rules.specs.Key.{verdict_of, key_in};
ghost use Rattle.rules.specs.Collapse.{collapse_in};
ghost use Rattle.exam.specs.Answers.{verdict_number, key_numbers, collapse_numbers};
ghost use Rattle.exam.specs.Parsed.{KeyGiven, CollapseGiven, summary_of, searched_of, position_left};

use crate::Refused;
use model::{Summary, Track};

// Whether some carriers are blocked.
#[derive(Clone, Copy, Debug, PartialEq, Eq)]
pub enum Verdict {
    Ordered = 0,
    Blocked = 20,
}

impl From<Verdict> for u32 {
    ghost from_gives = { λ verdict number. number ≡ verdict_number verdict };

    fn from(verdict: Verdict) -> u32 {
        verdict as u32
    }
}

// What the key gives: the verdict, how many words are written to the plan and how many carriers to the list, which are the caller's, for there is no
// heap; the search count; and what is said of the board.
#[derive(Clone, Copy)]
pub struct DrawnKey {
    pub verdict: Verdict,
    pub planned: usize,
    pub listed: usize,
    pub searched: u32,
    pub summary: Summary,
}

// The verdict where so many are blocked.
fn verdict_where(blocked: usize) -> Verdict
    ensures { (list : List ℕ) → length list ≡ blocked → verdict_number result ≡ verdict_of list }
{
    match blocked {
        0 => Verdict::Ordered,
        _ => Verdict::Blocked,
    }
}

// The key: all that can go home are sent, and those still out then are listed.
pub fn key(
    track: &Track,
    position: &mut [u32],
    plan: &mut [u16],
    list: &mut [u16],
) -> Result<DrawnKey, Refused>
    requires { Ready (track_in track.now) position.old }
    ensures key_given { KeyGiven (key_in (track_in track.now) position.old (length plan.old) (length list.old)) plan.old list.old (key_numbers result).verdict (key_numbers result).planned (key_numbers result).listed plan.new list.new }
    ensures summary_value { (key_numbers result).summary ≡ summary_of (track_in track.now) position.old (key_numbers result).verdict }
    ensures searched_value { (key_numbers result).searched ≡ searched_of (track_in track.now) position.old (key_numbers result).verdict }
    ensures position_after { position.new ≡ position_left (key_numbers result).verdict (key_in (track_in track.now) position.old (length plan.old) (length list.old)).list position.old }
{
    let out = carriers::count_out(position);
    let head = track.head;
    if plan.len() < out * (2 + 2 * head.zones) {
        return Err(Refused::ShortPlan);
    }
    if list.len() < out {
        return Err(Refused::ShortList);
    }
    let sent = search::send_home(track, position, plan);
    let blocked = carriers::list_out(position, list);
    Ok(DrawnKey {
        verdict: verdict_where(blocked),
        planned: sent.planned,
        listed: blocked,
        searched: sent.searched,
        summary: Summary {
            points: head.points,
            zones: head.zones,
            out,
        },
    })
}

// The carriers that the collapse leaves. Gives how many are written to the list.
pub fn collapse(track: &Track, position: &mut [u32], list: &mut [u16]) -> Result<usize, Refused>
    requires { Ready (track_in track.now) position.old }
    ensures collapse_given { CollapseGiven (collapse_in (track_in track.now) position.old (length list.old)) list.old (collapse_numbers result).number (collapse_numbers result).listed list.new }
    ensures position_after { position.new ≡ position_left (collapse_numbers result).number (collapse_in (track_in track.now) position.old (length list.old)).list position.old }
{
    let out = carriers::count_out(position);
    if list.len() < out {
        Err(Refused::ShortList)
    } else {
        Ok(list_left(track, position, list))
    }
}

// The same where the list has room for all that are out.
pub(crate) fn list_left(track: &Track, position: &mut [u32], list: &mut [u16]) -> usize
    requires { Ready (track_in track.now) position.old × (length (outs position.old) ≤ length list.old) }
    ensures collapse_given { CollapseGiven (collapse_in (track_in track.now) position.old (length list.old)) list.old 0 result list.new }
    ensures position_after { position.new ≡ position_left 0 (collapse_in (track_in track.now) position.old (length list.old)).list position.old }
{
    parts::collapse_position(track, position);
    carriers::list_out(position, list)
}
