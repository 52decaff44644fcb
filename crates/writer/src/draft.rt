// The draft of a copy: the bytes of a board, put into an array from its first place on.
ghost use Rattle.std.specs.Prelude.{◌+◌, ◌≤◌, ◌<◌, ◌≡◌, cond, length};
ghost use Rattle.model.specs.Layout.{stride, entry_from};
ghost use Rattle.model.specs.Lists.{overwritten, overwritten_at};
ghost use Rattle.model.specs.Track.{track_in};
ghost use Rattle.faircopy.specs.BoardBytes.{head_bytes, entry_bytes, board_bytes};
ghost use Rattle.writer.specs.Drafting.{SmallHead, Draftable, all_entries};

use crate::overwrite;
use board::input::zone_from;
use model::{Head, Track};

// What a copy says: a track, a position sheet, and whether a carrier has two bytes. Every number of it fits its place.
#[derive(Clone, Copy)]
pub struct Contents<'a> {
    pub track: Track<'a>,
    pub sheet: &'a [u32],
    pub wide: bool,
    pub ghost draftable: { Draftable (track_in track) sheet.now },
}

fn version(wide: bool) -> u8
    ensures { result ≡ cond wide 2 1 }
{
    if wide { 2 } else { 1 }
}

// The head: L, the version, points, the home point, zones.
fn first_bytes(head: Head, wide: bool, draft: &mut [u8])
    requires { SmallHead head × (6 ≤ length draft.old) }
    ensures { draft.new ≡ overwritten (head_bytes wide head.points head.home head.zones) draft.old }
{
    let said = zone_from(wide, head.zones) - 2;
    let first = [
        (said / 256) as u8,
        (said % 256) as u8,
        version(wide),
        head.points as u8,
        head.home as u8,
        head.zones as u8,
    ];
    overwrite::from_start(&first, draft);
}

// The entry of one zone. In version 1 a carrier has its low byte alone.
#[tactic(auto, using(model::proofs::LayoutLaws::five, model::proofs::LayoutLaws::four))]
fn entry(contents: &Contents, z: usize, draft: &mut [u8])
    requires { (z < contents.now.track.head.zones) × (entry_from contents.now.wide z + stride contents.now.wide ≤ length draft.old) }
    ensures { draft.new ≡ overwritten_at (entry_from contents.now.wide z) (entry_bytes contents.now.wide (track_in contents.now.track) contents.now.sheet.now z) draft.old }
{
    let from = zone_from(contents.wide, z);
    let a = contents.track.ends[2 * z] as u8;
    let b = contents.track.ends[2 * z + 1] as u8;
    let word = contents.sheet[z];
    let carrier = word / 2;
    let high = (carrier / 256) as u8;
    let low = (carrier % 256) as u8;
    let heading = (word % 2) as u8;
    if contents.wide {
        overwrite::from_place(from, &[a, b, high, low, heading], draft);
    } else {
        overwrite::from_place(from, &[a, b, low, heading], draft);
    }
}

// The entries of all zones.
fn entries(contents: &Contents, draft: &mut [u8])
    requires { entry_from contents.now.wide contents.now.track.head.zones ≤ length draft.old }
    ensures { draft.new ≡ overwritten_at 6 (all_entries contents.now.wide (track_in contents.now.track) contents.now.sheet.now contents.now.track.head.zones) draft.old }
{
    for z in 0..contents.track.head.zones {
        entry(contents, z, draft);
    }
}

pub fn board(contents: &Contents, draft: &mut [u8])
    requires { entry_from contents.now.wide contents.now.track.head.zones ≤ length draft.old }
    ensures { draft.new ≡ overwritten (board_bytes contents.now.wide (track_in contents.now.track) contents.now.sheet.now) draft.old }
{
    first_bytes(contents.track.head, contents.wide, draft);
    entries(contents, draft);
}
