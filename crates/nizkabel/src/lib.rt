// The operations as `nizkabel_c` exports them to programs in C, C++ and Rust, in numbers: each answers with its number, and the lengths and
// counts that it gives beside go to `out`. Each promise is the operation's own, whole, with what `out` holds at exit in their place.
#![tactic(auto)]

ghost use Rattle.std.specs.Prelude.{get_or};
ghost use Rattle.exam.specs.Operations.{KeyPromise, CollapsePromise, MarkPromise};
ghost use Rattle.replay.specs.Operation.{ReplayPromise};
ghost use Rattle.writer.specs.Operation.{WritePromise};

use replay::Refused;

// The key of the board: out[0] is the count of words in the plan, out[1] the count of carriers in the list, out[2] the search count.
pub fn nizkabel_key(board: &[u8], plan: &mut [u16], list: &mut [u16], out: &mut [u32; 3]) -> u32
    ensures { KeyPromise board.now plan.old list.old result (get_or out.new 0 0) (get_or out.new 1 0) (get_or out.new 2 0) plan.new list.new }
{
    match exam::key(board, plan, list) {
        Ok(key) => {
            let planned = key.planned as u32;
            let listed = key.listed as u32;
            *out = [planned, listed, key.searched];
            key.verdict.into()
        }
        Err(refused) => {
            *out = [0; 3];
            refused.into()
        }
    }
}

// The collapse of the board: out[0] is the count of carriers in the list.
pub fn nizkabel_collapse(board: &[u8], list: &mut [u16], out: &mut [u32; 1]) -> u32
    ensures { CollapsePromise board.now list.old result (get_or out.new 0 0) list.new }
{
    let left = exam::collapse(board, list);
    match left {
        Ok(listed) => {
            let listed = listed as u32;
            *out = [listed];
            0
        }
        Err(refused) => {
            *out = [0];
            refused.into()
        }
    }
}

// The number of a candidate's sheet.
pub fn nizkabel_mark(board: &[u8], sheet: &[u16]) -> u32
    ensures { MarkPromise board.now sheet.now result }
{
    match exam::mark(board, sheet) {
        Ok(()) => 0,
        Err(wrong) => wrong.into(),
    }
}

// The replay of a move log: out[0] is the count of moves done.
pub fn nizkabel_replay(board: &[u8], log: &[u16], sheet: &mut [u32], out: &mut [u64; 1]) -> u32
    ensures { ReplayPromise board.now log.now sheet.old result (get_or out.new 0 0) sheet.new }
{
    let answer = replay::replay(board, log, sheet);
    let moves = match answer {
        Ok(moves) | Err(Refused::Forbidden(moves)) => moves,
        Err(_) => 0,
    };
    *out = [moves as u64];
    match answer {
        Ok(_) => 0,
        Err(refused) => refused.into(),
    }
}

// The fair copy of the board with a position sheet: out[0] is the count of bytes written.
pub fn nizkabel_write(board: &[u8], sheet: &[u32], copy: &mut [u8], out: &mut [u32; 1]) -> u32
    ensures { WritePromise board.now sheet.now copy.old result (get_or out.new 0 0) copy.new }
{
    let written = writer::write(board, sheet, copy);
    match written {
        Ok(count) => {
            let count = count as u32;
            *out = [count];
            0
        }
        Err(refused) => {
            *out = [0];
            refused.into()
        }
    }
}
