// The static library for programs in C, C++ and Rust: the operations of `nizkabel` under C's calling convention, and nothing else.
// include/nizkabel.h declares them. A slice is a pointer and a count of elements, an array a pointer. Each promise is the operation's own.
// They stand apart from `nizkabel`, since a crate is a library for Rattle or one for C.
#![tactic(auto)]

ghost use Rattle.std.specs.Prelude.{get_or};
ghost use Rattle.exam.specs.Operations.{KeyPromise, CollapsePromise, MarkPromise};
ghost use Rattle.replay.specs.Operation.{ReplayPromise};
ghost use Rattle.writer.specs.Operation.{WritePromise};

// The key of the board: out[0] is the count of words in the plan, out[1] the count of carriers in the list, out[2] the search count.
#[unsafe(no_mangle)]
pub extern "C" fn nizkabel_key(
    board: &[u8],
    plan: &mut [u16],
    list: &mut [u16],
    out: &mut [u32; 3],
) -> u32
    ensures { KeyPromise board.now plan.old list.old result (get_or out.new 0 0) (get_or out.new 1 0) (get_or out.new 2 0) plan.new list.new }
{
    nizkabel::nizkabel_key(board, plan, list, out)
}

// The collapse of the board: out[0] is the count of carriers in the list.
#[unsafe(no_mangle)]
pub extern "C" fn nizkabel_collapse(board: &[u8], list: &mut [u16], out: &mut [u32; 1]) -> u32
    ensures { CollapsePromise board.now list.old result (get_or out.new 0 0) list.new }
{
    nizkabel::nizkabel_collapse(board, list, out)
}

// The number of a candidate's sheet.
#[unsafe(no_mangle)]
pub extern "C" fn nizkabel_mark(board: &[u8], sheet: &[u16]) -> u32
    ensures { MarkPromise board.now sheet.now result }
{
    nizkabel::nizkabel_mark(board, sheet)
}

// The replay of a move log: out[0] is the count of moves done.
#[unsafe(no_mangle)]
pub extern "C" fn nizkabel_replay(
    board: &[u8],
    log: &[u16],
    sheet: &mut [u32],
    out: &mut [u64; 1],
) -> u32
    ensures { ReplayPromise board.now log.now sheet.old result (get_or out.new 0 0) sheet.new }
{
    nizkabel::nizkabel_replay(board, log, sheet, out)
}

// The fair copy of the board with a position sheet: out[0] is the count of bytes written.
#[unsafe(no_mangle)]
pub extern "C" fn nizkabel_write(
    board: &[u8],
    sheet: &[u32],
    copy: &mut [u8],
    out: &mut [u32; 1],
) -> u32
    ensures { WritePromise board.now sheet.now copy.old result (get_or out.new 0 0) copy.new }
{
    nizkabel::nizkabel_write(board, sheet, copy, out)
}
