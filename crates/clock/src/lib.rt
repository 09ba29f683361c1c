// The time: how long a wait is, and a report of the time to the board (02, P3).
#![tactic(auto)]

ghost use Rattle.std.specs.Prelude.{◌≡◌, if◌then◌else◌};
ghost use Rattle.rule.specs.Run.{late};
ghost use Rattle.state.specs.Refused.{report_in};
ghost use Rattle.clock.specs.Report.{reported};

use state::{Board, Refusal};

// "The wait is the later stamp minus the earlier one", more than 400. Calls and reports share it.
#[tactic(auto, unfolding(rule::specs::Run::late, rule::specs::Run::wait))]
pub fn is_late(later: u32, earlier: u32) -> bool
    ensures { result ≡ late later earlier }
{
    400 < later.wrapping_sub(earlier)
}

// How many of the bytes held the next byte joins: none where the wait drops them.
pub fn joined(count: usize, later: u32, earlier: u32) -> usize
    ensures { result ≡ (if late later earlier then 0 else count) }
{
    if is_late(later, earlier) { 0 } else { count }
}

// One report of the time: what is unfinished is dropped where its last byte is too long ago.
pub fn report_time(board: Board, now: u32) -> Result<Board, Refusal>
    ensures { report_in board result ≡ reported board now }
{
    board.judge()?;
    if 0 < board.count && is_late(now, board.stamp) {
        return Ok(Board::idle(board.memory, board.stamp));
    }
    Ok(board)
}
