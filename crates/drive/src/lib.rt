// The drive: its report of where it stands (02, P5).
#![tactic(auto)]

ghost use Rattle.std.specs.Prelude.{◌≡◌};
ghost use Rattle.state.specs.Refused.{report_in};
ghost use Rattle.drive.specs.Report.{reported};

use position::Position;
use sheet::Section;
use state::{Board, Refusal};
use unit::Memory;

// One report of the position: it is the one reported, and all else stays; a refused one changes nothing.
pub fn report_position(board: Board, position: Position) -> Result<Board, Refusal>
    ensures { report_in board result ≡ reported board position }
{
    board.judge()?;
    if position.first_bad().is_some() {
        return Err(Refusal::Range);
    }
    let memory = Memory {
        position,
        ..board.memory
    };
    Ok(Board { memory, ..board })
}
