// For the flash writer (02, P10): the settings handed out as one run of bytes, and a board of stored ones.
#![tactic(auto)]

ghost use Rattle.std.specs.Prelude.{◌≡◌, length};
ghost use Rattle.unit.specs.Protocol.{fresh_state};
ghost use Rattle.state.specs.State.{board_of};
ghost use Rattle.state.specs.Refused.{number_in, report_in};
ghost use Rattle.flash.specs.Flash.{out_number, handed, taken_back};

use state::{Board, Refusal};
use table::Table;
use unit::Memory;

// The table of a board's settings, written to the front of out; a refusal writes nothing.
#[tactic(auto, using(state::proofs::Refused::judged_ok, crate::proofs::Cases::out_handed))]
pub fn hand_out(board: Board, out: &mut [u8]) -> Result<(), Refusal>
    ensures { (number_in result ≡ out_number board (length out.old)) × (out.new ≡ handed board out.old) }
{
    if out.len() < table::SIZE {
        return Err(Refusal::Room);
    }
    board.judge()?;
    wire::copy(out, 0, &board.memory.settings.bytes);
    Ok(())
}

// A board of a stored table, and all else fresh.
pub fn take_back(bytes: &[u8]) -> Result<Board, Refusal>
    ensures { report_in (board_of fresh_state) result ≡ taken_back bytes.now }
{
    let Ok(bytes) = <[u8; table::SIZE]>::try_from(bytes) else {
        return Err(Refusal::Length);
    };
    let fresh = Board::fresh();
    let memory = Memory {
        settings: Table { bytes },
        ..fresh.memory
    };
    let taken = Board { memory, ..fresh };
    taken.judge()?;
    Ok(taken)
}
