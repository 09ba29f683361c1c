// The receiver of one board: a call takes bytes from a piece, answers what they complete, and hands the board on.
#![tactic(auto)]

ghost use Rattle.std.specs.Prelude.{false, cond, ◌≡◌, ◌++◌, ◌+◌, ◌≤◌, ◌<◌, eqb, ltb, length, get_or, take};
ghost use Rattle.std.proofs.lemmas.List.Edits.{sets};
ghost use Rattle.rule.specs.Run.{late};
ghost use Rattle.sheet.specs.Lengths.{longest_frame, longest_piece};
ghost use Rattle.names.specs.Names.{need};
ghost use Rattle.state.specs.State.{padded};
ghost use Rattle.state.specs.Parts.{board_at};
ghost use Rattle.state.specs.Call.{call_in, call_at, call_lent};
ghost use Rattle.receiver.specs.Receive.{Runs, Receives};

use orders::Order;
use state::{Board, Done, Refusal, Rest};
use unit::Slate;

// The bytes held and a piece behind them.
const LINE: usize = sheet::FRAME + sheet::PIECE;

// A piece, stored behind the first bytes held. Most pieces are one byte: it is stored here, where a copy of any length would be a call.
fn join(held: &mut [u8; sheet::FRAME], had: usize, piece: &[u8])
    requires { had + length piece.now ≤ longest_frame }
    ensures { held.new ≡ sets held.old had piece.now }
{
    if piece.len() == 1 {
        held[had] = piece[0];
    } else {
        wire::copy(held, had, piece);
    }
}

// The same, where they are no longer than a unit can be, and zeros behind it.
fn hold(held: &mut [u8; sheet::FRAME], had: usize, piece: &[u8])
    requires { had + length piece.now ≤ longest_frame }
    ensures { held.new ≡ padded (take had held.old ++ piece.now) }
{
    join(held, had, piece);
    let end = had + piece.len();
    held[end..].fill(0);
}

// The bytes held and the piece behind them are one line, whose first unit the bytes held begin. Where none are held, the piece is the line. Else
// all of held is copied, spare bytes too, and the piece is laid over those: in a buffer of the longest, as there is no heap.
// The arrays and the rest are passed on apart, as C lends them; piece, stamp and reply, as a call is given them: a struct of them would hold a `&mut`.
// That the piece is short stands here, in run and in the bench: a type for it would be made in receive_lent and taken apart in line.
fn run_line(
    table: &mut [u8; table::SIZE],
    held: &mut [u8; sheet::FRAME],
    rest: Rest,
    had: usize,
    piece: &[u8],
    stamp: u32,
    reply: &mut [u8],
) -> Done<Rest>
    requires { (rest.count < need (take rest.count held.old)) × (length piece.now ≤ longest_piece) × (had ≡ cond (late stamp rest.stamp) 0 rest.count) }
    ensures { Runs (board_at table.old held.old rest) stamp piece.now reply.old (call_at table.new held.new result) reply.new }
{
    let slate = Slate {
        notes: rest.notes,
        position: rest.position,
    };
    if had == 0 {
        return line::take_units(table, held, slate, piece, stamp, reply);
    }
    let mut line = [0u8; LINE];
    wire::copy(&mut line, 0, held);
    wire::copy(&mut line, had, piece);
    let end = had + piece.len();
    let mut done = line::take_units(table, held, slate, &line[..end], stamp, reply);
    done.taken -= had;
    done
}

// Whether a piece behind the bytes held, which begin a unit of that length, ends no unit.
fn is_open(had: usize, wants: usize, piece: &[u8]) -> bool
    requires { (had < wants) × (0 < length piece.now) }
    ensures { result ≡ cond (eqb had 0) (cond (eqb (get_or piece.now 0 0) 0) false (ltb (length piece.now) 4)) (ltb (had + length piece.now) wants) }
{
    if had == 0 {
        piece[0] != 0 && piece.len() < 4
    } else {
        piece.len() < wants - had
    }
}

// A main loop sees bytes one by one, and most of them end no unit: then the piece joins the bytes held where they stand, and nothing else is touched.
fn run(
    table: &mut [u8; table::SIZE],
    held: &mut [u8; sheet::FRAME],
    rest: Rest,
    wants: usize,
    piece: &[u8],
    stamp: u32,
    reply: &mut [u8],
) -> Done<Rest>
    requires { (rest.count < wants) × (wants ≡ need (take rest.count held.old)) × (length piece.now ≤ longest_piece) × (0 < length piece.now) }
    ensures { Runs (board_at table.old held.old rest) stamp piece.now reply.old (call_at table.new held.new result) reply.new }
{
    let had = clock::joined(rest.count, stamp, rest.stamp);
    if is_open(had, wants, piece) {
        hold(held, had, piece);
        let next = Rest {
            count: had + piece.len(),
            stamp,
            ..rest
        };
        return Done {
            board: next,
            taken: piece.len(),
            written: 0,
            order: Order::Nothing,
        };
    }
    run_line(table, held, rest, had, piece, stamp, reply)
}

// One call: a piece of bytes that share a stamp, and room for the replies. The board's arrays are lent, and changed where they stand.
pub fn receive_lent(
    table: &mut [u8; table::SIZE],
    held: &mut [u8; sheet::FRAME],
    rest: Rest,
    piece: &[u8],
    stamp: u32,
    reply: &mut [u8],
) -> Result<Done<Rest>, Refusal>
    ensures { Receives (board_at table.old held.old rest) stamp piece.now reply.old (call_lent table.new held.new rest result) reply.new }
{
    if sheet::PIECE < piece.len() {
        return Err(Refusal::Length);
    }
    if reply.len() < sheet::FRAME {
        return Err(Refusal::Room);
    }
    let wants = state::judge_parts(table, held, rest)?;
    if piece.is_empty() {
        return Ok(Done {
            board: rest,
            taken: 0,
            written: 0,
            order: Order::Nothing,
        });
    }
    Ok(run(table, held, rest, wants, piece, stamp, reply))
}

// The same for a program that keeps its board by value.
pub fn receive(
    board: Board,
    piece: &[u8],
    stamp: u32,
    reply: &mut [u8],
) -> Result<Done<Board>, Refusal>
    ensures { Receives board stamp piece.now reply.old (call_in board result) reply.new }
{
    let mut table = board.memory.settings.bytes;
    let mut held = board.held;
    let done = receive_lent(&mut table, &mut held, board.rest(), piece, stamp, reply)?;
    Ok(Done {
        board: Board::joined(table, held, done.board),
        taken: done.taken,
        written: done.written,
        order: done.order,
    })
}
