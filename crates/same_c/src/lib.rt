// The comparison of two boards as C and Rust link it: the function of the crate same, with its clause (target/staticlib/libsame.a).
// It calls the library's of its name, since a crate is a library or an archive.
#![tactic(auto)]

ghost use Rattle.std.specs.Prelude.{◌≡◌};
ghost use Rattle.same.specs.Same.{compared_as};

use state::Board;

// 3 where one of them is not sound, else 0 where two boards are the same, and 1 where they are not. The name ends in the layout's number, as the
// board's functions have it.
#[unsafe(no_mangle)]
pub extern "C" fn rivertosku_same_4(a: Board, b: Board) -> u8
    ensures { result ≡ compared_as a b }
{
    same::rivertosku_same_4(a, b)
}
