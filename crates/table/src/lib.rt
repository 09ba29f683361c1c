// The settings as one run of bytes (02, P10): the data sections of the blocks in number order, each as its get sends it. A block is asked for by its
// number and not by an enum, since every number is answered: one of no block has an empty section behind the last.
#![tactic(auto)]

ghost use Rattle.std.specs.Prelude.{◌≡◌, take, drop};
ghost use Rattle.std.proofs.lemmas.List.Edits.{sets};
ghost use Rattle.ranges.specs.Tests.{found};
ghost use Rattle.sheet.specs.Sheet.{sheet};
ghost use Rattle.sheet.specs.Rows.{row_at, size_of, numbers_in, first_bad};
ghost use Rattle.sheet.specs.Sections.{bad_in};
ghost use Rattle.table.specs.Places.{place_in, spot_in, section_in, put_in};
ghost use Rattle.table.specs.Table.{all_good, fresh_table};

use brk::Brk;
use ctl::Ctl;
use eds::Eds;
use eng::Eng;
use hom::Hom;
use joy::Joy;
use mov::Mov;
use pid::Pid;
use pwr::Pwr;
use sheet::{Block, Section};

// How long it is.
pub const SIZE: usize = 277;

#[repr(C)]
#[derive(Clone, Copy, PartialEq, Eq)]
pub struct Table {
    pub bytes: [u8; SIZE],
}

// Where a block's section stands, how many bytes its fields take, and how many are reserved behind them.
#[derive(Clone, Copy)]
pub struct Spot {
    pub place: usize,
    pub fields: usize,
    pub reserved: usize,
}

fn standing(place: usize, fields: usize, reserved: usize) -> Spot
    ensures { result ≡ record { place = place; fields = fields; reserved = reserved } }
{
    Spot {
        place,
        fields,
        reserved,
    }
}

fn spot_of(number: usize) -> Spot
    ensures { result ≡ spot_in sheet number }
{
    match number {
        1 => standing(0, 14, 10),
        2 => standing(24, 16, 12),
        3 => standing(52, 8, 6),
        4 => standing(66, 14, 6),
        5 => standing(86, 18, 9),
        6 => standing(113, 9, 10),
        7 => standing(132, 18, 24),
        11 => standing(174, 78, 9),
        12 => standing(261, 9, 7),
        _ => standing(277, 0, 0),
    }
}

// The first field out of its range in a data section that carries an S; behind all ranges 99, for a broken rule.
fn bad_of<S: Section>(section: &[u8]) -> Option<usize>
    ensures { result ≡ found (first_bad S.sheet_row (S.to (S.of (numbers_in S.sheet_row section.now)))) }
{
    S::decode(section).first_bad()
}

// The same by the block's number; none for a number of no block.
pub fn bad_in(number: usize, section: &[u8]) -> Option<usize>
    ensures { result ≡ found (bad_in (row_at number) section.now) }
{
    match number {
        1 => bad_of::<Mov>(section),
        2 => bad_of::<Eng>(section),
        3 => bad_of::<Pwr>(section),
        4 => bad_of::<Eds>(section),
        5 => bad_of::<Hom>(section),
        6 => bad_of::<Brk>(section),
        7 => bad_of::<Pid>(section),
        11 => bad_of::<Ctl>(section),
        12 => bad_of::<Joy>(section),
        _ => None,
    }
}

// The n bytes from a place on, as far as they are there.
pub fn part(bytes: &[u8], at: usize, n: usize) -> &[u8]
    ensures { result.now ≡ take n (drop at bytes.now) }
{
    let rest = &bytes[at.min(bytes.len())..];
    &rest[..n.min(rest.len())]
}

// Whether these bytes are a sound table: of its length, every field in its range, every reserved byte zero. By places and not by `section`, since it is
// asked at every call.
pub fn is_sound(bytes: &[u8]) -> bool
    ensures { result ≡ all_good (record { bytes = bytes.entry.now }) }
{
    (bytes.len() == SIZE)
        & (Mov::is_sound(part(bytes, 0, 24))
            & (Eng::is_sound(part(bytes, 24, 28))
                & (Pwr::is_sound(part(bytes, 52, 14))
                    & (Eds::is_sound(part(bytes, 66, 20))
                        & (Hom::is_sound(part(bytes, 86, 27))
                            & (Brk::is_sound(part(bytes, 113, 19))
                                & (Pid::is_sound(part(bytes, 132, 42))
                                    & (Ctl::is_sound(part(bytes, 174, 87))
                                        & Joy::is_sound(part(bytes, 261, 16))))))))))
}

impl Table {
    // Zeros, but for the fields that have to be more: mov's Accel and Decel, eng's NomCurrent, NomSpeed, MicrostepMode and StepsPerRev,
    // ctl's first speed. Not laid out of each block's fresh: nine encodes for seven bytes are no plainer.
    pub fn fresh() -> Table
        ensures { result ≡ fresh_table }
    {
        let mut t = [0u8; SIZE];
        t[5] = 1;
        t[7] = 1;
        t[26] = 15;
        t[28] = 1;
        t[37] = 1;
        t[38] = 1;
        t[174] = 1;
        Table { bytes: t }
    }
}

// A data section put into the block of this number: the bytes of its fields, and zeros in the reserved part.
pub fn put(table: &mut [u8; SIZE], number: usize, section: &[u8])
    ensures { table.new ≡ put_in sheet table.old number section.now }
{
    let spot = spot_of(number);
    let n = spot.fields.min(section.len());
    wire::copy(table, spot.place, &section[..n]);
    table[spot.place + n..spot.place + spot.fields + spot.reserved].fill(0);
}

// The data section of the block of this number, where it stands in a table's bytes, as far as they go.
#[tactic(auto, using(crate::proofs::Spots::spot_size))]
pub fn section(bytes: &[u8], number: usize) -> &[u8]
    ensures { result.now ≡ take (size_of (row_at number)) (drop (place_in sheet number) bytes.now) }
{
    let spot = spot_of(number);
    part(bytes, spot.place, spot.fields + spot.reserved)
}

// The same at the front of out.
#[tactic(auto, using(crate::proofs::Spots::section_whole))]
pub fn get(table: &[u8; SIZE], number: usize, out: &mut [u8])
    ensures { out.new ≡ sets out.old 0 (section_in sheet table.now number) }
{
    wire::copy(out, 0, section(table, number));
}
