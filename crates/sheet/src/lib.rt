// Sheet 01's table of blocks is a definition (specs/Sheet.antt); here is what the code of each block is held against.
#![tactic(auto)]

ghost use Rattle.std.specs.Prelude.{◌≡◌, List, ℕ};
ghost use Rattle.std.proofs.lemmas.List.Edits.{sets};
ghost use Rattle.ranges.specs.Tests.{found};
ghost use Rattle.sheet.specs.Sheet.{Row, Command};
ghost use Rattle.sheet.specs.Rows.{head_of, total, numbers_in, data_of, first_bad, fresh};
ghost use Rattle.sheet.specs.Sections.{sound_in};

pub mod names;

// The longest frame, set or answer: the least room for a reply, and one byte more than the longest unfinished unit.
pub const FRAME: usize = 93;

// The longest piece that a call takes.
pub const PIECE: usize = 250;

// What is fixed with a block: its total length, its set name and its get name.
#[derive(Clone, Copy)]
pub struct Head {
    pub total: usize,
    pub set: u32,
    pub get: u32,
}

// What a data section carries: a record, which the numbers of the fields stand for. Each names its own fields, so each has bodies of its own.
pub trait Section: Copy {
    ghost sheet_row: { Row };

    // The record of these numbers, and a record's numbers; proofs/Codec of each block has that one gives back what the other takes.
    ghost of: { List ℕ → Self };

    ghost to: { Self → List ℕ };

    fn decode(part: &[u8]) -> Self
        ensures { result ≡ of (numbers_in sheet_row part.now) };

    // The first field out of its range, or, behind all of them, 99 for a broken rule.
    fn first_bad(self) -> Option<usize>
        ensures { result ≡ found (first_bad sheet_row (to self)) };
}

// A block of the sheet: the constants fixed with it, and its record laid out as its get sends it.
pub trait Block: Section {
    ghost set: { Command };

    ghost get: { Command };

    const TOTAL: usize;

    const SET: u32;

    const GET: u32;

    ghost TOTAL: { ℕ };

    ghost SET: { ℕ };

    ghost GET: { ℕ };

    // Each block has its own `numbers` and encode: how many numbers it lays differs, and as a const parameter that would stand wherever a block is named.
    fn encode(self, out: &mut [u8])
        ensures { out.new ≡ sets out.old 0 (data_of Self.sheet_row (Self.to self)) };

    // Whether a data section is sound: its fields in their ranges, its rule kept, its reserved bytes zero. It is asked at every call, so it reads only
    // what it tests.
    fn is_sound(part: &[u8]) -> bool
        ensures { result ≡ sound_in Self.sheet_row part.now };

    // Each field 0, or the least that its range allows. Where that is all 0, it is the default; mov, eng and ctl have none, since it would not be sound.
    fn fresh() -> Self
        ensures { result ≡ Self.of (fresh Self.sheet_row) };

    // The three constants, held against the sheet.
    fn head() -> Head
        ensures { result ≡ head_of set get }
    {
        Head {
            total: Self::TOTAL,
            set: Self::SET,
            get: Self::GET,
        }
    }

    ghost total_fixed: { TOTAL ≡ total Self.sheet_row };

    ghost set_fixed: { SET ≡ set.name };

    ghost get_fixed: { GET ≡ get.name };

    ghost rows: { (set.row ≡ Self.sheet_row) × (get.row ≡ Self.sheet_row) };
}
