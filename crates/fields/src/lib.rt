// The fields of one of the host's blocks, whichever it is: by matches, which have an arm for each block there is.
#![tactic(auto)]

ghost use Rattle.std.specs.Prelude.{◌≡◌};
ghost use Rattle.std.proofs.lemmas.List.Edits.{sets};
ghost use Rattle.ranges.specs.Tests.{found};
ghost use Rattle.fields.specs.Fields.{block_of, first_bad_of, section_of, fields_in};

use brk::Brk;
use eds::Eds;
use eng::Eng;
use hom::Hom;
use host::Block;
use mov::Mov;
use pid::Pid;
use pwr::Pwr;
use sheet::{Block as _, Section};

#[derive(Clone, Copy)]
pub enum Fields {
    Mov(Mov),
    Eng(Eng),
    Pwr(Pwr),
    Eds(Eds),
    Hom(Hom),
    Brk(Brk),
    Pid(Pid),
}

impl Fields {
    // The fields that a data section of a block holds.
    pub fn decode(block: Block, section: &[u8]) -> Fields
        ensures { result ≡ fields_in block section.now }
    {
        match block {
            Block::Mov => Fields::Mov(Mov::decode(section)),
            Block::Eng => Fields::Eng(Eng::decode(section)),
            Block::Pwr => Fields::Pwr(Pwr::decode(section)),
            Block::Eds => Fields::Eds(Eds::decode(section)),
            Block::Hom => Fields::Hom(Hom::decode(section)),
            Block::Brk => Fields::Brk(Brk::decode(section)),
            Block::Pid => Fields::Pid(Pid::decode(section)),
        }
    }

    pub fn block(self) -> Block
        ensures { result ≡ block_of self }
    {
        match self {
            Fields::Mov(_) => Block::Mov,
            Fields::Eng(_) => Block::Eng,
            Fields::Pwr(_) => Block::Pwr,
            Fields::Eds(_) => Block::Eds,
            Fields::Hom(_) => Block::Hom,
            Fields::Brk(_) => Block::Brk,
            Fields::Pid(_) => Block::Pid,
        }
    }

    // The number of the first field out of its range: the board's own test.
    pub fn first_bad(self) -> Option<usize>
        ensures { result ≡ found (first_bad_of self) }
    {
        match self {
            Fields::Mov(x) => x.first_bad(),
            Fields::Eng(x) => x.first_bad(),
            Fields::Pwr(x) => x.first_bad(),
            Fields::Eds(x) => x.first_bad(),
            Fields::Hom(x) => x.first_bad(),
            Fields::Brk(x) => x.first_bad(),
            Fields::Pid(x) => x.first_bad(),
        }
    }

    // The data section, at the front of out.
    pub fn encode(self, out: &mut [u8])
        ensures { out.new ≡ sets out.old 0 (section_of self) }
    {
        match self {
            Fields::Mov(x) => x.encode(out),
            Fields::Eng(x) => x.encode(out),
            Fields::Pwr(x) => x.encode(out),
            Fields::Eds(x) => x.encode(out),
            Fields::Hom(x) => x.encode(out),
            Fields::Brk(x) => x.encode(out),
            Fields::Pid(x) => x.encode(out),
        }
    }
}
