// The host's own record of the seven blocks, as the flat exports hand them over. The board's settings are no part of it.
#![tactic(auto)]

ghost use Rattle.std.specs.Prelude.{◌≡◌};
ghost use Rattle.blocks.specs.Blocks.{fields_at, fresh_blocks, blocks_with};

use brk::Brk;
use eds::Eds;
use eng::Eng;
use fields::Fields;
use hom::Hom;
use host::Block;
use mov::Mov;
use pid::Pid;
use pwr::Pwr;
use sheet::Block as _;

#[repr(C)]
#[derive(Clone, Copy)]
pub struct Blocks {
    pub mov: Mov,
    pub eng: Eng,
    pub pwr: Pwr,
    pub eds: Eds,
    pub hom: Hom,
    pub brk: Brk,
    pub pid: Pid,
}

impl Blocks {
    // The fields that a block has among the seven.
    pub fn fields_at(self, block: Block) -> Fields
        ensures { result ≡ fields_at self block }
    {
        match block {
            Block::Mov => Fields::Mov(self.mov),
            Block::Eng => Fields::Eng(self.eng),
            Block::Pwr => Fields::Pwr(self.pwr),
            Block::Eds => Fields::Eds(self.eds),
            Block::Hom => Fields::Hom(self.hom),
            Block::Brk => Fields::Brk(self.brk),
            Block::Pid => Fields::Pid(self.pid),
        }
    }

    // Every field is 0, or the smallest allowed value where 0 is not allowed.
    pub fn fresh() -> Blocks
        ensures { result ≡ fresh_blocks }
    {
        Blocks {
            mov: Mov::fresh(),
            eng: Eng::fresh(),
            pwr: Pwr::fresh(),
            eds: Eds::fresh(),
            hom: Hom::fresh(),
            brk: Brk::fresh(),
            pid: Pid::fresh(),
        }
    }

    // Fresh but for one block.
    pub fn with_fields(fields: Fields) -> Blocks
        ensures { result ≡ blocks_with fields }
    {
        let fresh = Blocks::fresh();
        match fields {
            Fields::Mov(mov) => Blocks { mov, ..fresh },
            Fields::Eng(eng) => Blocks { eng, ..fresh },
            Fields::Pwr(pwr) => Blocks { pwr, ..fresh },
            Fields::Eds(eds) => Blocks { eds, ..fresh },
            Fields::Hom(hom) => Blocks { hom, ..fresh },
            Fields::Brk(brk) => Blocks { brk, ..fresh },
            Fields::Pid(pid) => Blocks { pid, ..fresh },
        }
    }
}
