// The fields of a block, read out of a table: for C and Rust, in an archive of its own (views_c), as same_c is. Past the end of a shorter table stand zeros.
// One function for each block, since C calls each by a name of its own; `fields` reads them all.
#![tactic(auto)]

ghost use Rattle.std.specs.Prelude.{◌≡◌};
ghost use Rattle.sheet.specs.Rows.{row_at};
ghost use Rattle.table.specs.Table.{numbers_of};
ghost use Rattle.mov.specs.Mov.{mov_of};
ghost use Rattle.eng.specs.Eng.{eng_of};
ghost use Rattle.pwr.specs.Pwr.{pwr_of};
ghost use Rattle.eds.specs.Eds.{eds_of};
ghost use Rattle.hom.specs.Hom.{hom_of};
ghost use Rattle.brk.specs.Brk.{brk_of};
ghost use Rattle.pid.specs.Pid.{pid_of};
ghost use Rattle.ctl.specs.Ctl.{ctl_of};
ghost use Rattle.joy.specs.Joy.{joy_of};

use brk::Brk;
use ctl::Ctl;
use eds::Eds;
use eng::Eng;
use hom::Hom;
use joy::Joy;
use mov::Mov;
use pid::Pid;
use pwr::Pwr;
use sheet::Section;

// The fields of the block of this number, which an S carries.
fn fields<S: Section>(bytes: &[u8], number: usize) -> S
    requires { S.sheet_row ≡ row_at number }
    ensures { result ≡ S.of (numbers_of bytes.now number) }
{
    S::decode(table::section(bytes, number))
}

pub fn rivertosku_mov_4(bytes: &[u8]) -> Mov
    ensures { result ≡ mov_of (numbers_of bytes.now 1) }
{
    fields(bytes, 1)
}

pub fn rivertosku_eng_4(bytes: &[u8]) -> Eng
    ensures { result ≡ eng_of (numbers_of bytes.now 2) }
{
    fields(bytes, 2)
}

pub fn rivertosku_pwr_4(bytes: &[u8]) -> Pwr
    ensures { result ≡ pwr_of (numbers_of bytes.now 3) }
{
    fields(bytes, 3)
}

pub fn rivertosku_eds_4(bytes: &[u8]) -> Eds
    ensures { result ≡ eds_of (numbers_of bytes.now 4) }
{
    fields(bytes, 4)
}

pub fn rivertosku_hom_4(bytes: &[u8]) -> Hom
    ensures { result ≡ hom_of (numbers_of bytes.now 5) }
{
    fields(bytes, 5)
}

pub fn rivertosku_brk_4(bytes: &[u8]) -> Brk
    ensures { result ≡ brk_of (numbers_of bytes.now 6) }
{
    fields(bytes, 6)
}

pub fn rivertosku_pid_4(bytes: &[u8]) -> Pid
    ensures { result ≡ pid_of (numbers_of bytes.now 7) }
{
    fields(bytes, 7)
}

pub fn rivertosku_ctl_4(bytes: &[u8]) -> Ctl
    ensures { result ≡ ctl_of (numbers_of bytes.now 11) }
{
    fields(bytes, 11)
}

pub fn rivertosku_joy_4(bytes: &[u8]) -> Joy
    ensures { result ≡ joy_of (numbers_of bytes.now 12) }
{
    fields(bytes, 12)
}
