// The fields of a block as C and Rust link them: the functions of the crate views, with their clauses (target/staticlib/libviews.a).
// One function for each name of C, which takes no type parameter; each calls the library's of its name, since a crate is a library or an archive.
#![tactic(auto)]

ghost use Rattle.std.specs.Prelude.{◌≡◌};
ghost use Rattle.table.specs.Table.{numbers_of};
ghost use Rattle.mov.specs.Mov.{mov_of};
ghost use Rattle.eng.specs.Eng.{eng_of};
ghost use Rattle.pwr.specs.Pwr.{pwr_of};
ghost use Rattle.eds.specs.Eds.{eds_of};
ghost use Rattle.hom.specs.Hom.{hom_of};
ghost use Rattle.brk.specs.Brk.{brk_of};
ghost use Rattle.pid.specs.Pid.{pid_of};
ghost use Rattle.ctl.specs.Ctl.{ctl_of};
ghost use Rattle.joy.specs.Joy.{joy_of};

use brk::Brk;
use ctl::Ctl;
use eds::Eds;
use eng::Eng;
use hom::Hom;
use joy::Joy;
use mov::Mov;
use pid::Pid;
use pwr::Pwr;

#[unsafe(no_mangle)]
pub extern "C" fn rivertosku_mov_4(bytes: &[u8]) -> Mov
    ensures { result ≡ mov_of (numbers_of bytes.now 1) }
{
    views::rivertosku_mov_4(bytes)
}

#[unsafe(no_mangle)]
pub extern "C" fn rivertosku_eng_4(bytes: &[u8]) -> Eng
    ensures { result ≡ eng_of (numbers_of bytes.now 2) }
{
    views::rivertosku_eng_4(bytes)
}

#[unsafe(no_mangle)]
pub extern "C" fn rivertosku_pwr_4(bytes: &[u8]) -> Pwr
    ensures { result ≡ pwr_of (numbers_of bytes.now 3) }
{
    views::rivertosku_pwr_4(bytes)
}

#[unsafe(no_mangle)]
pub extern "C" fn rivertosku_eds_4(bytes: &[u8]) -> Eds
    ensures { result ≡ eds_of (numbers_of bytes.now 4) }
{
    views::rivertosku_eds_4(bytes)
}

#[unsafe(no_mangle)]
pub extern "C" fn rivertosku_hom_4(bytes: &[u8]) -> Hom
    ensures { result ≡ hom_of (numbers_of bytes.now 5) }
{
    views::rivertosku_hom_4(bytes)
}

#[unsafe(no_mangle)]
pub extern "C" fn rivertosku_brk_4(bytes: &[u8]) -> Brk
    ensures { result ≡ brk_of (numbers_of bytes.now 6) }
{
    views::rivertosku_brk_4(bytes)
}

#[unsafe(no_mangle)]
pub extern "C" fn rivertosku_pid_4(bytes: &[u8]) -> Pid
    ensures { result ≡ pid_of (numbers_of bytes.now 7) }
{
    views::rivertosku_pid_4(bytes)
}

#[unsafe(no_mangle)]
pub extern "C" fn rivertosku_ctl_4(bytes: &[u8]) -> Ctl
    ensures { result ≡ ctl_of (numbers_of bytes.now 11) }
{
    views::rivertosku_ctl_4(bytes)
}

#[unsafe(no_mangle)]
pub extern "C" fn rivertosku_joy_4(bytes: &[u8]) -> Joy
    ensures { result ≡ joy_of (numbers_of bytes.now 12) }
{
    views::rivertosku_joy_4(bytes)
}
