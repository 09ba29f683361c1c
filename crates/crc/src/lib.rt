// The checksum of a data section (01, "The board and its wire").
#![tactic(auto)]

ghost use Rattle.std.specs.Prelude.{◌≡◌};
ghost use Rattle.crc.specs.Crc.{crc_byte, crc_from, crc_of};

// The step of one byte, the sheet's eight at once. The register's 16 bits are in a word of 32: then nothing has to be cut off between two bytes.
fn crc_byte(register: u32, byte: u8) -> u32
    ensures { result ≡ crc_byte register byte }
{
    let x = (register ^ u32::from(byte)) % 256;
    let mut next = register >> 8;
    // Before the shifts and not behind them: the next byte waits for all that is done here in turn.
    if x.count_ones() % 2 == 1 {
        next ^= 0xC001;
    }
    next ^ x << 6 ^ x << 7
}

// The register after a part's bytes, from the register that an earlier part left.
#[tactic(auto, using(crate::proofs::Laws::crc_more, crate::proofs::Laws::crc_ended, crate::proofs::Laws::byte_lt))]
pub fn crc_from(register: u16, part: &[u8]) -> u16
    ensures { result ≡ crc_from register part.now }
{
    let mut c = u32::from(register);
    for &byte in part {
        c = crc_byte(c, byte);
    }
    // The register has 16 bits: a TryFrom would only be unwrapped.
    c as u16
}

pub fn crc(part: &[u8]) -> u16
    ensures { result ≡ crc_of part.now }
{
    crc_from(0xFFFF, part)
}
