// The checksum and the signed numbers, which other crates are built on, by themselves.
use std::io;
use std::io::Write;
use values::Bits;

pub fn checksum(out: &mut impl Write, part: &[u8]) -> io::Result<()> {
    writeln!(out, " {}", crc::crc(part))
}

// The low 16 bits as a signed number; `as u16` cuts, as no From does.
pub fn integer(out: &mut impl Write, n: u32) -> io::Result<()> {
    writeln!(out, " {}", i16::of_bits((n % 65536) as u16))
}
