// Numbers on the wire, low byte first: read and written at any place of a slice, laid one behind the other. Every function answers
// every input: a byte past the end reads as 0, and a store past the end is none.
#![tactic(auto)]

ghost use Rattle.std.specs.Prelude.{◌≡◌, ℕ, ◌^◌, ◌<◌, refl};
ghost use Rattle.std.specs.Float.{binary32};
ghost use Rattle.std.specs.Float.Ieee.{of_bits, to_bits};
ghost use Rattle.std.specs.Int.{w16, w32, w64};
ghost use Rattle.std.proofs.Common.{to_z, of_z, ap};
ghost use Rattle.std.proofs.lemmas.Int.{of_z-to_z};
ghost use Rattle.values.proofs.Values.{same_float};
ghost use Rattle.std.proofs.lemmas.List.Edits.{sets};
ghost use Rattle.wire.specs.Numbers.{le_at, le_bytes};
ghost use Rattle.wire.specs.Layout.{laid};

use std::array;
use values::Bits;

// ---- reading

// N bytes from a place on, in an array. Where all are there, they are read together. Past the end stand zeros, and then the bytes are read one by one: a
// copy of so few would be a call, with an array of its own on the stack at every read.
#[tactic(auto, using(crate::proofs::Numbers::le_at_take, crate::proofs::Numbers::le_at_rest))]
fn bytes_at<const N: usize>(s: &[u8], at: usize) -> [u8; N]
    ensures { le_at N 0 result ≡ le_at N at s.now }
{
    let rest = &s[at.min(s.len())..];
    match rest.split_first_chunk() {
        Some((bytes, _)) => *bytes,
        None => array::from_fn(|k| rest.get(k).copied().unwrap_or(0)),
    }
}

// A number as it stands on the wire, low byte first: in how many bytes, what number of no sign stands for it, and back.
pub trait Number: Copy {
    const WIDTH: usize;

    ghost WIDTH: { ℕ };

    ghost stands_for: { ℕ → Self };

    ghost on_wire: { Self → ℕ };

    fn read(s: &[u8], at: usize) -> Self
        ensures { result ≡ stands_for (le_at WIDTH at s.now) };

    fn number(self) -> u64
        ensures { result ≡ on_wire self };

    // What was read is sent as a number that stands for the same.
    ghost back: { (n : ℕ) → n < 256 ^ WIDTH → stands_for (on_wire (stands_for n)) ≡ stands_for n };
}

// An impl for each type, since `rt ci` refuses an impl that a macro of the repository writes.
impl Number for u8 {
    const WIDTH: usize = 1;

    ghost WIDTH = { 1 };

    ghost stands_for = { λ n. n };

    ghost on_wire = { λ n. n };

    #[tactic(auto, using(crate::proofs::Numbers::read_1))]
    fn read(s: &[u8], at: usize) -> u8 {
        u8::from_le_bytes(bytes_at(s, at))
    }

    fn number(self) -> u64 {
        u64::from(self)
    }

    ghost back = { λ n h. refl };
}

impl Number for u16 {
    const WIDTH: usize = 2;

    ghost WIDTH = { 2 };

    ghost stands_for = { λ n. n };

    ghost on_wire = { λ n. n };

    #[tactic(auto, using(crate::proofs::Numbers::read_2))]
    fn read(s: &[u8], at: usize) -> u16 {
        u16::from_le_bytes(bytes_at(s, at))
    }

    fn number(self) -> u64 {
        u64::from(self)
    }

    ghost back = { λ n h. refl };
}

impl Number for u32 {
    const WIDTH: usize = 4;

    ghost WIDTH = { 4 };

    ghost stands_for = { λ n. n };

    ghost on_wire = { λ n. n };

    #[tactic(auto, using(crate::proofs::Numbers::read_4))]
    fn read(s: &[u8], at: usize) -> u32 {
        u32::from_le_bytes(bytes_at(s, at))
    }

    fn number(self) -> u64 {
        u64::from(self)
    }

    ghost back = { λ n h. refl };
}

impl Number for u64 {
    const WIDTH: usize = 8;

    ghost WIDTH = { 8 };

    ghost stands_for = { λ n. n };

    ghost on_wire = { λ n. n };

    #[tactic(auto, using(crate::proofs::Numbers::read_8))]
    fn read(s: &[u8], at: usize) -> u64 {
        u64::from_le_bytes(bytes_at(s, at))
    }

    fn number(self) -> u64 {
        self
    }

    ghost back = { λ n h. refl };
}

impl Number for i16 {
    const WIDTH: usize = 2;

    ghost WIDTH = { 2 };

    ghost stands_for = { to_z w16 };

    ghost on_wire = { of_z w16 };

    fn read(s: &[u8], at: usize) -> i16 {
        i16::of_bits(u16::read(s, at))
    }

    fn number(self) -> u64 {
        u64::from(self.bits())
    }

    ghost back = { λ n h. ap (to_z w16) (of_z-to_z w16 n h) };
}

impl Number for i32 {
    const WIDTH: usize = 4;

    ghost WIDTH = { 4 };

    ghost stands_for = { to_z w32 };

    ghost on_wire = { of_z w32 };

    fn read(s: &[u8], at: usize) -> i32 {
        i32::of_bits(u32::read(s, at))
    }

    fn number(self) -> u64 {
        u64::from(self.bits())
    }

    ghost back = { λ n h. ap (to_z w32) (of_z-to_z w32 n h) };
}

impl Number for i64 {
    const WIDTH: usize = 8;

    ghost WIDTH = { 8 };

    ghost stands_for = { to_z w64 };

    ghost on_wire = { of_z w64 };

    fn read(s: &[u8], at: usize) -> i64 {
        i64::of_bits(u64::read(s, at))
    }

    fn number(self) -> u64 {
        self.bits()
    }

    ghost back = { λ n h. ap (to_z w64) (of_z-to_z w64 n h) };
}

impl Number for f32 {
    const WIDTH: usize = 4;

    ghost WIDTH = { 4 };

    ghost stands_for = { of_bits binary32 };

    ghost on_wire = { to_bits binary32 };

    fn read(s: &[u8], at: usize) -> f32 {
        f32::of_bits(u32::read(s, at))
    }

    fn number(self) -> u64 {
        u64::from(self.bits())
    }

    ghost back = { same_float };
}

// ---- writing

// The w bytes of v from a place on: one writer for every width, also beyond the eight of `to_le_bytes`. `as u8` cuts, as no From does.
#[tactic(auto, using(crate::proofs::Stores::sets_past))]
pub fn put(out: &mut [u8], at: usize, w: usize, v: u64)
    ensures { out.new ≡ sets out.old at (le_bytes w v) }
{
    if out.len() <= at {
        return;
    }
    let n = w.min(out.len() - at);
    let part = &mut out[at..at + n];
    let mut x = v;
    for place in part {
        *place = (x % 256) as u8;
        x /= 256;
    }
}

// Numbers one behind the other from the front on, each in its width; a width without a number is zeros. Two lists and no pairs: the widths are a block's
// constant, the numbers its fields, and the last width has none. By index, since a zip would end with the numbers.
#[tactic(auto, using(crate::proofs::Laid::lay_step, crate::proofs::Laid::lay_last, crate::proofs::Laid::lay_end))]
pub fn lay(out: &mut [u8], ws: &[usize], vs: &[u64])
    ensures { out.new ≡ sets out.old 0 (laid ws.now vs.now) }
{
    let mut at = 0;
    for (k, &w) in ws.iter().enumerate() {
        put(out, at, w, vs.get(k).copied().unwrap_or(0));
        if out.len() - at <= w {
            return;
        }
        at += w;
    }
}

// The bytes of a part from a place on, as many as fit. Byte by byte, which the compiler makes one memcpy: with `copy_from_slice` an archive would ask
// for memmove besides, which a board's C library need not have.
#[tactic(auto, using(crate::proofs::Stores::sets_past))]
pub fn copy(out: &mut [u8], at: usize, part: &[u8])
    ensures { out.new ≡ sets out.old at part.now }
{
    if out.len() <= at {
        return;
    }
    let n = part.len().min(out.len() - at);
    for k in 0..n {
        out[at + k] = part[k];
    }
}
