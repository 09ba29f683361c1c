// The names that belong to no block: 01's seven orders and three refusals, and 02's zero. The first letter is the low byte.
pub const STOP: u32 = 0x706f7473;

pub const SSTP: u32 = 0x70747373;

pub const PWOF: u32 = 0x666f7770;

pub const LEFT: u32 = 0x7466656c;

pub const RIGT: u32 = 0x74676972;

pub const HOME: u32 = 0x656d6f68;

pub const LOFT: u32 = 0x74666f6c;

pub const ERRC: u32 = 0x63727265;

pub const ERRD: u32 = 0x64727265;

pub const ERRV: u32 = 0x76727265;

pub const ZERO: u32 = 0x6f72657a;
