// Patterns that have a name.
pub const ZERO: u64 = 0;

pub const ONE: u64 = 0x3ff0_0000_0000_0000;

// The bit for the sign.
pub const SIGN: u64 = 1 << 63;

pub const INFINITY: u64 = 0x7ff0_0000_0000_0000;

pub const MINUS_INFINITY: u64 = SIGN | INFINITY;

pub const NAN: u64 = 0x7ff8_0000_0000_0000;
