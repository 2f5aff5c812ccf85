// Usable room: what is lent beyond it is neither read nor changed.
pub const RECORDS: usize = 4096;

pub const XY_WORDS: usize = 131072;

// The words of each pool but xy's.
pub const POOL_WORDS: usize = 65536;

pub const LOG_RECORDS: usize = 1048576;

pub const PROPERTY_BYTES: usize = 65536;

// The last level at which a part is read; the root is at level 1 (SPEC 7.4).
pub const LEVELS: u8 = 16;
