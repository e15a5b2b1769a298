// The sizes of the document, in bytes and in parts, and the two modes: each number once.
#![tactic(auto)]

// No file has more lines, and no register more slots.
pub const PARTS_MOST: usize = 8192;

// The HGV: its header, a line of it.
pub const HEADER: usize = 128;

pub const LINE: usize = 128;

pub const LINES_MOST: usize = PARTS_MOST;

// The footer, of either file.
pub const FOOTER: usize = 64;

// The HGC: its header, and the reason by which a line of it is longer than the HGV's.
pub const HGC_HEADER: usize = 110;

pub const REASON: usize = 2;

// The register: a slot of it, which is a record, with its LF at this position, and the stamp behind it.
pub const SLOT: usize = 168;

pub const SLOT_END: usize = 128;

pub const STAMP: usize = 40;

pub const STAMP_FROM: usize = SLOT_END + 1;

pub const SLOTS_MOST: usize = PARTS_MOST;

// The issuer rows.
pub const ROW: usize = 24;

pub const ROWS_MOST: usize = 64;

pub const TIME: usize = 14;

// The modes of an import.
pub const INCREMENTAL: u64 = 1;

pub const FULL: u64 = 2;
