//! The columns of the confirmation: the first and the last position of each, counted from 1 as in the document's tables.

use texts::Columns;

// The header.
pub const HEADER_TYPE: Columns = Columns { from: 1, to: 1 };

pub const SENDER: Columns = Columns { from: 2, to: 7 };

pub const RECEIVER: Columns = Columns { from: 8, to: 13 };

pub const SEQUENCE: Columns = Columns { from: 14, to: 32 };

pub const RECEPTION: Columns = Columns { from: 33, to: 46 };

pub const TAKEN: Columns = Columns { from: 47, to: 61 };

pub const REJECTED: Columns = Columns { from: 62, to: 76 };

pub const VERSION: Columns = Columns { from: 77, to: 82 };

pub const FILLER: Columns = Columns { from: 83, to: 107 };

pub const OUTCOME: Columns = Columns { from: 108, to: 109 };

pub const HEADER_END: Columns = Columns { from: 110, to: 110 };

// A line; its text stands where it stood in the HGV, its reason from the position on that the HGV's line ends at, and LF behind.
pub const LINE_TYPE: Columns = Columns { from: 1, to: 1 };
