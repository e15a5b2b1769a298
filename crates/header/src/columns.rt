//! The columns of the header: the first and the last position of each, counted from 1 as in the document's table.

use texts::Columns;

pub const HEADER_TYPE: Columns = Columns { from: 1, to: 1 };

pub const SENDER: Columns = Columns { from: 2, to: 7 };

pub const RECEIVER: Columns = Columns { from: 8, to: 13 };

pub const SEQUENCE: Columns = Columns { from: 14, to: 32 };

pub const PREVIOUS: Columns = Columns { from: 33, to: 51 };

pub const ZEROS: Columns = Columns { from: 52, to: 65 };

pub const COUNT: Columns = Columns { from: 66, to: 80 };

pub const CREATION: Columns = Columns { from: 81, to: 94 };

pub const VERSION: Columns = Columns { from: 95, to: 100 };

pub const FILLER: Columns = Columns { from: 101, to: 127 };

pub const HEADER_END: Columns = Columns {
    from: sizes::HEADER,
    to: sizes::HEADER,
};
