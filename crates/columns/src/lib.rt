#![tactic(auto)]

use texts::Columns;

// The columns of a body line: the first and the last position of each, counted from 1 as in the document's table.
// The text of a line goes to the last position but one.
pub const TEXT_FROM: usize = 2;

pub const ACTOR: Columns = Columns { from: 2, to: 7 };

pub const SHADOW: Columns = Columns { from: 8, to: 13 };

pub const PAN: Columns = Columns { from: 14, to: 32 };

pub const PLATE: Columns = Columns { from: 33, to: 42 };

pub const NATIONALITY: Columns = Columns { from: 43, to: 45 };

pub const TARIFF: Columns = Columns { from: 46, to: 47 };

pub const CLASS: Columns = Columns { from: 48, to: 48 };

pub const AXLES: Columns = Columns { from: 49, to: 49 };

pub const CONTEXT_MARK: Columns = Columns { from: 50, to: 61 };

pub const OBE_ID: Columns = Columns { from: 62, to: 79 };

pub const EMISSION: Columns = Columns { from: 80, to: 85 };

pub const FUEL: Columns = Columns { from: 86, to: 87 };

pub const CHARGEABLE: Columns = Columns { from: 88, to: 88 };

pub const PRODUCT_REST: Columns = Columns { from: 89, to: 91 };

pub const ENGINE: Columns = Columns { from: 92, to: 94 };

pub const CO2: Columns = Columns { from: 95, to: 96 };

pub const WEIGHT: Columns = Columns { from: 97, to: 100 };

pub const VALID_TO: Columns = Columns { from: 101, to: 114 };

pub const SEPARATOR: Columns = Columns { from: 115, to: 116 };

pub const FILLER: Columns = Columns { from: 117, to: 127 };
