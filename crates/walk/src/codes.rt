// The codes of the types. The walk keeps codes and no enum: frames, columns, lent stores and packed heads hold codes, and an enum between them would be converted at each of these four edges.

pub(crate) const BOOL: u8 = 1;

pub(crate) const INT: u8 = 2;

pub(crate) const DOUBLE: u8 = 3;

pub(crate) const STRING: u8 = 4;

pub(crate) const VOID: u8 = 5;
