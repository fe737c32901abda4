// The tags of the fields, by the name of what they hold.
pub(crate) const EFFECTIVE: u8 = 1;

pub(crate) const TERMINATION: u8 = 2;

pub(crate) const TENOR: u8 = 3;

pub(crate) const RULE: u8 = 4;

pub(crate) const CONVENTION: u8 = 5;

pub(crate) const TERMINAL: u8 = 6;

pub(crate) const MONTHEND: u8 = 7;

pub(crate) const FIRST: u8 = 8;

pub(crate) const PENULTIMATE: u8 = 9;

pub(crate) const MASK: u8 = 10;

pub(crate) const CLOSED: u8 = 11;

// The field that ends a request.
pub(crate) const END: u8 = 255;
