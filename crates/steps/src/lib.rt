// The steps of reading one part, each a function of a text and a place and of what it needs of the settings.
// Bytes are read by their index behind a test of the text's end, and runs and words are passed by loops over it: by the slices' `get`, by ranges and by
// `zip` with `eq_ignore_ascii_case` a reading of `1min 30s 250ms` took 1,394 instructions where it takes 1,227, and `61.7ms` more than half of the crate's.
#![tactic(auto)]

pub mod bytes;
pub mod connection;
pub mod delimiters;
pub mod exponent;
pub mod infinity;
pub mod letters;
pub mod number;
pub mod numeral;
pub mod sign;
pub mod unit;
