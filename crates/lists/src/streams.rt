// The streams that a program starts with, by their numbers.
pub const STDIN: i32 = 0;

pub const STDOUT: i32 = 1;
