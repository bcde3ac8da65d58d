// What is proved of accepted unit tables: each row can be found by a text, unless the line has a row of that name before the hall's, and a
// row that nobody could type is refused. It has no code of its own.

#![tactic(auto)]
