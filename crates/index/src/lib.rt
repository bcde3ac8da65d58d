// A sorted index beside a unit table: the types of what its functions hand back; the definitions stand in specs/ and the laws in proofs/.
#![tactic(auto)]

// What a search of one table comes to: the row, and how many names were compared.
#[derive(Clone, Copy)]
pub struct Searched {
    pub found: Option<usize>,
    pub compared: usize,
}

// What a lookup in both tables hands back: a number and a position; the table that holds the name, 1 for the hall's, 2 for the line's and 0
// for neither; its row; and how many names were compared. A refusal has zeros for these three.
#[derive(Clone, Copy)]
pub struct LookedUp {
    pub number: u8,
    pub position: usize,
    pub table: u8,
    pub row: usize,
    pub compared: usize,
}
