// What a word of `words` stands for.

// A function value is its body and the cell of the environment where it was made; 0 is the empty environment. The environment of a recursive
// function is the cell that holds the function itself.
#[derive(Clone, Copy)]
pub enum Value {
    Bool(bool),
    Num(u16),
    Fun { body: u16, env: u16 },
}

// The papers' stops 17 to 22 and 36, in this order, each with the term that stops. Only a run over intervals has 36.
#[derive(Clone, Copy)]
pub enum Stop {
    Check(u16),
    Stuck(u16),
    OpenCalls(u16),
    Calls(u16),
    Cells(u16),
    Posts(u16),
    Undecided(u16),
}
