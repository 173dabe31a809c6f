// Captures whose findings are known beforehand. That the definitions yield them is the contract of a function that looks a length up.
#![tactic(auto)]

ghost use Rattle.std.specs.Prelude.{◌≡◌};
ghost use Rattle.recurrence.specs.Findings.{long};
ghost use Rattle.known.specs.Table.{levels_of, Known};

// By row of the table, the lengths of levels 0 and 1; 0 for a level that the row's kind does not have.
const LENGTHS: [[usize; 2]; 9] = [
    [0, 0],
    [2, 1],
    [1, 1],
    [3, 3],
    [2, 0],
    [1, 0],
    [1, 1],
    [2, 0],
    [1, 1],
];

// The length at a level of a row of the table; 0 if there is no such row or level.
pub fn known_length(row: usize, level: usize) -> usize
    ensures is { result ≡ long (levels_of row) level }
    ensures yields { Known }
{
    LENGTHS
        .get(row)
        .unwrap_or(&[0, 0])
        .get(level)
        .copied()
        .unwrap_or(0)
}
