// The sheet file: what its bytes say, and what a sheet is written as.
// It knows the file's order and its refusals, that both ways agree, and how long a sheet can be; it knows no plan and no cycle time. Its only code is
// the format number: `reader` and `writer` are above it.
// It renders document 01's "The sheet file", and the places of document 02's E1.
#![tactic(auto)]

// "format number 1".
pub const FORMAT: usize = 1;
