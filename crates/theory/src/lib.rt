// The theory: arcs, tables of rounds, parents and the way back, circuits and ends, over lists of arcs and natural numbers.
// It knows no sheet, no window and no machine number, and has no code.
// It renders document 01's "Arcs", "Rounds", "Circuits" and "Ends" for any list of arcs.
#![tactic(auto)]
