// The meaning: what the windows of a sheet ask of times, and that they are a list of arcs.
// It knows sheets, windows, plans and circuits as document 01 has them; it knows no file, no buffer and no answer, and has no code.
// It renders document 01's "Windows and plans" and source document 000's inequalities (6) of 4.1 in the periodic form of 4.3.
#![tactic(auto)]
