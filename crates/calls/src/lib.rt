// What the calls answer, whole: a relation over inputs, answer and lent buffers for each of Ask, Ends, the C call and the checker. No code.
// It renders document 01's "Ends", "Numbers a call can answer", the surplus of "Numbers and room" and "The hoist controller's host is a C program", and document 02's E2,
// "Hold another engine's answer to the sheet".
#![tactic(auto)]
