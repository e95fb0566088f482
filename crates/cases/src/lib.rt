// The sheets tried by hand: document 01's starred cases, as one statement over one list.
// It knows every call's outcome and no code: the cases follow from the definitions.
#![tactic(auto)]
