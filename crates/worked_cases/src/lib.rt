// Values worked by hand: no code, one table in specs/Cases.antt and one statement in proofs/AllCases.antt. FORMAT, "Cases
// worked by hand". And a record that tells the words of the segments apart: specs/Numbered.antt, proofs/Segments.antt. FORMAT,
// "Monitor segments".
#![tactic(auto)]
