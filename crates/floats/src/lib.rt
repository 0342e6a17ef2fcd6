// Whole numbers as 64-bit floats, and their quotients: definitions and laws for phases and means, no code. FORMAT, "Times and
// phases", "The index of seconds".
#![tactic(auto)]
