#![tactic(auto)]

// The rules of tones, and what follows from them, stand in specs/ and proofs/. The crates above this one have the code.
