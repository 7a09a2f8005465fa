#![tactic(auto)]

// Sample messages, shown of the rules themselves. P1 to P12 of document 01: specs/Samples.antt states them, proofs/Shown.antt
// shows them. Further ones, by which each number, code and bound of the rules is told in figures: specs/Pinned.antt gathers
// them, proofs/Pinned.antt shows them.
