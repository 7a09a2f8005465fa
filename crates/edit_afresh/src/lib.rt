#![tactic(auto)]

// That an edit is as good as starting over, held against the call that writes: proofs/Afresh.antt shows it. The code is in `edit` and `tone_write`.
