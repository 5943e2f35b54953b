// Each record that the test of soundness lets pass has a text: the printer, and the theorem that reading gives the
// record back. No code that runs.
#![tactic(auto)]
