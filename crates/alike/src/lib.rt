// The record with a byte for each pair, as document 01 has it, and that reading, the test of soundness and the operations
// answer alike on it and on the masks that stand for the same. No code that runs.
#![tactic(auto)]
