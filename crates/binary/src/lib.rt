// Binary linear algebra: what sets of qubits, rows, products and fixed qubits are (specs/), and their laws (proofs/). It has no code.
#![tactic(auto)]
