// The modes: definitions in specs/, theorems in proofs/. The code that follows them stands in crates forkae, eevee and walks.
#![tactic(auto)]
