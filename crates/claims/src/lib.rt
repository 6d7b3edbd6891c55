// What is claimed of a result, in specs/, and the theorems, in proofs/. Nothing runs here.
#![tactic(auto)]
