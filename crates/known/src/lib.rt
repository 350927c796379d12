// Document 01's known elements as one tabulated theorem, specs/Entries.antt and proofs/Known.antt. There is no code here.
#![tactic(auto)]
