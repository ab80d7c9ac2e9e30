//! Codes that are made of fields at their places: lemmas by which a computed test shows that a code tells its instruction,
//! how long a code is, and which instructions of two halfwords are no vector instructions. There is no code here.
#![tactic(auto)]
