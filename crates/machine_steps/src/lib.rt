//! The steps of the translation machine: what each move of it keeps, and what runs keep by these moves, as far as the
//! code of a session cites it. It is proofs, and no code.
#![tactic(auto)]
