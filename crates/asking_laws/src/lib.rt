//! Why a question is sent: what is lacking as it is put to be asked is so still as it goes, and a look-up that has
//! failed asks nothing more. It is definitions and laws, and no code.
#![tactic(auto)]

mod laws;

pub use laws::what_is_asked_has_been_lacking;
