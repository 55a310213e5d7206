//! What is shown of a container's children, page by page, and what is written to one of them.
#![tactic(auto)]

mod chains;
mod children;
mod field_names;
mod fields;
mod locals;
mod pages;
mod paired;
mod shown;
mod writes;
mod writing;

pub use pages::variables_need;
pub use writes::write_need;
