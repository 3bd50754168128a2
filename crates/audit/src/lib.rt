//! The audit of a journal: its entries are performed once more, one after another, on the tables as they were opened,
//! and each answer is compared.
//!
//! [`audit`] says that all entries hold exactly where the text is the journal of a legal history on the opened tables,
//! which is defined in `specs/Audits.antt`; start reading there. Else [`AuditFault`] says which line is the first that
//! is no entry's, or has another answer: [`names_the_first_other`]. A line is read in `read.rt`, and performed in `performing.rt`.
#![tactic(auto)]

mod fault;
mod law;
mod performing;
mod read;

pub use fault::{AuditFault, Difference};
pub use law::names_the_first_other;
pub use performing::audit;
