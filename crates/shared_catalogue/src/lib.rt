//! The catalogue under one lock, which stations share.
//!
//! [`Shared::new`] puts an opened [`Catalogue`] under the lock and makes a [`Seat`] for each station; by its seat a
//! station performs commands, each as one step in one hold of the lock, and looks at the status row.
//! [`Shared::settle`] takes the seats back and gives the catalogue at its end, where the receipts that the caller kept are those
//! of its journal; [`Shared::settle_seats`] is the same for a caller that kept none, since the journal has what each
//! station was answered. What commands do is `catalogue_core`'s, whose items can be had from here.
//!
//! Start reading at `shared.rt`; then `locked.rt` and `settle.rt`.
#![tactic(auto)]

mod board;
mod closed;
mod locked;
mod lot;
mod receipt;
mod seat;
mod settle;
mod shared;

pub use closed::Closed;
pub use lot::{Lot, Naming};
pub use receipt::{Receipt, Receipts};
pub use seat::Seat;
pub use settle::SettleFault;
pub use shared::Shared;
