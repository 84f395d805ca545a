// Put, drop and split over any store: a search ends at a link, and what stands there gives way to what is drafted for it.
#![tactic(auto)]

mod asks;
mod dropping;
mod ends;
mod holding;
mod putting;
mod splitting;

pub use dropping::drop_region;
pub use putting::put_region;
pub use splitting::split_region;
