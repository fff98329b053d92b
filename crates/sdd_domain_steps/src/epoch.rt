//! What an outermost opening, the last close and a scan do; where participants come and go; and how a domain is found quiet.

pub mod changes;
pub mod due_items;
pub mod ended_counts;
pub mod last_close;
pub mod places;
pub mod quiet;
pub mod scan;
