//! What a reader may grant of a file of the operating system.
//!
//! No contract says what such a file holds, so no proof can show that it does as a disk does. This crate has that premise under a name.
//! Only `disk_model` stands on it, and uses its one law. To every crate above the premise is a name that no proof can open: it can be
//! neither proved nor refuted there. A clause that begins with it says what holds if it is granted.
#![tactic(auto)]
