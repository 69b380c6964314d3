//! The parts of towns, put together in memory, whole, stopped, cut short by crashes, and refused.

mod refused;
mod stopped;
mod towns;
mod whole;
