//! Files made only by the layout, opened whole, cut short and with one byte changed; those of the first version, which are read and
//! migrated; stores that are put to, refuse a tree, are stopped and opened again; and how faults are reported.

mod changes;
mod crashes;
mod excerpts;
mod faults;
mod first;
mod layout;
mod migrations;
mod nowhere;
mod old_files;
mod opening;
mod refused;
mod stopped_migrations;
mod stopping;
mod whole;
