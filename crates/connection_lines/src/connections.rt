//! Connections as the program prints them.

ghost use Rattle.std.specs.Prelude.{Option, Some};
ghost use Rattle.std.specs.Fmt.{WritesOnOk};
ghost use Rattle.std.specs.List.{flat_map};
ghost use Rattle.connection_lines.specs.Printed.{connection_line, connection_text, connections_text, next_line, none_line, walk_line};

use answer_lines::{DayTime, Point};
use std::fmt;

/// A connection: the last moment to leave for it, and its journey. Shown as `depart DATE TIME arrive DATE TIME rides N`, with a line below
/// for each ride and walk.
#[derive(Drop)]
pub struct Connection {
    pub departs: DayTime,
    pub journey: Point,
}

/// The connections of a window, shown as lines, each with its end: `walk seconds N` for the way on foot, a line for each connection, and
/// `more from DATE TIME`. Without a way on foot and a connection, the first line is `no journey`.
#[derive(Drop)]
pub struct Connections {
    /// The seconds of the way on foot, if there is one.
    pub walk: Option<u32>,
    /// By departure, then by arrival.
    pub list: Vec<Connection>,
    /// The moment from which on connections aren't reported; none if all are.
    pub next: Option<DayTime>,
}

impl fmt::Display for Connection {
    ghost output = { λ connection. Some (connection_text connection) };

    #[tactic(auto, unfolding(crate::specs::Printed::connection_text))]
    fn fmt<W: fmt::Write>(&self, f: &mut fmt::Formatter<W>) -> fmt::Result {
        let journey = &self.journey;
        write!(
            f,
            "depart {} arrive {} rides {}",
            self.departs, journey.at, journey.rides
        )?;
        for stage in &journey.stages {
            write!(f, "\n{stage}")?;
        }
        Ok(())
    }
}

impl fmt::Display for Connections {
    ghost output = { λ connections. Some (connections_text connections) };

    fn fmt<W: fmt::Write>(&self, f: &mut fmt::Formatter<W>) -> fmt::Result {
        write_none(f, self.walk, &self.list)?;
        write_walk(f, self.walk)?;
        write_list(f, &self.list)?;
        write_next(f, self.next)
    }
}

// A line if one can't go at all.
fn write_none<W: fmt::Write>(
    f: &mut fmt::Formatter<W>,
    walk: Option<u32>,
    list: &[Connection],
) -> fmt::Result
    ensures { WritesOnOk W.write_str_gives f.old result (none_line walk list.now) f.new }
{
    if walk.is_none() && list.is_empty() {
        writeln!(f, "no journey")
    } else {
        Ok(())
    }
}

// A line for the way on foot, if there is one.
fn write_walk<W: fmt::Write>(f: &mut fmt::Formatter<W>, walk: Option<u32>) -> fmt::Result
    ensures { WritesOnOk W.write_str_gives f.old result (walk_line walk) f.new }
{
    match walk {
        Some(seconds) => writeln!(f, "walk seconds {seconds}"),
        None => Ok(()),
    }
}

// A line for each connection, and for each of its rides and walks.
fn write_list<W: fmt::Write>(f: &mut fmt::Formatter<W>, list: &[Connection]) -> fmt::Result
    ensures { WritesOnOk W.write_str_gives f.old result (flat_map connection_line list.now) f.new }
{
    for connection in list {
        writeln!(f, "{connection}")?;
    }
    Ok(())
}

// A line if connections aren't reported from some moment on.
fn write_next<W: fmt::Write>(f: &mut fmt::Formatter<W>, next: Option<DayTime>) -> fmt::Result
    ensures { WritesOnOk W.write_str_gives f.old result (next_line next) f.new }
{
    match next {
        Some(next) => writeln!(f, "more from {next}"),
        None => Ok(()),
    }
}
