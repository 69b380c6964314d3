//! Labels: when one is at a stop, and by which rides.

ghost use Rattle.std.specs.Prelude.{◌≡◌, ◌<◌, ◌≤◌, [], IsSome, length};
ghost use Rattle.stop_labels.specs.Mark.{moved};

use crate::path::Path;
use std::marker::Model;
use timetable::StopId;

/// When one is at a stop, and the pattern of the rides before it. The stops of all rides that there can be are copied at once: that is
/// faster than ride by ride.
#[derive(Drop)]
pub struct Label {
    arrival: u32,
    rides: u8,
    stops: [(StopId, StopId); 8],
}

impl Model for Label {
    ghost use Rattle.std.specs.Prelude.{◌≤◌, take};
    ghost use Rattle.stop_labels.specs.Mark.{Mark};

    ghost Value = { Mark };

    ghost view = { λ a. record { arrival = a.arrival; path = take a.rides a.stops } };

    ghost invariant = { λ a. a.rides ≤ 8 };
}

// A path of these stops, which takes no memory.
fn path_of(stops: &[(StopId, StopId)]) -> Path
    requires { length stops.now ≤ 8 }
    ensures { result.items ≡ stops.now }
{
    let mut path = Path::new();
    for pair in stops {
        path.push(*pair);
    }
    path
}

impl Label {
    /// At the moment, without a ride.
    pub fn start(moment: u32) -> Label
        ensures { result ≡ record { arrival = moment; path = [] } }
    {
        Label {
            arrival: moment,
            rides: 0,
            stops: [(StopId::new(0), StopId::new(0)); 8],
        }
    }

    /// The pattern of the rides, where it lies: the stops of boarding and alighting, ride by ride.
    pub fn stops(&self) -> &[(StopId, StopId)]
        ensures value { result.now ≡ self.now.path }
        ensures short { length result.now ≤ 8 }
    {
        &self.stops[..self.rides as usize]
    }

    /// The pattern of the rides.
    pub fn path(&self) -> Path
        ensures { result.items ≡ self.now.path }
    {
        path_of(self.stops())
    }

    /// The moment.
    pub fn arrival(&self) -> u32
        ensures { result ≡ self.now.arrival }
    {
        self.arrival
    }

    /// Makes it the label at the moment, with one ride more if there is one. The path is written where it lies.
    pub fn set(&mut self, label: &Label, arrival: u32, ride: Option<(StopId, StopId)>)
        requires { IsSome ride → length label.now.path < 8 }
        ensures { self.new ≡ moved label.now arrival ride }
    {
        self.arrival = arrival;
        self.rides = label.rides;
        self.stops.copy_from_slice(&label.stops);
        if let Some(pair) = ride {
            self.stops[self.rides as usize] = pair;
            self.rides += 1;
        }
    }
}
