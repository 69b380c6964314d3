//! A way on from a stop.

ghost use Rattle.std.specs.Prelude.{◌≡◌, ◌<◌, ◌≤◌, ◌∷◌, [], length};

use crate::path::{path_from, path_of};
use rounds::Path;
use std::marker::Model;
use timetable::StopId;

/// A way on from a stop to the end of a journey: the last moment at which one can be there to take it, the seconds on foot, and its rides.
#[derive(Drop)]
pub(crate) struct Way {
    moment: u32,
    walked: u32,
    path: Path,
}

impl Model for Way {
    ghost use Rattle.least_walks.specs.Ways.{WayData};

    ghost Value = { WayData };

    ghost view = { λ w. record { moment = w.moment; walked = w.walked; path = w.path.items } };
}

impl Way {
    /// The way without a ride, with its seconds on foot.
    pub(crate) fn on_foot(moment: u32, seconds: u32) -> Way
        ensures { result ≡ record { moment = moment; walked = seconds; path = [] } }
    {
        Way {
            moment,
            walked: seconds,
            path: Path::new(),
        }
    }

    /// The last moment at which one can be there to take it.
    pub(crate) fn moment(&self) -> u32
        ensures { result ≡ self.now.moment }
    {
        self.moment
    }

    /// The seconds on foot.
    pub(crate) fn walked(&self) -> u32
        ensures { result ≡ self.now.walked }
    {
        self.walked
    }

    /// The stops of its rides.
    pub(crate) fn path(&self) -> &[(StopId, StopId)]
        ensures value { result.now ≡ self.now.path }
        ensures short { length result.now ≤ 8 }
    {
        self.path.as_slice()
    }

    /// The way with a ride before it that departs at the moment.
    pub(crate) fn after_ride(&self, ride: (StopId, StopId), moment: u32) -> Way
        requires { length self.now.path < 8 }
        ensures { result ≡ record { moment = moment; walked = self.now.walked; path = ride ∷ self.now.path } }
    {
        Way {
            moment,
            walked: self.walked,
            path: path_from(ride, self.path.as_slice()),
        }
    }

    /// The way from another moment on, with other seconds on foot.
    pub(crate) fn after_hop(&self, moment: u32, walked: u32) -> Way
        ensures { result ≡ record { moment = moment; walked = walked; path = self.now.path } }
    {
        Way {
            moment,
            walked,
            path: path_of(self.path.as_slice()),
        }
    }
}
