//! What stands before a router, where the interfaces have other places.
ghost use Rattle.std.specs.Prelude.{◌≡◌, OnOk};
ghost use Rattle.pim_session.specs.Placed.{front_placed};

use super::Front;
use igmp_older::{QueryVersion, ResponseTimes, place_settings};
use std::alloc::AllocError;

impl Front {
    /// The settings of the old interfaces, with what was heard there, go where these go, by `places`, of so many. One to
    /// which none goes hears nobody, and queries in version 3. Later as many older hosts are remembered as the limit
    /// says, or as are left now if these are more. Queries leave with these times. An `Err` is want of memory.
    pub(crate) fn place(
        &mut self,
        limit: u32,
        count: u32,
        places: &[Option<u32>],
        times: ResponseTimes,
    ) -> Result<(), AllocError>
        ensures { OnOk result (self.new ≡ front_placed limit count places.now times self.old) }
    {
        self.presence.place(limit as usize, count, places)?;
        self.times = times;
        place_settings(&mut self.versions, count, places, QueryVersion::Three)
    }
}
