//! What stands before a router, for other interfaces.
ghost use Rattle.std.specs.Prelude.{◌≡◌, OnOk};
ghost use Rattle.pim_session.specs.Reloaded.{front_resized};

use super::Front;
use igmp_older::{QueryVersion, ResponseTimes, resize_settings};
use std::alloc::AllocError;

impl Front {
    /// Keeps the settings of the first interfaces, so many, with what was heard there. One that is added hears nobody,
    /// and queries in version 3. Later as many older hosts are remembered as the limit says, or as are left now if these
    /// are more. Queries leave with these times. An `Err` is want of memory.
    pub(crate) fn resize(
        &mut self,
        limit: u32,
        count: u32,
        times: ResponseTimes,
    ) -> Result<(), AllocError>
        ensures { OnOk result (self.new ≡ front_resized limit count times self.old) }
    {
        self.presence.resize(limit as usize, count)?;
        self.times = times;
        resize_settings(&mut self.versions, count, QueryVersion::Three)
    }
}
