//! Settings for another number of interfaces.
ghost use Rattle.std.specs.Prelude.{◌≡◌, OnOk};
ghost use Rattle.igmp_older.specs.Resized.{resized, resized_list};

use super::Presence;
use crate::setting::OlderHosts;
use std::alloc::AllocError;

/// Settings by the numbers of interfaces, for another number of them: those past the last are dropped, and those that are
/// added are unset. After an `Err`, which is want of memory, fewer are added.
pub fn resize_settings<T: Copy>(
    settings: &mut Vec<T>,
    count: u32,
    unset: T,
) -> Result<(), AllocError>
    ensures { OnOk result (settings.new.items ≡ resized_list count unset settings.old.items) }
{
    let added = (count as usize).saturating_sub(settings.len());
    settings.truncate(count as usize);
    for _place in 0..added {
        settings.push(unset)?;
    }
    Ok(())
}

impl Presence {
    /// Keeps the settings and the rows of the first interfaces, so many; on one that is added nobody is heard. Later as
    /// many rows are kept as the limit says, or as are left now if these are more. After an `Err`, which is want of
    /// memory, only some settings may be other ones.
    pub fn resize(&mut self, limit: usize, count: u32) -> Result<(), AllocError>
        ensures { OnOk result (self.new ≡ resized limit count self.old) }
    {
        resize_settings(&mut self.hosts, count, OlderHosts::Nobody)?;
        self.rows.retain(|key, _row| key.iface.number < count);
        self.limit = limit.max(self.rows.len());
        Ok(())
    }
}
