//! The host hears what becomes of its pending writes.

use crate::host::Host;
use dr_moves::{Beside, News};

impl Beside for Host {
    ghost use Rattle.dr_host.specs.Hearing.{with_writes, Hears, host_after, shows-writes, keeps-table};

    ghost takes = { Hears };

    ghost after = { host_after };

    ghost rest = { λ h r. with_writes r h };

    ghost table = { λ h c. c };

    fn hear(&mut self, news: &News) {
        match news {
            News::Settled(w) => self.finish(*w),
            News::Landed(w) => self.land(*w),
            News::Begun(_) => {}
            News::Removed(_, _) => {}
            News::Unchanged => {}
        }
    }

    ghost shows_rest = { λ n h r can. shows-writes n h r can };

    ghost shows_table = { λ n h c can. keeps-table n h c can };
}
