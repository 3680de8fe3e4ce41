//! The listing of a table. Documents are not read.
ghost use Rattle.std.specs.Prelude.{◌≡◌};
ghost use Rattle.job_table.specs.Listing.{head_of};

use crate::table::Table;
use spool_types::Head;

impl Table {
    /// Returns the head of the listing. It is followed by the rows of [`Table::queues`], then by the jobs of
    /// [`Table::jobs`], each followed by the pieces of its document.
    pub fn head(&self) -> Head
        ensures { result ≡ head_of self.now.state }
    {
        Head {
            highest: self.highest(),
            moment: self.now(),
        }
    }
}
