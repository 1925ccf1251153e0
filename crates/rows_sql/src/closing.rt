//! Closing the store of records in a file.
ghost use Rattle.std.specs.Prelude.{◌≡◌, IfOk, IfErr};
ghost use Rattle.sqlite_wal.specs.Reads.{AreClean};
ghost use Rattle.sqlite_store.specs.FileStore.{view, recovers};
ghost use Rattle.sqlite_trees.specs.View.{IsClean};
ghost use Rattle.rows_sql.specs.Keeping.{IsLeft};
ghost use Rattle.rows_sql.specs.Closed.{StandsAlone};

use crate::records::SqlRecords;
use sqlite::{Error, FileStore, Files};
use sqlite_disk::Disk;

impl<D: Disk + Drop> SqlRecords<FileStore<D>> {
    /// Closes the store: its log is copied into the database file, and both files come back. Where nobody else wrote them
    /// and the disk gave back what was written, nothing of the records was in doubt, and the database file alone holds the
    /// rows, as it reads now and after a crash; so the log may be removed. The cost is that of the log.
    ///
    /// Refused where the disk fails, and by records that are shut: a crash leaves what it could leave before.
    pub fn close(self) -> Result<Files<D>, (Error, FileStore<D>)>
        ensures closed { IfOk result (λ files. AreClean D.Disk files.log files.db → (self.doubt ≡ 0) × StandsAlone D.Disk files self.rows) }
        ensures refused { IfErr result (λ e. IsClean (view e.1) → (db : _) → recovers e.1 db → IsLeft self.may_leave db) }
        // And if the disk gave back what was written, nothing of the records was in doubt.
        ensures sure { IfErr result (λ e. IsClean (view e.1) → self.doubt ≡ 0) }
    {
        let conn = self.release();
        match conn.close_files() {
            Ok(files) => Ok(files),
            Err(error) => Err(error),
        }
    }
}
