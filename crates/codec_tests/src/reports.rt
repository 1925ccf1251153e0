//! What is told of rows.

/// How many rows were run, and how many of them aren't as they stand.
#[derive(Clone, Copy)]
pub(crate) struct Report {
    rows: u64,
    differ: u64,
}

impl Report {
    pub(crate) fn new() -> Report {
        Report { rows: 0, differ: 0 }
    }

    /// Tells of a row of a table: whether what came is what stands there, or else both.
    pub(crate) fn tell(
        &mut self,
        rt: &HostRuntime,
        (table, row): (&str, &str),
        wanted: &str,
        came: &str,
    ) {
        self.rows = self.rows.saturating_add(1);
        if wanted == came && println!(rt; "{table} {row}: as it stands").is_ok() {
            return;
        }
        self.differ = self.differ.saturating_add(1);
        let _ = println!(rt; "{table} {row}: it stands\n{wanted}\nbut there came\n{came}");
    }

    /// Tells how many there were. The exit status.
    pub(crate) fn end(self, rt: &HostRuntime) -> u8 {
        let Report { rows, differ } = self;
        if println!(rt; "{rows} rows, {differ} differ").is_ok() && differ == 0 {
            0
        } else {
            1
        }
    }
}
