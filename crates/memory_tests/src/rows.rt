//! The rows, with each settling written out.

/// A name, how long a lease is, in milliseconds, and the steps.
pub(crate) type Row = (&'static str, u64, &'static str);

pub(crate) const ROWS: &[Row] = &[
    (
        "late_grant",
        12_000,
        "up 0; join 1 ann; join 2 bob; beat 1; beat 2; take 1; take 2; sweep; give 3; sweep; give 4; sweep; ask 1 open /ls/c/f rw must file permanent 61; take 5; sweep; give 6; sweep; ask 2 open /ls/c/f rw; take 7; give 8; sweep; ask 1 read 1; take 9; ask 2 set 1 62; take 11; beat 1; take 12; sweep; give 13; beat 1; take 14; sweep; give 10; ask 1 read 1; take 16; give 17",
    ),
    (
        "writer_holds_too",
        12_000,
        "up 0; join 1 ann; join 2 bob; beat 1; beat 2; take 1; take 2; sweep; give 3; sweep; give 4; sweep; ask 1 open /ls/c/f rw must file permanent 61; take 5; sweep; give 6; sweep; ask 2 open /ls/c/f rw; take 7; give 8; sweep; ask 1 read 1; take 9; give 10; sweep; ask 1 set 1 62; take 11; sweep; beat 1; take 12; sweep; give 13; sweep; beat 1; take 14; sweep; give 15; sweep",
    ),
    (
        "recovery_waits",
        12_000,
        "up 0; join 1 ann; join 2 bob; beat 1; beat 2; take 1; take 2; sweep; give 3; sweep; give 4; sweep; ask 1 open /ls/c/f rw must file permanent 61; take 5; sweep; give 6; sweep; ask 2 open /ls/c/f rw; take 7; give 8; sweep; down; up 0; beat 1; take 9; give 10; sweep; beat 1; take 11; sweep; give 12; sweep; beat 1; take 13; sweep; ask 1 set 1 62; take 14; give 15; sweep; tick 60001 60001; beat 1; take 16; sweep; give 17; sweep; ask 1 set 1 62; take 18; give 19; sweep; tick 1 1; sweep; sweep; sweep; ask 1 set 1 62; take 20; sweep; give 21; sweep",
    ),
    (
        "lock_delay",
        60_000,
        "up 0; join 1 ann; join 2 bob; beat 1; beat 2; take 1; take 2; sweep; give 3; sweep; give 4; sweep; ask 1 open /ls/c/f rw must file permanent 61; take 5; sweep; give 6; sweep; ask 2 open /ls/c/f rw; take 7; give 8; sweep; ask 1 open /ls/c/f w delay 60000; take 9; give 10; sweep; ask 1 acquire 2 x; take 11; sweep; give 12; sweep; ask 1 getseq 2; take 13; give 14; sweep; tick 54000 54000; beat 2; take 15; sweep; give 16; sweep; tick 6000 6000; sweep; sweep; ask 2 try 1 x; take 17; sweep; give 18; sweep; tick 48000 48000; beat 2; take 19; sweep; give 20; sweep; tick 11999 11999; ask 2 try 1 x; take 21; sweep; give 22; sweep; tick 1 1; sweep; sweep; ask 2 try 1 x; take 23; sweep; give 24; sweep; ask 2 checkseq 01010000000000000004000000000000000100072f6c732f632f66; take 25; give 26; sweep; ask 2 open /ls/c/f w delay 60001; take 27; give 28; sweep",
    ),
];

/// What the client 1 does, and a watch.
pub(crate) const CALLS: &str =
    "beat 1; take 1; sweep; give 2; sweep; ask 1 open /ls/c/f rw must file permanent 61; take 3; sweep; give 4; sweep; ask 1 read 1; take 5; give 6; sweep; ask 1 read 1; ask 1 set 1 62; take 7; sweep; beat 1; take 8; sweep; give 9; sweep; beat 1; take 10; sweep; give 11; sweep; ask 1 read 1; take 12; give 13; sweep; ask 1 leave; take 14; sweep; give 15; sweep";
