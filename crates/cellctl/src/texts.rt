//! The words of what goes wrong outside the steps of a script: what is the matter, and what cures it.

/// What goes wrong with a store, a script, settings or the output.
#[derive(Clone, Copy, Debug, PartialEq, Eq)]
pub(crate) enum Trouble {
    Missing,
    NoFolder,
    NotAllowed,
    IsFolder,
    ReadOnly,
    Busy,
    Journal,
    NotSqlite,
    Malformed,
    NoTable,
    OtherTables,
    DamagedRow,
    LastEpoch,
    NoRows,
    Unreadable,
    NotUtf8,
    IsThere,
    Full,
    Closed,
    Unwritable,
    NoMemory,
}

/// What the matter is, and what cures it.
pub(crate) fn words_of(trouble: Trouble) -> (&'static str, &'static str) {
    match trouble {
        Trouble::Missing => (
            "there is no such file",
            "give the path of a file that is there",
        ),
        Trouble::NoFolder => (
            "the folder that it is to lie in isn't there",
            "make the folder first, or give another path",
        ),
        Trouble::NotAllowed => (
            "this user may not read it, or not write it",
            "let this user read and write it and its folder, or be the user who may",
        ),
        Trouble::IsFolder => ("it is a folder", "give the path of a file"),
        Trouble::ReadOnly => (
            "it lies where nothing can be written",
            "copy it to where this user may write, with its log FILE-wal where there is one",
        ),
        Trouble::Busy => (
            "another program has it open",
            "end that program first: one alone writes a store",
        ),
        Trouble::Journal => (
            "SQLite left a journal beside it, FILE-journal",
            "open it once by sqlite3, which takes back what it had begun",
        ),
        _ => words_of_content(trouble),
    }
}

// Of troubles with what a file holds.
fn words_of_content(trouble: Trouble) -> (&'static str, &'static str) {
    match trouble {
        Trouble::NotSqlite => (
            "it isn't a SQLite database",
            "give the file of a store; this one is left as it is",
        ),
        Trouble::Malformed => (
            "it is a SQLite database that is cut or changed",
            "restore a copy of the store, or look at it by sqlite3: it is left as it is",
        ),
        Trouble::NoTable => (
            "it is a database without a table, as an empty file is",
            "cellctl run --store FILE makes a store of it",
        ),
        Trouble::OtherTables => (
            "its tables have other columns, types or keys than those of a store, or another order",
            "restore a copy of the store, or give the file of one: it is left as it is",
        ),
        Trouble::DamagedRow => (
            "a row in it breaks the rules of a store",
            "restore a copy of the store, or look at it by sqlite3: it is left as it is",
        ),
        Trouble::LastEpoch => (
            "it is of version 1, and its epoch is the last one there is",
            "no master can come up over it: restore an earlier copy",
        ),
        Trouble::NoRows => (
            "none came, or none that a cell of this name may have",
            "see what the program that keeps them says",
        ),
        _ => words_of_work(trouble),
    }
}

// Of troubles while bytes are read and written.
fn words_of_work(trouble: Trouble) -> (&'static str, &'static str) {
    match trouble {
        Trouble::NotUtf8 => ("it isn't UTF-8", "write it as UTF-8"),
        Trouble::IsThere => (
            "there is such a file already",
            "give another path: a secret that is in use is never written over",
        ),
        Trouble::Full => (
            "nothing more fits where it lies",
            "make room there, and do it again",
        ),
        Trouble::Closed => (
            "nobody reads it any more, or it is closed",
            "the steps that were done stand; give an output that stays open",
        ),
        Trouble::Unwritable => (
            "it can't be written",
            "the steps that were done stand; see why the system refuses it",
        ),
        Trouble::NoMemory => ("memory ran out", "give this program more of it"),
        _ => (
            "it can't be read to its end",
            "see why the system refuses it, as in its log of disks",
        ),
    }
}

/// What is said of two names of a cell: the store's, and that of the settings.
pub(crate) const OTHER_CELL: (&str, &str) = (
    "it is the store of the cell",
    "give settings with the name of its cell, or the store of the cell of the settings",
);

/// What is said of a table or a column that no store has.
pub(crate) const FOREIGN: &str =
    "restore a copy of the store, or give the file of one: it is left as it is";

/// What is said where the settings say other principals than the store.
pub(crate) const OTHER_PRINCIPALS: &str =
    "the principals of the settings aren't those of the store, which keeps its own: they count in a new store alone";

/// What is said where the secret is the one that everybody knows.
pub(crate) const KNOWN_SECRET: &str =
    "its secret is 64 zeros, so everybody can forge handles; cellctl new-settings FILE writes settings with a random one, for a new store";

/// What is said first at a terminal.
pub(crate) const GREETING: &str =
    "steps of a script, one a line; help lists them, and Ctrl-D ends it";

/// What cures a bad line.
pub(crate) const BAD_LINE: &str =
    "the steps of the lines before it stand; cellctl run --help says what a line may be";
