//! The small choices: what a node is, how long it lives, what may be done with it, how it is locked.
ghost use Rattle.std.specs.Prelude.{Some};
ghost use Rattle.node_core.specs.Words.{kind_text, life_text, right_text, lock_mode_text};

use collections::Same;
use std::fmt;

/// What a node is (Burrows 2006, section 2.3).
#[derive(Clone, Copy, Debug, PartialEq, Eq)]
pub enum Kind {
    File,
    Directory,
}

impl Same for Kind {
    ghost exact = { λ x y h. h };
}

impl fmt::Display for Kind {
    ghost output = { λ x. Some (kind_text x) };

    fn fmt<W: fmt::Write>(&self, f: &mut fmt::Formatter<W>) -> fmt::Result {
        match self {
            Kind::File => f.write_str("file"),
            Kind::Directory => f.write_str("dir"),
        }
    }
}

/// Whether a node goes by itself once no client has it open (Burrows 2006, section 2.3).
#[derive(Clone, Copy, Debug, PartialEq, Eq)]
pub enum Life {
    Permanent,
    Ephemeral,
}

impl Same for Life {
    ghost exact = { λ x y h. h };
}

impl fmt::Display for Life {
    ghost output = { λ x. Some (life_text x) };

    fn fmt<W: fmt::Write>(&self, f: &mut fmt::Formatter<W>) -> fmt::Result {
        match self {
            Life::Permanent => f.write_str("permanent"),
            Life::Ephemeral => f.write_str("ephemeral"),
        }
    }
}

/// What an ACL allows: to read a node, to write it, to change its ACL names (Burrows 2006, section 2.3).
#[derive(Clone, Copy, Debug, PartialEq, Eq)]
pub enum Right {
    Read,
    Write,
    Change,
}

impl Same for Right {
    ghost exact = { λ x y h. h };
}

impl fmt::Display for Right {
    ghost output = { λ x. Some (right_text x) };

    fn fmt<W: fmt::Write>(&self, f: &mut fmt::Formatter<W>) -> fmt::Result {
        match self {
            Right::Read => f.write_str("read"),
            Right::Write => f.write_str("write"),
            Right::Change => f.write_str("change"),
        }
    }
}

/// How a lock is held: by one holder, or by any number of them (Burrows 2006, section 2.4).
#[derive(Clone, Copy, Debug, PartialEq, Eq)]
pub enum LockMode {
    Exclusive,
    Shared,
}

impl Same for LockMode {
    ghost exact = { λ x y h. h };
}

impl fmt::Display for LockMode {
    ghost output = { λ x. Some (lock_mode_text x) };

    fn fmt<W: fmt::Write>(&self, f: &mut fmt::Formatter<W>) -> fmt::Result {
        match self {
            LockMode::Exclusive => f.write_str("x"),
            LockMode::Shared => f.write_str("s"),
        }
    }
}
