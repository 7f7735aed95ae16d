//! The two versions of a certificate's text, and the limits of each.

ghost use Rattle.std.specs.Prelude.{◌≡◌, ◌≤◌};
ghost use Rattle.crpd_base.specs.Limits as limits;
ghost use Rattle.cert_model.specs.Reading as spec;

use crpd_base::{MOST_NODES, MOST_TASKS, SETS};

/// The version of a certificate's text.
#[derive(Clone, Copy)]
pub enum Version {
    /// Version 1, which is read and never written.
    First,
    /// Version 2, which is read and written.
    Second,
}

impl Version {
    /// The most cache sets: 256 or 512. In constant time.
    pub fn most_sets(self) -> u64
        ensures is { result ≡ spec.most_sets self }
        ensures bound { result ≤ limits.most_sets }
    {
        match self {
            Version::First => 256,
            Version::Second => SETS as u64,
        }
    }

    /// The most nodes of a task: 4,096 or 16,384. In constant time.
    pub fn most_nodes(self) -> u64
        ensures is { result ≡ spec.most_nodes self }
        ensures bound { result ≤ limits.most_nodes }
    {
        match self {
            Version::First => 4096,
            Version::Second => MOST_NODES as u64,
        }
    }

    /// The most tasks: 16 or 32. In constant time.
    pub fn most_tasks(self) -> u64
        ensures is { result ≡ spec.most_tasks self }
        ensures bound { result ≤ limits.most_tasks }
    {
        match self {
            Version::First => 16,
            Version::Second => MOST_TASKS as u64,
        }
    }
}
