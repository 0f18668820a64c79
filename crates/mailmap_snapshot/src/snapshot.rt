//! Mailmaps in memory, ready for lookups.
ghost use Rattle.std.specs.Prelude.{◌≡◌, []};

mod build;
mod cow;
mod listing;
mod lookup;
mod resolve;
mod sources;
mod text;

pub use cow::Signature;
pub use listing::Iter;
pub use lookup::ResolvedSignature;
use mailmap_tables::tables::Tables;
pub use sources::Source;
use std::alloc::Global;
use std::marker::Model;
pub use text::WriteError;

/// A mailmap in memory: for each old email, and for each old name with it, the name and the email that replace them.
/// The case of ASCII letters is ignored.
///
/// Contracts see a snapshot as the list of its entries in ascending order of their keys, as [`Snapshot::iter`] yields
/// them. A snapshot keeps the allocator that it was made with.
#[derive(Drop)]
pub struct Snapshot {
    tables: Tables,
}

impl Model for Snapshot {
    ghost use Rattle.std.specs.Prelude.{List};
    ghost use Rattle.mailmap_entries.specs.Entries.{Mapping};

    ghost Value = { List Mapping };

    ghost use Rattle.mailmap_tables.specs.Groups.{AreGroups, listing};

    ghost view = { λ s. listing s.tables.groups };

    ghost invariant = { λ s. AreGroups s.tables.groups };
}

impl Snapshot {
    /// An empty snapshot. Allocates nothing.
    #[tactic(auto, using(mailmap_tables::proofs::Grouped::no_groups))]
    pub fn empty(alloc: Global) -> Snapshot
        ensures { result ≡ [] }
    {
        Snapshot {
            tables: Tables::new(alloc),
        }
    }
}
