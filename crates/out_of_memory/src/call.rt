//! The calls whose allocations are refused.

/// A call of the library, or an allocation of this program itself.
#[derive(Clone, Copy, Debug)]
pub enum Call {
    New,
    FromBytes,
    Entries,
    TryClone,
    Write,
    Merge,
    /// A merge of a few entries, which are put into a copy of the tables.
    MergeFew,
    /// A merge of one entry, which is put into the tables in place.
    MergeOne,
    MergeSources,
    FirstSource,
    ThirdSource,
    TryResolve,
    Resolve,
    /// Nothing is mapped.
    ResolveNothing,
    ResolveCow,
    SignatureTryClone,
    FromCow,
    Check,
    Stream,
    Compact,
    NewStream,
    Push,
    FinishLine,
    Verify,
    ReadMailmaps,
    Verification,
    Explanations,
    Prune,
    Unneeded,
    CountContacts,
    Suggest,
    ContactFindings,
    PushEntry,
    PushCount,
    /// Calls that accept or write nothing and so don't allocate, and other calls that don't.
    Nothing,
    NoMemory,
    /// Allocations of this program: just before and just after the calls that accept or write nothing, and just after
    /// the other calls that don't allocate.
    AheadOfNothing,
    AfterNothing,
    AfterAll,
}
