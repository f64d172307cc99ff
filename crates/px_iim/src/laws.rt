//! The laws of records: what follows from the definitions. Each is the contract of a function that does
//! nothing. Each is also a lemma in this crate's definitions (`GatherLaws`, `RecordLaws`, `NormalLaws`,
//! `BoundLaws`, `FaultLaws`), which proofs of other crates cite.
ghost use Rattle.px_iim.specs.Laws.{OneRecord, Computes, PutAppends, GatherGathers, MeaningIsRecord, FormHasMeaning, FormDecides};
ghost use Rattle.px_iim.specs.Laws.{NormalBound};
ghost use Rattle.px_iim.specs.Laws.{FaultsDecide, FaultsBounded};

/// If a block, any list of numbers, has two records, they are equal. A block has a record (`SaysIim`) if it has at
/// most `LIMIT` bytes, 16,777,216, and is at least one DataSet, one after another, and then at most three zeros; the
/// record has these DataSets in groups.
pub fn one_record()
    ensures { OneRecord }
{}

/// The record of a block can be computed: for any block and record, the block has that record (`SaysIim`) exactly if
/// `iim_of`, a function of the definitions that reads DataSet after DataSet, returns it. So of a block without a
/// record, as of one longer than `LIMIT`, it returns none.
pub fn computes()
    ensures { Computes }
{}

/// Let the groups of a record ascend by record number and number. After a DataSet is put into it (`put`), they
/// ascend; the DataSet is the last of the group that it belongs to, after those that were there; and each other group
/// has the DataSets that it had.
pub fn put_appends()
    ensures { PutAppends }
{}

/// A record has the DataSets of a sequence (`Gathers`: its groups ascend, none is empty, and each has the DataSets
/// that belong to it, in the order of the sequence) exactly if it results from putting these one after another into
/// an empty record.
pub fn gather_gathers()
    ensures { GatherGathers }
{}

/// If a block of bytes, numbers below 256, has a record (`SaysIim`), this is valid (`IsRecord`): it has at least one
/// group; groups ascend by record number and number; each has a DataSet; and each DataSet belongs to its group, has
/// numbers and data below 256, and at most `LIMIT` bytes of data, 16,777,216.
pub fn meaning_is_record()
    ensures { MeaningIsRecord }
{}

/// If a record is valid (`IsRecord`: at least one group; groups ascend; each has DataSets, which belong to it and
/// have at most `LIMIT` bytes, 16,777,216; all numbers and bytes are below 256), then its normal form consists of
/// bytes, five or more. If that has at most `LIMIT` bytes, then as a block it has this record.
pub fn form_has_meaning()
    ensures { FormHasMeaning }
{}

/// If two records are valid (`IsRecord`: at least one group; groups ascend; each has DataSets, which belong to it and
/// have at most `LIMIT` bytes, 16,777,216; all numbers and bytes are below 256), and their normal forms have at most
/// `LIMIT` bytes each, then the normal forms are equal exactly if the records are.
pub fn form_decides()
    ensures { FormDecides }
{}

/// If a block, any list of numbers, has a record (`SaysIim`), the record's normal form has at most twice as many
/// bytes as the block.
pub fn normal_bound()
    ensures { NormalBound }
{}

/// The first fault of a block, by the order of the checks, is one of its faults, as each cause is defined
/// (`IimFault`). A block with a fault has no record. Each block, any list of numbers, has a record or a first fault.
pub fn faults_decide()
    ensures { FaultsDecide }
{}

/// The first fault of a block is at an offset of at most `LIMIT`, 16,777,216, however long the block is.
pub fn faults_bounded()
    ensures { FaultsBounded }
{}
