//! Laws of the definitions. Each is the contract of a function that does nothing.
ghost use Rattle.zknow_records.specs.Parts.{AllPartLaws};
ghost use Rattle.zknow_records.specs.RecordLaws.{AllRecordLaws};

/// The records taken are all records that facts have, without those of another syntax than the one asked for. If
/// conflicts are not asked for, records in conflicts are left out too. The octets of each record taken are among those
/// written. Each record taken has octets, or is counted once: as a surrogate diagnostic, or as another.
pub fn record_laws()
    ensures { AllRecordLaws }
{}

/// Facts may be written in parts, if each record of a part is at a lower position than each record of the next: their
/// octets are those of the parts, one after the other, and what is left out of them is what is left out of the parts.
pub fn part_laws()
    ensures { AllPartLaws }
{}
