//! The laws. Each function has an empty body. Its contract is the law.

ghost use Rattle.mpw_reader_laws.specs.FirstFault.{FirstFaultIsTold, FirstFaultIsRefused};
ghost use Rattle.mpw_reader_laws.specs.Changed.{ChangedRecordsAreTold, FaultsComeNoEarlier, FrontsAreShort, LengthsAreTested};

/// If a text of less than 2^63 bytes is refused, with any code, it has its first fault at that offset. The records before it have no fault,
/// and some library's records begin with them. At the offset there is no record, or one such that no library's records begin with all
/// records up to it. The code is that of the tests of a record if there is none, else that of a record in a wrong place or of its type's
/// value. A library is what the syntax derives, the relation by cases.
pub fn first_fault_is_told()
    ensures { FirstFaultIsTold }
{}

/// A text of less than 2^63 bytes with a first fault is refused, and the reported offset is that of the fault. So no text has two.
pub fn first_fault_is_refused()
    ensures { FirstFaultIsRefused }
{}

/// If a text agrees with a good one up to the start of one of its records, and has no record there, it is refused with the fault at that place.
pub fn changed_records_are_told()
    ensures { ChangedRecordsAreTold }
{}

/// However a good text is changed, if the bytes before a record stay, no fault is reported before that record.
pub fn faults_come_no_earlier()
    ensures { FaultsComeNoEarlier }
{}

/// A good text that is cut off before its ENDLIB ends is `short`, at the start of the record with the cut: the greatest start of a record
/// that is at most the length that is left. Cut off after ENDLIB, it has the same structures.
pub fn fronts_are_short()
    ensures { FrontsAreShort }
{}

/// If the length of a record of a good text is made odd or less than 4, the text has a bad length at that record. If it is made even, and
/// longer than the rest of the text, the text is `short` there.
pub fn changed_lengths_are_tested()
    ensures { LengthsAreTested }
{}
