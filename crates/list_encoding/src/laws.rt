// What holds of words and of times, each as the contract of a function that does nothing.
ghost use Rattle.list_encoding.specs.Laws.{OneReading, OneWord, DecodedAgain, EncodedAgain, PlaceDecidesNothing, ReadableDecided, GuardedOfReading, OperationOfReading, SamePaces, IssuesRise, IssuesByEnd, IssuesBeforeEnd, EndsInTime};

/// A word has at most one reading.
pub fn one_reading()
    ensures { OneReading }
{}

/// A reading has at most one word.
pub fn one_word()
    ensures { OneWord }
{}

/// What is decoded from the word of a reading is that reading.
pub fn decoded_again()
    ensures { DecodedAgain }
{}

/// What is encoded from the reading of a word is that word.
pub fn encoded_again()
    ensures { EncodedAgain }
{}

/// The head mark, the unit and the pause don't decide whether a word has a reading.
pub fn place_decides_nothing()
    ensures { PlaceDecidesNothing }
{}

/// A word has a reading exactly where a guarded operation is read in it.
pub fn readable_decided()
    ensures { ReadableDecided }
{}

/// What is read in the word of a reading is the reading's guarded operation.
pub fn guarded_of_reading()
    ensures { GuardedOfReading }
{}

/// The operation of a word that has a reading is the reading's.
pub fn operation_of_reading()
    ensures { OperationOfReading }
{}

/// A block's times are those of its readings: the words have their head marks and pauses.
pub fn same_paces()
    ensures { SamePaces }
{}

/// A later operation of a block issues no earlier.
pub fn issues_rise()
    ensures { IssuesRise }
{}

/// No operation issues after the block's end.
pub fn issues_by_end()
    ensures { IssuesByEnd }
{}

/// Each operation of a block that has times issues before the block's end.
pub fn issues_before_end()
    ensures { IssuesBeforeEnd }
{}

/// A block ends after at most 32 cycles a word.
pub fn ends_in_time()
    ensures { EndsInTime }
{}
