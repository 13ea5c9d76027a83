//! Laws of what the contract of the top call says.
ghost use Rattle.xet_commands.specs.Completeness.{AnswersAreComplete};

/// Where nothing that the program is given fails, its exit status is by the words and the input alone, or 6 for want of
/// memory; of `mirror verify` alone two statuses, 2 and 3, may both have their cause. Nothing fails where the input
/// tells its bytes, no count of faults of input or output rose, and each tap hands each block on as it came. For `get`
/// it is 8 where the input is longer than the limit, else 2 where it is no document of a valid store, else 7 where a
/// setting fails, else 3 where the range isn't empty and the store has no such file, else 0. For `track` it is 8
/// likewise, 2 where a line doesn't read, else 0. For `bench` it is 7 where a setting fails, else 0. For `roundtrip` it
/// is 0. For `audit` it is 8 likewise, 2 where the input lists no store, 10 where something is found in it, else 0. For
/// `compact` it is 8 likewise, 2 where the input lists no valid store or two lists of kept chunks that differ would
/// stand under one hash, else 0. For `mirror` it is 8 likewise, 2 where the input has no two stores that agree or no
/// list of files, else 2, with `verify`, where the target would get a xorb whose hash isn't its chunks', or 3 where
/// neither store has a listed file (one of the two where both are so), else 0. For `resume` it is 8 likewise, 2 where
/// the input is no document of a valid store, 3 where a range has a byte of the file, by the length in the words, and
/// the store has no such file, 9 where the store's file ends inside a part that is still to be fetched, or before it,
/// else 0. For `serve` it is 8 likewise, 2 where the first line of the input is no document of a valid store, 7 where a
/// setting fails, 11 where a line that is to be answered has more than 1,024 bytes, else 0.
pub fn answers_are_complete()
    ensures { AnswersAreComplete }
{}
