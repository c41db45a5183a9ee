// What a function's code does, and what its pieces do, wherever they stand. These hold of the definitions alone.

ghost use Rattle.std.specs.Prelude.{◌≡◌, ◌+◌, ◌++◌, length, map};
ghost use Rattle.linked_calls.specs.Below.{body_words, Fields, word_of};
ghost use Rattle.compilation.specs.Needs.{Needs};
ghost use Rattle.linked_calls.specs.Callable.{CallsAreLinked};
ghost use Rattle.linked_calls.specs.Cleared.{RegistersAreCleared};
ghost use Rattle.linked_calls.specs.Copies.{ArrayIsTaken, ArrayIsHandedBack, CopierCopies, CopiesAreShort};
ghost use Rattle.linked_calls.specs.FunctionCode.{function_words};
ghost use Rattle.linked_calls.specs.Sections.{code_of, CodeIsPlaced, enter_sections, last_sections, leave_sections};
ghost use Rattle.linked_calls.specs.Words.{ResultIsHandedBack, WordIsTaken};
ghost use Rattle.linked_calls.specs.Zeros.{FrameIsZeroed, RoomIsWiped};
ghost use Rattle.linked_calls.specs.declared.pace.Pace.{Pace};

/// The function of every compiled procedure, at either pace, can be called from wherever its words stand in code. From
/// each state in which it is called by the standard calling convention it goes back to its caller, in an exact number
/// of steps around those of its body. It leaves what the source means on the arguments: the result in a0 and the
/// elements of each `mut` array where its argument points. The registers that a caller may rely on are as they were,
/// the others and the room of the call are 0, and nothing else has changed. Its accesses stay in the room, the
/// arguments and the arrays, and none of the stack lies below the stack pointer as it is then. What the call shows is
/// one list for arguments that agree where they are public, whatever the secret ones are.
pub fn calls_are_linked()
    ensures { CallsAreLinked }
{}

/// The words of the sections' instructions, with the body's between them and those of the last behind them, are those
/// of the function, where the shared tail is no bytes ahead.
pub fn sections_are_the_function()
    ensures { (image : Fields) (needs : Needs) (pace : Pace)
        → map word_of (code_of image pace
        (length (body_words image.words) + length (code_of image pace 0 (leave_sections image pace)))
        (enter_sections image needs pace))
        ++ body_words image.words
        ++ map word_of (code_of image pace 0 (leave_sections image pace))
        ++ map word_of (code_of image pace 0 (last_sections image pace))
        ≡ function_words image needs pace 0 }
{}

/// How many instructions sections have does not hang on where the copier stands, and they hang on no more of it than
/// addresses do.
pub fn code_is_placed()
    ensures { CodeIsPlaced }
{}

/// The code that zeroes a frame whole before the body makes an exact number of steps, stores in the frame alone, never
/// below x2, and shows one list whatever the state holds; the frame is zeros behind it, x2 its base, and nothing else
/// but x5 has changed.
pub fn frame_is_zeroed()
    ensures { FrameIsZeroed }
{}

/// The code that takes an argument that is a word puts what the word means into its slot. What it shows is one list,
/// whatever the word.
pub fn word_is_taken()
    ensures { WordIsTaken }
{}

/// The code that takes an argument that points to an array puts what its elements mean into its slot. What it shows is
/// one list, and its number of steps one number, which frame, index, pace and pointer decide.
pub fn array_is_taken()
    ensures { ArrayIsTaken }
{}

/// The code that hands an array back puts the elements of its slot where the argument points.
pub fn array_is_handed_back()
    ensures { ArrayIsHandedBack }
{}

/// The copier, up to its jump back, copies so many rounds of bytes from where x5 is to where x6 is, by words where both
/// are multiples of 4. What it shows is one list, and its number of steps one number, which round and pointer decide.
pub fn copier_copies()
    ensures { CopierCopies }
{}

/// The code that copies elements, by a loop of its own or by a call, has at most 64 instructions, however many they
/// are.
pub fn copies_are_short()
    ensures { CopiesAreShort }
{}

/// The code that wipes the room of a call behind the body leaves zeros there, x2 behind it, and all else as it was.
pub fn room_is_wiped()
    ensures { RoomIsWiped }
{}

/// The code that hands a result back loads it into a0. What it shows is one list, whatever the result.
pub fn result_is_handed_back()
    ensures { ResultIsHandedBack }
{}

/// The code that clears the registers which a function may change leaves 0 in each, and changes nothing else.
pub fn registers_are_cleared()
    ensures { RegistersAreCleared }
{}
