//! What the definitions answer in small examples. Each function does nothing: its contract is the example, computed.
ghost use Rattle.pl_model.specs.Worked.{BytesBeforeEndOfFile, PartialAndWholeNotWaiting, ReadOfNothing, WriteOfNothing, LastWriterCloses, SmallWriteAtItsBoundary, InterruptedLargeWrite, ParkedCallKeepsItsEnd, LastReaderLeaves, CallNumbersSpent, InterleavingWithALargeWrite, ThreeNamesOfOneWriteEnd, FlagsOfSharedDescriptions, FullTable, DescriptorsThatAreNotOpen, ExitDropsParkedCalls, TableOfWrites, ScriptOfBytesBeforeEndOfFile, ScriptOfFlags, EmptyScript, ScriptWithoutLineFeed, ScriptOfNoProcess};
ghost use Rattle.pl_model.specs.WorkedFiles.{EndOfAFile, BadNames, RefusalsOfAnOpen, FlagsOfAnOpen, AppendingAndSeeking, UnlinkedFileLivesOn, NamesKeepTheirFiles, PipesHaveNoOffset, ScriptOfFiles, NamesInWords};
ghost use Rattle.pl_model.specs.WorkedCapacity.{SizesAreRoundedUp, OnlyPipesHaveACapacity, CapacityIsRoom, WaitingWriteGetsRoom, ScriptOfCapacities, LinesOfCapacities};
ghost use Rattle.pl_model.specs.WorkedFifo.{UnusedFifoForgets, OpensWithoutTheOtherEnd, ReadersWaitForAWriter, InterruptedOpen, MetThoughClosed, LastOpenThatWaits, LinesOfFifos};
ghost use Rattle.pl_model.specs.WorkedLimits.{NamesUpToTheLimit, WaitingCallsUpToTheLimit, WaitingCallsOfEachUpToTheLimit, NoCallMayWait, CapacitiesUpToTheLimit, DescriptorsUpToTheLimit, DescriptorsAtTheEnds, DescriptionsUpToTheLimit, ProcessesUpToTheLimit, EntriesUpToTheLimit};
ghost use Rattle.pl_model.specs.WorkedPacketPipes.{SmallWritesStayApart, LongWriteIsCut, ReadDropsTheRest};
ghost use Rattle.pl_model.specs.WorkedPackets.{PacketsAreReadOneByOne, PacketPipeAtItsLimits, NoPacketIsEmpty, EndsOfAPacketPipe, InterruptedWriteOfPackets, OnlyPipeMakesPackets, PacketPipesAreNotSpliced, StatusFlagsInWords, LinesWithoutPackets};
ghost use Rattle.pl_model.specs.WorkedPoll.{PollsOfAPipe, EndsThatLeave, HangingUpAFifo, FilesAndBothEnds, PollsThatDontWait, PollsKeepTheirEnds, PollWithoutANumber, ScriptOfPolls, LinesOfPolls};
ghost use Rattle.pl_model.specs.WorkedSpliceLines.{LinesOfSplices};
ghost use Rattle.pl_model.specs.WorkedStream.{RunsInPieces};
ghost use Rattle.pl_model.specs.WorkedVersions.{PiecesOfBytes, BytesByRuns, LinesWithPackets, FirstLines, ScriptOfVersion2};
ghost use Rattle.pl_model.specs.WorkedWaking.{ReadGetsOn, SmallWriteGetsOn, LargeWriteGetsOn, PollGetsOn, OpenGetsOn, SpliceGetsOn, TeeGetsOn};
ghost use Rattle.pl_model.specs.WorkedTouching.{PipesAreTouched, FileIsTouched, FifoIsTouched};
ghost use Rattle.pl_model.specs.WorkedSplice.{SharedTail, BytesOfTheMoment, SpliceToAnOffset, SplicesAndTeesRefused, MovesThatWait, SplicesAtTheEndOfAFile, PiecesOfMoves};

use std::alloc::Allocator;

/// Steps and their replies.
pub fn steps<A: Allocator>()
    ensures bytes_before_end_of_file { BytesBeforeEndOfFile A }
    ensures partial_and_whole_not_waiting { PartialAndWholeNotWaiting A }
    ensures read_of_nothing { ReadOfNothing A }
    ensures write_of_nothing { WriteOfNothing A }
    ensures last_writer_closes { LastWriterCloses A }
{}

/// Calls that wait.
pub fn waiting<A: Allocator>()
    ensures small_write_at_its_boundary { SmallWriteAtItsBoundary A }
    ensures interrupted_large_write { InterruptedLargeWrite A }
    ensures parked_call_keeps_its_end { ParkedCallKeepsItsEnd A }
    ensures last_reader_leaves { LastReaderLeaves A }
    ensures call_numbers_spent { CallNumbersSpent A }
{}

/// Descriptions that several descriptors name, and processes that fork and exit.
pub fn sharing<A: Allocator>()
    ensures interleaving_with_a_large_write { InterleavingWithALargeWrite A }
    ensures three_names_of_one_write_end { ThreeNamesOfOneWriteEnd A }
    ensures flags_of_shared_descriptions { FlagsOfSharedDescriptions A }
    ensures full_table { FullTable A }
    ensures descriptors_that_are_not_open { DescriptorsThatAreNotOpen A }
    ensures exit_drops_parked_calls { ExitDropsParkedCalls A }
{}

/// Regular files and their names.
pub fn files<A: Allocator>()
    ensures end_of_a_file { EndOfAFile A }
    ensures bad_names { BadNames A }
    ensures refusals_of_an_open { RefusalsOfAnOpen A }
    ensures flags_of_an_open { FlagsOfAnOpen A }
    ensures appending_and_seeking { AppendingAndSeeking A }
    ensures unlinked_file_lives_on { UnlinkedFileLivesOn A }
    ensures names_keep_their_files { NamesKeepTheirFiles A }
    ensures pipes_have_no_offset { PipesHaveNoOffset A }
{}

/// How many bytes a pipe can hold.
pub fn capacities<A: Allocator>()
    ensures sizes_are_rounded_up { SizesAreRoundedUp A }
    ensures only_pipes_have_a_capacity { OnlyPipesHaveACapacity A }
    ensures capacity_is_room { CapacityIsRoom A }
    ensures waiting_write_gets_room { WaitingWriteGetsRoom A }
{}

/// What packet pipes hold after writes and reads.
pub fn packet_pipes()
    ensures small_writes_stay_apart { SmallWritesStayApart }
    ensures long_write_is_cut { LongWriteIsCut }
    ensures read_drops_the_rest { ReadDropsTheRest }
{}

/// FIFOs, their names and their ends.
pub fn fifos<A: Allocator>()
    ensures unused_fifo_forgets { UnusedFifoForgets A }
    ensures opens_without_the_other_end { OpensWithoutTheOtherEnd A }
    ensures readers_wait_for_a_writer { ReadersWaitForAWriter A }
    ensures interrupted_open { InterruptedOpen A }
    ensures met_though_closed { MetThoughClosed A }
    ensures last_open_that_waits { LastOpenThatWaits A }
{}

/// Splices and tees, and the pieces in which they carry bytes.
pub fn splices<A: Allocator>()
    ensures shared_tail { SharedTail A }
    ensures bytes_of_the_moment { BytesOfTheMoment A }
    ensures splice_to_an_offset { SpliceToAnOffset A }
    ensures splices_and_tees_refused { SplicesAndTeesRefused A }
    ensures moves_that_wait { MovesThatWait A }
    ensures splices_at_the_end_of_a_file { SplicesAtTheEndOfAFile A }
    ensures pieces { PiecesOfMoves A }
{}

/// Polls, at once and waiting.
pub fn polls<A: Allocator>()
    ensures polls_of_a_pipe { PollsOfAPipe A }
    ensures ends_that_leave { EndsThatLeave A }
    ensures hanging_up_a_fifo { HangingUpAFifo A }
    ensures files_and_both_ends { FilesAndBothEnds A }
    ensures polls_that_dont_wait { PollsThatDontWait A }
    ensures polls_keep_their_ends { PollsKeepTheirEnds A }
    ensures poll_without_a_number { PollWithoutANumber A }
{}

/// Which calls that wait can get on.
pub fn waking<A: Allocator>()
    ensures read { ReadGetsOn A }
    ensures small_write { SmallWriteGetsOn A }
    ensures large_write { LargeWriteGetsOn A }
    ensures poll { PollGetsOn A }
    ensures open { OpenGetsOn A }
    ensures splice { SpliceGetsOn A }
    ensures tee { TeeGetsOn A }
{}

/// Which pipes and files a step touches.
pub fn touching<A: Allocator>()
    ensures pipes { PipesAreTouched A }
    ensures file { FileIsTouched A }
    ensures fifo { FifoIsTouched A }
{}

/// Packet pipes.
pub fn packets<A: Allocator>()
    ensures packets_are_read_one_by_one { PacketsAreReadOneByOne A }
    ensures packet_pipe_at_its_limits { PacketPipeAtItsLimits A }
    ensures no_packet_is_empty { NoPacketIsEmpty A }
    ensures ends_of_a_packet_pipe { EndsOfAPacketPipe A }
    ensures interrupted_write_of_packets { InterruptedWriteOfPackets A }
    ensures only_pipe_makes_packets { OnlyPipeMakesPackets A }
    ensures packet_pipes_are_not_spliced { PacketPipesAreNotSpliced A }
{}

/// Calls at the limits that are chosen when a kernel is made.
pub fn limits<A: Allocator>()
    ensures names_up_to_the_limit { NamesUpToTheLimit A }
    ensures waiting_calls_up_to_the_limit { WaitingCallsUpToTheLimit A }
    ensures waiting_calls_of_each_up_to_the_limit { WaitingCallsOfEachUpToTheLimit A }
    ensures no_call_may_wait { NoCallMayWait A }
    ensures capacities_up_to_the_limit { CapacitiesUpToTheLimit A }
    ensures descriptors_up_to_the_limit { DescriptorsUpToTheLimit A }
    ensures descriptors_at_the_ends { DescriptorsAtTheEnds A }
    ensures descriptions_up_to_the_limit { DescriptionsUpToTheLimit A }
    ensures processes_up_to_the_limit { ProcessesUpToTheLimit A }
    ensures entries_up_to_the_limit { EntriesUpToTheLimit A }
{}

/// The pieces in which the bytes of small runs go through a pipe, and what becomes of a write.
pub fn pieces<A: Allocator>()
    ensures { RunsInPieces A }
{}

/// The table of writes at each of its rows.
pub fn writes()
    ensures { TableOfWrites }
{}

/// Scripts and what they print.
pub fn scripts<A: Allocator>()
    ensures bytes_before_end_of_file { ScriptOfBytesBeforeEndOfFile A }
    ensures flags { ScriptOfFlags A }
    ensures empty { EmptyScript A }
    ensures without_line_feed { ScriptWithoutLineFeed A }
    ensures no_process { ScriptOfNoProcess A }
    ensures files { ScriptOfFiles A }
    ensures names { NamesInWords }
    ensures capacities { ScriptOfCapacities A }
    ensures lines_of_capacities { LinesOfCapacities A }
    ensures lines_of_fifos { LinesOfFifos A }
    ensures lines_of_splices { LinesOfSplices A }
    ensures polls { ScriptOfPolls A }
    ensures lines_of_polls { LinesOfPolls A }
    ensures status_flags { StatusFlagsInWords }
    ensures lines_without_packets { LinesWithoutPackets A }
{}

/// What differs in version 2 of scripts.
pub fn versions<A: Allocator>()
    ensures pieces { PiecesOfBytes }
    ensures runs { BytesByRuns }
    ensures lines { LinesWithPackets A }
    ensures first_lines { FirstLines A }
    ensures script { ScriptOfVersion2 A }
{}
