//! The numbers of the layer, for code. Contracts cite those of the definitions (`specs/Numbers.antt`), which these are.
ghost use Rattle.std.specs.Prelude.{◌≡◌};
ghost use Rattle.pl_model.specs.Numbers.{pipe_buf, first_capacity, least_capacity, most_capacity, open_max, most_descriptors, usual_descriptions, most_descriptions, usual_processes, most_processes, most_bytes, most_file_bytes, most_name_bytes, greatest_offset, most_script_bytes, most_reads, last_call, no_limit};

/// The most bytes of a write that goes in whole or not at all (POSIX.1-2017, limits.h; pipe(7), PIPE_BUF).
pub const PIPE_BUF: usize = 4_096;

/// The bytes that a new pipe can hold (pipe(7), Pipe capacity).
pub const FIRST_CAPACITY: usize = 65_536;

/// The fewest bytes that a pipe can be made to hold: a page (pipe(7), Pipe capacity; fcntl(2), F_SETPIPE_SZ).
pub const MIN_CAPACITY: u32 = 4_096;

/// The most bytes that a pipe can be made to hold (pipe(7), /proc/sys/fs/pipe-max-size).
pub const MAX_CAPACITY: u32 = 1_048_576;

/// The descriptors of a process, numbered from 0, if no limit is chosen (POSIX.1-2017, limits.h, OPEN_MAX).
pub const OPEN_MAX: usize = 256;

/// The greatest limit on the descriptors of a process.
pub const MAX_DESCRIPTORS: usize = 65_536;

/// The open file descriptions that may be live at one time, if no limit is chosen.
pub const USUAL_DESCRIPTIONS: usize = 4_096;

/// The greatest limit on the open file descriptions.
pub const MAX_DESCRIPTIONS: usize = 1_048_576;

/// The processes at one time, with pids from 1 on, if no limit is chosen.
pub const USUAL_PROCESSES: usize = 1_024;

/// The greatest limit on the processes.
pub const MAX_PROCESSES: usize = 65_536;

/// The most bytes of one write.
pub const MAX_BYTES: usize = 16_777_216;

/// The greatest limit on the bytes of a regular file.
pub const MAX_FILE_BYTES: u32 = 16_777_216;

/// The most bytes of a name (POSIX.1-2017, limits.h, NAME_MAX).
pub const MAX_NAME_BYTES: usize = 255;

/// The greatest offset of a description (POSIX.1-2017, lseek, EOVERFLOW).
pub const MAX_OFFSET: u64 = 9_223_372_036_854_775_807;

/// The most bytes of a script.
pub const MAX_SCRIPT_BYTES: usize = 16_777_216;

/// The most reads of a script: each but the last gives a byte at least.
pub const MAX_READS: u32 = 16_777_217;

/// The number that no parked call gets, above all that they get.
pub const LAST_CALL: u64 = u64::MAX;

/// A limit on names or on waiting calls that is never reached.
pub const NO_LIMIT: u64 = u64::MAX;

/// Each constant is the number of the definitions. It does nothing: its contract is what it is for.
pub fn are_those_of_the_definitions()
    ensures pipe_buf { PIPE_BUF ≡ pipe_buf }
    ensures first_capacity { FIRST_CAPACITY ≡ first_capacity }
    ensures least_capacity { MIN_CAPACITY ≡ least_capacity }
    ensures most_capacity { MAX_CAPACITY ≡ most_capacity }
    ensures open_max { OPEN_MAX ≡ open_max }
    ensures most_descriptors { MAX_DESCRIPTORS ≡ most_descriptors }
    ensures usual_descriptions { USUAL_DESCRIPTIONS ≡ usual_descriptions }
    ensures most_descriptions { MAX_DESCRIPTIONS ≡ most_descriptions }
    ensures usual_processes { USUAL_PROCESSES ≡ usual_processes }
    ensures most_processes { MAX_PROCESSES ≡ most_processes }
    ensures most_bytes { MAX_BYTES ≡ most_bytes }
    ensures most_file_bytes { MAX_FILE_BYTES ≡ most_file_bytes }
    ensures most_name_bytes { MAX_NAME_BYTES ≡ most_name_bytes }
    ensures greatest_offset { MAX_OFFSET ≡ greatest_offset }
    ensures most_script_bytes { MAX_SCRIPT_BYTES ≡ most_script_bytes }
    ensures most_reads { MAX_READS ≡ most_reads }
    ensures last_call { LAST_CALL ≡ last_call }
    ensures no_limit { NO_LIMIT ≡ no_limit }
{}
