//! The help text.

/// The text of `--help`: the commands, each line of a script, an example with what it prints, and the statuses.
pub const HELP: &str = "\
Usage: piperun [--explain] [LIMIT ..] [FILE]
       piperun --check [--all] [--explain] [LIMIT ..] [FILE]
       piperun --live [--strict] [--explain] [LIMIT ..] [FILE]

Runs a script of pipe calls and prints a line for each reply. The script is
FILE, or standard input where there is none. LIMIT is one of these:

      --first-call N  the number of the first call that waits; else it is 1
      --file-max N    the most bytes of a file; else it is 16777216, the most
      --names-max N   the most names of files and FIFOs; else there is no limit
      --waiting-max N the most calls that wait; else there is no limit
      --waiting-of-each N
                      the most calls of one process that wait; else there is
                      no limit
      --capacity-max N
                      the most bytes that setsz gives a pipe; else it is
                      1048576, the most
      --descriptors-max N
                      the most descriptors of a process; else it is 256; at
                      most 65536
      --descriptions-max N
                      the most open file descriptions; else it is 4096; at
                      most 1048576
      --processes-max N
                      the most processes; else it is 1024; at most 65536
      --memory BYTES  the most bytes that the script, what it makes and its
                      output may take at once; a call that finds none prints
                      `nomem`, and changes nothing
      --spare-max BYTES
                      the most bytes of memory that are kept for further bytes
                      of pipes and files; else it is 16777216, or a sixteenth
                      of --memory where that is less

      --check         runs a record, and prints where the last reply isn't the
                      text of a comment `# => TEXT`: three lines, with the
                      number of the comment, that text and the reply
      --all           prints each such place, and not the first alone
      --live          answers each line as it comes, and holds no answer back
                      while it waits for more; a bad line is told, and
                      answered `bad line`, and the end tells how many there
                      were
      --strict        ends a live run at its first bad line
      --explain       tells of a bad line, on a second line, which word is wrong
                      and why: `line 2, word 3: an odd number of digits`
  -h, --help          this text
  -V, --version       the version

Each line of a script is one call, a question or a comment:

  start                              starts a process, of pid P
  P fork                             a child of P, with P's descriptors
  P exit                             ends P and closes its descriptors
  P pipe [nonblock]                  the read end and the write end of a pipe
  P mkfifo NAME                      a pipe with a name
  P open NAME MODE [FLAGS]           MODE: r w rw
                                     FLAGS: creat excl trunc append nonblock
  P unlink NAME                      takes a name away
  P read FD N                        at most N bytes
  P write FD BYTES
  P splice FD OFF FD OFF N [FLAGS]   moves at most N bytes from FD to FD
  P tee FD FD N [FLAGS]              copies them, from pipe to pipe
                                     FLAGS: move nonblock more gift
  P poll now FD:MASK ..              what each FD is ready for, of what is asked
  P poll wait FD:MASK ..             waits until one is
                                     MASK: in out err hup nval, or - for none
  P dup FD                           another descriptor for what FD names
  P dup2 FD FD                       the second FD for what the first names
  P dupfd FD N                       the least free descriptor from N on
  P close FD
  P lseek FD OFFSET WHENCE           WHENCE: set cur end
  P getfl FD                         the mode and the flags
  P setfl FD FLAGS                   sets append and nonblock; - for neither
  P getsz FD                         the capacity of a pipe
  P setsz FD N                       sets it to N bytes, rounded up
  resume C                           tries the parked call C again
  interrupt C                        ends the parked call C
  file NAME                          the bytes of the file NAME
  # WORDS                            a comment
  # => TEXT                            of a record: the last reply is TEXT
  # piperun --first-call N             of a record, as its first line: names
                                       its limits, also --file-max N,
                                       --names-max N, --waiting-max N,
                                       --capacity-max N,
                                       --descriptors-max N,
                                       --descriptions-max N,
                                       --processes-max N and
                                       --waiting-of-each N

BYTES is an even number of hexadecimal digits, N*hh for N times the byte hh, or
- for none. NAME is printable, with %hh for any other byte and for %, or - for
the empty one. OFF is an offset in a file, or - for its own and for a pipe.
FLAGS and MASK are joined by commas.

A script whose first line is `piperun 2` is of version 2. That line is no call,
and prints nothing. There a pipe has FLAGS, BYTES may be such pieces joined by
+, and replies show bytes so, with N*hh for four equal bytes or more:

  P pipe [FLAGS]                     FLAGS: nonblock direct
                                     direct makes a pipe of packets
  P write FD BYTES                   as 5*00+6869+3*0a

A call that would wait is parked: its reply is `parked` and its number C. For
example, this script prints what stands beside it:

  start            pid 1
  1 pipe           fds 0 1
  1 read 0 5       parked 1
  1 write 1 6869   count 2
  resume 1         data 6869

Status: 0; 1 where the script can't be read or the output can't be written; 2
for a bad command line; 3 for a bad line, or a script of more than 16777216
bytes; 4 where there is no memory; 5 where replies differ from a record, or
where it expects none.
";
