//! Names of files and FIFOs, of which there are none at first but those that are taken away.
use super::{Row, Wanted};
use crate::ends::Answer::{Done, Exists, NoSuchName};
use crate::ends::Operation::{LookUp, MakeFifo, MakeFile, Unlink};

pub(super) const ROWS: &[Row] = &[
    (Unlink("fifo"), Done, Wanted::Same),
    (Unlink("file"), Done, Wanted::Same),
    (LookUp("b"), NoSuchName, Wanted::Same),
    (Unlink("b"), NoSuchName, Wanted::Same),
    (MakeFile("b"), Done, Wanted::Same),
    (MakeFile("b"), Exists, Wanted::Same),
    (LookUp("b"), Done, Wanted::Same),
    (LookUp(""), NoSuchName, Wanted::Same),
    (LookUp("bb"), NoSuchName, Wanted::Same),
    (MakeFile("bb"), Done, Wanted::Same),
    (MakeFile("a"), Done, Wanted::Same),
    (Unlink("b"), Done, Wanted::Same),
    (LookUp("b"), NoSuchName, Wanted::Same),
    (LookUp("bb"), Done, Wanted::Same),
    (LookUp("a"), Done, Wanted::Same),
    (Unlink("b"), NoSuchName, Wanted::Same),
    (MakeFile("b"), Done, Wanted::Same),
    (LookUp("b"), Done, Wanted::Same),
    // neither a file nor another FIFO is made where there is a FIFO
    (MakeFifo("g"), Done, Wanted::Same),
    (MakeFifo("g"), Exists, Wanted::Same),
    (MakeFile("g"), Exists, Wanted::Same),
    (LookUp("g"), Done, Wanted::Same),
    (Unlink("g"), Done, Wanted::Same),
    (LookUp("g"), NoSuchName, Wanted::Same),
    (MakeFifo("g"), Done, Wanted::Same),
    (LookUp("g"), Done, Wanted::Same),
];
