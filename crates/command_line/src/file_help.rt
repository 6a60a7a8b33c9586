//! The texts of the second program's help.

/// The program in a sentence.
pub const ABOUT: &str =
    "Runs SQL over tables with a period of validity and a history, which stay in a file.";

/// The help of STORE.
pub const STORE_HELP: &str = "The file of the store, which is made where it is not there";

/// The help of FILE.
pub const FILE_HELP: &str =
    "The scripts, run in this order; without one, a session of standard input";

/// The help of `--stop`.
pub const STOP_HELP: &str = "Runs nothing after the first statement that is refused";

/// The help of `--now`.
pub const NOW_HELP: &str =
    "Moves the clock to the system's time before each statement but a query, if that is later";

/// The help of `--clock-ahead`.
pub const CLOCK_AHEAD_HELP: &str =
    "Runs with --now also if the store's clock is ahead of the system's time";

/// The help of `--tables`.
pub const TABLES_HELP: &str =
    "Lists the clock and the tables, with how many versions each has, and runs nothing";

/// The help of `--verify`.
pub const VERIFY_HELP: &str =
    "Counts the versions of each table, gives one sum of the whole history, and runs nothing";

/// The help of `--read-only`.
pub const READ_ONLY_HELP: &str = "Writes nothing: a statement that changes the store is refused";

/// The help of `--wait`.
pub const WAIT_HELP: &str =
    "Waits so many seconds, at most 86400, while another program has the store open";

/// Examples and exit statuses, below the help.
pub const AFTER_HELP: &str = "\
Examples:
  bitemporal_file pay.store monday.sql             runs a script over the store in pay.store
  bitemporal_file pay.store < tuesday.sql          runs each statement as it is read
  bitemporal_file pay.store --stop a.sql b.sql     ends at the first statement that is refused
  bitemporal_file pay.store --now < change.sql     records changes at the system's time
  bitemporal_file pay.store --tables               lists what is in it
  bitemporal_file pay.store --verify               counts and sums its versions
  bitemporal_file pay.store --backup monday.store  copies it into a new file, and runs nothing
  bitemporal_file pay.store --wait 60 night.sql    waits a minute for another program at most

The records of a statement are printed as soon as its change is in the file.

Copy a store by --backup, also while it is in use: STORE and the STORE-wal next to it belong
together. Remove STORE-wal before a copy is put in the place of STORE.

Two stores with equal histories have one sum, also where one is a copy or a restored dump. A sum is
no defence against forgery.

With --now an AT that is later than the system's time is refused with 13, as FOREVER is, and a store
whose clock is ahead of that time is not opened, unless --clock-ahead is given. Without --now AT
alone moves the clock, and changes are recorded at the moment of the last one.

Exit status:
  0  every statement was accepted
  1  a statement was refused
  2  the command line, a file, the store, a whole script or the output was refused, or memory was
  3  an audit found a fault in an answer, or was refused

`bitemporal --help` lists the refusals; docs/PROFILE.md says when each is given.";
