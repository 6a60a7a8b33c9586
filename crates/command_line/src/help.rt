//! The texts of the program's help, and its version.

/// The version that `--version` prints after the program's name.
pub const VERSION: &str = "0.1.0";

/// The program in a sentence, in its own help.
pub const ABOUT: &str =
    "Runs or checks SQL over tables with a period of validity and a history, and prints a report.";

/// The help of `run`.
pub const RUN_ABOUT: &str = "Runs the statements of a script in order, and prints what each gives.";

/// The help of `--audit`.
pub const AUDIT_HELP: &str = "Checks each answer day by day, and reports what that finds";

/// The help of `check`.
pub const CHECK_ABOUT: &str = "Checks the syntax of a script without running it.";

/// The help of FILE.
pub const FILE_HELP: &str = "The script; without it, standard input is read";

/// The calls of the program, first below its own help.
pub const EXAMPLES: &str = "\
Examples:
  bitemporal run examples/overview.sql
  bitemporal run --audit examples/overview.sql   checks each answer too, day by day
  bitemporal check examples/overview.sql         checks the syntax alone
  bitemporal run < examples/overview.sql         reads standard input";

/// The paragraph about the second program, below the examples.
pub const SECOND_PROGRAM: &str = "\
bitemporal_file, the second program, keeps its tables in a file, from one run to the next:
  bitemporal_file pay.store monday.sql           `bitemporal_file --help` says the rest";

/// The exit statuses of a check, below its help.
pub const CHECK_STATUSES: &str = "\
Exit status:
  0  every statement has the right syntax
  1  a statement is refused: by 10 to 14, or by 21 where it has more than 10,000 tokens
  2  the command line, the file, the whole script or the output was refused, or memory was

A refusal has a number and a name. docs/PROFILE.md lists them all.";

/// The exit statuses of a run, below its help and the program's own.
pub const RUN_STATUSES: &str = "\
Exit status:
  0  every statement was accepted
  1  a statement was refused
  2  the command line, the file, the whole script or the output was refused, or memory was
  3  an audit found a fault in an answer, or was refused

A refusal has a number and a name. docs/PROFILE.md lists them all.";

/// The refusals with their causes, a line each, below the statuses in the program's own help.
pub const REFUSALS: &str = "\
Refusals (this version does not give the one marked *):
   1 NotUtf8          the script is not UTF-8
   2 ScriptTooLarge   the script has more than 4,194,304 bytes
   3 BadToken         no token begins at the byte that is named, or a text begins and has no end
  10 Syntax           no statement of the grammar is spelled so
  11 TooDeep          more than 32 parentheses are open
  12 BadDate          a DATE names no day from 0001-01-01 to 9999-12-31
  13 BadMoment        a TIMESTAMP names no moment of these days, or the last one in AT or AS OF
  14 NumberRange      a number is outside 64 bits with a sign
  21 LimitReached     the statement or the tables are too large
  22 TableExists      CREATE TABLE names a table that is there
  23 UnknownTable     a table is named that is not there
  24 UnknownColumn    a column or a period is named that its table does not have
  25 AmbiguousColumn  a name matches more than one column
  26 DuplicateName    a name appears twice where it may appear once
  27 PeriodColumn     a period or system column is used as a value column
  28 BadDefinition    CREATE TABLE does not define a table with one key and both periods
  29 ColumnCount      a row has more or fewer values than columns, or two lists differ in length
  30 TypeMismatch     a value does not have the type of its column, or two types are compared
  31 TextTooLong      a text has more characters than its column takes
  40 MomentBack       AT names a moment before the clock
  41 EmptyPeriod      the start of a period is not before its end
  42 KeyOverlap       two rows have one key on one day
  43 PeriodReference  a child row has no parent row on some day
  60 BadStore         the database holds no store of this program *
  61 Memory           out of memory
  62 Store            the database refused for another cause";
