//! What `--help` and `--version` print.

/// What `--help` prints.
pub const HELP: &str = "\
Usage: overstore [--quiet] run full|delta < SCRIPT
       overstore load full|delta NUMBER COUNT
       overstore audit LIST [server]
       overstore tidy
       overstore --help | -h | --version | -V

Answers the script on standard input, one reply line for each command. In `full`
each file has a surface layer; in `delta` only where more users hold its key than
its list has.

  enrol USER                  adds a user: `ok EPOCH`
  create FILE LIST LENGTH     adds a file for the users of LIST, with so many bytes
                              and an LF behind the line: `ok EPOCH`
  grant USER FILE             adds the user to the file's list: `ok EPOCH`
  revoke USER FILE            takes the user off the file's list: `ok EPOCH`
  remove FILE                 removes the file, whose name is free again: `ok EPOCH`
  replace FILE LENGTH         gives the file new bytes, which follow as in `create`; its
                              list stays: `ok EPOCH`
  read USER FILE              gives a file: `data USER FILE LENGTH`, and its bytes
  list FILE                   gives the file's list: `list FILE LIST`
  epoch                       gives the epoch: `epoch EPOCH`

LIST is names with commas between them, or `-` for nobody.
Where a command isn't accepted the reply is `refused NUMBER REASON`. The masters
are read from `keys.hex` in this folder: two lines of 64 hexadecimal digits.

The store is in this folder too, in `store.book` and `store.blobs`; the first run
makes them. An update is on the disk before its `ok` is put, so that what was
answered outlasts a stop. What owner, server and readers sent each other in the last
run is in `trace.bin`.

`load` makes COUNT commands out of NUMBER, and eight enrolments before them, and
answers them in a script's place. It prints how many updates were accepted, how many
commands refused, files given and lists given, the epoch, and the SHA-256 of all
reply lines. NUMBER is below 18446744073709551616, COUNT is 1 to 20000.
Warning: `load` works on the store of this folder, where its users stay for good
and its files until they are removed. Run it in an empty folder.

`audit` prints which files the users of LIST could ever have read, had they saved
everything, a line `exposed NUMBER FILE CAUSE EPOCH` each, and `end epoch EPOCH`; with
`server`, which they could read with the help of the server. It changes nothing.

`tidy` writes a shorter store to `tidy.book` and `tidy.blobs` in this folder: without
the grants and revocations that undid each other, the bytes of files that are gone,
and the older format. It prints `tidy OLD NEW`, how many updates both stores have, and
`end epoch EPOCH`. It changes nothing of the store.

Where standard error is a terminal and standard output isn't, `run` counts there
the replies that were put, by thousands; with `--quiet` it doesn't. That word stands
before `run`, and nowhere else.

The last line of `run` is `end epoch EPOCH`, or `error ..` where the script could not be
answered to its end. Exit status: 0 answered, 2 words not known, 3 bad line,
4 disk failed, 5 read failed or no `keys.hex`, 6 write failed, 7 out of memory,
8 the store's files are damaged or no store, 9 they are of other keys or the other mode,
10 `keys.hex` is no key file, 11 script too long, 12 a file's tag is wrong,
14 `tidy.book` isn't empty.
";

/// What `--version` prints.
pub const VERSION: &str = "overstore 0.4.0\n";
